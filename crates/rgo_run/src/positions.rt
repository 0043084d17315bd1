//! The line and the column of a place, for the lines that [`crate::report`] writes. The compiler itself only uses byte offsets.
//! Why: docs/DECISIONS.md, "Texts and places".

ghost use Rattle.std.specs.Prelude.{◌≡◌, ◌≤◌, ◌<◌, ◌^◌, ◌==◌, length, count_by};
ghost use Rattle.std.specs.List.{suffix_len};
ghost use Rattle.rgo_run.specs.Positions.{position_of, is_in_line};

/// A line and a column of a text, both from 1. Columns are bytes.
#[derive(Clone, Copy, Debug, PartialEq, Eq)]
pub(crate) struct Position {
    pub line: usize,
    pub column: usize,
}

fn newlines(bytes: &[u8]) -> usize
    ensures value { result ≡ count_by (λ b. b == 10) bytes.now }
    ensures within { result ≤ length bytes.now }
{
    bytes.iter().filter(|b| **b == b'\n').count()
}

// The number of bytes after the last newline: the column, counted from 0, of a place after these bytes.
fn since_newline(bytes: &[u8]) -> usize
    ensures value { result ≡ suffix_len is_in_line bytes.now }
    ensures within { result ≤ length bytes.now }
{
    let mut count = 0;
    for b in bytes {
        if *b == b'\n' {
            count = 0;
        } else {
            count += 1;
        }
    }
    count
}

/// The line and the column of a place, which is an offset in bytes. A place after the end of the text has the position of the end.
pub(crate) fn position_of(text: &[u8], place: usize) -> Position
    requires { length text.now < 2 ^ 63 }
    ensures { result ≡ position_of text.now place }
{
    let before = &text[..place.min(text.len())];
    Position {
        line: 1 + newlines(before),
        column: 1 + since_newline(before),
    }
}
