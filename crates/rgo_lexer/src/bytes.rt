//! The classes of bytes that the forms of tokens and separators are made of. Every module of a form uses them.

ghost use Rattle.std.specs.Prelude.{◌≡◌, ◌≤◌, length};
ghost use Rattle.std.specs.List.{prefix_len};
ghost use Rattle.rgo_lexer.specs.Bytes as bytes;

/// Whether the byte is white space within a line. A newline is not one: it may insert a `;`.
pub(crate) fn is_blank(b: u8) -> bool
    ensures { result ≡ bytes.is_blank b }
{
    matches!(b, b' ' | b'\t' | b'\r')
}

/// Whether the byte is a decimal digit.
pub(crate) fn is_digit(b: u8) -> bool
    ensures { result ≡ bytes.is_digit b }
{
    b.is_ascii_digit()
}

/// Whether the byte is a letter or `_`.
pub(crate) fn is_letter(b: u8) -> bool
    ensures { result ≡ bytes.is_letter b }
{
    b.is_ascii_alphabetic() || b == b'_'
}

/// Whether the byte may occur in a word.
pub(crate) fn is_word_byte(b: u8) -> bool
    ensures { result ≡ bytes.is_word_byte b }
{
    is_letter(b) || is_digit(b)
}

/// The number of bytes at the front that may occur in a word. Words and numbers both end here, so `1x` is one malformed number and
/// not a number and a name.
pub(crate) fn run_len(text: &[u8]) -> usize
    ensures value { result ≡ prefix_len bytes.is_word_byte text.now }
    ensures within { result ≤ length text.now }
{
    text.iter().take_while(|b| is_word_byte(**b)).count()
}
