//! Lines, cut into words.

ghost use Rattle.std.specs.Prelude.{◌≡◌, ◌==◌, ◌≤◌, IfOk, length};
ghost use Rattle.std.specs.List.{position_or_len};
ghost use Rattle.rgo_code_words.specs.Cuts as spec;
ghost use Rattle.rgo_code_words.specs.Cuts.{nows};

use std::alloc::{AllocError, Global};

/// How many bytes are before the first such byte, or in all if there is none.
pub fn len_to(bytes: &[u8], byte: u8) -> usize
    ensures len { result ≡ position_or_len (λ b. b == byte) bytes.now }
    ensures within { result ≤ length bytes.now }
{
    bytes.iter().take_while(|b| **b != byte).count()
}

/// A line, cut at its first `n` spaces. The last word is the rest of the line, which may contain further spaces: a string may, and
/// a list of fields does.
pub fn cut(alloc: Global, line: &[u8], n: usize) -> Result<Vec<&[u8]>, AllocError>
    ensures { IfOk result (λ words. nows words.items ≡ spec.cut_line n line.now) }
{
    let mut words = Vec::new(alloc);
    let mut at = 0;
    let mut left = n;
    'words: loop {
        let rest = &line[at..];
        if left == 0 {
            words.push(rest)?;
            return Ok(words);
        }
        let len = len_to(rest, b' ');
        if len == rest.len() {
            words.push(rest)?;
            return Ok(words);
        }
        words.push(&rest[..len])?;
        at = at + len + 1;
        left = left - 1;
    }
}

/// The word of this number; empty if there is none.
pub fn word_at<'t>(words: &[&'t [u8]], n: usize) -> &'t [u8]
    ensures { result.now ≡ spec.nth_word (nows words.now) n }
{
    match words.get(n) {
        Some(word) => *word,
        None => &[],
    }
}
