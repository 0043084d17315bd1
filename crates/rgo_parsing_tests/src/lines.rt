//! Command lines as lists of words.

use std::alloc::{AllocError, Global};

/// The words of a line in which one `separator` separates two words.
pub(crate) fn words_of(
    alloc: Global,
    line: &str,
    separator: char,
) -> Result<Vec<String>, AllocError> {
    let mut words = Vec::new(alloc);
    for word in line.split(separator) {
        words.push(String::from_str(alloc, word)?)?;
    }
    Ok(words)
}
