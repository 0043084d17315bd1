//! Lists in a code text, as they are read.

ghost use Rattle.std.specs.Prelude.{◌≡◌, ◌∷◌, [], IfOk};
ghost use Rattle.rgo_code_words.specs.Readers as spec;
ghost use Rattle.rgo_code_words.specs.Readers.{read_list, read_lettered, read_class, read_regions, read_passes};

use crate::cuts::len_to;
use crate::words::{class, lettered};
use rgo_tac::Class;
use rgo_typed::Row;
use std::alloc::{AllocError, Global};

/// What is between a front and a last byte.
pub fn inside<'t>(word: &'t [u8], front: &[u8], last: u8) -> Option<&'t [u8]>
    ensures { spec.bytes_now result ≡ spec.bytes_inside front.now last word.now }
{
    if word.len() <= front.len() || !word.starts_with(front) || word[word.len() - 1] != last {
        return None;
    }
    Some(&word[front.len()..word.len() - 1])
}

/// Numbers after a letter, with commas between them, at least one.
fn some_numbers(alloc: Global, list: &[u8], letter: u8) -> Result<Option<Row<u32>>, AllocError>
    ensures { IfOk result (λ r. r ≡ spec.read_some (read_lettered letter) list.now) }
{
    let mut numbers = Vec::new(alloc);
    let mut at = 0;
    'words: loop {
        let rest = &list[at..];
        let len = len_to(rest, b',');
        match lettered(&rest[..len], letter) {
            Some(n) => numbers.push(n)?,
            None => return Ok(None),
        }
        if len == rest.len() {
            return Ok(Some(Row::new(numbers)));
        }
        at = at + len + 1;
    }
}

/// Numbers after a letter, with commas between them.
pub fn numbers(alloc: Global, list: &[u8], letter: u8) -> Result<Option<Row<u32>>, AllocError>
    ensures { IfOk result (λ r. r ≡ read_list (read_lettered letter) list.now) }
{
    if list.is_empty() {
        return Ok(Some(Row::new(Vec::new(alloc))));
    }
    some_numbers(alloc, list, letter)
}

/// Lists that do not ascend are refused, so that a set of names has one text.
fn is_ascending(numbers: &[u32]) -> bool
    ensures { result ≡ spec.is_ascending numbers.now }
{
    for i in 1..numbers.len() {
        if numbers[i] <= numbers[i - 1] {
            return false;
        }
    }
    true
}

/// Names of regions in brackets.
pub fn regions(alloc: Global, word: &[u8], sign: u8) -> Result<Option<Row<u32>>, AllocError>
    ensures { IfOk result (λ r. r ≡ read_regions sign word.now) }
{
    let front = [sign, b'['];
    let Some(list) = inside(word, &front, b']') else {
        return Ok(None);
    };
    let Some(names) = numbers(alloc, list, b'r')? else {
        return Ok(None);
    };
    if is_ascending(names.items()) {
        Ok(Some(names))
    } else {
        Ok(None)
    }
}

/// The names that are removed, as `-[r0,r1]`.
pub fn removes(alloc: Global, word: &[u8]) -> Result<Option<Row<u32>>, AllocError>
    ensures { IfOk result (λ r. r ≡ read_regions 45 word.now) }
{
    regions(alloc, word, b'-')
}

/// Classes with commas between them, at least one.
fn some_classes(alloc: Global, list: &[u8]) -> Result<Option<Row<Class>>, AllocError>
    ensures { IfOk result (λ r. r ≡ spec.read_some read_class list.now) }
{
    let mut classes = Vec::new(alloc);
    let mut at = 0;
    'words: loop {
        let rest = &list[at..];
        let len = len_to(rest, b',');
        match class(&rest[..len]) {
            Some(c) => classes.push(c)?,
            None => return Ok(None),
        }
        if len == rest.len() {
            return Ok(Some(Row::new(classes)));
        }
        at = at + len + 1;
    }
}

/// Classes in brackets.
pub fn passes(alloc: Global, word: &[u8]) -> Result<Option<Row<Class>>, AllocError>
    ensures { IfOk result (λ r. r ≡ read_passes word.now) }
{
    let Some(list) = inside(word, b"R[", b']') else {
        return Ok(None);
    };
    if list.is_empty() {
        return Ok(Some(Row::new(Vec::new(alloc))));
    }
    some_classes(alloc, list)
}
