//! String literals and their values: one of the forms at the front of a text (`front`). The inside of a string is a list of items, each
//! a plain byte or an escape. Why: docs/DECISIONS.md, "Tokens".

ghost use Rattle.std.specs.Prelude.{◌≡◌, ◌≤◌, ◌+◌, ◌<◌, ◌^◌, length, map, IfOk, IfSome};
ghost use Rattle.rgo_lexer.specs.Strings.{escaped, is_plain_byte, BeginsWithItem, items, items_len};
ghost use Rattle.rgo_lexer.specs.Strings.{item_value, string_of, string_at, string_before};

use crate::front::Front;
use crate::refusals::LexicalKind;
use crate::terminals::Terminal;
use std::alloc::{AllocError, Global};

// The value of an escape by its letter (The Go Programming Language Specification, "Rune literals").
fn escaped(letter: u8) -> Option<u8>
    ensures { result ≡ escaped letter }
{
    match letter {
        b'a' => Some(7),
        b'b' => Some(8),
        b'f' => Some(12),
        b'n' => Some(b'\n'),
        b'r' => Some(b'\r'),
        b't' => Some(b'\t'),
        b'v' => Some(11),
        b'\\' => Some(b'\\'),
        b'"' => Some(b'"'),
        _ => None,
    }
}

// Whether the byte is an item by itself, and its own value.
fn is_plain(b: u8) -> bool
    ensures { result ≡ is_plain_byte b }
{
    !matches!(b, b'"' | b'\\' | b'\n')
}

// The item at the front of a string's inside: its width and its value.
fn item(text: &[u8]) -> Option<(usize, u8)>
    ensures value { BeginsWithItem text.now result }
    ensures within { IfSome result (λ item. (0 < item.0) × (item.0 ≤ length text.now)) }
{
    let (first, rest) = text.split_first()?;
    if is_plain(*first) {
        return Some((1, *first));
    }
    if *first != b'\\' {
        return None;
    }
    let letter = rest.first()?;
    let byte = escaped(*letter)?;
    Some((2, byte))
}

// The number of bytes of all items at the front, up to a quote, a newline, a bad escape or the end.
fn items_len(text: &[u8]) -> usize
    ensures value { result ≡ items_len text.now }
    ensures within { result ≤ length text.now }
{
    let mut at = 0;
    while let Some((width, _)) = item(&text[at..]) {
        at += width;
    }
    at
}

// A string whose items have `len` bytes, by what follows them. A quote closes it. A backslash is a bad escape and is reported itself,
// unless it is the last byte of the text. In all other cases the string is open, and its first quote is reported.
fn string_before(len: usize, after: &[u8]) -> Front
    requires { len < 2 ^ 63 }
    ensures { result ≡ string_before len after.now }
{
    match after.split_first() {
        None => Front::Refused(LexicalKind::OpenString, 0),
        Some((b'"', _)) => Front::Piece(Terminal::Text, len + 2),
        Some((first, rest)) => if *first == b'\n' || rest.is_empty() {
            Front::Refused(LexicalKind::OpenString, 0)
        } else {
            Front::Refused(LexicalKind::BadEscape, len + 1)
        },
    }
}

/// The string at the front of a text that begins with a quote.
#[tactic(auto, unfolding(crate::specs::Strings::string_at))]
pub(crate) fn string(text: &[u8]) -> Front
    requires { 0 < length text.now }
    ensures { result ≡ string_at text.now }
{
    let len = items_len(&text[1..]);
    string_before(len, &text[len + 1..])
}

// The values of the items at the front.
fn item_values(alloc: Global, text: &[u8]) -> Result<Vec<u8>, AllocError>
    ensures { IfOk result (λ values. values.items ≡ map item_value (items text.now)) }
{
    let mut values = Vec::new(alloc);
    let mut at = 0;
    while let Some((width, byte)) = item(&text[at..]) {
        values.push(byte)?;
        at += width;
    }
    Ok(values)
}

/// The value of a string literal, in bytes (The Go Programming Language Specification, "String literals"). The parser calls it for
/// words that `lex` has accepted as strings; from any other word it drops a byte and evaluates the items that follow.
#[tactic(auto, unfolding(crate::specs::Strings::string_of))]
pub fn unquoted(alloc: Global, literal: &[u8]) -> Result<Vec<u8>, AllocError>
    ensures { IfOk result (λ value. value.items ≡ string_of literal.now) }
{
    match literal.split_first() {
        Some((_, inside)) => item_values(alloc, inside),
        None => Ok(Vec::new(alloc)),
    }
}
