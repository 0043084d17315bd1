//! Integer literals and their values: one of the forms at the front of a text (`front`).
//! Why: docs/DECISIONS.md, "Tokens".

ghost use Rattle.std.specs.Prelude.{◌≡◌, ◌≤◌, ◌+◌, ◌*◌, ◌^◌, ◌<◌, [], ◌∷◌};
ghost use Rattle.rgo_lexer.specs.Numbers.{begins_with_digit, may_occur, are_digits};
ghost use Rattle.rgo_lexer.specs.Numbers.{is_decimal, is_hexadecimal};
ghost use Rattle.rgo_lexer.specs.Numbers.{value_after, value_of, if_fits, literal_value, number_at};

use crate::bytes::run_len;
use crate::front::Front;
use crate::refusals::LexicalKind;
use crate::terminals::Terminal;

// The greatest `int`.
const GREATEST: u64 = i64::MAX as u64;

// Whether the text begins with a digit in the base.
fn begins_with_digit(text: &[u8], base: u32) -> bool
    requires low { 2 ≤ base }
    requires high { base ≤ 36 }
    ensures { result ≡ begins_with_digit base text.now }
{
    match text.first() {
        Some(b) => char::from(*b).is_digit(base),
        None => false,
    }
}

// Whether the byte is a digit, or a `_` with a digit after it.
fn may_occur(b: u8, after: &[u8], base: u32) -> bool
    requires low { 2 ≤ base }
    requires high { base ≤ 36 }
    ensures { result ≡ may_occur base b after.now }
{
    char::from(b).is_digit(base) || b == b'_' && begins_with_digit(after, base)
}

// Whether these are digits, each perhaps with one `_` before it.
fn are_digits(bytes: &[u8], base: u32) -> bool
    requires low { 2 ≤ base }
    requires high { base ≤ 36 }
    ensures { result ≡ are_digits base bytes.now }
{
    for (i, b) in bytes.iter().enumerate() {
        if !may_occur(*b, &bytes[i + 1..], base) {
            return false;
        }
    }
    true
}

// Whether the word is a decimal literal.
fn is_decimal(word: &[u8]) -> bool
    ensures { result ≡ is_decimal word.now }
{
    match word.split_first() {
        Some((first, rest)) => *first == b'0' && rest.is_empty()
            || matches!(*first, b'1'..=b'9') && are_digits(rest, 10),
        None => false,
    }
}

// Whether the word is a literal in base 16.
fn is_hexadecimal(word: &[u8]) -> bool
    ensures { result ≡ is_hexadecimal word.now }
{
    (word.starts_with(b"0x") || word.starts_with(b"0X"))
        && word.len() > 2
        && are_digits(&word[2..], 16)
}

// The number with one more digit appended; `None` if it exceeds the greatest `int`.
fn with_digit(number: u64, digit: u32, base: u32) -> Option<u64>
    ensures { result ≡ if_fits (number * base + digit) }
{
    let larger = number
        .checked_mul(u64::from(base))?
        .checked_add(u64::from(digit))?;
    if larger <= GREATEST {
        Some(larger)
    } else {
        None
    }
}

// The number with one more byte appended; a `_` changes nothing.
fn with_byte(number: u64, b: u8, base: u32) -> Option<u64>
    requires low { 2 ≤ base }
    requires high { base ≤ 36 }
    requires fits { number < 2 ^ 63 }
    ensures { result ≡ if_fits (value_after base number (b ∷ [])) }
{
    match char::from(b).to_digit(base) {
        Some(digit) => with_digit(number, digit, base),
        None => Some(number),
    }
}

// The value of the digits; `None` if it exceeds the greatest `int`.
fn value_of(digits: &[u8], base: u32) -> Option<u64>
    requires low { 2 ≤ base }
    requires high { base ≤ 36 }
    ensures { result ≡ if_fits (value_of base digits.now) }
{
    let mut number = 0;
    for b in digits {
        number = with_byte(number, *b, base)?;
    }
    Some(number)
}

// The value of an integer literal (The Go Programming Language Specification, "Integer literals"): a decimal literal, or one in base
// 16 with `0x` or `0X`, with an optional `_` before each digit. `None` if the word is not such a literal, or if its value exceeds
// 9223372036854775807, the greatest `int`.
#[tactic(auto, unfolding(crate::specs::Numbers::literal_value))]
fn number_value(word: &[u8]) -> Option<u64>
    ensures { result ≡ literal_value word.now }
{
    if is_decimal(word) {
        value_of(word, 10)
    } else if is_hexadecimal(word) {
        value_of(&word[2..], 16)
    } else {
        None
    }
}

/// The number at the front of a text that begins with a digit. It extends over all bytes that may occur in a word; if these are not a
/// literal as a whole, the error is at its first byte.
#[tactic(auto, unfolding(crate::specs::Numbers::number_at))]
pub(crate) fn number(text: &[u8]) -> Front
    ensures { result ≡ number_at text.now }
{
    let len = run_len(text);
    match number_value(&text[..len]) {
        Some(value) => Front::Piece(Terminal::Number(value), len),
        None => Front::Refused(LexicalKind::BadNumber, 0),
    }
}
