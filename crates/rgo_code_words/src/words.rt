//! Words of a code text, as they are read: each exactly as it would be printed, so that code has one text. The parser of std
//! takes more, such as leading zeros and a sign; what it returns is printed again and compared.

ghost use Rattle.std.specs.Prelude.{◌≡◌, ◌<◌, ◌^◌, ℕ, ℤ, Some, decimal};
ghost use Rattle.std.specs.Fmt.{signed_decimal};
ghost use Rattle.std.specs.List.{list_all};
ghost use Rattle.std.specs.Str.{bytes_eq};
ghost use Rattle.rgo_code_words.specs.Readers.{read_number, read_int, read_lettered, read_variable, read_value};
ghost use Rattle.rgo_code_words.specs.Readers.{read_truth, read_class, read_operator};
ghost use Rattle.rgo_code_words.specs.Worded as spec;
ghost use Rattle.rgo_code_words.specs.Worded.{IntFits};

use itoa::Buffer;
use rgo_ast::BinaryOp;
use rgo_tac::Class;
use std::str;

/// The keywords of Go.
const KEYWORDS: [&[u8]; 25] = [
    b"break",
    b"case",
    b"chan",
    b"const",
    b"continue",
    b"default",
    b"defer",
    b"else",
    b"fallthrough",
    b"for",
    b"func",
    b"go",
    b"goto",
    b"if",
    b"import",
    b"interface",
    b"map",
    b"package",
    b"range",
    b"return",
    b"select",
    b"struct",
    b"switch",
    b"type",
    b"var",
];

/// Whether a word is this text.
pub fn is(word: &[u8], text: &str) -> bool
    ensures { result ≡ bytes_eq word.now text.now }
{
    word == text.as_bytes()
}

fn is_letter(b: u8) -> bool
    ensures { result ≡ spec.is_code_letter b }
{
    b.is_ascii_alphabetic() || b == b'_'
}

fn is_word_byte(b: u8) -> bool
    ensures { result ≡ spec.is_code_word_byte b }
{
    is_letter(b) || b.is_ascii_digit()
}

fn are_word_bytes(bytes: &[u8]) -> bool
    ensures { result ≡ list_all spec.is_code_word_byte bytes.now }
{
    bytes.iter().all(|b| is_word_byte(*b))
}

fn is_word(bytes: &[u8]) -> bool
    ensures { result ≡ spec.is_word bytes.now }
{
    match bytes.split_first() {
        Some((first, rest)) => is_letter(*first) && are_word_bytes(rest),
        None => false,
    }
}

#[tactic(auto, unfolding(crate::specs::Worded::is_name))]
/// Whether these bytes are a name.
pub fn is_name(bytes: &[u8]) -> bool
    ensures { result ≡ spec.is_name bytes.now }
{
    is_word(bytes) && !KEYWORDS.contains(&bytes)
}

/// Whether a number is printed as the word.
fn is_number(word: &[u8], n: u32) -> bool
    ensures { result ≡ bytes_eq (decimal n) word.now }
{
    let mut buffer = Buffer::new();
    buffer.format(n).as_bytes() == word
}

fn is_int(word: &[u8], n: i64) -> bool
    ensures { result ≡ bytes_eq (signed_decimal n) word.now }
{
    let mut buffer = Buffer::new();
    buffer.format(n).as_bytes() == word
}

fn parsed_number(text: &str) -> Option<u32>
    ensures { (k : ℕ) → k < 2 ^ 32 → text.now ≡ decimal k → result ≡ Some k }
{
    match text.parse::<u32>() {
        Ok(n) => Some(n),
        Err(_) => None,
    }
}

#[tactic(auto, using(crate::proofs::Numerals::number_here, crate::proofs::Numerals::number_elsewhere, crate::proofs::Numerals::number_nowhere))]
/// The number, if it is printed as the word.
fn checked_number(word: &[u8], n: Option<u32>) -> Option<u32>
    requires { (k : ℕ) → k < 2 ^ 32 → word.now ≡ decimal k → n ≡ Some k }
    ensures { result ≡ read_number word.now }
{
    match n {
        Some(n) => { if is_number(word, n) { Some(n) } else { None } }
        None => None,
    }
}

#[tactic(auto, using(crate::proofs::Numerals::number_is_text))]
/// The number of 32 bits that is printed as the word.
pub fn number(word: &[u8]) -> Option<u32>
    ensures { result ≡ read_number word.now }
{
    match str::from_utf8(word) {
        Ok(text) => checked_number(word, parsed_number(text)),
        Err(_) => None,
    }
}

fn parsed_int(text: &str) -> Option<i64>
    ensures { (k : ℤ) → IntFits k → text.now ≡ signed_decimal k → result ≡ Some k }
{
    match text.parse::<i64>() {
        Ok(n) => Some(n),
        Err(_) => None,
    }
}

/// The integer, if it is printed as the word.
fn checked_int(word: &[u8], n: Option<i64>) -> Option<i64>
    requires { (k : ℤ) → IntFits k → word.now ≡ signed_decimal k → n ≡ Some k }
    ensures { result ≡ read_int word.now }
{
    match n {
        Some(n) => { if is_int(word, n) { Some(n) } else { None } }
        None => None,
    }
}

#[tactic(auto, using(crate::proofs::Integers::int_is_text))]
/// The integer of 64 bits that is printed as the word.
pub fn int(word: &[u8]) -> Option<i64>
    ensures { result ≡ read_int word.now }
{
    match str::from_utf8(word) {
        Ok(text) => checked_int(word, parsed_int(text)),
        Err(_) => None,
    }
}

/// A number after a letter.
pub fn lettered(word: &[u8], letter: u8) -> Option<u32>
    ensures { result ≡ read_lettered letter word.now }
{
    match word.split_first() {
        Some((first, rest)) if *first == letter => number(rest),
        _ => None,
    }
}

/// A variable, as `v0`.
pub fn variable(word: &[u8]) -> Option<u32>
    ensures { result ≡ read_variable word.now }
{
    lettered(word, b'v')
}

/// The variable of a call's result, or of a returned value, if there is one.
pub fn value(word: &[u8]) -> Option<Option<u32>>
    ensures { result ≡ read_value word.now }
{
    if is(word, "-") {
        return Some(None);
    }
    match variable(word) {
        Some(v) => Some(Some(v)),
        None => None,
    }
}

/// `true` or `false`.
pub fn truth(word: &[u8]) -> Option<bool>
    ensures { result ≡ read_truth word.now }
{
    if is(word, "true") {
        Some(true)
    } else if is(word, "false") {
        Some(false)
    } else {
        None
    }
}

/// A class: a name of a region, as `r0`, `G` for Global, or `-` for none.
pub fn class(word: &[u8]) -> Option<Class>
    ensures { result ≡ read_class word.now }
{
    if is(word, "-") {
        Some(Class::NoClass)
    } else if is(word, "G") {
        Some(Class::Global)
    } else {
        match lettered(word, b'r') {
            Some(k) => Some(Class::Name(k)),
            None => None,
        }
    }
}

/// An operator of three-address code.
pub fn operator(word: &[u8]) -> Option<BinaryOp>
    ensures { result ≡ read_operator word.now }
{
    if is(word, "mul") {
        Some(BinaryOp::Mul)
    } else if is(word, "div") {
        Some(BinaryOp::Div)
    } else if is(word, "rem") {
        Some(BinaryOp::Rem)
    } else if is(word, "add") {
        Some(BinaryOp::Add)
    } else if is(word, "sub") {
        Some(BinaryOp::Sub)
    } else if is(word, "eq") {
        Some(BinaryOp::Eq)
    } else if is(word, "ne") {
        Some(BinaryOp::Ne)
    } else if is(word, "lt") {
        Some(BinaryOp::Lt)
    } else if is(word, "le") {
        Some(BinaryOp::Le)
    } else if is(word, "gt") {
        Some(BinaryOp::Gt)
    } else if is(word, "ge") {
        Some(BinaryOp::Ge)
    } else {
        None
    }
}
