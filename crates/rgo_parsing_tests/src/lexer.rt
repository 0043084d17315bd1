//! Texts with their lexemes or their refusals, worked out by hand from Go's lexical rules.

mod refusals;
mod terminals;
mod tokens;

use crate::checks::same;
use rgo_lexer::{LexError, Lexeme, LexicalKind, Terminal, lex, unquoted};
use std::alloc::Global;
use std::process::Abort;
use std::test::Fail;

fn is_keyword(word: &[u8]) -> bool {
    match word.first() {
        Some(byte) => byte.is_ascii_lowercase(),
        None => false,
    }
}

/// The kind of a lexeme as the tables write it.
fn letter(lexeme: &Lexeme<'_>) -> &'static str {
    match lexeme.terminal {
        Terminal::Name | Terminal::Main | Terminal::New | Terminal::Make => "w:",
        Terminal::Number(_) => "n:",
        Terminal::Text => "t:",
        Terminal::Semicolon if lexeme.word.is_empty() => "~",
        _ if is_keyword(lexeme.word) => "k:",
        _ => "o:",
    }
}

fn shown_lexemes(alloc: Global, lexemes: &[Lexeme<'_>]) -> Result<String, Fail> {
    let mut line = String::new(alloc);
    for lexeme in lexemes {
        let space = if line.is_empty() { "" } else { " " };
        let word = std::str::from_utf8(lexeme.word).unwrap_or("?");
        line = format!(in alloc; "{line}{space}{}{word}", letter(lexeme))?;
    }
    Ok(line)
}

fn shown(alloc: Global, text: &[u8]) -> Result<String, Fail> {
    match lex(alloc, text) {
        Ok(lexemes) => shown_lexemes(alloc, &lexemes),
        Err(LexError::Refused(refusal)) => Ok(format!(in alloc;
            "{}@{}",
            refusal.kind.number(),
            refusal.at
        )?),
        Err(LexError::NoMemory) => Err(Fail::from("out of memory")),
    }
}

fn are_read<R: Abort + AllocGlobal>(rt: &R, texts: &[(&[u8], &str)]) -> Result<(), Fail> {
    for (text, wanted) in texts {
        let line = shown(rt.alloc(), text)?;
        same(rt, wanted, &line.as_str(), wanted);
    }
    Ok(())
}

#[test]
fn texts_have_their_lexemes(rt: HostRuntime) -> Result<(), Fail> {
    are_read(&rt, &tokens::SEPARATORS)?;
    are_read(&rt, &tokens::WORDS)?;
    are_read(&rt, &tokens::OPERATORS)?;
    are_read(&rt, &tokens::SEMICOLONS)?;
    are_read(&rt, &tokens::COMMENTS)?;
    are_read(&rt, &tokens::NUMBERS)?;
    are_read(&rt, &tokens::STRINGS)
}

#[test]
fn texts_have_their_refusals(rt: HostRuntime) -> Result<(), Fail> {
    are_read(&rt, &refusals::BAD_UTF8)?;
    are_read(&rt, &refusals::BAD_BYTES)?;
    are_read(&rt, &refusals::BAD_NUMBERS)?;
    are_read(&rt, &refusals::BAD_STRINGS)?;
    are_read(&rt, &refusals::OPEN_COMMENTS)?;
    are_read(&rt, &refusals::FIRST)
}

static KINDS: [(LexicalKind, u8, &str); 6] = [
    (LexicalKind::BadUtf8, 1, "BadUtf8"),
    (LexicalKind::BadByte, 2, "BadByte"),
    (LexicalKind::BadNumber, 3, "BadNumber"),
    (LexicalKind::BadEscape, 4, "BadEscape"),
    (LexicalKind::OpenString, 5, "OpenString"),
    (LexicalKind::OpenComment, 6, "OpenComment"),
];

#[test]
fn kinds_of_refusal_have_their_numbers_and_names(rt: HostRuntime) {
    for (kind, number, name) in &KINDS {
        same(&rt, name, &kind.number(), number);
        same(&rt, name, &kind.name(), name);
    }
}

fn terminals_of(alloc: Global, text: &[u8]) -> Result<Vec<Terminal>, Fail> {
    let mut terminals = Vec::new(alloc);
    for lexeme in &lex(alloc, text)? {
        terminals.push(lexeme.terminal)?;
    }
    Ok(terminals)
}

fn have_terminals<R: Abort + AllocGlobal>(
    rt: &R,
    texts: &[(&[u8], &[Terminal])],
) -> Result<(), Fail> {
    for (text, wanted) in texts {
        let terminals = terminals_of(rt.alloc(), text)?;
        same(rt, "a text", &terminals.as_slice(), wanted);
    }
    Ok(())
}

#[test]
fn lexemes_have_their_terminals(rt: HostRuntime) -> Result<(), Fail> {
    have_terminals(&rt, &terminals::WORDS)?;
    have_terminals(&rt, &terminals::PACKAGE_NAMES)?;
    have_terminals(&rt, &terminals::LITERALS)?;
    have_terminals(&rt, &terminals::OPERATORS)?;
    have_terminals(&rt, &terminals::OTHERS)
}

/// The pieces of a text: what separates a lexeme from the one before it, and its bytes. Those of a `;` that is put in at the end of a
/// line are none.
static PLACED: [(&[u8], &[u8]); 6] = [
    (b"\xEF\xBB\xBF ", b"x"),
    (b"", b""),
    (b"\n  ", b"main"),
    (b" ", b"<-"),
    (b"", b"\"a\""),
    (b"", b""),
];

/// Whether a lexeme is at this place and has these bytes.
fn is_placed(lexeme: &Lexeme<'_>, at: usize, word: &[u8]) -> bool {
    lexeme.at == at && lexeme.word == word
}

/// The text of the pieces before the one of this number, with the separator before that.
fn text_before(alloc: Global, count: usize) -> Result<Vec<u8>, Fail> {
    let mut text = Vec::new(alloc);
    for (k, (separator, word)) in PLACED.iter().enumerate() {
        if k <= count {
            text.extend_from_slice(separator)?;
        }
        if k < count {
            text.extend_from_slice(word)?;
        }
    }
    Ok(text)
}

#[test]
fn lexemes_have_their_places_and_words(rt: HostRuntime) -> Result<(), Fail> {
    let text = text_before(rt.alloc(), PLACED.len())?;
    let lexemes = lex(rt.alloc(), &text)?;
    same(&rt, "all", &lexemes.len(), &PLACED.len());
    for (k, (_, word)) in PLACED.iter().enumerate() {
        let at = text_before(rt.alloc(), k)?.len();
        let found = match lexemes.get(k) {
            Some(lexeme) => is_placed(lexeme, at, word),
            None => false,
        };
        same(&rt, "a lexeme", &found, &true);
    }
    Ok(())
}

/// The value of the number with which a text begins, if it begins with one.
fn number_of(alloc: Global, text: &str) -> Option<u64> {
    let Ok(lexemes) = lex(alloc, text.as_bytes()) else {
        return None;
    };
    match lexemes.first()?.terminal {
        Terminal::Number(value) => Some(value),
        _ => None,
    }
}

static NUMBERS: [(&str, Option<u64>); 14] = [
    ("0", Some(0)),
    ("42", Some(42)),
    ("1_000", Some(1000)),
    ("0x1F", Some(31)),
    ("0X_a_B", Some(171)),
    ("9223372036854775807", Some(9_223_372_036_854_775_807)),
    ("0x7fffffffffffffff", Some(9_223_372_036_854_775_807)),
    ("9223372036854775808", None),
    ("0x8000000000000000", None),
    ("", None),
    ("01", None),
    ("0x", None),
    ("1_", None),
    ("a", None),
];

#[test]
fn numbers_have_their_values(rt: HostRuntime) {
    for (word, wanted) in &NUMBERS {
        same(&rt, word, &number_of(rt.alloc(), word), wanted);
    }
}

#[test]
fn strings_have_their_values(rt: HostRuntime) -> Result<(), Fail> {
    let literal = b"\"hi\xC3\xA9\\a\\b\\f\\n\\r\\t\\v\\\\\\\"\"".as_slice();
    let value = unquoted(rt.alloc(), literal)?;
    let wanted = b"hi\xC3\xA9\x07\x08\x0C\n\r\t\x0B\\\"".as_slice();
    same(&rt, "a string", &value.as_slice(), &wanted);
    Ok(())
}
