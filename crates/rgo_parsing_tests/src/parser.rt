//! Texts with the lexeme at which they are rejected. The marks come from two parsers outside this repository, one that follows the
//! grammar as it is written, and one that is driven by its table.

mod marked;
mod nested;

use crate::checks::same;
use nested::Row;
use rgo_ast::Program;
use rgo_lexer::lex;
use rgo_parser::{ParseError, ParseRefusal, parse};
use std::alloc::{AllocError, AllocFailed, Global};
use std::test::Fail;

/// The text before the body of `main`.
const BEFORE: &str = "package main; func main() { ";

/// The program of a text, or its refusal.
fn parsed(alloc: Global, text: &[u8]) -> Result<Result<Program, ParseRefusal>, Fail> {
    let lexemes = lex(alloc, text)?;
    match parse(alloc, text.len(), &lexemes) {
        Ok(program) => Ok(Ok(program)),
        Err(ParseError::Refused(refusal)) => Ok(Err(refusal)),
        Err(ParseError::NoMemory) => Err(Fail::from("out of memory")),
    }
}

/// Appends a marked text without its mark, and returns the place of the mark, which is beyond the
/// text if its end is refused.
fn unmarked(text: &mut Vec<u8>, marked: &str) -> Result<Option<usize>, AllocFailed<u8>> {
    let mut mark = None;
    for byte in marked.bytes() {
        match byte {
            b'@' => mark = Some(text.len()),
            b'$' => mark = Some(usize::MAX),
            b'~' => text.push(b'\n')?,
            _ => text.push(byte)?,
        }
    }
    Ok(mark)
}

/// Whether the lexeme with this number is the first at the place or after it. The number of all lexemes means the end.
fn is_first_at(alloc: Global, text: &[u8], number: usize, place: usize) -> Result<bool, Fail> {
    let lexemes = lex(alloc, text)?;
    let found = lexemes.iter().position(|lexeme| lexeme.at >= place);
    Ok(number == found.unwrap_or(lexemes.len()))
}

/// Whether a marked text between two others is rejected at its mark, or is a program if it has none.
fn is_refused_at_its_mark(
    alloc: Global,
    before: &str,
    marked: &str,
    after: &str,
) -> Result<bool, Fail> {
    let mut text = Vec::new(alloc);
    text.extend_from_slice(before.as_bytes())?;
    let mark = unmarked(&mut text, marked)?;
    text.extend_from_slice(after.as_bytes())?;
    match (parsed(alloc, &text)?, mark) {
        (Ok(_), None) => Ok(true),
        (Err(ParseRefusal::Syntax { at }), Some(place)) => is_first_at(alloc, &text, at, place),
        _ => Ok(false),
    }
}

#[test]
fn bodies_are_refused_at_their_marks(rt: HostRuntime) -> Result<(), Fail> {
    for body in marked::BODIES.lines() {
        let is_so = is_refused_at_its_mark(rt.alloc(), BEFORE, body, " }")?;
        same(&rt, body, &is_so, &true);
    }
    Ok(())
}

#[test]
fn texts_are_refused_at_their_marks(rt: HostRuntime) -> Result<(), Fail> {
    for text in marked::TEXTS.lines() {
        let is_so = is_refused_at_its_mark(rt.alloc(), "", text, "")?;
        same(&rt, text, &is_so, &true);
    }
    Ok(())
}

fn nested_text(alloc: Global, row: &Row, count: usize) -> Result<Vec<u8>, AllocError> {
    let (before, open, within, close, _, _) = *row;
    let mut text = Vec::new(alloc);
    text.extend_from_slice(BEFORE.as_bytes())?;
    text.extend_from_slice(before.as_bytes())?;
    for _ in 0..count {
        text.extend_from_slice(open.as_bytes())?;
    }
    text.extend_from_slice(within.as_bytes())?;
    for _ in 0..count {
        text.extend_from_slice(close.as_bytes())?;
    }
    text.extend_from_slice(b" }")?;
    Ok(text)
}

/// The refusal of a text, or none if it is a program.
fn refusal(alloc: Global, text: &[u8]) -> Result<Option<ParseRefusal>, Fail> {
    match parsed(alloc, text)? {
        Ok(_) => Ok(None),
        Err(refusal) => Ok(Some(refusal)),
    }
}

#[test]
fn nesting_is_refused_from_its_limit_on(rt: HostRuntime) -> Result<(), Fail> {
    for row in &nested::ROWS {
        let (_, open, _, _, most, refused) = *row;
        let text = nested_text(rt.alloc(), row, usize::from(most))?;
        same(&rt, open, &refusal(rt.alloc(), &text)?, &None);
        let text = nested_text(rt.alloc(), row, usize::from(most) + 1)?;
        let wanted = ParseRefusal::TooDeep { at: refused };
        same(&rt, open, &refusal(rt.alloc(), &text)?, &Some(wanted));
    }
    Ok(())
}
