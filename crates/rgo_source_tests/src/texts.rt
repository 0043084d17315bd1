//! Texts as programs, for the tests of the crates that take trees.

use rgo_ast::Program;
use rgo_lexer::lex;
use rgo_parser::parse;
use rgo_typed::Typed;
use rgo_types::check;
use std::alloc::Global;
use std::test::Fail;

/// The surface tree of a valid text.
pub(crate) fn parsed(alloc: Global, text: &str) -> Result<Program, Fail> {
    let lexemes = lex(alloc, text.as_bytes())?;
    Ok(parse(alloc, text.len(), &lexemes)?)
}

/// The typed tree of a valid text.
pub(crate) fn typed(alloc: Global, text: &str) -> Result<Typed, Fail> {
    Ok(check(alloc, &parsed(alloc, text)?)?)
}
