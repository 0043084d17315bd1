//! Texts as programs, for the tests of the crates that take trees.

use rgo_ast::{Decl, Expr, Program, Stmt};
use rgo_lexer::lex;
use rgo_parser::parse;
use std::alloc::Global;
use std::test::Fail;

/// The surface tree of a valid text.
pub(crate) fn parsed(alloc: Global, text: &str) -> Result<Program, Fail> {
    let lexemes = lex(alloc, text.as_bytes())?;
    Ok(parse(alloc, text.len(), &lexemes)?)
}

/// The first statement of the first function.
pub(crate) fn first_stmt(program: &Program) -> Result<&Stmt, Fail> {
    for decl in &program.decls {
        if let Decl::Func(function) = decl {
            if let Some(first) = function.body.first() {
                return Ok(first);
            }
        }
    }
    Err(Fail::from("no statement"))
}

/// The right side of an assignment.
pub(crate) fn assigned(stmt: &Stmt) -> Result<&Expr, Fail> {
    match stmt {
        Stmt::Assign(_, _, value, _) => Ok(value),
        _ => Err(Fail::from("no assignment")),
    }
}
