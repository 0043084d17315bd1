//! The places of trees, counted by hand from the front of small texts.

use crate::checks::same;
use crate::texts::{assigned, first_stmt, parsed};
use rgo_ast::{LocalVar, Program, Stmt, TypeExpr};
use std::alloc::Global;
use std::test::Fail;

/// The text before a statement.
const BEFORE: &str = "package main; func main() { ";

/// Statements with their places and starts.
static STATEMENTS: [(&str, usize, usize); 14] = [
    ("{ }", 0, 0),
    ("f()", 1, 0),
    ("x.y <- 1", 4, 0),
    ("x.y++", 3, 0),
    ("x.y += 1", 4, 0),
    ("n := 1", 2, 0),
    ("go f()", 0, 0),
    ("var a, b int", 0, 0),
    ("return x.y", 0, 0),
    ("break", 0, 0),
    ("continue", 0, 0),
    ("if n := 1; ok { }", 0, 0),
    ("for { }", 0, 0),
    ("for n := 1; ok; { }", 0, 0),
];

/// Expressions with their places and starts.
static EXPRESSIONS: [(&str, usize, usize); 14] = [
    ("7", 0, 0),
    ("\"ab\"", 0, 0),
    ("f", 0, 0),
    ("(x.y)", 0, 0),
    ("new(N)", 0, 0),
    ("make([]N, 3)", 0, 0),
    ("make(chan N, 3)", 0, 0),
    ("x.y", 2, 0),
    ("(x.y)[8]", 5, 0),
    ("f()", 1, 0),
    ("-1", 0, 0),
    ("x.y + f()", 4, 0),
    ("&N{7}", 0, 0),
    ("&N{y: 7}", 0, 0),
];

/// Types. The place of each is its front.
static TYPES: [&str; 4] = ["int", "*N", "[]*N", "chan []*N"];

fn with_statement(alloc: Global, before: &str, text: &str) -> Result<Program, Fail> {
    let text = format!(in alloc; "{BEFORE}{before}{text} }}")?;
    parsed(alloc, text.as_str())
}

#[test]
fn statements_have_their_places(rt: HostRuntime) -> Result<(), Fail> {
    let front = BEFORE.len();
    for (text, place, start) in &STATEMENTS {
        let program = with_statement(rt.alloc(), "", text)?;
        let stmt = first_stmt(&program)?;
        same(&rt, text, &stmt.place().saturating_sub(front), place);
        same(&rt, text, &stmt.start().saturating_sub(front), start);
    }
    Ok(())
}

#[test]
fn expressions_have_their_places(rt: HostRuntime) -> Result<(), Fail> {
    let front = BEFORE.len() + "x = ".len();
    for (text, place, start) in &EXPRESSIONS {
        let program = with_statement(rt.alloc(), "x = ", text)?;
        let value = assigned(first_stmt(&program)?)?;
        same(&rt, text, &value.place().saturating_sub(front), place);
        same(&rt, text, &value.start().saturating_sub(front), start);
    }
    Ok(())
}

/// The type of the variables that a statement declares.
fn declared_type(stmt: &Stmt) -> Result<&TypeExpr, Fail> {
    if let Stmt::Var(variables, _) = stmt {
        if let Some(LocalVar::Zero(binding)) = variables.first() {
            return Ok(&binding.ty);
        }
    }
    Err(Fail::from("no declaration"))
}

#[test]
fn types_have_their_places(rt: HostRuntime) -> Result<(), Fail> {
    let front = BEFORE.len() + "var x ".len();
    for text in &TYPES {
        let program = with_statement(rt.alloc(), "var x ", text)?;
        let ty = declared_type(first_stmt(&program)?)?;
        same(&rt, text, &ty.place(), &front);
    }
    Ok(())
}

#[test]
fn names_have_their_bytes(rt: HostRuntime) -> Result<(), Fail> {
    let program = with_statement(rt.alloc(), "", "max := 1")?;
    match first_stmt(&program)? {
        Stmt::Define(name, _, _) => same(&rt, "max", &name.name.bytes(), &b"max".as_slice()),
        _ => return Err(Fail::from("no definition")),
    }
    Ok(())
}
