//! The headers of `if` and `for`: what is between the keyword and the block. They hold no block, so they are read outside the cycle
//! of `statements`. Why: docs/DECISIONS.md, "Grammar".

ghost use Rattle.std.specs.Prelude.{◌≡◌, true};
ghost use Rattle.rgo_ast.specs.Views.{stmt_of, boxed_expr_of, boxed_stmt_of};
ghost use Rattle.rgo_grammar.specs.reading.Expressions as reading_exprs;
ghost use Rattle.rgo_grammar.specs.reading.Statements as reading;
ghost use Rattle.rgo_grammar.specs.reading.Read.{next_lexeme};
ghost use Rattle.rgo_reader.specs.Agrees.{Agrees};
ghost use Rattle.rgo_parser.specs.Headers as headers;

use crate::expressions::expr;
use crate::simple::{defining, valued};
use rgo_ast::{Expr, Stmt};
use rgo_lexer::Terminal;
use rgo_reader::{Fault, Read, Reader};
use std::alloc::Global;

/// The first part of a header: a condition before the block, or a statement, which may be empty, with its `;`. Which of them it is
/// shows only at its end, so both are read as a simple statement.
#[derive(Drop)]
enum Head {
    Condition(Box<Expr>),
    Init(Option<Box<Stmt>>),
}

/// The header of an `if`.
#[derive(Drop)]
pub(crate) struct IfHeader {
    pub(crate) init: Option<Box<Stmt>>,
    pub(crate) test: Box<Expr>,
}

/// The header of a `for`.
#[derive(Drop)]
pub(crate) struct ForHeader {
    pub(crate) init: Option<Box<Stmt>>,
    pub(crate) test: Option<Box<Expr>>,
    pub(crate) post: Option<Box<Stmt>>,
}

// Decides by the next lexeme what the statement was. Before a block only an expression can be a condition.
fn head_end(reader: &mut Reader<'_, '_>, stmt: Box<Stmt>) -> Read<Head>
    ensures { Agrees headers.reading_head_of result reader.new
        (reading.head_end_on (stmt_of stmt.value) reader.old (next_lexeme reader.old)) }
{
    let Some(lexeme) = reader.peek() else {
        return Err(Fault::Syntax);
    };
    match lexeme.terminal {
        Terminal::OpenBrace => match Box::into_inner(stmt) {
            Stmt::Plain(value) => Ok(Head::Condition(value)),
            _ => Err(Fault::Syntax),
        },
        Terminal::Semicolon => {
            reader.pass();
            Ok(Head::Init(Some(stmt)))
        }
        _ => Err(Fault::Syntax),
    }
}

// Reads the first part of a header.
fn read_head(alloc: Global, reader: &mut Reader<'_, '_>, turns: usize) -> Read<Head>
    ensures { Agrees headers.reading_head_of result reader.new
        (reading.head (reading_exprs.expr true turns 1) reader.old) }
{
    let Some(lexeme) = reader.peek() else {
        return Err(Fault::Syntax);
    };
    match lexeme.terminal {
        Terminal::Semicolon => {
            reader.pass();
            Ok(Head::Init(None))
        }
        _ => {
            let stmt = Box::new(alloc, defining(alloc, reader, true, turns)?)?;
            head_end(reader, stmt)
        }
    }
}

// The condition of a `for` and the `;` after it.
fn condition(alloc: Global, reader: &mut Reader<'_, '_>, turns: usize) -> Read<Option<Box<Expr>>>
    ensures { Agrees boxed_expr_of result reader.new
        (reading.condition_on (reading_exprs.expr true turns 1) reader.old (next_lexeme reader.old)) }
{
    let Some(lexeme) = reader.peek() else {
        return Err(Fault::Syntax);
    };
    match lexeme.terminal {
        Terminal::Semicolon => {
            reader.pass();
            Ok(None)
        }
        _ => {
            let value = expr(alloc, reader, true, turns, 1)?;
            reader.take(Terminal::Semicolon)?;
            Ok(Some(value))
        }
    }
}

// The post statement of a `for`, up to its block.
fn post(alloc: Global, reader: &mut Reader<'_, '_>, turns: usize) -> Read<Option<Box<Stmt>>>
    ensures { Agrees boxed_stmt_of result reader.new
        (reading.post_stmt_on (reading_exprs.expr true turns 1) reader.old (next_lexeme reader.old)) }
{
    let Some(lexeme) = reader.peek() else {
        return Err(Fault::Syntax);
    };
    match lexeme.terminal {
        Terminal::OpenBrace => Ok(None),
        _ => {
            let stmt = valued(alloc, reader, true, turns)?;
            Ok(Some(Box::new(alloc, stmt)?))
        }
    }
}

/// The header of an `if`, up to its block.
pub(crate) fn if_header(alloc: Global, reader: &mut Reader<'_, '_>, turns: usize) -> Read<IfHeader>
    ensures { Agrees headers.if_of result reader.new
        (headers.if_header (reading_exprs.expr true turns 1) reader.old) }
{
    match read_head(alloc, reader, turns)? {
        Head::Condition(test) => Ok(IfHeader { init: None, test }),
        Head::Init(init) => {
            let test = expr(alloc, reader, true, turns, 1)?;
            Ok(IfHeader { init, test })
        }
    }
}

/// The header of a `for`, up to its block.
pub(crate) fn for_header(
    alloc: Global,
    reader: &mut Reader<'_, '_>,
    turns: usize,
) -> Read<ForHeader>
    ensures { Agrees headers.for_of result reader.new
        (headers.for_header (reading_exprs.expr true turns 1) reader.old) }
{
    let Some(lexeme) = reader.peek() else {
        return Err(Fault::Syntax);
    };
    if let Terminal::OpenBrace = lexeme.terminal {
        return Ok(ForHeader {
            init: None,
            test: None,
            post: None,
        });
    }
    match read_head(alloc, reader, turns)? {
        Head::Condition(test) => Ok(ForHeader {
            init: None,
            test: Some(test),
            post: None,
        }),
        Head::Init(init) => {
            let test = condition(alloc, reader, turns)?;
            let post = post(alloc, reader, turns)?;
            Ok(ForHeader { init, test, post })
        }
    }
}
