//! The beginnings of statements: those that hold no other statement are read whole, and the others up to where the cycle of
//! `statements` takes over.

ghost use Rattle.std.specs.Prelude.{◌≡◌, false};
ghost use Rattle.rgo_ast.specs.Views.{stmt_of};
ghost use Rattle.rgo_grammar.specs.reading.Expressions as reading_exprs;
ghost use Rattle.rgo_grammar.specs.reading.Statements as reading;
ghost use Rattle.rgo_grammar.specs.reading.Read.{next_lexeme};
ghost use Rattle.rgo_reader.specs.Agrees.{Agrees, leaf_at};
ghost use Rattle.rgo_parser.specs.Statements as statements;

use crate::expressions::{expr, exprs};
use crate::locals::vars;
use crate::simple::defining;
use rgo_ast::Stmt;
use rgo_lexer::Terminal;
use rgo_reader::{Fault, Read, Reader};
use std::alloc::Global;

/// A statement that was read whole, or the keyword or `{` of one that holds statements, by its place.
#[derive(Drop)]
pub(crate) enum Leading {
    Empty,
    Whole(Stmt),
    Block(usize),
    If(usize),
    For(usize),
}

/// What follows the block of an `if`: nothing, an `if` whose keyword was read, or a block whose `{` is next, each with its place.
#[derive(Clone, Copy)]
pub(crate) enum Else {
    None,
    If(usize),
    Block(usize),
}

// A `return` statement after its keyword, which is at `at`.
fn returned(alloc: Global, reader: &mut Reader<'_, '_>, turns: usize, at: usize) -> Read<Stmt>
    ensures { Agrees stmt_of result reader.new
        (reading.return_on (reading_exprs.expr false turns 1) (leaf_at at) reader.old
        (next_lexeme reader.old)) }
{
    let Some(lexeme) = reader.peek() else {
        return Err(Fault::Syntax);
    };
    match lexeme.terminal {
        Terminal::Semicolon | Terminal::CloseBrace => Ok(Stmt::Return(None, at)),
        _ => {
            let value = expr(alloc, reader, false, turns, 1)?;
            Ok(Stmt::Return(Some(value), at))
        }
    }
}

// A `go` statement after its keyword, which is at `at`.
fn going(alloc: Global, reader: &mut Reader<'_, '_>, turns: usize, at: usize) -> Read<Stmt>
    ensures { Agrees stmt_of result reader.new
        (reading.going turns (reading_exprs.expr false turns 1) (leaf_at at) reader.old) }
{
    let function = reader.name(alloc)?;
    reader.take(Terminal::OpenParen)?;
    let (args, _) = exprs(alloc, reader, turns, Terminal::CloseParen)?;
    Ok(Stmt::Go(function, args, at))
}

/// Reads a statement that holds no other, or the beginning of one that does.
pub(crate) fn read_leading(
    alloc: Global,
    reader: &mut Reader<'_, '_>,
    turns: usize,
) -> Read<Leading>
    ensures { Agrees statements.leading_of result reader.new (statements.leading turns reader.old) }
{
    let Some(lexeme) = reader.peek() else {
        return Err(Fault::Syntax);
    };
    let at = lexeme.at;
    match lexeme.terminal {
        Terminal::OpenBrace => {
            reader.pass();
            Ok(Leading::Block(at))
        }
        Terminal::If => {
            reader.pass();
            Ok(Leading::If(at))
        }
        Terminal::For => {
            reader.pass();
            Ok(Leading::For(at))
        }
        Terminal::Go => {
            reader.pass();
            Ok(Leading::Whole(going(alloc, reader, turns, at)?))
        }
        Terminal::Var => {
            reader.pass();
            Ok(Leading::Whole(vars(alloc, reader, turns, lexeme)?))
        }
        Terminal::Return => {
            reader.pass();
            Ok(Leading::Whole(returned(alloc, reader, turns, at)?))
        }
        Terminal::Break => {
            reader.pass();
            Ok(Leading::Whole(Stmt::Break(at)))
        }
        Terminal::Continue => {
            reader.pass();
            Ok(Leading::Whole(Stmt::Continue(at)))
        }
        Terminal::Semicolon => Ok(Leading::Empty),
        _ => Ok(Leading::Whole(defining(alloc, reader, false, turns)?)),
    }
}

/// Reads what follows the block of an `if`, up to the `if` or the block after `else`.
pub(crate) fn else_word(reader: &mut Reader<'_, '_>) -> Read<Else>
    ensures { Agrees (λ x. x) result reader.new (statements.else_word reader.old) }
{
    let Some(lexeme) = reader.peek() else {
        return Ok(Else::None);
    };
    let Terminal::Else = lexeme.terminal else {
        return Ok(Else::None);
    };
    reader.pass();
    let Some(lexeme) = reader.peek() else {
        return Err(Fault::Syntax);
    };
    match lexeme.terminal {
        Terminal::If => {
            reader.pass();
            Ok(Else::If(lexeme.at))
        }
        _ => Ok(Else::Block(lexeme.at)),
    }
}
