//! Operands, in two halves: up to the expression that they hold, and from its end on. rgo_parser reads the expression in between, so
//! that these functions do not recur.

ghost use Rattle.std.specs.Prelude.{◌≡◌, IfOk};
ghost use Rattle.rgo_ast.specs.Tree as tree;
ghost use Rattle.rgo_ast.specs.Views.{expr_of, type_expr_of};
ghost use Rattle.rgo_grammar.specs.reading.Expressions as reading;
ghost use Rattle.rgo_reader.specs.Agrees.{Agrees, leaf_at, leaf_in};
ghost use Rattle.rgo_reader.specs.Expressions as parts;

use crate::readers::{Fault, Read, Reader, ident};
use crate::types::ty;
use rgo_ast::{Expr, TypeExpr};
use rgo_lexer::{Lexeme, Terminal, unquoted};
use std::alloc::{AllocError, Global};

/// The part of an operand before the expression that it holds, with the operand's place.
#[derive(Drop)]
pub enum Bracket {
    /// `(`
    Paren(usize),
    /// `make([]T,`
    MakeSlice(Box<TypeExpr>, usize),
    /// `make(chan T,`
    MakeChan(Box<TypeExpr>, usize),
}

/// An operand that was read whole, or the first half of one that holds an expression.
#[derive(Drop)]
pub enum Opening {
    Whole(Box<Expr>),
    Open(Bracket),
}

// `new(T)` after `new`.
fn new_at(alloc: Global, reader: &mut Reader<'_, '_>, at: usize) -> Read<Box<Expr>>
    ensures { Agrees parts.boxed_of result reader.new (reading.new_at (leaf_at at) reader.old) }
{
    reader.take(Terminal::OpenParen)?;
    let base = reader.name(alloc)?;
    reader.take(Terminal::CloseParen)?;
    Ok(Box::new(alloc, Expr::New(base, at))?)
}

// A channel without a capacity.
#[tactic(auto, using(crate::proofs::Nodes::nodes))]
fn plain_chan(alloc: Global, element: Box<TypeExpr>, at: usize) -> Result<Box<Expr>, AllocError>
    ensures { IfOk result
        (λ e. expr_of e.value ≡ tree.MakeChan (type_expr_of element.value) tree.no_capacity at) }
{
    Ok(Box::new(alloc, Expr::MakeChan(Box::into_inner(element), None, at))?)
}

// After the `,` that follows a channel's type: a capacity, or the end, since the last comma may be superfluous.
fn capacity(
    alloc: Global,
    reader: &mut Reader<'_, '_>,
    element: Box<TypeExpr>,
    at: usize,
) -> Read<Opening>
    ensures { Agrees parts.opening_of result reader.new
        (parts.capacity_opening (leaf_at at) (type_expr_of element.value) reader.old) }
{
    let Some(lexeme) = reader.peek() else {
        return Err(Fault::Syntax);
    };
    match lexeme.terminal {
        Terminal::CloseParen => {
            reader.pass();
            Ok(Opening::Whole(plain_chan(alloc, element, at)?))
        }
        _ => Ok(Opening::Open(Bracket::MakeChan(element, at))),
    }
}

// After a channel's type.
fn sized(
    alloc: Global,
    reader: &mut Reader<'_, '_>,
    element: Box<TypeExpr>,
    at: usize,
) -> Read<Opening>
    ensures { Agrees parts.opening_of result reader.new
        (parts.sized_opening (leaf_at at) (type_expr_of element.value) reader.old) }
{
    let Some(lexeme) = reader.peek() else {
        return Err(Fault::Syntax);
    };
    match lexeme.terminal {
        Terminal::CloseParen => {
            reader.pass();
            Ok(Opening::Whole(plain_chan(alloc, element, at)?))
        }
        Terminal::Comma => {
            reader.pass();
            capacity(alloc, reader, element, at)
        }
        _ => Err(Fault::Syntax),
    }
}

// After `make(`.
fn made(alloc: Global, reader: &mut Reader<'_, '_>, turns: usize, at: usize) -> Read<Opening>
    ensures { Agrees parts.opening_of result reader.new (parts.make_opening turns (leaf_at at) reader.old) }
{
    let Some(lexeme) = reader.peek() else {
        return Err(Fault::Syntax);
    };
    match lexeme.terminal {
        Terminal::OpenBracket => {
            reader.pass();
            reader.take(Terminal::CloseBracket)?;
            let element = Box::new(alloc, ty(alloc, reader, turns)?)?;
            reader.take(Terminal::Comma)?;
            Ok(Opening::Open(Bracket::MakeSlice(element, at)))
        }
        Terminal::Chan => {
            reader.pass();
            let element = Box::new(alloc, ty(alloc, reader, turns)?)?;
            sized(alloc, reader, element, at)
        }
        _ => Err(Fault::Syntax),
    }
}

/// Reads an operand up to the expression that it holds.
pub fn open_operand(alloc: Global, reader: &mut Reader<'_, '_>, turns: usize) -> Read<Opening>
    ensures { Agrees parts.opening_of result reader.new (parts.operand_opening turns reader.old) }
{
    let Some(lexeme) = reader.peek() else {
        return Err(Fault::Syntax);
    };
    let at = lexeme.at;
    match lexeme.terminal {
        Terminal::Name => {
            reader.pass();
            let name = ident(alloc, lexeme)?;
            Ok(Opening::Whole(Box::new(alloc, Expr::Name(name))?))
        }
        Terminal::Number(value) => {
            reader.pass();
            Ok(Opening::Whole(Box::new(alloc, Expr::Number(value, at))?))
        }
        Terminal::Text => {
            reader.pass();
            let text = unquoted(alloc, lexeme.word)?;
            Ok(Opening::Whole(Box::new(alloc, Expr::Text(text, at))?))
        }
        Terminal::OpenParen => {
            reader.pass();
            Ok(Opening::Open(Bracket::Paren(at)))
        }
        Terminal::New => {
            reader.pass();
            Ok(Opening::Whole(new_at(alloc, reader, at)?))
        }
        Terminal::Make => {
            reader.pass();
            reader.take(Terminal::OpenParen)?;
            made(alloc, reader, turns, at)
        }
        _ => Err(Fault::Syntax),
    }
}

// The end of a `make`, with an optional comma before it.
fn make_end<'r, 'a>(reader: &mut Reader<'r, 'a>) -> Read<&'r Lexeme<'a>>
    ensures { Agrees leaf_in result reader.new (reading.make_end reader.old) }
{
    let Some(lexeme) = reader.peek() else {
        return Err(Fault::Syntax);
    };
    match lexeme.terminal {
        Terminal::CloseParen => reader.take(Terminal::CloseParen),
        Terminal::Comma => {
            reader.pass();
            reader.take(Terminal::CloseParen)
        }
        _ => Err(Fault::Syntax),
    }
}

/// Reads the second half of an operand, after the expression that it holds.
#[tactic(auto, using(crate::proofs::Nodes::nodes))]
pub fn close_operand(
    alloc: Global,
    reader: &mut Reader<'_, '_>,
    bracket: Bracket,
    value: Box<Expr>,
) -> Read<Box<Expr>>
    ensures { Agrees parts.boxed_of result reader.new
        (parts.operand_closing (parts.bracket_of bracket) (expr_of value.value) reader.old) }
{
    let closed = match bracket {
        Bracket::Paren(at) => {
            reader.take(Terminal::CloseParen)?;
            Expr::Paren(value, at)
        }
        Bracket::MakeSlice(element, at) => {
            make_end(reader)?;
            Expr::MakeSlice(Box::into_inner(element), value, at)
        }
        Bracket::MakeChan(element, at) => {
            make_end(reader)?;
            Expr::MakeChan(Box::into_inner(element), Some(value), at)
        }
    };
    Ok(Box::new(alloc, closed)?)
}
