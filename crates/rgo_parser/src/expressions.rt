//! Expressions, by precedence climbing: the cycle of functions that read an expression within an expression. `turns` decreases
//! around the cycle, so it ends; the bound that `parser` passes never runs out. Why: docs/DECISIONS.md, "Grammar".

ghost use Rattle.std.specs.Prelude.{◌≡◌, ◌-◌, ◌<◌, ◌++◌, ◌∷◌, [], IfOk, false, map};
ghost use Rattle.rgo_ast.specs.Views.{expr_of, element_of};
ghost use Rattle.rgo_grammar.specs.reading.Expressions as reading;
ghost use Rattle.rgo_grammar.specs.reading.Read.{several};
ghost use Rattle.rgo_lexer.specs.declared.terminals.Terminal.TheVariants as terminal;
ghost use Rattle.rgo_reader.specs.Agrees.{Agrees, leaf_at, leaf_of};
ghost use Rattle.rgo_lexer.specs.Lexemes.{ident};
ghost use Rattle.rgo_reader.specs.Expressions.{boxed_of};
ghost use Rattle.rgo_parser.specs.Items.{listed_by};

use crate::items::Listed;
use rgo_ast::{Element, Expr, Ident};
use rgo_lexer::Terminal;
use rgo_reader::{
    Fault, Opening, Prefix, Read, Reader, Suffix, close_operand, closes, is_keyed, level,
    open_operand, operator, read_prefix, read_suffix, separated,
};
use std::alloc::{AllocError, Global};

// Adds an expression to a list.
#[tactic(auto, using(crate::proofs::ListTurns::pushes))]
fn push_expr(found: &mut Vec<Expr>, value: Box<Expr>) -> Result<(), AllocError>
    ensures { IfOk result (λ _. map expr_of found.new.items
        ≡ map expr_of found.old.items ++ expr_of value.value ∷ []) }
{
    found.push(Box::into_inner(value))?;
    Ok(())
}

// Adds an element with its field to a list.
#[tactic(auto, using(crate::proofs::ListTurns::pushes))]
fn push_element(found: &mut Vec<Element>, field: Ident, value: Box<Expr>) -> Result<(), AllocError>
    ensures { IfOk result (λ _. map element_of found.new.items
        ≡ map element_of found.old.items ++ (ident (leaf_of field), expr_of value.value) ∷ []) }
{
    let value = Box::into_inner(value);
    found.push(Element { field, value })?;
    Ok(())
}

/// An expression whose operators bind at least as tightly as `least`. `header`: it is between `if` or `for` and its block, outside
/// brackets, where no literal may begin, since its `{` would look like that of the block.
#[tactic(auto, using(crate::proofs::ExprTurns::expr_turns))]
#[cycle(expressions)]
pub(crate) fn expr(
    alloc: Global,
    reader: &mut Reader<'_, '_>,
    header: bool,
    turns: usize,
    least: u8,
) -> Read<Box<Expr>>
    ensures { Agrees boxed_of result reader.new (reading.expr header turns least reader.old) }
{
    if turns == 0 {
        return Err(Fault::Starved);
    }
    let left = unary(alloc, reader, header, turns - 1)?;
    climb(alloc, reader, header, turns - 1, least, left)
}

// The operators after an expression that bind at least as tightly as `least`. The right operand is read with a level one higher, so
// operators of one level group to the left.
#[tactic(auto, using(crate::proofs::ExprTurns::climb_turns))]
#[cycle(expressions)]
fn climb(
    alloc: Global,
    reader: &mut Reader<'_, '_>,
    header: bool,
    turns: usize,
    least: u8,
    left: Box<Expr>,
) -> Read<Box<Expr>>
    ensures { Agrees boxed_of result reader.new
        (reading.climb header turns least (expr_of left.value) reader.old) }
{
    if turns == 0 {
        return Err(Fault::Starved);
    }
    let Some((op, at)) = operator(reader, least) else {
        return Ok(left);
    };
    let right = expr(alloc, reader, header, turns - 1, level(op) + 1)?;
    let joined = Box::new(alloc, Expr::Binary(op, left, right, at))?;
    climb(alloc, reader, header, turns - 1, least, joined)
}

// A unary expression.
#[tactic(auto, using(crate::proofs::ExprTurns::unary_turns))]
#[cycle(expressions)]
fn unary(alloc: Global, reader: &mut Reader<'_, '_>, header: bool, turns: usize) -> Read<Box<Expr>>
    ensures { Agrees boxed_of result reader.new (reading.unary header turns reader.old) }
{
    if turns == 0 {
        return Err(Fault::Starved);
    }
    match read_prefix(reader, header)? {
        Prefix::None => primary(alloc, reader, turns - 1),
        Prefix::Sign(op, at) => {
            let value = unary(alloc, reader, header, turns - 1)?;
            Ok(Box::new(alloc, Expr::Unary(op, value, at))?)
        }
        Prefix::Literal(at) => literal(alloc, reader, turns, at),
    }
}

// A primary expression: an operand and its suffixes.
#[tactic(auto, using(crate::proofs::ExprTurns::primary_turns))]
#[cycle(expressions)]
fn primary(alloc: Global, reader: &mut Reader<'_, '_>, turns: usize) -> Read<Box<Expr>>
    ensures { Agrees boxed_of result reader.new (reading.primary turns reader.old) }
{
    if turns == 0 {
        return Err(Fault::Starved);
    }
    match open_operand(alloc, reader, turns - 1)? {
        Opening::Whole(value) => post(alloc, reader, turns - 1, value),
        Opening::Open(bracket) => {
            let inner = expr(alloc, reader, false, turns - 1, 1)?;
            let value = close_operand(alloc, reader, bracket, inner)?;
            post(alloc, reader, turns - 1, value)
        }
    }
}

// The suffixes of a primary expression: fields, indices and calls.
#[tactic(auto, using(crate::proofs::ExprTurns::post_turns))]
#[cycle(expressions)]
fn post(
    alloc: Global,
    reader: &mut Reader<'_, '_>,
    turns: usize,
    value: Box<Expr>,
) -> Read<Box<Expr>>
    ensures { Agrees boxed_of result reader.new
        (reading.post turns (expr_of value.value) reader.old) }
{
    if turns == 0 {
        return Err(Fault::Starved);
    }
    match read_suffix(alloc, reader)? {
        Suffix::None => Ok(value),
        Suffix::Select(field) => {
            let selected = Box::new(alloc, Expr::Select(value, field))?;
            post(alloc, reader, turns - 1, selected)
        }
        Suffix::Index(at) => {
            let index = expr(alloc, reader, false, turns - 1, 1)?;
            reader.take(Terminal::CloseBracket)?;
            let indexed = Box::new(alloc, Expr::Index(value, index, at))?;
            post(alloc, reader, turns - 1, indexed)
        }
        Suffix::Call(at) => {
            let (args, _) = exprs(alloc, reader, turns - 1, Terminal::CloseParen)?;
            let called = Box::new(alloc, Expr::Call(value, args, at))?;
            post(alloc, reader, turns - 1, called)
        }
    }
}

/// Expressions up to the lexeme that closes them. They are inside brackets, so literals are allowed in them even in a header.
#[tactic(auto, using(crate::proofs::ListTurns::list_turns))]
#[cycle(expressions)]
pub(crate) fn exprs<'r, 'a>(
    alloc: Global,
    reader: &mut Reader<'r, 'a>,
    turns: usize,
    closer: Terminal,
) -> Listed<'r, 'a, Expr>
    ensures { Agrees (listed_by expr_of) result reader.new
        (reading.exprs closer turns (reading.expr false turns 1) reader.old) }
{
    let mut found = Vec::new(alloc);
    for turn in 0..turns {
        if let Some(closing) = closes(reader, closer)? {
            return Ok((found, closing));
        }
        let one = expr(alloc, reader, false, turns, 1)?;
        push_expr(&mut found, one)?;
        if let Some(closing) = separated(reader, Terminal::Comma, closer)? {
            return Ok((found, closing));
        }
    }
    Err(Fault::Starved)
}

// Elements with their fields up to the brace that closes them; their values are read with one turn less.
#[tactic(auto, using(crate::proofs::ListTurns::list_turns))]
#[cycle(expressions)]
fn elements<'r, 'a>(
    alloc: Global,
    reader: &mut Reader<'r, 'a>,
    turns: usize,
) -> Listed<'r, 'a, Element>
    ensures { Agrees (listed_by element_of) result reader.new
        (several terminal.Comma terminal.CloseBrace (reading.keyed_element (reading.expr false (turns - 1) 1)) turns []
        reader.old) }
{
    let mut found = Vec::new(alloc);
    for turn in 0..turns {
        if let Some(closing) = closes(reader, Terminal::CloseBrace)? {
            return Ok((found, closing));
        }
        let field = reader.name(alloc)?;
        reader.take(Terminal::Colon)?;
        let value = expr(alloc, reader, false, turns - 1, 1)?;
        push_element(&mut found, field, value)?;
        if let Some(closing) = separated(reader, Terminal::Comma, Terminal::CloseBrace)? {
            return Ok((found, closing));
        }
    }
    Err(Fault::Starved)
}

// A composite literal after its `&`; its values are read with one turn less.
#[tactic(auto, using(crate::proofs::ExprTurns::literal_turns))]
#[cycle(expressions)]
fn literal(alloc: Global, reader: &mut Reader<'_, '_>, turns: usize, at: usize) -> Read<Box<Expr>>
    requires { 0 < turns }
    ensures { Agrees boxed_of result reader.new
        (reading.literal (turns - 1) (reading.expr false (turns - 1) 1) (leaf_at at) reader.old) }
{
    let base = reader.name(alloc)?;
    reader.take(Terminal::OpenBrace)?;
    if is_keyed(reader) {
        let (all, _) = elements(alloc, reader, turns)?;
        return Ok(Box::new(alloc, Expr::Keyed(base, all, at))?);
    }
    let (values, _) = exprs(alloc, reader, turns - 1, Terminal::CloseBrace)?;
    Ok(Box::new(alloc, Expr::Literal(base, values, at))?)
}
