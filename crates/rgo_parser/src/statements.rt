//! Statements and blocks: the cycle of functions that read a statement within a statement. `turns` decreases around the cycle, so
//! it ends; the bound that `parser` passes never runs out.

ghost use Rattle.std.specs.Prelude.{◌≡◌};
ghost use Rattle.rgo_ast.specs.Views.{stmt_of, boxed_stmt_of};
ghost use Rattle.rgo_grammar.specs.reading.Statements as reading;
ghost use Rattle.rgo_grammar.specs.reading.Read.{next_lexeme};
ghost use Rattle.rgo_reader.specs.Agrees.{Agrees, leaf_at};
ghost use Rattle.rgo_parser.specs.Items.{listed_by};
ghost use Rattle.rgo_parser.specs.Statements.{if_at, for_at, stmt_list_of};

use crate::headers::{ForHeader, IfHeader, for_header, if_header};
use crate::items::Listed;
use crate::openings::{Else, Leading, else_word, read_leading};
use rgo_ast::Stmt;
use rgo_lexer::Terminal;
use rgo_reader::{Fault, Read, Reader, closes, separated};
use std::alloc::Global;

/// A statement, or `None` for the empty statement, which leaves nothing in the tree.
#[tactic(auto, using(crate::proofs::StmtTurns::stmt_turns))]
#[cycle(statements)]
fn stmt(alloc: Global, reader: &mut Reader<'_, '_>, turns: usize) -> Read<Option<Stmt>>
    ensures { Agrees stmt_list_of result reader.new (reading.stmt turns reader.old) }
{
    if turns == 0 {
        return Err(Fault::Starved);
    }
    match read_leading(alloc, reader, turns - 1)? {
        Leading::Empty => Ok(None),
        Leading::Whole(stmt) => Ok(Some(stmt)),
        Leading::Block(at) => {
            let (all, _) = stmts(alloc, reader, turns - 1)?;
            Ok(Some(Stmt::Block(all, at)))
        }
        Leading::If(at) => Ok(Some(if_stmt(alloc, reader, turns - 1, at)?)),
        Leading::For(at) => Ok(Some(for_stmt(alloc, reader, turns - 1, at)?)),
    }
}

// An `if` statement after its keyword, which is at `at`.
#[tactic(auto, using(crate::proofs::StmtTurns::if_turns))]
#[cycle(statements)]
fn if_stmt(alloc: Global, reader: &mut Reader<'_, '_>, turns: usize, at: usize) -> Read<Stmt>
    ensures { Agrees stmt_of result reader.new (reading.if_stmt turns (leaf_at at) reader.old) }
{
    if turns == 0 {
        return Err(Fault::Starved);
    }
    let IfHeader { init, test } = if_header(alloc, reader, turns - 1)?;
    let (body, _) = block(alloc, reader, turns - 1)?;
    let other = otherwise(alloc, reader, turns - 1)?;
    Ok(Stmt::If {
        init,
        test,
        body,
        other,
        at,
    })
}

// The part of an `if` after its block.
#[tactic(auto, using(crate::proofs::StmtTurns::else_turns))]
#[cycle(statements)]
fn otherwise(alloc: Global, reader: &mut Reader<'_, '_>, turns: usize) -> Read<Option<Box<Stmt>>>
    ensures { Agrees boxed_stmt_of result reader.new
        (reading.else_on (reading.block turns) (if_at turns) reader.old (next_lexeme reader.old)) }
{
    match else_word(reader)? {
        Else::None => Ok(None),
        Else::If(at) => {
            let stmt = if_stmt(alloc, reader, turns, at)?;
            Ok(Some(Box::new(alloc, stmt)?))
        }
        Else::Block(at) => {
            let (all, _) = block(alloc, reader, turns)?;
            Ok(Some(Box::new(alloc, Stmt::Block(all, at))?))
        }
    }
}

// A `for` statement after its keyword, which is at `at`.
#[tactic(auto, using(crate::proofs::StmtTurns::nodes))]
#[cycle(statements)]
fn for_stmt(alloc: Global, reader: &mut Reader<'_, '_>, turns: usize, at: usize) -> Read<Stmt>
    ensures { Agrees stmt_of result reader.new (for_at turns (leaf_at at) reader.old) }
{
    let ForHeader { init, test, post } = for_header(alloc, reader, turns)?;
    let (body, _) = block(alloc, reader, turns)?;
    Ok(Stmt::For {
        init,
        test,
        post,
        body,
        at,
    })
}

/// A block, from its `{` on.
#[cycle(statements)]
pub(crate) fn block<'r, 'a>(
    alloc: Global,
    reader: &mut Reader<'r, 'a>,
    turns: usize,
) -> Listed<'r, 'a, Stmt>
    ensures { Agrees (listed_by stmt_of) result reader.new (reading.block turns reader.old) }
{
    reader.take(Terminal::OpenBrace)?;
    stmts(alloc, reader, turns)
}

// Statements up to the `}` that closes them.
#[tactic(auto, using(crate::proofs::ListTurns::listed_turns))]
#[cycle(statements)]
fn stmts<'r, 'a>(alloc: Global, reader: &mut Reader<'r, 'a>, turns: usize) -> Listed<'r, 'a, Stmt>
    ensures { Agrees (listed_by stmt_of) result reader.new (reading.stmts turns reader.old) }
{
    let mut found = Vec::new(alloc);
    for turn in 0..turns {
        if let Some(closing) = closes(reader, Terminal::CloseBrace)? {
            return Ok((found, closing));
        }
        if let Some(one) = stmt(alloc, reader, turns)? {
            found.push(one)?;
        }
        if let Some(closing) = separated(reader, Terminal::Semicolon, Terminal::CloseBrace)? {
            return Ok((found, closing));
        }
    }
    Err(Fault::Starved)
}
