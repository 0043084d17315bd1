//! Simple statements: those that may also be part of a header. They hold expressions but no statement, so `headers` and `openings`
//! can read them outside the cycle of `statements`.

ghost use Rattle.std.specs.Prelude.{◌≡◌};
ghost use Rattle.rgo_ast.specs.Views.{stmt_of};
ghost use Rattle.rgo_grammar.specs.reading.Expressions as reading_exprs;
ghost use Rattle.rgo_grammar.specs.reading.Statements as reading;
ghost use Rattle.rgo_reader.specs.Agrees.{Agrees};

use crate::expressions::expr;
use rgo_ast::Stmt;
use rgo_lexer::Terminal;
use rgo_reader::{Fault, Read, Reader, ident};
use std::alloc::Global;

/// A simple statement that begins with an expression. `header`: it is between `if` or `for` and its block, where no literal may
/// begin, since its `{` would look like that of the block.
pub(crate) fn valued(
    alloc: Global,
    reader: &mut Reader<'_, '_>,
    header: bool,
    turns: usize,
) -> Read<Stmt>
    ensures { Agrees stmt_of result reader.new
        (reading.valued (reading_exprs.expr header turns 1) reader.old) }
{
    let value = expr(alloc, reader, header, turns, 1)?;
    let Some(lexeme) = reader.peek() else {
        return Ok(Stmt::Plain(value));
    };
    match lexeme.terminal {
        Terminal::Arrow => {
            reader.pass();
            let sent = expr(alloc, reader, header, turns, 1)?;
            Ok(Stmt::Send(value, sent, lexeme.at))
        }
        Terminal::Step(op) => {
            reader.pass();
            Ok(Stmt::Step(op, value, lexeme.at))
        }
        Terminal::Assign(op) => {
            reader.pass();
            let assigned = expr(alloc, reader, header, turns, 1)?;
            Ok(Stmt::Assign(op, value, assigned, lexeme.at))
        }
        _ => Ok(Stmt::Plain(value)),
    }
}

/// A simple statement that may be a definition; `header` as for `valued`. Only the second lexeme distinguishes a definition from an
/// expression, so this looks two ahead.
pub(crate) fn defining(
    alloc: Global,
    reader: &mut Reader<'_, '_>,
    header: bool,
    turns: usize,
) -> Read<Stmt>
    ensures { Agrees stmt_of result reader.new
        (reading.defining (reading_exprs.expr header turns 1) reader.old) }
{
    let Some(name) = reader.peek() else {
        return Err(Fault::Syntax);
    };
    let Terminal::Name = name.terminal else {
        return valued(alloc, reader, header, turns);
    };
    let Some(define) = reader.peek_second() else {
        return valued(alloc, reader, header, turns);
    };
    match define.terminal {
        Terminal::Define => {
            reader.pass();
            reader.pass();
            let defined = ident(alloc, name)?;
            let value = expr(alloc, reader, header, turns, 1)?;
            Ok(Stmt::Define(defined, value, define.at))
        }
        _ => valued(alloc, reader, header, turns),
    }
}
