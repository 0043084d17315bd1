//! Operators before and between the operands of an expression, with their precedence.

ghost use Rattle.std.specs.Prelude.{◌≡◌};
ghost use Rattle.rgo_grammar.specs.Grammar.{level};
ghost use Rattle.rgo_grammar.specs.reading.Read.{Done};
ghost use Rattle.rgo_reader.specs.Agrees.{Agrees};
ghost use Rattle.rgo_reader.specs.Expressions as parts;

use crate::readers::{Fault, Read, Reader};
use rgo_ast::{BinaryOp, UnaryOp};
use rgo_lexer::Terminal;

/// The beginning of a unary expression, with its place: a sign, the `&` of a literal, or nothing.
#[derive(Clone, Copy)]
pub enum Prefix {
    None,
    Sign(UnaryOp, usize),
    Literal(usize),
}

/// The precedence of an operator, from 1 to 5, where 5 binds most tightly (The Go Programming Language Specification, "Operator
/// precedence").
pub fn level(op: BinaryOp) -> u8
    ensures { result ≡ level op }
{
    match op {
        BinaryOp::Mul | BinaryOp::Div | BinaryOp::Rem => 5,
        BinaryOp::Add | BinaryOp::Sub => 4,
        BinaryOp::Eq | BinaryOp::Ne | BinaryOp::Lt | BinaryOp::Le | BinaryOp::Gt | BinaryOp::Ge =>
            3,
        BinaryOp::And => 2,
        BinaryOp::Or => 1,
    }
}

/// Reads a binary operator that binds at least as tightly as `least`, and returns it with its place. If none is next, it reads
/// nothing: the operator belongs to an enclosing expression, or the expression has ended.
pub fn operator(reader: &mut Reader<'_, '_>, least: u8) -> Option<(BinaryOp, usize)>
    ensures { parts.operator least reader.old ≡ Done result reader.new }
{
    let lexeme = reader.peek()?;
    let Terminal::Binary(op) = lexeme.terminal else {
        return None;
    };
    if level(op) < least {
        return None;
    }
    reader.pass();
    Some((op, lexeme.at))
}

/// Reads the beginning of a unary expression. In a header `&` is a syntax error: the `{` of a literal would look like that of the
/// block.
pub fn read_prefix(reader: &mut Reader<'_, '_>, header: bool) -> Read<Prefix>
    ensures { Agrees (λ x. x) result reader.new (parts.read_prefix header reader.old) }
{
    let Some(lexeme) = reader.peek() else {
        return Err(Fault::Syntax);
    };
    let found = match lexeme.terminal {
        Terminal::Binary(BinaryOp::Add) => Prefix::Sign(UnaryOp::Plus, lexeme.at),
        Terminal::Binary(BinaryOp::Sub) => Prefix::Sign(UnaryOp::Minus, lexeme.at),
        Terminal::Bang => Prefix::Sign(UnaryOp::Not, lexeme.at),
        Terminal::Arrow => Prefix::Sign(UnaryOp::Receive, lexeme.at),
        Terminal::Ampersand => {
            if header {
                return Err(Fault::Syntax);
            }
            Prefix::Literal(lexeme.at)
        }
        _ => return Ok(Prefix::None),
    };
    reader.pass();
    Ok(found)
}
