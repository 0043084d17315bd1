//! The suffixes of a primary expression, up to the expressions in their brackets.

ghost use Rattle.std.specs.Prelude.{◌≡◌};
ghost use Rattle.rgo_grammar.specs.reading.Expressions as reading;
ghost use Rattle.rgo_reader.specs.Agrees.{Agrees};
ghost use Rattle.rgo_reader.specs.Expressions as parts;

use crate::readers::{Read, Reader};
use rgo_ast::Ident;
use rgo_lexer::Terminal;
use std::alloc::Global;

/// The next suffix of a primary expression: a field, the `[` of an index, the `(` of a call, or nothing.
#[derive(Drop)]
pub enum Suffix {
    None,
    Select(Ident),
    Index(usize),
    Call(usize),
}

/// Reads the next suffix; a field is read whole, an index or a call up to and including its bracket.
pub fn read_suffix(alloc: Global, reader: &mut Reader<'_, '_>) -> Read<Suffix>
    ensures { Agrees (λ x. x) result reader.new (parts.read_suffix reader.old) }
{
    let Some(lexeme) = reader.peek() else {
        return Ok(Suffix::None);
    };
    match lexeme.terminal {
        Terminal::Dot => {
            reader.pass();
            Ok(Suffix::Select(reader.name(alloc)?))
        }
        Terminal::OpenBracket => {
            reader.pass();
            Ok(Suffix::Index(lexeme.at))
        }
        Terminal::OpenParen => {
            reader.pass();
            Ok(Suffix::Call(lexeme.at))
        }
        _ => Ok(Suffix::None),
    }
}

/// Whether a name and a `:` are next, which begin an element of a composite literal with its field.
pub fn is_keyed(reader: &Reader<'_, '_>) -> bool
    ensures { result ≡ reading.is_keyed reader.now }
{
    match (reader.peek(), reader.peek_second()) {
        (Some(first), Some(second)) => first.terminal.stands_as(Terminal::Name)
            && second.terminal.stands_as(Terminal::Colon),
        _ => false,
    }
}
