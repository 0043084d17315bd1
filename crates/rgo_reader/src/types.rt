//! Names and types, and the two together, as in parameters and fields.

ghost use Rattle.std.specs.Prelude.{◌≡◌, ◌∷◌, []};
ghost use Rattle.rgo_ast.specs.Views.{type_expr_of, binding_of};
ghost use Rattle.rgo_grammar.specs.reading.Types as reading;
ghost use Rattle.rgo_reader.specs.Agrees.{Agrees};

use crate::readers::{Fault, Read, Reader, ident};
use rgo_ast::{BinaryOp, Binding, Ident, TypeExpr};
use rgo_lexer::Terminal;
use std::alloc::Global;

/// A type.
#[tactic(auto, using(crate::proofs::TypeTurns::type_turns))]
pub fn ty(alloc: Global, reader: &mut Reader<'_, '_>, turns: usize) -> Read<TypeExpr>
    ensures { Agrees type_expr_of result reader.new (reading.a_type turns reader.old) }
{
    if turns == 0 {
        return Err(Fault::Starved);
    }
    let Some(lexeme) = reader.peek() else {
        return Err(Fault::Syntax);
    };
    match lexeme.terminal {
        Terminal::Name => {
            reader.pass();
            Ok(TypeExpr::Named(ident(alloc, lexeme)?))
        }
        Terminal::Binary(BinaryOp::Mul) => {
            reader.pass();
            let base = reader.name(alloc)?;
            Ok(TypeExpr::Pointer(base, lexeme.at))
        }
        Terminal::OpenBracket => {
            reader.pass();
            reader.take(Terminal::CloseBracket)?;
            let element = ty(alloc, reader, turns - 1)?;
            Ok(TypeExpr::Slice(Box::new(alloc, element)?, lexeme.at))
        }
        Terminal::Chan => {
            reader.pass();
            let element = ty(alloc, reader, turns - 1)?;
            Ok(TypeExpr::Chan(Box::new(alloc, element)?, lexeme.at))
        }
        _ => Err(Fault::Syntax),
    }
}

// The names of a declaration after the first, which was read.
#[tactic(auto, using(crate::proofs::TypeTurns::name_turns))]
fn names(alloc: Global, reader: &mut Reader<'_, '_>, turns: usize, one: Ident) -> Read<Vec<Ident>>
    ensures { Agrees (λ x. x.items) result reader.new (reading.names turns (one ∷ []) reader.old) }
{
    let mut found = Vec::new(alloc);
    found.push(one)?;
    for turn in 0..turns {
        match reader.peek() {
            Some(lexeme) if lexeme.terminal.stands_as(Terminal::Comma) => {
                reader.pass();
                found.push(reader.name(alloc)?)?;
            }
            _ => return Ok(found),
        }
    }
    Err(Fault::Starved)
}

/// The names of a declaration, the first of which was read, and their type. The parser has to read the first name to tell a local
/// declaration with a type from one with a value only.
pub fn typed_names(
    alloc: Global,
    reader: &mut Reader<'_, '_>,
    turns: usize,
    one: Ident,
) -> Read<Binding>
    ensures { Agrees binding_of result reader.new (reading.typed_names turns (one ∷ []) reader.old) }
{
    let names = names(alloc, reader, turns, one)?;
    let ty = ty(alloc, reader, turns)?;
    Ok(Binding { names, ty })
}

/// Names and their type.
pub fn binding(alloc: Global, reader: &mut Reader<'_, '_>, turns: usize) -> Read<Binding>
    ensures { Agrees binding_of result reader.new (reading.a_binding turns reader.old) }
{
    let one = reader.name(alloc)?;
    typed_names(alloc, reader, turns, one)
}
