//! Whole programs: the package clause, the imports, and the declarations. `parser` calls [`program`] once per list of lexemes.

ghost use Rattle.std.specs.Prelude.{◌≡◌, [], map};
ghost use Rattle.rgo_ast.specs.Views.{decl_of, import_of};
ghost use Rattle.rgo_grammar.specs.reading.Declarations as reading;
ghost use Rattle.rgo_reader.specs.Agrees.{Agrees, leaf_in};

use crate::declarations::{decl, import};
use rgo_ast::{Decl, Import};
use rgo_lexer::{Lexeme, Terminal};
use rgo_reader::{Fault, Read, Reader};
use std::alloc::Global;

// Declarations, each with its `;`, up to the end of the lexemes.
#[tactic(auto, using(crate::proofs::DeclTurns::decl_turns))]
fn decls(alloc: Global, reader: &mut Reader<'_, '_>, turns: usize) -> Read<Vec<Decl>>
    ensures { Agrees (λ x. map decl_of x.items) result reader.new
        (reading.decls turns turns [] reader.old) }
{
    let mut found = Vec::new(alloc);
    for turn in 0..turns {
        if reader.peek().is_none() {
            return Ok(found);
        }
        let one = decl(alloc, reader, turns)?;
        found.push(one)?;
        reader.take(Terminal::Semicolon)?;
    }
    Err(Fault::Starved)
}

// Declarations of imports, each with its `;`, while one is next. An import after another declaration is a syntax error.
#[tactic(auto, using(crate::proofs::DeclTurns::import_turns))]
fn imports(alloc: Global, reader: &mut Reader<'_, '_>, turns: usize) -> Read<Vec<Import>>
    ensures { Agrees (λ x. map import_of x.items) result reader.new
        (reading.imports turns turns [] reader.old) }
{
    let mut found = Vec::new(alloc);
    for turn in 0..turns {
        let Some(lexeme) = reader.peek() else {
            return Ok(found);
        };
        let Terminal::Import = lexeme.terminal else {
            return Ok(found);
        };
        reader.pass();
        let one = import(alloc, reader, turns, lexeme)?;
        found.push(one)?;
        reader.take(Terminal::Semicolon)?;
    }
    Err(Fault::Starved)
}

// `package main ;`. It returns its last lexeme.
fn head<'r, 'a>(reader: &mut Reader<'r, 'a>) -> Read<&'r Lexeme<'a>>
    ensures { Agrees leaf_in result reader.new (reading.head reader.old) }
{
    reader.take(Terminal::Package)?;
    reader.take(Terminal::Main)?;
    reader.take(Terminal::Semicolon)
}

/// The imports and the declarations of a program.
pub(crate) fn program(
    alloc: Global,
    reader: &mut Reader<'_, '_>,
    turns: usize,
) -> Read<(Vec<Import>, Vec<Decl>)>
    ensures { Agrees (λ x. (map import_of x.0.items, map decl_of x.1.items)) result reader.new
        (reading.program turns reader.old) }
{
    head(reader)?;
    let imports = imports(alloc, reader, turns)?;
    let decls = decls(alloc, reader, turns)?;
    Ok((imports, decls))
}
