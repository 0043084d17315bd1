//! Imports, and declarations of types, package variables and functions. Only a function's block leads into the cycle of `statements`.

ghost use Rattle.std.specs.Prelude.{◌≡◌, option_map};
ghost use Rattle.rgo_ast.specs.Views.{type_expr_of, binding_of, type_spec_of, function_of, decl_of, import_of};
ghost use Rattle.rgo_ast.specs.Tree as tree;
ghost use Rattle.rgo_ast.specs.declared.names.ImportPath.{ImportPath};
ghost use Rattle.rgo_grammar.specs.reading.Read.{next_lexeme};
ghost use Rattle.rgo_grammar.specs.reading.Declarations as reading;
ghost use Rattle.rgo_grammar.specs.reading.Types as reading_types;
ghost use Rattle.rgo_reader.specs.Agrees.{Agrees, leaf_at};

use crate::items::{Item, group, list};
use crate::statements::block;
use rgo_ast::{Binding, Decl, Function, Import, ImportPath, Name, TypeExpr, TypeSpec};
use rgo_lexer::{Lexeme, Terminal, unquoted};
use rgo_reader::{Fault, Read, Reader, binding, ty};
use std::alloc::Global;

impl Item for ImportPath {
    ghost Tree = { ImportPath };

    ghost tree_of = { λ path. path };

    ghost reads = { λ _. reading.import_path };

    /// The path of an import.
    fn read(alloc: Global, reader: &mut Reader<'_, '_>, _turns: usize) -> Read<ImportPath> {
        let lexeme = reader.take(Terminal::Text)?;
        Ok(ImportPath {
            path: Name::new(unquoted(alloc, lexeme.word)?),
            at: lexeme.at,
        })
    }
}

impl Item for Binding {
    ghost Tree = { tree.Binding };

    ghost tree_of = { binding_of };

    ghost reads = { reading_types.a_binding };

    /// Names and their type.
    fn read(alloc: Global, reader: &mut Reader<'_, '_>, turns: usize) -> Read<Binding> {
        binding(alloc, reader, turns)
    }
}

impl Item for TypeSpec {
    ghost Tree = { tree.TypeSpec };

    ghost tree_of = { type_spec_of };

    ghost reads = { reading.type_spec };

    /// A type with its name.
    fn read(alloc: Global, reader: &mut Reader<'_, '_>, turns: usize) -> Read<TypeSpec> {
        let name = reader.name(alloc)?;
        reader.take(Terminal::Struct)?;
        reader.take(Terminal::OpenBrace)?;
        let (fields, _) = list::<Binding>(
            alloc,
            reader,
            turns,
            Terminal::Semicolon,
            Terminal::CloseBrace,
        )?;
        Ok(TypeSpec { name, fields })
    }
}

/// A declaration of imports after its keyword, `word`.
pub(crate) fn import(
    alloc: Global,
    reader: &mut Reader<'_, '_>,
    turns: usize,
    word: &Lexeme<'_>,
) -> Read<Import>
    ensures { Agrees import_of result reader.new
        (reading.import_decl turns word.now.leaf reader.old) }
{
    let paths = group::<ImportPath>(alloc, reader, turns)?;
    Ok(Import { paths, at: word.at })
}

// The type of a function's result, if it has one, up to the function's block.
fn result_type(alloc: Global, reader: &mut Reader<'_, '_>, turns: usize) -> Read<Option<TypeExpr>>
    ensures { Agrees (option_map type_expr_of) result reader.new
        (reading.result_on turns reader.old (next_lexeme reader.old)) }
{
    let Some(lexeme) = reader.peek() else {
        return Err(Fault::Syntax);
    };
    match lexeme.terminal {
        Terminal::OpenBrace => Ok(None),
        _ => Ok(Some(ty(alloc, reader, turns)?)),
    }
}

// A function after its `func`, which is at `at`.
fn func(alloc: Global, reader: &mut Reader<'_, '_>, turns: usize, at: usize) -> Read<Function>
    ensures { Agrees (λ f. tree.Func (function_of f)) result reader.new
        (reading.func turns (leaf_at at) reader.old) }
{
    let name = reader.name(alloc)?;
    reader.take(Terminal::OpenParen)?;
    let (params, _) = list::<Binding>(alloc, reader, turns, Terminal::Comma, Terminal::CloseParen)?;
    let result_type = result_type(alloc, reader, turns)?;
    let (body, end) = block(alloc, reader, turns)?;
    Ok(Function {
        name,
        params,
        result_type,
        body,
        at,
        end: end.at,
    })
}

/// A declaration of types or variables, or of a function.
pub(crate) fn decl(alloc: Global, reader: &mut Reader<'_, '_>, turns: usize) -> Read<Decl>
    ensures { Agrees decl_of result reader.new
        (reading.decl_on turns reader.old (next_lexeme reader.old)) }
{
    let Some(lexeme) = reader.peek() else {
        return Err(Fault::Syntax);
    };
    let at = lexeme.at;
    match lexeme.terminal {
        Terminal::TypeWord => {
            reader.pass();
            Ok(Decl::Types(group::<TypeSpec>(alloc, reader, turns)?, at))
        }
        Terminal::Var => {
            reader.pass();
            Ok(Decl::Vars(group::<Binding>(alloc, reader, turns)?, at))
        }
        Terminal::Func => {
            reader.pass();
            Ok(Decl::Func(func(alloc, reader, turns, at)?))
        }
        _ => Err(Fault::Syntax),
    }
}
