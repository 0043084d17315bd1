//! Declarations of local variables by `var`. They may have a value, unlike those of package variables (`declarations`).

ghost use Rattle.std.specs.Prelude.{◌≡◌, false};
ghost use Rattle.rgo_ast.specs.Tree as tree;
ghost use Rattle.rgo_ast.specs.Views.{type_expr_of, local_var_of, stmt_of};
ghost use Rattle.rgo_grammar.specs.reading.Expressions as reading_exprs;
ghost use Rattle.rgo_grammar.specs.reading.Statements as reading;
ghost use Rattle.rgo_grammar.specs.reading.Read.{next_lexeme};
ghost use Rattle.rgo_reader.specs.Agrees.{Agrees, leaf_of};

use crate::expressions::expr;
use crate::items::{Item, group};
use rgo_ast::{AssignOp, Binding, Ident, LocalVar, Stmt, TypeExpr};
use rgo_lexer::{Lexeme, Terminal};
use rgo_reader::{Fault, Read, Reader, ty, typed_names};
use std::alloc::Global;

// After the type of a declaration of one name: an initial value, or nothing.
fn initial(
    alloc: Global,
    reader: &mut Reader<'_, '_>,
    turns: usize,
    one: Ident,
    ty: TypeExpr,
) -> Read<LocalVar>
    ensures { Agrees local_var_of result reader.new
        (reading.initial (reading_exprs.expr false turns 1) (leaf_of one) (type_expr_of ty) reader.old
        (next_lexeme reader.old)) }
{
    if let Some(lexeme) = reader.peek() {
        if let Terminal::Assign(AssignOp::Plain) = lexeme.terminal {
            reader.pass();
            let value = expr(alloc, reader, false, turns, 1)?;
            return Ok(LocalVar::Typed(one, ty, value, lexeme.at));
        }
    }
    let mut names = Vec::new(alloc);
    names.push(one)?;
    Ok(LocalVar::Zero(Binding { names, ty }))
}

impl Item for LocalVar {
    ghost Tree = { tree.LocalVar };

    ghost tree_of = { local_var_of };

    ghost reads = { λ n. reading.local_var n (reading_exprs.expr false n 1) };

    /// Names with their type, or one name with its type and value, or with its value alone.
    fn read(alloc: Global, reader: &mut Reader<'_, '_>, turns: usize) -> Read<LocalVar> {
        let one = reader.name(alloc)?;
        let Some(lexeme) = reader.peek() else {
            return Err(Fault::Syntax);
        };
        match lexeme.terminal {
            Terminal::Comma => Ok(LocalVar::Zero(typed_names(alloc, reader, turns, one)?)),
            Terminal::Assign(AssignOp::Plain) => {
                reader.pass();
                let value = expr(alloc, reader, false, turns, 1)?;
                Ok(LocalVar::Inferred(one, value, lexeme.at))
            }
            _ => {
                let ty = ty(alloc, reader, turns)?;
                initial(alloc, reader, turns, one, ty)
            }
        }
    }
}

/// A declaration of local variables after its keyword, `word`.
#[tactic(auto, using(crate::proofs::StmtTurns::vars_are))]
pub(crate) fn vars(
    alloc: Global,
    reader: &mut Reader<'_, '_>,
    turns: usize,
    word: &Lexeme<'_>,
) -> Read<Stmt>
    ensures { Agrees stmt_of result reader.new
        (reading.vars turns (reading_exprs.expr false turns 1) word.now.leaf reader.old) }
{
    let found = group::<LocalVar>(alloc, reader, turns)?;
    Ok(Stmt::Var(found, word.at))
}
