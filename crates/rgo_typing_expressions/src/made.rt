//! Objects that `new` makes, and the structs that names mean.
#![tactic(auto)]

ghost use Rattle.std.specs.Prelude.{◌≡◌, [], ◌∷◌};
ghost use Rattle.rgo_typed.specs.declared.actions.Action.TheVariants as action;
ghost use Rattle.rgo_typing_rules.specs.Nodes as node;
ghost use Rattle.rgo_typing_rules.specs.Types.{plain};
ghost use Rattle.rgo_typing_rules.specs.Views.{shape_of};
ghost use Rattle.rgo_typing_expressions.specs.Checking as checking;
ghost use Rattle.rgo_typing_expressions.specs.Results.{ChecksTo};
ghost use Rattle.rgo_typing_expressions.specs.Scopes as scopes;
ghost use Rattle.rgo_typing_expressions.specs.Terms as terms;
ghost use Rattle.rgo_typing_expressions.specs.Types as types;

use crate::types::pointer_base;
use rgo_ast::Place;
use rgo_typed::Action;
use rgo_typing_nodes::check_pointed;
use rgo_typing_operations::{Checked, atom, plain};
use rgo_typing_rules::{Kind, Meaning, Shape, TypeError};
use std::alloc::Global;

/// The number of the struct that a name means. For other names the 0 is not used: the rules refuse them.
pub(crate) fn struct_number(meaning: Option<Meaning>) -> usize
    ensures { result ≡ checking.struct_number meaning }
{
    match meaning {
        Some(Meaning::Struct(number)) => number,
        _ => 0,
    }
}

/// A pointer to the struct that a name means.
pub(crate) fn pointer<'a>(meaning: Option<Meaning>) -> Shape<'a>
    ensures { shape_of result ≡ types.pointer_shape meaning }
{
    Shape::Value(Kind::Plain(pointer_base(meaning)))
}

/// `new(T)` (The Go Programming Language Specification, "Allocation").
pub(crate) fn new_object<'a>(
    alloc: Global,
    meaning: Option<Meaning>,
    at: Place,
) -> Result<Checked<'a>, TypeError>
    ensures { ChecksTo result ((at, node.Pointed meaning) ∷ []) (types.pointer_shape meaning)
        (terms.atom (action.New (checking.struct_number meaning))
        (plain (scopes.pointer_base meaning)) at) }
{
    check_pointed(at, meaning)?;
    let ty = plain(alloc, pointer_base(meaning));
    Ok(Checked {
        term: atom(alloc, Action::New(struct_number(meaning)), ty, at),
        shape: pointer(meaning),
    })
}
