//! Expressions that break no rule: what a check returns, and so what operations take.
#![tactic(auto)]

ghost use Rattle.std.specs.Prelude.{IfOk};
ghost use Rattle.rgo_typed.specs.Tree as tree;
ghost use Rattle.rgo_typed.specs.Views.{term_of};
ghost use Rattle.rgo_typing_rules.specs.Shapes as shape;
ghost use Rattle.rgo_typing_rules.specs.Views.{type_of_kind};
ghost use Rattle.rgo_typing_operations.specs.Results.{Matches};
ghost use Rattle.rgo_typing_operations.specs.Terms as terms;

use crate::terms::{apply_one, apply_two};
use rgo_ast::Place;
use rgo_typed::{Action, Term};
use rgo_typing_rules::{Kind, Shape};
use std::alloc::{AllocError, Global};

/// An expression that breaks no rule: its typed tree, and its shape. The tree is kept and the shape is for the rules on whatever the
/// expression is part of.
#[derive(Drop)]
pub struct Checked<'a> {
    pub term: Term,
    pub shape: Shape<'a>,
}

/// An action on one part, as a value of this type.
pub fn applied<'a>(
    alloc: Global,
    action: Action,
    part: Term,
    kind: Kind<'a>,
    at: Place,
) -> Result<Checked<'a>, AllocError>
    ensures { IfOk result (λ e. Matches e (shape.Value (type_of_kind kind.entry))
        (tree.Apply action (terms.one (term_of part)) (type_of_kind kind.entry) at)) }
{
    let ty = kind.to_type(alloc)?;
    let term = apply_one(alloc, action, part, ty, at)?;
    let shape = Shape::Value(kind);
    Ok(Checked { term, shape })
}

/// An action on two parts, as a value of this type.
pub fn applied_to_two<'a>(
    alloc: Global,
    action: Action,
    first: Term,
    second: Term,
    kind: Kind<'a>,
    at: Place,
) -> Result<Checked<'a>, AllocError>
    ensures { IfOk result (λ e. Matches e (shape.Value (type_of_kind kind.entry))
        (tree.Apply action (terms.pair_of_terms (term_of first) (term_of second)) (type_of_kind kind.entry) at)) }
{
    let ty = kind.to_type(alloc)?;
    let term = apply_two(alloc, action, first, second, ty, at)?;
    let shape = Shape::Value(kind);
    Ok(Checked { term, shape })
}
