//! Slices and channels that `make` makes, from their checked parts.
#![tactic(auto)]

ghost use Rattle.std.specs.Prelude.{◌≡◌, [], ◌∷◌, IfOk, pos};
ghost use Rattle.rgo_typed.specs.Tree as tree;
ghost use Rattle.rgo_typed.specs.Views.{term_of};
ghost use Rattle.rgo_typed.specs.declared.actions.Action.TheVariants as action;
ghost use Rattle.rgo_typing_rules.specs.Nodes as node;
ghost use Rattle.rgo_typing_rules.specs.Shapes as shape;
ghost use Rattle.rgo_typing_rules.specs.Views.{type_of_kind, shape_of};
ghost use Rattle.rgo_typing_operations.specs.Results.{ChecksTo, Matches};
ghost use Rattle.rgo_typing_operations.specs.Terms as terms;

use crate::results::{Checked, applied};
use crate::terms::constant;
use rgo_ast::Place;
use rgo_typed::Action;
use rgo_typing_nodes::check_size;
use rgo_typing_rules::{Kind, TypeError};
use std::alloc::{AllocError, Global};

/// `make([]T, n)`, of the slice's type (The Go Programming Language Specification, "Making slices,
/// maps and channels").
pub fn make_slice<'a>(
    alloc: Global,
    kind: Kind<'a>,
    size: Checked<'a>,
    at: Place,
) -> Result<Checked<'a>, TypeError>
    ensures { ChecksTo result ((at, node.Size (shape_of size.entry.shape)) ∷ [])
        (shape.Value (type_of_kind kind.entry))
        (tree.Apply action.Slice (terms.one (term_of size.entry.term)) (type_of_kind kind.entry) at) }
{
    check_size(at, size.shape)?;
    Ok(applied(alloc, Action::Slice, size.term, kind, at)?)
}

/// `make(chan T)`, of the channel's type: its capacity is 0. It has no size that a rule could refuse.
pub fn make_channel<'a>(alloc: Global, kind: Kind<'a>, at: Place) -> Result<Checked<'a>, AllocError>
    ensures { IfOk result (λ e. Matches e (shape.Value (type_of_kind kind.entry))
        (tree.Apply action.Chan (terms.one (terms.int_constant (pos 0) at)) (type_of_kind kind.entry) at)) }
{
    applied(alloc, Action::Chan, constant(alloc, 0, at), kind, at)
}

/// `make(chan T, n)`, of the channel's type and its capacity.
pub fn make_buffered<'a>(
    alloc: Global,
    kind: Kind<'a>,
    capacity: Checked<'a>,
    at: Place,
) -> Result<Checked<'a>, TypeError>
    ensures { ChecksTo result ((at, node.Size (shape_of capacity.entry.shape)) ∷ [])
        (shape.Value (type_of_kind kind.entry))
        (tree.Apply action.Chan (terms.one (term_of capacity.entry.term)) (type_of_kind kind.entry) at) }
{
    check_size(at, capacity.shape)?;
    Ok(applied(alloc, Action::Chan, capacity.term, kind, at)?)
}
