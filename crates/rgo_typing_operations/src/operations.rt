//! Unary operations and index expressions, from their checked operands.
#![tactic(auto)]

ghost use Rattle.std.specs.Prelude.{◌≡◌, [], ◌∷◌, IfOk};
ghost use Rattle.rgo_ast.specs.declared.ops.UnaryOp.TheVariants.{Plus, Minus, Not, Receive};
ghost use Rattle.rgo_typed.specs.Tree as tree;
ghost use Rattle.rgo_typed.specs.Views.{term_of};
ghost use Rattle.rgo_typed.specs.declared.actions.Action.TheVariants as action;
ghost use Rattle.rgo_typing_rules.specs.Constants.{folded_shape};
ghost use Rattle.rgo_typing_rules.specs.Nodes as node;
ghost use Rattle.rgo_typing_rules.specs.Shapes as shape;
ghost use Rattle.rgo_typing_rules.specs.Views.{shape_of};
ghost use Rattle.rgo_typing_operations.specs.Results.{ChecksTo, Matches};
ghost use Rattle.rgo_typing_operations.specs.Terms as terms;
ghost use Rattle.rgo_typing_operations.specs.Types as types;

use crate::results::{Checked, applied, applied_to_two};
use crate::terms::{apply_one, constant, plain};
use rgo_ast::{Place, UnaryOp};
use rgo_typed::{Action, Base, Term};
use rgo_typing_nodes::{check_index, check_unary};
use rgo_typing_rules::{Kind, Shape, TypeError};
use std::alloc::{AllocError, Global};

/// `+x`: the operand itself, since no action is needed.
fn plus<'a>(operand: Checked<'a>, at: Place) -> Result<Checked<'a>, TypeError>
    ensures { ChecksTo result ((at, node.Unary Plus (shape_of operand.entry.shape)) ∷ [])
        (types.constant_or (folded_shape Plus (shape_of operand.entry.shape))
        (shape.Value types.int))
        (term_of operand.entry.term) }
{
    let shape = match check_unary(at, UnaryOp::Plus, operand.shape)? {
        Some(n) => Shape::Constant(n),
        None => Shape::Value(Kind::Plain(Base::Int)),
    };
    Ok(Checked {
        term: operand.term,
        shape,
    })
}

/// The negated operand, or a constant in its place: typed trees have the values of constant operations and not the operations.
fn negated<'a>(
    alloc: Global,
    value: Option<i64>,
    operand: Term,
    at: Place,
) -> Result<Checked<'a>, AllocError>
    ensures { IfOk result (λ e. Matches e (types.constant_or value (shape.Value types.int))
        (terms.constant_or_term value at
        (tree.Apply action.Neg (terms.one (term_of operand)) types.int at))) }
{
    match value {
        Some(n) => Ok(Checked {
            term: constant(alloc, n, at),
            shape: Shape::Constant(n),
        }),
        None => {
            let ty = plain(alloc, Base::Int);
            let term = apply_one(alloc, Action::Neg, operand, ty, at)?;
            Ok(Checked {
                term,
                shape: Shape::Value(Kind::Plain(Base::Int)),
            })
        }
    }
}

/// `-x`.
fn minus<'a>(alloc: Global, operand: Checked<'a>, at: Place) -> Result<Checked<'a>, TypeError>
    ensures { ChecksTo result ((at, node.Unary Minus (shape_of operand.entry.shape)) ∷ [])
        (types.constant_or (folded_shape Minus (shape_of operand.entry.shape))
        (shape.Value types.int))
        (terms.unary_term Minus (shape_of operand.entry.shape) (term_of operand.entry.term) at) }
{
    let value = check_unary(at, UnaryOp::Minus, operand.shape)?;
    Ok(negated(alloc, value, operand.term, at)?)
}

/// `!x`.
fn not<'a>(alloc: Global, operand: Checked<'a>, at: Place) -> Result<Checked<'a>, TypeError>
    ensures { ChecksTo result ((at, node.Unary Not (shape_of operand.entry.shape)) ∷ [])
        (types.constant_or (folded_shape Not (shape_of operand.entry.shape))
        (shape.Value types.bool))
        (terms.unary_term Not (shape_of operand.entry.shape) (term_of operand.entry.term) at) }
{
    check_unary(at, UnaryOp::Not, operand.shape)?;
    let ty = plain(alloc, Base::Bool);
    let term = apply_one(alloc, Action::Not, operand.term, ty, at)?;
    Ok(Checked {
        term,
        shape: Shape::Value(Kind::Plain(Base::Bool)),
    })
}

/// `<-x`: a receive from a channel.
#[tactic(auto, unfolding(rgo_typing_rules::specs::Rules::broken))]
fn received<'a>(alloc: Global, channel: Checked<'a>, at: Place) -> Result<Checked<'a>, TypeError>
    ensures { ChecksTo result ((at, node.Unary Receive (shape_of channel.entry.shape)) ∷ [])
        (types.element_shape (shape_of channel.entry.shape))
        (terms.unary_term Receive (shape_of channel.entry.shape) (term_of channel.entry.term) at) }
{
    check_unary(at, UnaryOp::Receive, channel.shape)?;
    // Only a value can be a channel, and others were refused.
    let Shape::Value(kind) = channel.shape else {
        unreachable!();
    };
    Ok(applied(alloc, Action::Recv, channel.term, kind.element(), at)?)
}

/// A unary operation.
pub fn unary<'a>(
    alloc: Global,
    op: UnaryOp,
    operand: Checked<'a>,
    at: Place,
) -> Result<Checked<'a>, TypeError>
    ensures { ChecksTo result ((at, node.Unary op (shape_of operand.entry.shape)) ∷ [])
        (types.constant_or (folded_shape op (shape_of operand.entry.shape))
        (types.unary_shape op (shape_of operand.entry.shape)))
        (terms.unary_term op (shape_of operand.entry.shape) (term_of operand.entry.term) at) }
{
    match op {
        UnaryOp::Plus => plus(operand, at),
        UnaryOp::Minus => minus(alloc, operand, at),
        UnaryOp::Not => not(alloc, operand, at),
        UnaryOp::Receive => received(alloc, operand, at),
    }
}

/// An index expression.
#[tactic(auto, unfolding(rgo_typing_rules::specs::Rules::broken))]
pub fn index<'a>(
    alloc: Global,
    slice: Checked<'a>,
    index: Checked<'a>,
    at: Place,
) -> Result<Checked<'a>, TypeError>
    ensures { ChecksTo result
        ((at, node.Index (shape_of slice.entry.shape) (shape_of index.entry.shape)) ∷ [])
        (types.element_shape (shape_of slice.entry.shape))
        (tree.Apply action.At (terms.pair_of_terms (term_of slice.entry.term) (term_of index.entry.term))
        (terms.element_type (shape_of slice.entry.shape)) at) }
{
    check_index(at, slice.shape, index.shape)?;
    let Shape::Value(kind) = slice.shape else {
        unreachable!();
    };
    let element = kind.element();
    Ok(applied_to_two(alloc, Action::At, slice.term, index.term, element, at)?)
}
