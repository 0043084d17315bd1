//! Binary operations, from their checked operands.
#![tactic(auto)]

ghost use Rattle.std.specs.Prelude.{◌≡◌, [], ◌∷◌, IfOk};
ghost use Rattle.rgo_typed.specs.Tree as tree;
ghost use Rattle.rgo_typed.specs.Views.{term_of};
ghost use Rattle.rgo_typed.specs.declared.actions.Action.TheVariants.{IsNil};
ghost use Rattle.rgo_typing_rules.specs.Constants.{folded_shapes};
ghost use Rattle.rgo_typing_rules.specs.Nodes as node;
ghost use Rattle.rgo_typing_rules.specs.Shapes as shape;
ghost use Rattle.rgo_typing_rules.specs.Shapes.{is_nil_shape};
ghost use Rattle.rgo_typing_rules.specs.Types.{plain};
ghost use Rattle.rgo_typing_rules.specs.Views.{shape_of};
ghost use Rattle.rgo_typing_operations.specs.Results.{ChecksTo};
ghost use Rattle.rgo_typing_operations.specs.Terms as terms;
ghost use Rattle.rgo_typing_operations.specs.Types as types;

use crate::results::Checked;
use crate::terms::{apply_one, apply_two, constant, plain};
use rgo_ast::{BinaryOp, Place};
use rgo_typed::{Action, Base, Logical, Term};
use rgo_typing_nodes::check_binary;
use rgo_typing_rules::{Kind, Shape, TypeError};
use std::alloc::{AllocError, Global};

/// The type of the result of a binary operation.
fn binary_base(op: BinaryOp) -> Base
    ensures { plain result ≡ types.binary_type op }
{
    match op {
        BinaryOp::Mul | BinaryOp::Div | BinaryOp::Rem | BinaryOp::Add | BinaryOp::Sub => Base::Int,
        _ => Base::Bool,
    }
}

/// The comparison itself, or its opposite: there is one action for the test for `nil`, so `!=` negates it.
fn opposite(alloc: Global, differs: bool, test: Term, at: Place) -> Result<Term, AllocError>
    ensures { IfOk result (λ t. term_of t ≡ terms.negated differs (term_of test) at) }
{
    if differs {
        apply_one(alloc, Action::Not, test, plain(alloc, Base::Bool), at)
    } else {
        Ok(test)
    }
}

/// A test for `nil`, or its opposite.
fn nil_test(alloc: Global, differs: bool, value: Term, at: Place) -> Result<Term, AllocError>
    ensures { IfOk result (λ t. term_of t ≡ terms.negated differs
        (tree.Apply IsNil (terms.one (term_of value)) types.bool at) at) }
{
    let test = apply_one(alloc, Action::IsNil, value, plain(alloc, Base::Bool), at)?;
    opposite(alloc, differs, test, at)
}

/// `==`, or `!=`. With `nil` on one side it is a test of the other side. `nil` on both sides was refused.
fn compared(
    alloc: Global,
    op: BinaryOp,
    differs: bool,
    left: Checked<'_>,
    right: Checked<'_>,
    at: Place,
) -> Result<Term, AllocError>
    ensures { IfOk result (λ t. term_of t ≡ terms.compared op differs
        (is_nil_shape (shape_of left.entry.shape)) (is_nil_shape (shape_of right.entry.shape))
        (term_of left.entry.term) (term_of right.entry.term) at) }
{
    if left.shape.is_nil() {
        nil_test(alloc, differs, right.term, at)
    } else if right.shape.is_nil() {
        nil_test(alloc, differs, left.term, at)
    } else {
        let ty = plain(alloc, Base::Bool);
        apply_two(alloc, Action::Binary(op), left.term, right.term, ty, at)
    }
}

fn logic(alloc: Global, op: Logical, left: Term, right: Term, at: Place) -> Result<Term, AllocError>
    ensures { IfOk result (λ t. term_of t ≡ tree.Logic op (term_of left) (term_of right) at) }
{
    Ok(Term::Logic(op, Box::new(alloc, left)?, Box::new(alloc, right)?, at))
}

/// A binary operation whose value is not a constant.
fn operation(
    alloc: Global,
    op: BinaryOp,
    left: Checked<'_>,
    right: Checked<'_>,
    at: Place,
) -> Result<Term, AllocError>
    ensures { IfOk result (λ t. term_of t ≡ terms.operation op
        (shape_of left.entry.shape) (shape_of right.entry.shape)
        (term_of left.entry.term) (term_of right.entry.term) at) }
{
    match op {
        BinaryOp::And => logic(alloc, Logical::And, left.term, right.term, at),
        BinaryOp::Or => logic(alloc, Logical::Or, left.term, right.term, at),
        BinaryOp::Eq => compared(alloc, op, false, left, right, at),
        BinaryOp::Ne => compared(alloc, op, true, left, right, at),
        _ => {
            let ty = plain(alloc, binary_base(op));
            apply_two(alloc, Action::Binary(op), left.term, right.term, ty, at)
        }
    }
}

/// A binary operation, or a constant in its place.
fn constant_or_operation(
    alloc: Global,
    value: Option<i64>,
    op: BinaryOp,
    left: Checked<'_>,
    right: Checked<'_>,
    at: Place,
) -> Result<Term, AllocError>
    ensures { IfOk result (λ t. term_of t ≡ terms.constant_or_term value at (terms.operation op
        (shape_of left.entry.shape) (shape_of right.entry.shape)
        (term_of left.entry.term) (term_of right.entry.term) at)) }
{
    match value {
        Some(n) => Ok(constant(alloc, n, at)),
        None => operation(alloc, op, left, right, at),
    }
}

/// The shape of the result of a binary operation.
fn binary_shape<'a>(value: Option<i64>, op: BinaryOp) -> Shape<'a>
    ensures { shape_of result ≡ types.constant_or value (shape.Value (types.binary_type op)) }
{
    match value {
        Some(n) => Shape::Constant(n),
        None => Shape::Value(Kind::Plain(binary_base(op))),
    }
}

/// A binary operation.
pub fn binary<'a>(
    alloc: Global,
    op: BinaryOp,
    left: Checked<'a>,
    right: Checked<'a>,
    at: Place,
) -> Result<Checked<'a>, TypeError>
    ensures { ChecksTo result
        ((at, node.Binary op (shape_of left.entry.shape) (shape_of right.entry.shape)) ∷ [])
        (types.constant_or
        (folded_shapes op (shape_of left.entry.shape) (shape_of right.entry.shape))
        (shape.Value (types.binary_type op)))
        (terms.binary_term op (shape_of left.entry.shape) (shape_of right.entry.shape)
        (term_of left.entry.term) (term_of right.entry.term) at) }
{
    let value = check_binary(at, op, left.shape, right.shape)?;
    let term = constant_or_operation(alloc, value, op, left, right, at)?;
    let shape = binary_shape(value, op);
    Ok(Checked { term, shape })
}
