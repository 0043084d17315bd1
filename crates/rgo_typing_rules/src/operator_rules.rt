//! Which rules sizes, index expressions and operations may break.
#![tactic(auto, unfolding(crate::specs::Rules::broken))]

ghost use Rattle.std.specs.Prelude.{◌≡◌};
ghost use Rattle.rgo_typing_rules.specs.Constants.{folded, folded_shape, folded_shapes, is_out_of_range};
ghost use Rattle.rgo_typing_rules.specs.Nodes as spec;
ghost use Rattle.rgo_typing_rules.specs.Rules.{broken, ints, operands_of, divides, is_zero_shape, is_below_zero_shape};
ghost use Rattle.rgo_typing_rules.specs.Views.{shape_of};
ghost use Rattle.rgo_ast.specs.declared.ops.BinaryOp.TheVariants.{Eq};

use crate::constants::{fold, fold_one};
use crate::rules::Rule;
use crate::shapes::Shape;
use rgo_ast::{BinaryOp, UnaryOp};

fn is_below_zero(shape: Shape<'_>) -> bool
    ensures { result ≡ is_below_zero_shape (shape_of shape.entry) }
{
    match shape {
        Shape::Constant(n) => n < 0,
        _ => false,
    }
}

pub(crate) fn is_zero(shape: Shape<'_>) -> bool
    ensures { result ≡ is_zero_shape (shape_of shape.entry) }
{
    match shape {
        Shape::Constant(n) => n == 0,
        _ => false,
    }
}

pub(crate) fn sized(size: Shape<'_>) -> Option<Rule>
    ensures { result ≡ broken (spec.Size (shape_of size.entry)) }
{
    if !size.is_int() {
        Some(Rule::NotInt)
    } else {
        Rule::ConstSize.when(is_below_zero(size))
    }
}

pub(crate) fn indexed(operand: Shape<'_>, index: Shape<'_>) -> Option<Rule>
    ensures { result ≡ broken (spec.Index (shape_of operand.entry) (shape_of index.entry)) }
{
    if !(operand.is_slice() && index.is_int()) {
        Some(Rule::NotIndexable)
    } else {
        Rule::ConstIndex.when(is_below_zero(index))
    }
}

/// Whether a constant operation leaves the range.
fn leaves_range_alone(op: UnaryOp, operand: Shape<'_>) -> bool
    ensures { result ≡ is_out_of_range (folded_shape op (shape_of operand.entry)) }
{
    match (op, operand) {
        (UnaryOp::Minus, Shape::Constant(n)) => fold_one(op, n).is_none(),
        _ => false,
    }
}

pub(crate) fn unary(op: UnaryOp, operand: Shape<'_>) -> Option<Rule>
    ensures { result ≡ broken (spec.Unary op (shape_of operand.entry)) }
{
    match op {
        UnaryOp::Plus => Rule::Mismatch.when(!operand.is_int()),
        UnaryOp::Minus => {
            if !operand.is_int() {
                Some(Rule::Mismatch)
            } else {
                Rule::ConstRange.when(leaves_range_alone(op, operand))
            }
        }
        UnaryOp::Not => Rule::Mismatch.when(!operand.is_bool()),
        UnaryOp::Receive => Rule::NotChannel.when(!operand.is_chan()),
    }
}

pub(crate) fn divides(op: BinaryOp) -> bool
    ensures { result ≡ divides op }
{
    matches!(op, BinaryOp::Div | BinaryOp::Rem)
}

/// Whether a constant operation leaves the range.
fn leaves_range(op: BinaryOp, left: Shape<'_>, right: Shape<'_>) -> bool
    ensures { result
        ≡ is_out_of_range (folded_shapes op (shape_of left.entry) (shape_of right.entry)) }
{
    match (left, right) {
        (Shape::Constant(a), Shape::Constant(b)) => constants_leave_range(op, a, b),
        _ => false,
    }
}

fn constants_leave_range(op: BinaryOp, a: i64, b: i64) -> bool
    ensures { result ≡ is_out_of_range (folded op a b) }
{
    match op {
        BinaryOp::Add | BinaryOp::Sub | BinaryOp::Mul => fold(op, a, b).is_none(),
        // A zero divisor has no value either, but a rule of its own.
        BinaryOp::Div | BinaryOp::Rem => b != 0 && fold(op, a, b).is_none(),
        _ => false,
    }
}

fn compared(left: Shape<'_>, right: Shape<'_>) -> Option<Rule>
    ensures { result ≡ broken (spec.Binary Eq (shape_of left.entry) (shape_of right.entry)) }
{
    if left.is_slice() && right.is_slice() {
        Some(Rule::SliceCompare)
    } else if left.is_nil() && right.is_nil() {
        Some(Rule::BareNil)
    } else {
        Rule::Mismatch.when(!left.compares_with(right))
    }
}

fn computed(op: BinaryOp, left: Shape<'_>, right: Shape<'_>) -> Option<Rule>
    ensures { operands_of op ≡ ints
        → result ≡ broken (spec.Binary op (shape_of left.entry) (shape_of right.entry)) }
{
    if !(left.is_int() && right.is_int()) {
        Some(Rule::Mismatch)
    } else if leaves_range(op, left, right) {
        Some(Rule::ConstRange)
    } else {
        Rule::ConstZeroDivisor.when(divides(op) && is_zero(right))
    }
}

pub(crate) fn binary(op: BinaryOp, left: Shape<'_>, right: Shape<'_>) -> Option<Rule>
    ensures { result ≡ broken (spec.Binary op (shape_of left.entry) (shape_of right.entry)) }
{
    match op {
        BinaryOp::Eq | BinaryOp::Ne => compared(left, right),
        BinaryOp::And | BinaryOp::Or => Rule::Mismatch.when(!(left.is_bool() && right.is_bool())),
        _ => computed(op, left, right),
    }
}
