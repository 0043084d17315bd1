//! The checks of operations, with the values of those that are constants.
//!
//! Each function makes one node and does nothing else. A node has many variants, and a proof carries all of
//! them at each step of a function that holds one. The lifetimes of a node are written out, since a proof is
//! longer where they are left open.

ghost use Rattle.std.specs.Prelude.{◌≡◌, [], ◌∷◌, IfOk};
ghost use Rattle.rgo_typing_rules.specs.Checks.{Checks};
ghost use Rattle.rgo_typing_rules.specs.Constants.{folded_shape, folded_shapes, kept};
ghost use Rattle.rgo_typing_rules.specs.Nodes as node;
ghost use Rattle.rgo_typing_rules.specs.Views.{shape_of};

use rgo_ast::{BinaryOp, Place, UnaryOp};
use rgo_typing_rules::{Node, Shape, TypeError, check_node, fold, fold_one};

/// The value of a binary operation, where its operands are constants and the value keeps their range.
fn folded(op: BinaryOp, left: Shape<'_>, right: Shape<'_>) -> Option<i64>
    ensures { result ≡ kept (folded_shapes op (shape_of left.entry) (shape_of right.entry)) }
{
    match left {
        Shape::Constant(a) => match right {
            Shape::Constant(b) => fold(op, a, b),
            _ => None,
        },
        _ => None,
    }
}

/// The value of a unary operation, where its operand is a constant and the value keeps its range.
fn folded_one(op: UnaryOp, operand: Shape<'_>) -> Option<i64>
    ensures { result ≡ kept (folded_shape op (shape_of operand.entry)) }
{
    match operand {
        Shape::Constant(n) => fold_one(op, n),
        _ => None,
    }
}

// A unary operation.
fn check_one<'t>(at: Place, op: UnaryOp, operand: Shape<'t>) -> Result<(), TypeError>
    ensures { Checks result ((at, node.Unary op (shape_of operand.entry)) ∷ []) }
{
    let node: Node<'t, 't, 't> = Node::Unary(op, operand);
    check_node(at, &node)
}

// A binary operation.
fn check_two<'t>(
    at: Place,
    op: BinaryOp,
    left: Shape<'t>,
    right: Shape<'t>,
) -> Result<(), TypeError>
    ensures { Checks result
        ((at, node.Binary op (shape_of left.entry) (shape_of right.entry)) ∷ []) }
{
    let node: Node<'t, 't, 't> = Node::Binary(op, left, right);
    check_node(at, &node)
}

/// A unary operation. Returns its value if it is a constant, so that it is computed only once.
#[tactic(auto, using(crate::proofs::Kept::kept_unary))]
pub fn check_unary(at: Place, op: UnaryOp, operand: Shape<'_>) -> Result<Option<i64>, TypeError>
    ensures checked { Checks result ((at, node.Unary op (shape_of operand.entry)) ∷ []) }
    ensures value { IfOk result (λ n. n ≡ folded_shape op (shape_of operand.entry)) }
{
    check_one(at, op, operand)?;
    Ok(folded_one(op, operand))
}

/// A binary operation. Returns its value if it is a constant.
#[tactic(auto, using(crate::proofs::Kept::kept_binary))]
pub fn check_binary<'t>(
    at: Place,
    op: BinaryOp,
    left: Shape<'t>,
    right: Shape<'t>,
) -> Result<Option<i64>, TypeError>
    ensures checked { Checks result
        ((at, node.Binary op (shape_of left.entry) (shape_of right.entry)) ∷ []) }
    ensures value { IfOk result
        (λ n. n ≡ folded_shapes op (shape_of left.entry) (shape_of right.entry)) }
{
    check_two(at, op, left, right)?;
    Ok(folded(op, left, right))
}
