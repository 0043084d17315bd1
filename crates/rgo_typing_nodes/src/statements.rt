//! The checks of statements.
//!
//! Each function makes one node and does nothing else. A node has many variants, and a proof carries all of
//! them at each step of a function that holds one. The lifetimes of a node are written out, since a proof is
//! longer where they are left open.

ghost use Rattle.std.specs.Prelude.{[], ◌∷◌};
ghost use Rattle.rgo_typing_rules.specs.Checks.{Checks};
ghost use Rattle.rgo_typing_rules.specs.Nodes as node;
ghost use Rattle.rgo_typing_rules.specs.Views.{shape_of, optional_shape_of, type_of_kind, optional_kind_of};

use rgo_ast::{BinaryOp, Place};
use rgo_typing_rules::{Kind, Node, Shape, TypeError, check_node};

/// An expression statement.
pub fn check_alone(at: Place, may_stand: bool) -> Result<(), TypeError>
    ensures { Checks result ((at, node.Alone may_stand) ∷ []) }
{
    check_node(at, &Node::Alone(may_stand))
}

/// A send statement.
pub fn check_send<'t>(at: Place, channel: Shape<'t>, value: Shape<'t>) -> Result<(), TypeError>
    ensures { Checks result
        ((at, node.Send (shape_of channel.entry) (shape_of value.entry)) ∷ []) }
{
    let node: Node<'t, 't, 't> = Node::Send(channel, value);
    check_node(at, &node)
}

/// `=`.
pub fn check_assign<'t>(
    at: Place,
    at_place: bool,
    left: Shape<'t>,
    right: Shape<'t>,
) -> Result<(), TypeError>
    ensures { Checks result
        ((at, node.Assign at_place (shape_of left.entry) (shape_of right.entry)) ∷ []) }
{
    let node: Node<'t, 't, 't> = Node::Assign(at_place, left, right);
    check_node(at, &node)
}

/// An assignment with an operator.
pub fn check_update<'t>(
    at: Place,
    op: BinaryOp,
    at_place: bool,
    left: Shape<'t>,
    right: Shape<'t>,
) -> Result<(), TypeError>
    ensures { Checks result
        ((at, node.Update op at_place (shape_of left.entry) (shape_of right.entry)) ∷ []) }
{
    let node: Node<'t, 't, 't> = Node::Update(op, at_place, left, right);
    check_node(at, &node)
}

/// A variable declared with a value and without a type.
pub fn check_define<'t>(at: Place, value: Shape<'t>) -> Result<(), TypeError>
    ensures { Checks result ((at, node.Define (shape_of value.entry)) ∷ []) }
{
    let node: Node<'t, 't, 't> = Node::Define(value);
    check_node(at, &node)
}

/// A variable declared with a type and a value.
pub fn check_define_as<'t>(at: Place, kind: Kind<'t>, value: Shape<'t>) -> Result<(), TypeError>
    ensures { Checks result
        ((at, node.DefineAs (type_of_kind kind.entry) (shape_of value.entry)) ∷ []) }
{
    let node: Node<'t, 't, 't> = Node::DefineAs(kind, value);
    check_node(at, &node)
}

/// The condition of an `if` or `for`.
pub fn check_condition<'t>(at: Place, test: Shape<'t>) -> Result<(), TypeError>
    ensures { Checks result ((at, node.Condition (shape_of test.entry)) ∷ []) }
{
    let node: Node<'t, 't, 't> = Node::Condition(test);
    check_node(at, &node)
}

/// A `return`.
pub fn check_return<'t>(
    at: Place,
    result_type: Option<Kind<'t>>,
    value: Option<Shape<'t>>,
) -> Result<(), TypeError>
    ensures { Checks result ((
      at,
      node.Return (optional_kind_of result_type.entry) (optional_shape_of value.entry),
    ) ∷ []) }
{
    let node: Node<'t, 't, 't> = Node::Return(result_type, value);
    check_node(at, &node)
}

/// `break` or `continue`.
pub fn check_branch(at: Place, in_loop: bool) -> Result<(), TypeError>
    ensures { Checks result ((at, node.Branch in_loop) ∷ []) }
{
    check_node(at, &Node::Branch(in_loop))
}
