//! The checks of literals, and of expressions that are made of others.
//!
//! Each function makes one node and does nothing else. A node has many variants, and a proof carries all of
//! them at each step of a function that holds one. The lifetimes of a node are written out, since a proof is
//! longer where they are left open.

ghost use Rattle.std.specs.Prelude.{[], ◌∷◌, map};
ghost use Rattle.rgo_typing_rules.specs.Checks.{Checks};
ghost use Rattle.rgo_typing_rules.specs.Nodes as node;
ghost use Rattle.rgo_typing_rules.specs.Views.{shape_of, fields_of, known_of};

use rgo_ast::Place;
use rgo_typing_rules::{Kind, Node, Role, Shape, TypeError, check_node};

/// An integer literal.
pub fn check_number(at: Place, value: u64) -> Result<(), TypeError>
    ensures { Checks result ((at, node.Number value) ∷ []) }
{
    check_node(at, &Node::Number(value))
}

/// A string literal.
pub fn check_text(at: Place, role: Role) -> Result<(), TypeError>
    ensures { Checks result ((at, node.Text role) ∷ []) }
{
    check_node(at, &Node::Text(role))
}

/// The size of a slice or the capacity of a channel, in `make`.
pub fn check_size<'t>(at: Place, size: Shape<'t>) -> Result<(), TypeError>
    ensures { Checks result ((at, node.Size (shape_of size.entry)) ∷ []) }
{
    let node: Node<'t, 't, 't> = Node::Size(size);
    check_node(at, &node)
}

/// A selector.
pub fn check_selector(at: Place, found: bool) -> Result<(), TypeError>
    ensures { Checks result ((at, node.Selector found) ∷ []) }
{
    check_node(at, &Node::Selector(found))
}

/// An index expression.
pub fn check_index<'t>(at: Place, slice: Shape<'t>, index: Shape<'t>) -> Result<(), TypeError>
    ensures { Checks result
        ((at, node.Index (shape_of slice.entry) (shape_of index.entry)) ∷ []) }
{
    let node: Node<'t, 't, 't> = Node::Index(slice, index);
    check_node(at, &node)
}

/// A literal by its values.
pub fn check_literal<'t, 'p, 'v>(
    at: Place,
    fields: Option<&'p [Kind<'t>]>,
    values: &'v [Shape<'t>],
) -> Result<(), TypeError>
    ensures { Checks result
        ((at, node.Literal (fields_of fields.entry) (map shape_of values.now)) ∷ []) }
{
    let node: Node<'t, 'p, 'v> = Node::Literal(fields, values);
    check_node(at, &node)
}

/// A literal by fields.
pub fn check_keyed<'t, 'p, 'v>(
    at: Place,
    fields: Option<&'p [Option<Kind<'t>>]>,
    twice: bool,
    values: &'v [Shape<'t>],
) -> Result<(), TypeError>
    ensures { Checks result
        ((at, node.Keyed (known_of fields.entry) twice (map shape_of values.now)) ∷ []) }
{
    let node: Node<'t, 'p, 'v> = Node::Keyed(fields, twice, values);
    check_node(at, &node)
}
