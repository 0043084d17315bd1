//! The checks of names, as types and as operands.
//!
//! Each function makes one node and does nothing else. A node has many variants, and a proof carries all of
//! them at each step of a function that holds one. The lifetimes of a node are written out, since a proof is
//! longer where they are left open.

ghost use Rattle.std.specs.Prelude.{[], ◌∷◌};
ghost use Rattle.rgo_typing_rules.specs.Checks.{Checks};
ghost use Rattle.rgo_typing_rules.specs.Nodes as node;

use rgo_ast::Place;
use rgo_typing_rules::{Meaning, Node, Role, TypeError, check_node};

/// A name as a type.
pub fn check_type_name(at: Place, meaning: Option<Meaning>) -> Result<(), TypeError>
    ensures { Checks result ((at, node.TypeName meaning) ∷ []) }
{
    check_node(at, &Node::TypeName(meaning))
}

/// A name after `*` or `&`, or in `new`.
pub fn check_base_name(at: Place, meaning: Option<Meaning>) -> Result<(), TypeError>
    ensures { Checks result ((at, node.BaseName meaning) ∷ []) }
{
    check_node(at, &Node::BaseName(meaning))
}

/// The `*` or the `new` with such a name.
pub fn check_pointed(at: Place, meaning: Option<Meaning>) -> Result<(), TypeError>
    ensures { Checks result ((at, node.Pointed meaning) ∷ []) }
{
    check_node(at, &Node::Pointed(meaning))
}

/// An operand name.
pub fn check_name(at: Place, role: Role, meaning: Option<Meaning>) -> Result<(), TypeError>
    ensures { Checks result ((at, node.Name role meaning) ∷ []) }
{
    check_node(at, &Node::Name(role, meaning))
}
