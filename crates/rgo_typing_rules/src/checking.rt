//! The check of a node at its place: the only function that refuses. Whoever checks parts of a program calls it for one node after
//! the other, so that the first refusal is that of the first node that breaks a rule.

ghost use Rattle.std.specs.Prelude.{[], ◌∷◌};
ghost use Rattle.rgo_typing_rules.specs.Checks.{Checks};
ghost use Rattle.rgo_typing_rules.specs.Views.{node_of};

use crate::breaking::broken;
use crate::errors::{TypeError, TypeRefusal};
use crate::nodes::Node;
use rgo_ast::Place;

/// Refuses a node for the first rule that it breaks.
pub fn check_node(at: Place, node: &Node<'_, '_, '_>) -> Result<(), TypeError>
    ensures { Checks result ((at, node_of node.now) ∷ []) }
{
    match broken(node) {
        None => Ok(()),
        Some(rule) => Err(TypeError::Refused(TypeRefusal { rule, at })),
    }
}
