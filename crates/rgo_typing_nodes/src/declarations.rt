//! The checks of imports, declared names, and the ends of functions and of the text.
//!
//! Each function makes one node and does nothing else. A node has many variants, and a proof carries all of
//! them at each step of a function that holds one. The lifetimes of a node are written out, since a proof is
//! longer where they are left open.

ghost use Rattle.std.specs.Prelude.{[], ◌∷◌};
ghost use Rattle.rgo_typing_rules.specs.Checks.{Checks};
ghost use Rattle.rgo_typing_rules.specs.Nodes as node;

use rgo_ast::Place;
use rgo_typing_rules::{Node, TypeError, check_node};

/// An import, which may have been imported before.
pub fn check_import(at: Place, again: bool, path: &[u8]) -> Result<(), TypeError>
    ensures { Checks result ((at, node.Import again path.now) ∷ []) }
{
    check_node(at, &Node::Import(again, path))
}

/// A declared name, which its block, struct or parameter list may have declared before.
pub fn check_declared(at: Place, again: bool, name: &[u8]) -> Result<(), TypeError>
    ensures { Checks result ((at, node.Declared again name.now) ∷ []) }
{
    check_node(at, &Node::Declared(again, name))
}

/// The end of a function.
pub fn check_end(at: Place, has_result: bool, is_terminating: bool) -> Result<(), TypeError>
    ensures { Checks result ((at, node.End has_result is_terminating) ∷ []) }
{
    check_node(at, &Node::End(has_result, is_terminating))
}

/// The end of the text.
pub fn check_text_end(at: Place, has_main: bool) -> Result<(), TypeError>
    ensures { Checks result ((at, node.TextEnd has_main) ∷ []) }
{
    check_node(at, &Node::TextEnd(has_main))
}
