//! The checks of calls.
//!
//! Each function makes one node and does nothing else. A node has many variants, and a proof carries all of
//! them at each step of a function that holds one. The lifetimes of a node are written out, since a proof is
//! longer where they are left open.

ghost use Rattle.std.specs.Prelude.{[], ◌∷◌, map};
ghost use Rattle.rgo_typing_rules.specs.Checks.{Checks};
ghost use Rattle.rgo_typing_rules.specs.Nodes as node;
ghost use Rattle.rgo_typing_rules.specs.Views.{shape_of, signature_of_kinds};

use rgo_ast::Place;
use rgo_typing_rules::{Builtin, Node, Role, Shape, Signature, TypeError, check_node};

/// A call of a name that nothing declares.
pub fn check_missing(at: Place) -> Result<(), TypeError>
    ensures { Checks result ((at, node.CallMissing) ∷ []) }
{
    check_node(at, &Node::CallMissing)
}

/// A call of something that is not a function. It breaks a rule whatever else holds, so callers need no case after it.
pub fn check_nothing(at: Place) -> Result<(), TypeError>
    ensures { Checks result ((at, node.CallNothing) ∷ []) }
{
    check_node(at, &Node::CallNothing)
}

/// A call of a function.
pub fn check_routine<'t, 'p, 'v>(
    at: Place,
    role: Role,
    signature: &'p Signature<'t>,
    args: &'v [Shape<'t>],
) -> Result<(), TypeError>
    ensures { Checks result
        ((at, node.Call role (signature_of_kinds signature.now) (map shape_of args.now)) ∷ []) }
{
    let node: Node<'t, 'p, 'v> = Node::Call(role, signature, args);
    check_node(at, &node)
}

/// A call of a builtin.
pub fn check_builtin<'t, 'v>(
    at: Place,
    builtin: Builtin,
    role: Role,
    args: &'v [Shape<'t>],
) -> Result<(), TypeError>
    ensures { Checks result ((at, node.CallBuiltin builtin role (map shape_of args.now)) ∷ []) }
{
    let node: Node<'t, 't, 'v> = Node::CallBuiltin(builtin, role, args);
    check_node(at, &node)
}

/// `go` of a function.
pub fn check_go<'t, 'p, 'v>(
    at: Place,
    signature: &'p Signature<'t>,
    args: &'v [Shape<'t>],
) -> Result<(), TypeError>
    ensures { Checks result
        ((at, node.Go (signature_of_kinds signature.now) (map shape_of args.now)) ∷ []) }
{
    let node: Node<'t, 'p, 'v> = Node::Go(signature, args);
    check_node(at, &node)
}

/// `go` of something that is not a function. It always breaks a rule, too.
pub fn check_go_nothing(at: Place) -> Result<(), TypeError>
    ensures { Checks result ((at, node.GoNothing) ∷ []) }
{
    check_node(at, &Node::GoNothing)
}
