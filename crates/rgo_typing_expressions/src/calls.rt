//! Calls, from their callee and their checked arguments. The node of a call comes after its arguments, and has the rules on its
//! callee too: in `ff(zz)` with both unknown the fault is at `zz`.
#![tactic(auto)]

ghost use Rattle.std.specs.Prelude.{◌≡◌, [], ◌∷◌, IfOk, map};
ghost use Rattle.rgo_typed.specs.Tree as tree;
ghost use Rattle.rgo_typed.specs.Views.{term_of};
ghost use Rattle.rgo_typing_rules.specs.Builtins.{result_of, action_of};
ghost use Rattle.rgo_typing_rules.specs.Nodes as node;
ghost use Rattle.rgo_typing_rules.specs.Views.{shape_of, optional_kind_of, signature_of_kinds};
ghost use Rattle.rgo_typing_expressions.specs.Checking.{call_place, call_node};
ghost use Rattle.rgo_typing_expressions.specs.Results.{ChecksTo};
ghost use Rattle.rgo_typing_expressions.specs.Scopes.{signature_at};
ghost use Rattle.rgo_typing_expressions.specs.Terms as terms;
ghost use Rattle.rgo_typing_expressions.specs.Types as types;

use crate::callees::Callee;
use crate::packages::Package;
use crate::results::Values;
use rgo_ast::Place;
use rgo_typed::{Action, Base, Term, Type};
use rgo_typing_nodes::{check_builtin, check_missing, check_nothing, check_routine};
use rgo_typing_operations::{Checked, atom, plain};
use rgo_typing_rules::{Builtin, Kind, Role, Shape, Signature, TypeError};
use std::alloc::{AllocError, Global};

fn result_shape<'a>(result_type: Option<Kind<'a>>) -> Shape<'a>
    ensures { shape_of result ≡ types.result_shape (optional_kind_of result_type.entry) }
{
    match result_type {
        None => Shape::NoResult,
        Some(kind) => Shape::Value(kind),
    }
}

fn result_or_int(alloc: Global, result_type: Option<Kind<'_>>) -> Result<Type, AllocError>
    ensures { IfOk result (λ ty. ty ≡ terms.result_or_int (optional_kind_of result_type.entry)) }
{
    match result_type {
        None => Ok(plain(alloc, Base::Int)),
        Some(kind) => kind.to_type(alloc),
    }
}

/// A call of a function.
#[tactic(auto, using(crate::proofs::Trees::terms))]
fn routine<'a>(
    alloc: Global,
    role: Role,
    number: usize,
    signature: &Signature<'a>,
    args: Values<'a>,
    at: Place,
) -> Result<Checked<'a>, TypeError>
    ensures { ChecksTo result
        ((
          at,
          node.Call role (signature_of_kinds signature.now)
              (map shape_of args.entry.shapes.items),
        ) ∷ [])
        (types.result_shape (signature_of_kinds signature.now).result_type)
        (tree.Call number (tree.terms_of (map term_of args.entry.terms.items))
        (terms.result_or_int (signature_of_kinds signature.now).result_type) at) }
{
    check_routine(at, role, signature, &args.shapes)?;
    let ty = result_or_int(alloc, signature.result_type)?;
    Ok(Checked {
        term: Term::Call(number, args.terms, ty, at),
        shape: result_shape(signature.result_type),
    })
}

/// The term of a call of a builtin. One without a value is only a statement, so that its `nil` is not used.
#[tactic(auto, using(crate::proofs::Trees::terms))]
fn builtin_term(
    alloc: Global,
    builtin: Builtin,
    args: Vec<Term>,
    at: Place,
) -> Result<Term, AllocError>
    ensures { IfOk result (λ t. term_of t ≡ terms.builtin_term (action_of builtin) (result_of builtin)
        (tree.terms_of (map term_of args.items)) at) }
{
    match (builtin.action(), builtin.result_type()) {
        (Some(action), Some(kind)) => Ok(Term::Apply(action, args, kind.to_type(alloc)?, at)),
        _ => Ok(atom(alloc, Action::Nil, plain(alloc, Base::Int), at)),
    }
}

/// A call of a builtin.
fn builtin_call<'a>(
    alloc: Global,
    builtin: Builtin,
    role: Role,
    args: Values<'a>,
    at: Place,
) -> Result<Checked<'a>, TypeError>
    ensures { ChecksTo result
        ((at, node.CallBuiltin builtin role (map shape_of args.entry.shapes.items)) ∷ [])
        (types.result_shape (result_of builtin))
        (terms.builtin_term (action_of builtin) (result_of builtin)
        (tree.terms_of (map term_of args.entry.terms.items)) at) }
{
    check_builtin(at, builtin, role, &args.shapes)?;
    Ok(Checked {
        term: builtin_term(alloc, builtin, args.terms, at)?,
        shape: result_shape(builtin.result_type()),
    })
}

/// A call of the function of this number. Every function has a signature; the definition reads a missing one as an empty one.
fn numbered<'a>(
    alloc: Global,
    globals: &Package<'a>,
    role: Role,
    number: usize,
    args: Values<'a>,
    at: Place,
) -> Result<Checked<'a>, TypeError>
    ensures { ChecksTo result
        ((
          at,
          node.Call role (signature_at globals.now number)
              (map shape_of args.entry.shapes.items),
        ) ∷ [])
        (types.result_shape (signature_at globals.now number).result_type)
        (tree.Call number (tree.terms_of (map term_of args.entry.terms.items))
        (terms.result_or_int (signature_at globals.now number).result_type) at) }
{
    match globals.functions.get(number) {
        Some(signature) => routine(alloc, role, number, signature, args, at),
        None => {
            let signature = Signature {
                params: Vec::new(alloc),
                result_type: None,
            };
            routine(alloc, role, number, &signature, args, at)
        }
    }
}

/// A call (The Go Programming Language Specification, "Calls").
#[tactic(auto, unfolding(rgo_typing_rules::specs::Rules::broken))]
pub fn call<'a>(
    alloc: Global,
    globals: &Package<'a>,
    role: Role,
    callee: Callee,
    args: Values<'a>,
    at: Place,
) -> Result<Checked<'a>, TypeError>
    ensures { ChecksTo result
        ((
          call_place at callee,
          call_node globals.now role callee (map shape_of args.entry.shapes.items),
        ) ∷ [])
        (types.call_shape globals.now callee)
        (terms.call_term globals.now callee
        (tree.terms_of (map term_of args.entry.terms.items)) at) }
{
    match callee {
        // The nodes of these two break a rule whatever else holds.
        Callee::Missing(name_at) => {
            check_missing(name_at)?;
            unreachable!();
        }
        Callee::Nothing => {
            check_nothing(at)?;
            unreachable!();
        }
        Callee::Builtin(builtin) => builtin_call(alloc, builtin, role, args, at),
        Callee::Routine(number) => numbered(alloc, globals, role, number, args, at),
    }
}
