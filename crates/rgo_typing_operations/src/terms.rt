//! Typed trees from their parts.
#![tactic(auto, using(crate::proofs::Trees::terms))]

ghost use Rattle.std.specs.Prelude.{◌≡◌, IfOk};
ghost use Rattle.rgo_typing_rules.specs.Types.{plain};
ghost use Rattle.rgo_typing_rules.specs.Views.{type_of_kind};
ghost use Rattle.rgo_typed.specs.Tree as tree;
ghost use Rattle.rgo_typed.specs.Views.{term_of};
ghost use Rattle.rgo_typing_operations.specs.Terms as spec;

use rgo_ast::Place;
use rgo_typed::{Action, Base, Row, Term, Type};
use rgo_typing_rules::Kind;
use std::alloc::{AllocError, Global};

/// A type without layers. Allocates nothing.
pub fn plain(alloc: Global, base: Base) -> Type
    ensures { result ≡ plain base }
{
    Type {
        layers: Row::new(Vec::new(alloc)),
        base,
    }
}

/// An action without parts.
pub fn atom(alloc: Global, action: Action, ty: Type, at: Place) -> Term
    ensures { term_of result ≡ spec.atom action ty at }
{
    Term::Apply(action, Vec::new(alloc), ty, at)
}

/// A constant.
pub fn constant(alloc: Global, value: i64, at: Place) -> Term
    ensures { term_of result ≡ spec.int_constant value at }
{
    atom(alloc, Action::Int(value), plain(alloc, Base::Int), at)
}

/// An action on one part.
pub fn apply_one(
    alloc: Global,
    action: Action,
    part: Term,
    ty: Type,
    at: Place,
) -> Result<Term, AllocError>
    ensures { IfOk result (λ t. term_of t ≡ tree.Apply action (spec.one (term_of part)) ty at) }
{
    let mut parts = Vec::with_capacity(alloc, 1)?;
    parts.push_reserved(part);
    Ok(Term::Apply(action, parts, ty, at))
}

/// An action on two parts.
pub fn apply_two(
    alloc: Global,
    action: Action,
    first: Term,
    second: Term,
    ty: Type,
    at: Place,
) -> Result<Term, AllocError>
    ensures { IfOk result (λ t. term_of t
        ≡ tree.Apply action (spec.pair_of_terms (term_of first) (term_of second)) ty at) }
{
    let mut parts = Vec::with_capacity(alloc, 2)?;
    parts.push_reserved(first);
    parts.push_reserved(second);
    Ok(Term::Apply(action, parts, ty, at))
}

/// A value as one of this type: `nil` takes it, since alone it has none. All other terms have their type already, and are returned as
/// they are.
pub fn with_type(alloc: Global, kind: Kind<'_>, term: Term) -> Result<Term, AllocError>
    ensures { IfOk result (λ t. term_of t ≡ spec.with_type (type_of_kind kind.entry) (term_of term)) }
{
    match term {
        Term::Apply(Action::Nil, parts, _, at) => {
            Ok(Term::Apply(Action::Nil, parts, kind.to_type(alloc)?, at))
        }
        other => Ok(other),
    }
}
