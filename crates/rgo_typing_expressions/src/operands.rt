//! Operands: numbers, strings and names; and values as what is wanted of them.
#![tactic(auto)]

ghost use Rattle.std.specs.Prelude.{◌≡◌, [], ◌∷◌, IfOk, pos, map, drop};
ghost use Rattle.rgo_typed.specs.Views.{term_of};
ghost use Rattle.rgo_typed.specs.declared.actions.Action.TheVariants.{Nil};
ghost use Rattle.rgo_typing_rules.specs.Nodes as node;
ghost use Rattle.rgo_typing_rules.specs.Shapes as shape;
ghost use Rattle.rgo_typing_rules.specs.Views.{type_of_kind, optional_kind_of};
ghost use Rattle.rgo_typing_expressions.specs.Results.{ChecksTo, Matches};
ghost use Rattle.rgo_typing_expressions.specs.Scopes.{int, meaning_of};
ghost use Rattle.rgo_typing_expressions.specs.Terms as terms;
ghost use Rattle.rgo_typing_expressions.specs.Types as types;

use crate::checkers::Checker;
use rgo_ast::{Ident, Place};
use rgo_typed::{Action, Base, Term};
use rgo_typing_nodes::{check_name, check_number, check_text};
use rgo_typing_operations::{Checked, atom, constant, plain, with_type};
use rgo_typing_rules::{Kind, Meaning, Role, Shape, TypeError};
use std::alloc::{AllocError, Global};

/// An integer literal.
#[tactic(auto, unfolding(rgo_typing_rules::specs::Rules::broken))]
pub(crate) fn number<'a>(alloc: Global, value: u64, at: Place) -> Result<Checked<'a>, TypeError>
    ensures { ChecksTo result ((at, node.Number value) ∷ [])
        (shape.Constant (pos value)) (terms.int_constant (pos value) at) }
{
    check_number(at, value)?;
    // The rule on constants has refused larger numbers.
    let Ok(value) = i64::try_from(value) else {
        unreachable!();
    };
    Ok(Checked {
        term: constant(alloc, value, at),
        shape: Shape::Constant(value),
    })
}

/// A string literal. No term has a string as its value: a print takes the bytes from the source, and drops this one.
pub(crate) fn text<'a>(alloc: Global, role: Role, at: Place) -> Result<Checked<'a>, TypeError>
    ensures { ChecksTo result ((at, node.Text role) ∷ []) shape.Text (terms.atom Nil int at) }
{
    check_text(at, role)?;
    Ok(Checked {
        term: atom(alloc, Action::Nil, plain(alloc, Base::Int), at),
        shape: Shape::Text,
    })
}

impl<'p, 'a> Checker<'p, 'a> {
    /// An operand name.
    pub(crate) fn operand(&self, role: Role, x: &Ident) -> Result<Checked<'a>, TypeError>
        ensures { ChecksTo result ((x.now.at, node.Name role (meaning_of self.now x.now.name)) ∷ [])
            (types.shape_of_meaning self.now (meaning_of self.now x.now.name))
            (terms.name_term self.now (meaning_of self.now x.now.name) x.now.at) }
    {
        let found = self.meaning(x.name.bytes());
        check_name(x.at, role, found)?;
        Ok(self.named_value(found, x.at)?)
    }

    /// The value of a name that means this. `nil` begins as an `int` here and gets its type where it is used.
    fn named_value(&self, meaning: Option<Meaning>, at: Place) -> Result<Checked<'a>, AllocError>
        ensures { IfOk result (λ e. Matches e
            (types.shape_of_meaning self.now meaning) (terms.name_term self.now meaning at)) }
    {
        let alloc = self.alloc();
        match meaning {
            Some(Meaning::Local(number)) => Ok(Checked {
                term: Term::Local(number),
                shape: Shape::Value(self.scope().local(number)),
            }),
            Some(Meaning::Global(number)) => {
                let kind = self.globals().variable(number);
                Ok(Checked {
                    term: atom(alloc, Action::Get(number), kind.to_type(alloc)?, at),
                    shape: Shape::Value(kind),
                })
            }
            Some(Meaning::Truth(truth)) => Ok(Checked {
                term: atom(alloc, Action::Bool(truth), plain(alloc, Base::Bool), at),
                shape: Shape::Value(Kind::Plain(Base::Bool)),
            }),
            Some(Meaning::Nil) => Ok(Checked {
                term: atom(alloc, Action::Nil, plain(alloc, Base::Int), at),
                shape: Shape::Nil,
            }),
            _ => Ok(Checked {
                term: atom(alloc, Action::Nil, plain(alloc, Base::Int), at),
                shape: Shape::Untyped,
            }),
        }
    }
}

/// A value as one of the type of this number, if there is one. If there are more values than types, the rule on their number refuses
/// them later.
pub(crate) fn wanted_term(
    alloc: Global,
    wanted: &[Kind<'_>],
    number: usize,
    term: Term,
) -> Result<Term, AllocError>
    ensures { IfOk result (λ t. term_of t
        ≡ terms.with_first (map type_of_kind (drop number wanted.now)) (term_of term)) }
{
    match wanted.get(number) {
        Some(kind) => with_type(alloc, *kind, term),
        None => Ok(term),
    }
}

/// The same if some types are unknown.
pub(crate) fn known_term(
    alloc: Global,
    known: &[Option<Kind<'_>>],
    number: usize,
    term: Term,
) -> Result<Term, AllocError>
    ensures { IfOk result (λ t. term_of t
        ≡ terms.with_known (map optional_kind_of (drop number known.now)) (term_of term)) }
{
    match known.get(number) {
        Some(Some(kind)) => with_type(alloc, *kind, term),
        _ => Ok(term),
    }
}
