//! Composite literals by their values in order.
#![tactic(auto)]

ghost use Rattle.std.specs.Prelude.{◌≡◌, [], ◌∷◌, IfOk, map};
ghost use Rattle.rgo_typed.specs.Tree as tree;
ghost use Rattle.rgo_typed.specs.Views.{term_of};
ghost use Rattle.rgo_typing_rules.specs.Nodes as node;
ghost use Rattle.rgo_typing_rules.specs.Views.{type_of_kind, shape_of, fields_of};
ghost use Rattle.rgo_typing_expressions.specs.Checking as checking;
ghost use Rattle.rgo_typing_expressions.specs.Results.{ChecksTo};
ghost use Rattle.rgo_typing_expressions.specs.Terms as terms;
ghost use Rattle.rgo_typing_expressions.specs.Types as types;

use crate::made::{pointer, struct_number};
use crate::packages::{Package, no_kinds};
use crate::results::Values;
use rgo_ast::Place;
use rgo_typed::{Row, Term};
use rgo_typing_nodes::check_literal;
use rgo_typing_operations::Checked;
use rgo_typing_rules::{Kind, Meaning, TypeError};
use std::alloc::{AllocError, Global};

/// The numbers below n.
#[tactic(auto, using(crate::proofs::Numbers::numbers))]
fn first_numbers(alloc: Global, n: usize) -> Result<Vec<usize>, AllocError>
    ensures { IfOk result (λ l. l.items ≡ terms.first_numbers n) }
{
    let mut numbers = Vec::new(alloc);
    for number in 0..n {
        numbers.push(number)?;
    }
    Ok(numbers)
}

/// The types of the fields of the struct that a name means.
pub(crate) fn kinds_of<'b, 'a>(globals: &'b Package<'a>, meaning: Option<Meaning>) -> &'b [Kind<'a>]
    ensures { map type_of_kind result.now ≡ (checking.struct_fields globals.now meaning).types }
{
    let Some(fields) = globals.structs.get(struct_number(meaning)) else {
        return no_kinds(globals);
    };
    &fields.kinds
}

/// The same, if it means a struct.
fn struct_kinds<'b, 'a>(
    globals: &'b Package<'a>,
    meaning: Option<Meaning>,
) -> Option<&'b [Kind<'a>]>
    ensures { fields_of result ≡ checking.struct_types globals.now meaning }
{
    match meaning {
        Some(Meaning::Struct(_)) => Some(kinds_of(globals, meaning)),
        _ => None,
    }
}

/// `&T{a, b}` (The Go Programming Language Specification, "Composite literals").
#[tactic(auto, using(crate::proofs::Trees::terms, crate::proofs::Numbers::numbers))]
pub(crate) fn literal<'a>(
    alloc: Global,
    globals: &Package<'a>,
    meaning: Option<Meaning>,
    values: Values<'a>,
    at: Place,
) -> Result<Checked<'a>, TypeError>
    ensures { ChecksTo result
        ((
          at,
          node.Literal (checking.struct_types globals.now meaning)
              (map shape_of values.entry.shapes.items),
        ) ∷ [])
        (types.pointer_shape meaning)
        (terms.build (checking.struct_number meaning)
        (tree.terms_of (map term_of values.entry.terms.items)) at) }
{
    check_literal(at, struct_kinds(globals, meaning), &values.shapes)?;
    let numbers = first_numbers(alloc, values.terms.len())?;
    Ok(Checked {
        term: Term::Build(struct_number(meaning), values.terms, Row::new(numbers), at),
        shape: pointer(meaning),
    })
}
