//! Composite literals by fields. The fields are looked up before the values are checked, since a `nil` takes the type of its field;
//! an unknown or repeated field is reported after the values, with the literal.
#![tactic(auto)]

ghost use Rattle.std.specs.Prelude.{◌≡◌, [], ◌∷◌, IfOk, map};
ghost use Rattle.rgo_ast.specs.Tree as ast;
ghost use Rattle.rgo_ast.specs.Views.{element_of};
ghost use Rattle.rgo_scopes.specs.Blocks.{no_names};
ghost use Rattle.rgo_typed.specs.Tree as tree;
ghost use Rattle.rgo_typed.specs.Views.{term_of};
ghost use Rattle.rgo_typing_rules.specs.Checks.{Checks};
ghost use Rattle.rgo_typing_rules.specs.Nodes as node;
ghost use Rattle.rgo_typing_rules.specs.Views.{shape_of, optional_kind_of, known_of};
ghost use Rattle.rgo_typing_expressions.specs.Checking as checking;
ghost use Rattle.rgo_typing_expressions.specs.Results.{ChecksTo, FieldsOf, found_field};
ghost use Rattle.rgo_typing_expressions.specs.Terms as terms;
ghost use Rattle.rgo_typing_expressions.specs.Types as types;

use crate::fields::{Field, field_in};
use crate::made::{pointer, struct_number};
use crate::packages::{Fields, Package};
use crate::results::Values;
use rgo_ast::{Element, Place};
use rgo_scopes::Scopes;
use rgo_typed::{Row, Term};
use rgo_typing_nodes::check_keyed;
use rgo_typing_operations::Checked;
use rgo_typing_rules::{Kind, Meaning, Shape, TypeError};
use std::alloc::{AllocError, Global};

/// The fields that the elements of a literal name: the type of each, if there is such a field,
/// and its number.
#[derive(Drop)]
pub struct Named<'a> {
    pub kinds: Vec<Option<Kind<'a>>>,
    numbers: Vec<usize>,
}

/// The type of a field, if there is one.
fn known_kind<'a>(field: Option<Field<'a>>) -> Option<Kind<'a>>
    ensures { optional_kind_of result ≡ checking.known_type (found_field field.entry) }
{
    match field {
        Some(field) => Some(field.kind),
        None => None,
    }
}

/// The number of a field. If there is none, the literal is refused and the 0 is not used.
fn number_or_zero(field: Option<Field<'_>>) -> usize
    ensures { result ≡ terms.field_number (found_field field.entry) }
{
    match field {
        Some(field) => field.number,
        None => 0,
    }
}

fn fields_named<'a>(
    alloc: Global,
    fields: &Fields<'a>,
    elements: &[Element],
) -> Result<Named<'a>, AllocError>
    ensures { IfOk result (λ named. FieldsOf named fields.now
        (ast.elements_of (map element_of elements.now))) }
{
    let mut kinds = Vec::new(alloc);
    let mut numbers = Vec::new(alloc);
    for element in elements {
        let field = field_in(fields, element.field.name.bytes());
        kinds.push(known_kind(field))?;
        numbers.push(number_or_zero(field))?;
    }
    Ok(Named { kinds, numbers })
}

/// The fields that the elements of a literal name, in the struct that its name means.
pub(crate) fn find_named<'a>(
    alloc: Global,
    globals: &Package<'a>,
    meaning: Option<Meaning>,
    elements: &[Element],
) -> Result<Named<'a>, AllocError>
    ensures { IfOk result (λ named. FieldsOf named
        (checking.struct_fields globals.now meaning)
        (ast.elements_of (map element_of elements.now))) }
{
    match globals.structs.get(struct_number(meaning)) {
        Some(fields) => fields_named(alloc, fields, elements),
        None => {
            let fields = Fields {
                numbers: Scopes::new(alloc),
                kinds: Vec::new(alloc),
            };
            fields_named(alloc, &fields, elements)
        }
    }
}

/// Whether an element names a field that is seen, or that of an earlier one.
fn repeats<'e>(seen: &mut Scopes<'e, usize>, elements: &'e [Element]) -> Result<bool, AllocError>
    ensures { IfOk result
        (λ b. b ≡ checking.has_twice seen.old (ast.elements_of (map element_of elements.now))) }
{
    for element in elements {
        let name = element.field.name.bytes();
        if seen.get(name).is_some() {
            return Ok(true);
        }
        seen.declare(name, 0)?;
    }
    Ok(false)
}

/// Whether two elements name one field.
fn has_twice(alloc: Global, elements: &[Element]) -> Result<bool, AllocError>
    ensures { IfOk result
        (λ b. b ≡ checking.has_twice no_names (ast.elements_of (map element_of elements.now))) }
{
    let mut seen = Scopes::new(alloc);
    repeats(&mut seen, elements)
}

/// The types of the named fields, if a name means a struct.
fn known_if<'k, 'a>(
    meaning: Option<Meaning>,
    known: &'k [Option<Kind<'a>>],
) -> Option<&'k [Option<Kind<'a>>]>
    ensures { known_of result ≡ checking.known_if meaning (map optional_kind_of known.now) }
{
    match meaning {
        Some(Meaning::Struct(_)) => Some(known),
        _ => None,
    }
}

/// Refuses a literal by fields for the first rule that it breaks.
fn check_fields<'a>(
    alloc: Global,
    meaning: Option<Meaning>,
    elements: &[Element],
    known: &[Option<Kind<'a>>],
    values: &[Shape<'a>],
    at: Place,
) -> Result<(), TypeError>
    ensures { Checks result ((
      at,
      node.Keyed
          (checking.known_if meaning (map optional_kind_of known.now))
          (checking.has_twice no_names (ast.elements_of (map element_of elements.now)))
          (map shape_of values.now),
    ) ∷ []) }
{
    let twice = has_twice(alloc, elements)?;
    check_keyed(at, known_if(meaning, known), twice, values)
}

/// `&T{f: a, g: b}`, from its checked values (The Go Programming Language Specification, "Composite
/// literals").
#[tactic(auto, using(crate::proofs::Trees::terms))]
pub(crate) fn keyed<'a>(
    alloc: Global,
    meaning: Option<Meaning>,
    elements: &[Element],
    named: Named<'a>,
    values: Values<'a>,
    at: Place,
) -> Result<Checked<'a>, TypeError>
    ensures { ChecksTo result ((
      at,
      node.Keyed
          (checking.known_if meaning (map optional_kind_of named.entry.kinds.items))
          (checking.has_twice no_names (ast.elements_of (map element_of elements.now)))
          (map shape_of values.entry.shapes.items),
    ) ∷ [])
        (types.pointer_shape meaning)
        (tree.Build (checking.struct_number meaning)
        (tree.terms_of (map term_of values.entry.terms.items))
        named.entry.numbers.items at) }
{
    check_fields(alloc, meaning, elements, &named.kinds, &values.shapes, at)?;
    let numbers = Row::new(named.numbers);
    Ok(Checked {
        term: Term::Build(struct_number(meaning), values.terms, numbers, at),
        shape: pointer(meaning),
    })
}
