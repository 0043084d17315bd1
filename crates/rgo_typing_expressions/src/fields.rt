//! Fields of structs by their names, and selectors.

ghost use Rattle.std.specs.Prelude.{◌≡◌, [], ◌∷◌, is_some};
ghost use Rattle.rgo_typed.specs.Views.{term_of};
ghost use Rattle.rgo_typing_rules.specs.Nodes as node;
ghost use Rattle.rgo_typing_rules.specs.Views.{type_of_kind, shape_of};
ghost use Rattle.rgo_typing_expressions.specs.Results.{ChecksTo, found_field};
ghost use Rattle.rgo_typing_expressions.specs.Terms as terms;
ghost use Rattle.rgo_typing_expressions.specs.Types as types;

use crate::packages::{Fields, Package};
use rgo_ast::Place;
use rgo_typed::{Action, Base};
use rgo_typing_nodes::check_selector;
use rgo_typing_operations::{Checked, applied};
use rgo_typing_rules::{Kind, Shape, TypeError};
use std::alloc::Global;

/// A field, by its number in the struct and its type.
#[derive(Clone, Copy)]
pub struct Field<'a> {
    pub number: usize,
    pub kind: Kind<'a>,
}

/// The field of this name.
pub fn field_in<'a>(fields: &Fields<'a>, name: &[u8]) -> Option<Field<'a>>
    ensures { found_field result ≡ types.field_in fields.now name.now }
{
    let number = fields.numbers.get(name)?;
    // Each number that a name has is below the number of types. The definition reads a missing type as `int`.
    let kind = match fields.kinds.get(number) {
        Some(kind) => *kind,
        None => Kind::Plain(Base::Int),
    };
    Some(Field { number, kind })
}

/// The struct that a value points to.
fn struct_of(shape: Shape<'_>) -> Option<usize>
    ensures { result ≡ types.pointed_struct (shape_of shape.entry) }
{
    match shape {
        Shape::Value(Kind::Plain(Base::Pointer(number))) => Some(number),
        _ => None,
    }
}

/// The field of this name of what a value points to.
pub fn find_field<'a>(globals: &Package<'a>, shape: Shape<'_>, name: &[u8]) -> Option<Field<'a>>
    ensures { found_field result ≡ types.field_of globals.now (shape_of shape.entry) name.now }
{
    let number = struct_of(shape)?;
    match globals.structs.get(number) {
        Some(fields) => field_in(fields, name),
        None => None,
    }
}

/// A selector.
#[tactic(auto, unfolding(rgo_typing_rules::specs::Rules::broken))]
pub(crate) fn select<'a>(
    alloc: Global,
    globals: &Package<'a>,
    operand: Checked<'a>,
    name: &[u8],
    at: Place,
) -> Result<Checked<'a>, TypeError>
    ensures { let field = types.field_of globals.now (shape_of operand.entry.shape) name.now in
        ChecksTo result ((at, node.Selector (is_some field)) ∷ [])
        (types.field_shape field) (terms.field_term field (term_of operand.entry.term) at) }
{
    let found = find_field(globals, operand.shape, name);
    check_selector(at, found.is_some())?;
    // A selector without a field was refused by the line above.
    let Some(field) = found else {
        unreachable!();
    };
    let read = Action::Load(field.number);
    Ok(applied(alloc, read, operand.term, field.kind, at)?)
}
