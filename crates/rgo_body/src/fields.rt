//! The fields of the structs of a program. How many a struct has decides whether its objects fit a page, which is known only when a
//! table is made; so the numbers are kept here, not the answers.

ghost use Rattle.std.specs.Prelude.{◌≡◌, ℕ, Some, length, slice_get};
ghost use Rattle.rgo_sound.specs.Typed.declared.programs.Struct.{Struct as Struct_};
ghost use Rattle.rgo_sound.specs.WellFormed.TypeRules.{pointer_to};
ghost use Rattle.rgo_body.specs.Programs as spec;

use rgo_sound::typed::{Base, Struct, Type};

/// The most fields that one of these structs has.
pub(crate) fn most_fields(structs: &[Struct]) -> usize
    ensures { result ≡ spec.most_fields structs.now }
{
    let mut most = 0;
    let mut i = structs.len();
    while i > 0 {
        i -= 1;
        most = structs[i].fields.items().len().max(most);
    }
    most
}

/// How many fields the struct of this number has; 0 if there is no such struct.
pub(crate) fn field_count(structs: &[Struct], number: usize) -> usize
    ensures { (struct : Struct_) → slice_get structs.now number ≡ Some struct → result ≡ length struct.fields }
{
    match structs.get(number) {
        Some(found) => found.fields.items().len(),
        None => 0,
    }
}

/// The struct to which a variable points, by the types of all variables.
pub(crate) fn struct_at(types: &[Type], variable: u32) -> Option<usize>
    ensures { (number : ℕ) → slice_get types.now variable ≡ Some (pointer_to number) → result ≡ Some number }
{
    match types.get(variable as usize) {
        Some(ty) => match ty.base {
            Base::Pointer(number) => Some(number),
            Base::Int | Base::Bool => None,
        },
        None => None,
    }
}
