//! Tests of the values of a call, a literal or a print.

ghost use Rattle.std.specs.Prelude.{◌≡◌, map, is_none};
ghost use Rattle.std.specs.List.{list_any};
ghost use Rattle.rgo_typing_rules.specs.Shapes.{has_misfit, misfits, has_known_misfit, has_nil};
ghost use Rattle.rgo_typing_rules.specs.Shapes.{has_pointer};
ghost use Rattle.rgo_typing_rules.specs.Views.{shape_of, type_of_kind, optional_kind_of};

use crate::kinds::Kind;
use crate::shapes::Shape;

/// Whether a value does not fit the wanted type with its number, up to the end of the shorter list: that the numbers differ is a rule
/// of its own, which comes later.
pub fn has_misfit(wanted: &[Kind<'_>], given: &[Shape<'_>]) -> bool
    ensures { result ≡ has_misfit (map type_of_kind wanted.now) (map shape_of given.now) }
{
    let mut i = 0;
    while i < wanted.len() && i < given.len() {
        if !given[i].fits(wanted[i]) {
            return true;
        }
        i += 1;
    }
    false
}

/// Whether a value does not fit its wanted type, if there is one.
fn misfits(wanted: Option<Kind<'_>>, given: Shape<'_>) -> bool
    ensures { result ≡ misfits (optional_kind_of wanted.entry) (shape_of given.entry) }
{
    match wanted {
        None => false,
        Some(kind) => !given.fits(kind),
    }
}

/// The same if some wanted types are unknown: those of fields that the struct does not have, which is another rule.
pub fn has_known_misfit(wanted: &[Option<Kind<'_>>], given: &[Shape<'_>]) -> bool
    ensures { result ≡ has_known_misfit (map optional_kind_of wanted.now) (map shape_of given.now) }
{
    let mut i = 0;
    while i < wanted.len() && i < given.len() {
        if misfits(wanted[i], given[i]) {
            return true;
        }
        i += 1;
    }
    false
}

/// Whether a field is not known.
pub fn has_unknown(fields: &[Option<Kind<'_>>]) -> bool
    ensures { result ≡ list_any is_none (map optional_kind_of fields.now) }
{
    for field in fields {
        if field.is_none() {
            return true;
        }
    }
    false
}

/// Whether a value is `nil`.
pub fn has_nil(values: &[Shape<'_>]) -> bool
    ensures { result ≡ has_nil (map shape_of values.now) }
{
    for value in values {
        if value.is_nil() {
            return true;
        }
    }
    false
}

/// Whether a value is a pointer, a slice or a channel.
pub fn has_pointer(values: &[Shape<'_>]) -> bool
    ensures { result ≡ has_pointer (map shape_of values.now) }
{
    for value in values {
        if value.is_pointer_like() {
            return true;
        }
    }
    false
}
