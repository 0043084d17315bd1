//! Tests on types.

ghost use Rattle.std.specs.Prelude.{◌≡◌};
ghost use Rattle.rgo_wellformed.specs.TypeRules as rules;
ghost use Rattle.rgo_checker.specs.TypeTests as tests;

use rgo_typed::{Base, Layer, Type};

fn same_bases(a: Base, b: Base) -> bool
    ensures { result ≡ tests.equal_bases a b }
{
    match (a, b) {
        (Base::Int, Base::Int) | (Base::Bool, Base::Bool) => true,
        (Base::Pointer(m), Base::Pointer(n)) => m == n,
        _ => false,
    }
}

fn same_layer(a: Layer, b: Layer) -> bool
    ensures { result ≡ tests.equal_layers a b }
{
    match (a, b) {
        (Layer::Slice, Layer::Slice) | (Layer::Chan, Layer::Chan) => true,
        _ => false,
    }
}

fn same_layers(a: &[Layer], b: &[Layer]) -> bool
    ensures { result ≡ tests.equal_layer_lists a.now b.now }
{
    if a.len() != b.len() {
        return false;
    }
    for i in 0..a.len() {
        if !same_layer(a[i], b[i]) {
            return false;
        }
    }
    true
}

/// Whether two types are the same.
pub(crate) fn same(a: &Type, b: &Type) -> bool
    ensures { result ≡ tests.equal_types a.now b.now }
{
    same_bases(a.base, b.base) && same_layers(a.layers.items(), b.layers.items())
}

fn is_bare(layers: &[Layer]) -> bool
    ensures { result ≡ tests.has_no_layers layers.now }
{
    layers.is_empty()
}

/// Whether a type is this base, without layers.
pub(crate) fn is_plain(base: Base, ty: &Type) -> bool
    ensures { result ≡ tests.is_bare_base base ty.now }
{
    is_bare(ty.layers.items()) && same_bases(ty.base, base)
}

pub(crate) fn is_int(ty: &Type) -> bool
    ensures { result ≡ tests.is_int_type ty.now }
{
    is_plain(Base::Int, ty)
}

pub(crate) fn is_bool(ty: &Type) -> bool
    ensures { result ≡ tests.is_bool_type ty.now }
{
    is_plain(Base::Bool, ty)
}

fn first_layer(layers: &[Layer]) -> Option<Layer>
    ensures { result ≡ tests.first_layer layers.now }
{
    layers.first().copied()
}

pub(crate) fn is_slice(ty: &Type) -> bool
    ensures { result ≡ rules.is_slice ty.now }
{
    matches!(first_layer(ty.layers.items()), Some(Layer::Slice))
}

pub(crate) fn is_chan(ty: &Type) -> bool
    ensures { result ≡ tests.is_chan_type ty.now }
{
    matches!(first_layer(ty.layers.items()), Some(Layer::Chan))
}

/// Whether the outer layers are this one and then the inner ones.
fn are_around(layer: Layer, outer: &[Layer], inner: &[Layer]) -> bool
    ensures { result ≡ tests.are_around layer outer.now inner.now }
{
    if outer.is_empty() {
        return false;
    }
    same_layer(outer[0], layer) && same_layers(&outer[1..], inner)
}

/// Whether the outer type is the inner one with this layer around it.
pub(crate) fn is_around(layer: Layer, outer: &Type, inner: &Type) -> bool
    ensures { result ≡ tests.is_around layer outer.now inner.now }
{
    same_bases(outer.base, inner.base)
        && are_around(layer, outer.layers.items(), inner.layers.items())
}

/// The struct that a pointer points to.
pub(crate) fn pointed(ty: &Type) -> Option<usize>
    ensures { result ≡ tests.pointed ty.now }
{
    if !is_bare(ty.layers.items()) {
        return None;
    }
    match ty.base {
        Base::Pointer(n) => Some(n),
        _ => None,
    }
}
