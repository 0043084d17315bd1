//! Types of values while a program is checked. A type with layers is borrowed from the syntax tree that spells it, so checking copies
//! and allocates no types: only the terms that the typed tree keeps get a [`Type`].
#![tactic(auto)]

ghost use Rattle.std.specs.Prelude.{◌≡◌, ◌++◌, IfOk, OnOk};
ghost use Rattle.rgo_ast.specs.Views.{type_expr_of};
ghost use Rattle.rgo_typing_rules.specs.Types.{spelled, layers_of, element_type_of};
ghost use Rattle.rgo_typing_rules.specs.Types.{same_base, same_layers, same};
ghost use Rattle.rgo_typing_rules.specs.Types.{is_int, is_bool, is_slice, is_chan, is_pointer_like};
ghost use Rattle.rgo_typing_rules.specs.Views.{type_of_kind};

use rgo_ast::TypeExpr;
use rgo_typed::{Base, Layer, Row, Type};
use std::alloc::{AllocError, Global};

/// A type (The Go Programming Language Specification, "Types").
#[derive(Clone, Copy)]
pub enum Kind<'a> {
    /// A base without layers.
    Plain(Base),
    /// A slice: how the type of its elements is spelled, and what the name in it means. The meaning is looked up once, where the
    /// type is written, since the name may mean something else where the value is used.
    Slice(&'a TypeExpr, Base),
    /// A channel, by its elements in the same way.
    Chan(&'a TypeExpr, Base),
}

fn same_bases(a: Base, b: Base) -> bool
    ensures { result ≡ same_base a b }
{
    match (a, b) {
        (Base::Int, Base::Int) | (Base::Bool, Base::Bool) => true,
        (Base::Pointer(m), Base::Pointer(n)) => m == n,
        _ => false,
    }
}

/// Whether two types are spelled alike except for the name inside. What the names mean is compared as bases, since one name may mean
/// two things and a pointer's `*` belongs to its base.
fn same_spellings(a: &TypeExpr, b: &TypeExpr) -> bool
    ensures { result
        ≡ same_layers (layers_of (type_expr_of a.now)) (layers_of (type_expr_of b.now)) }
{
    match (a, b) {
        (TypeExpr::Slice(a, _), TypeExpr::Slice(b, _)) => same_spellings(a, b),
        (TypeExpr::Chan(a, _), TypeExpr::Chan(b, _)) => same_spellings(a, b),
        (TypeExpr::Slice(_, _), _) | (TypeExpr::Chan(_, _), _) => false,
        (_, TypeExpr::Slice(_, _)) | (_, TypeExpr::Chan(_, _)) => false,
        _ => true,
    }
}

fn push_layers(layers: &mut Vec<Layer>, ty: &TypeExpr) -> Result<(), AllocError>
    ensures { OnOk result (layers.new.items ≡ layers.old.items ++ layers_of (type_expr_of ty.now)) }
{
    match ty {
        TypeExpr::Named(_) | TypeExpr::Pointer(_, _) => Ok(()),
        TypeExpr::Slice(element, _) => {
            layers.push(Layer::Slice)?;
            push_layers(layers, element)
        }
        TypeExpr::Chan(element, _) => {
            layers.push(Layer::Chan)?;
            push_layers(layers, element)
        }
    }
}

impl<'a> Kind<'a> {
    /// The type that is spelled so, if the name in it means this base.
    pub fn of(ty: &'a TypeExpr, base: Base) -> Kind<'a>
        ensures { type_of_kind result ≡ spelled (type_expr_of ty.now) base }
    {
        match ty {
            TypeExpr::Named(_) | TypeExpr::Pointer(_, _) => Kind::Plain(base),
            TypeExpr::Slice(element, _) => Kind::Slice(element, base),
            TypeExpr::Chan(element, _) => Kind::Chan(element, base),
        }
    }

    /// Whether it is `int`.
    pub fn is_int(self) -> bool
        ensures { result ≡ is_int (type_of_kind self.entry) }
    {
        matches!(self, Kind::Plain(Base::Int))
    }

    /// Whether it is `bool`.
    pub fn is_bool(self) -> bool
        ensures { result ≡ is_bool (type_of_kind self.entry) }
    {
        matches!(self, Kind::Plain(Base::Bool))
    }

    /// Whether it is a slice.
    pub fn is_slice(self) -> bool
        ensures { result ≡ is_slice (type_of_kind self.entry) }
    {
        matches!(self, Kind::Slice(_, _))
    }

    /// Whether it is a channel.
    pub fn is_chan(self) -> bool
        ensures { result ≡ is_chan (type_of_kind self.entry) }
    {
        matches!(self, Kind::Chan(_, _))
    }

    /// Whether it is a pointer, a slice or a channel.
    pub fn is_pointer_like(self) -> bool
        ensures { result ≡ is_pointer_like (type_of_kind self.entry) }
    {
        !matches!(self, Kind::Plain(Base::Int) | Kind::Plain(Base::Bool))
    }

    /// The type of a slice's or channel's elements; another type is returned as it is, and no rule asks for that.
    pub fn element(self) -> Kind<'a>
        ensures { type_of_kind result ≡ element_type_of (type_of_kind self.entry) }
    {
        match self {
            Kind::Plain(base) => Kind::Plain(base),
            Kind::Slice(element, base) | Kind::Chan(element, base) => Kind::of(element, base),
        }
    }

    /// Whether two types are identical (The Go Programming Language Specification, "Type
    /// identity").
    pub fn is_same(self, other: Kind<'_>) -> bool
        ensures { result ≡ same (type_of_kind self.entry) (type_of_kind other.entry) }
    {
        match (self, other) {
            (Kind::Plain(a), Kind::Plain(b)) => same_bases(a, b),
            (Kind::Slice(s, a), Kind::Slice(t, b)) => same_bases(a, b) && same_spellings(s, t),
            (Kind::Chan(s, a), Kind::Chan(t, b)) => same_bases(a, b) && same_spellings(s, t),
            _ => false,
        }
    }

    /// The type as typed trees hold it, without references into the syntax tree.
    ///
    /// # Errors
    ///
    /// On allocation failure.
    pub fn to_type(self, alloc: Global) -> Result<Type, AllocError>
        ensures { IfOk result (λ ty. ty ≡ type_of_kind self.entry) }
    {
        let mut layers = Vec::new(alloc);
        let base = match self {
            Kind::Plain(base) => base,
            Kind::Slice(element, base) => {
                layers.push(Layer::Slice)?;
                push_layers(&mut layers, element)?;
                base
            }
            Kind::Chan(element, base) => {
                layers.push(Layer::Chan)?;
                push_layers(&mut layers, element)?;
                base
            }
        };
        let layers = Row::new(layers);
        Ok(Type { layers, base })
    }
}
