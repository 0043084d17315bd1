//! Values, and the zeros at which variables start.

ghost use Rattle.std.specs.Prelude.{◌≡◌};
ghost use Rattle.rgo_memory.specs.Values.{base_zero, zero_of, element_zero};

use rgo_typed::{Base, Type};

/// A value. It keeps its kind, which the types of a program determine, too: so a machine can check what it does without types.
#[derive(Clone, Copy, Debug, Default, PartialEq, Eq)]
pub enum Value {
    Int(i64),
    Bool(bool),
    #[default]
    Nil,
    /// A pointer, a slice or a channel, by the number of its object. The object knows which of the three it is.
    Object(usize),
}

fn base_zero(base: Base) -> Value
    ensures { result ≡ base_zero base }
{
    match base {
        Base::Int => Value::Int(0),
        Base::Bool => Value::Bool(false),
        Base::Pointer(_) => Value::Nil,
    }
}

/// The value at which a variable of this type starts (The Go Programming Language Specification,
/// "The zero value").
pub fn zero(ty: &Type) -> Value
    ensures { result ≡ zero_of ty.now }
{
    if ty.layers.items().is_empty() {
        base_zero(ty.base)
    } else {
        Value::Nil
    }
}

/// The value at which an element of a slice of this type starts, and which a receive from a closed channel of this
/// type returns. `nil` for a type without elements.
pub fn element_zero(ty: &Type) -> Value
    ensures { result ≡ element_zero ty.now }
{
    // With two layers or more the elements are slices or channels, whose zero is nil whatever they hold.
    if ty.layers.items().len() == 1 {
        base_zero(ty.base)
    } else {
        Value::Nil
    }
}
