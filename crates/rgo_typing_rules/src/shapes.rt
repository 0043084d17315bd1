//! Shapes of expressions while a program is checked: what the rules see of an expression in place of the expression itself.

ghost use Rattle.std.specs.Prelude.{◌≡◌};
ghost use Rattle.rgo_typing_rules.specs.Shapes.{is_int_shape, is_bool_shape, is_slice_shape};
ghost use Rattle.rgo_typing_rules.specs.Shapes.{is_chan_shape, is_nil_shape, is_pointer_shape};
ghost use Rattle.rgo_typing_rules.specs.Shapes.{fits, are_comparable};
ghost use Rattle.rgo_typing_rules.specs.Views.{type_of_kind, shape_of};

use crate::kinds::Kind;

/// What the typing says about an expression: its type in most cases.
#[derive(Clone, Copy)]
pub enum Shape<'a> {
    /// No type: a name that is not a value, on the left side of `=`. It gets that far because the assignment reports it.
    Untyped,
    /// `nil`.
    Nil,
    /// A string.
    Text,
    /// A call of a function without result.
    NoResult,
    /// A constant, of type `int`. Its value is kept, since some rules are about values: a zero divisor, a size below 0.
    Constant(i64),
    /// A value of this type.
    Value(Kind<'a>),
}

impl<'a> Shape<'a> {
    /// Whether it is an `int`.
    pub fn is_int(self) -> bool
        ensures { result ≡ is_int_shape (shape_of self.entry) }
    {
        match self {
            Shape::Constant(_) => true,
            Shape::Value(kind) => kind.is_int(),
            _ => false,
        }
    }

    /// Whether it is a `bool`.
    pub fn is_bool(self) -> bool
        ensures { result ≡ is_bool_shape (shape_of self.entry) }
    {
        match self {
            Shape::Value(kind) => kind.is_bool(),
            _ => false,
        }
    }

    /// Whether it is a slice.
    pub fn is_slice(self) -> bool
        ensures { result ≡ is_slice_shape (shape_of self.entry) }
    {
        match self {
            Shape::Value(kind) => kind.is_slice(),
            _ => false,
        }
    }

    /// Whether it is a channel.
    pub fn is_chan(self) -> bool
        ensures { result ≡ is_chan_shape (shape_of self.entry) }
    {
        match self {
            Shape::Value(kind) => kind.is_chan(),
            _ => false,
        }
    }

    /// Whether it is `nil`.
    pub fn is_nil(self) -> bool
        ensures { result ≡ is_nil_shape (shape_of self.entry) }
    {
        matches!(self, Shape::Nil)
    }

    /// Whether it is a pointer, a slice or a channel, and not `nil` itself.
    pub fn is_pointer_like(self) -> bool
        ensures { result ≡ is_pointer_shape (shape_of self.entry) }
    {
        match self {
            Shape::Value(kind) => kind.is_pointer_like(),
            _ => false,
        }
    }

    /// Whether it may be assigned to a variable of this type (The Go Programming Language
    /// Specification, "Assignability").
    pub fn fits(self, wanted: Kind<'_>) -> bool
        ensures { result ≡ fits (type_of_kind wanted.entry) (shape_of self.entry) }
    {
        match self {
            Shape::Nil => wanted.is_pointer_like(),
            Shape::Constant(_) => wanted.is_int(),
            Shape::Value(kind) => wanted.is_same(kind),
            Shape::Untyped | Shape::Text | Shape::NoResult => false,
        }
    }

    /// Whether `==` and `!=` are defined for these two (The Go Programming Language Specification,
    /// "Comparison operators").
    pub fn compares_with(self, other: Shape<'_>) -> bool
        ensures { result ≡ are_comparable (shape_of self.entry) (shape_of other.entry) }
    {
        match (self, other) {
            (Shape::Constant(_), _) => other.is_int(),
            (Shape::Nil, _) => other.is_pointer_like(),
            (Shape::Value(a), Shape::Value(b)) => a.is_same(b) && !a.is_slice(),
            (Shape::Value(a), Shape::Constant(_)) => a.is_int(),
            (Shape::Value(a), Shape::Nil) => a.is_pointer_like(),
            _ => false,
        }
    }
}
