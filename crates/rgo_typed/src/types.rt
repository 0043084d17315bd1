//! Types. A type is a row of `[]` and `chan` around a base, so that no type contains a type: a proof about types needs no induction
//! but that on lists.

ghost use Rattle.std.specs.Prelude.{◌≡◌};
ghost use Rattle.rgo_typed.specs.Types.{is_pointer_like};

use crate::lists::Row;

/// `[]` or `chan`.
#[derive(Clone, Copy, Debug, PartialEq, Eq)]
pub enum Layer {
    Slice,
    Chan,
}

/// What is inside all layers of a type.
#[derive(Clone, Copy, Debug, PartialEq, Eq)]
pub enum Base {
    Int,
    Bool,
    /// A pointer to the struct of this number.
    Pointer(usize),
}

/// A type (The Go Programming Language Specification, "Types"): its layers, the outermost first, and what is inside them.
#[derive(Drop)]
pub struct Type {
    pub layers: Row<Layer>,
    pub base: Base,
}

impl Type {
    /// Whether its values may be nil: whether it is a pointer, a slice or a channel.
    pub fn is_pointer_like(&self) -> bool
        ensures { result ≡ is_pointer_like self.now }
    {
        !self.layers.items().is_empty() || matches!(self.base, Base::Pointer(_))
    }
}
