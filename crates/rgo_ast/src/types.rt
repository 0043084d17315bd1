//! Types as they are written, and names declared with one. They are kept in the tree, since the rules refuse a type at its name or `*`.

use crate::names::{Ident, Place};

/// A type (The Go Programming Language Specification, "Types").
#[derive(Drop)]
pub enum TypeExpr {
    /// `T`.
    Named(Ident),
    /// `*T`, at the `*`. Only a name can follow, since pointers point to structs.
    Pointer(Ident, Place),
    /// `[]T`, at the `[`.
    Slice(Box<TypeExpr>, Place),
    /// `chan T`, at `chan`.
    Chan(Box<TypeExpr>, Place),
}

/// Names declared with one type: fields, parameters, variables.
#[derive(Drop)]
pub struct Binding {
    pub names: Vec<Ident>,
    pub ty: TypeExpr,
}
