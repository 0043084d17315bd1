//! Expressions as they are written. The place of a node is the one at which a fault of the node itself is reported, so it need not be
//! its first.

use crate::names::{Ident, Place};
use crate::ops::{BinaryOp, UnaryOp};
use crate::types::TypeExpr;

/// An expression (The Go Programming Language Specification, "Expressions").
#[cycle(expressions)]
#[derive(Drop)]
pub enum Expr {
    /// An integer literal.
    Number(u64, Place),
    /// A string literal, by its value.
    Text(Vec<u8>, Place),
    /// An operand name. It may be a package, a type or a function too: which it is, only the typing knows.
    Name(Ident),
    /// `(x)`, at the `(`. It is kept, so that a tree shows what was written; the typing looks through it.
    Paren(Box<Expr>, Place),
    /// `new(T)`, at `new`.
    New(Ident, Place),
    /// `make([]T, n)`, at `make`; the type is that of an element.
    MakeSlice(TypeExpr, Box<Expr>, Place),
    /// `make(chan T)` or `make(chan T, n)`, at `make`; the type is that of an element.
    MakeChan(TypeExpr, Option<Box<Expr>>, Place),
    /// `x.f`, a selector.
    Select(Box<Expr>, Ident),
    /// `a[x]`, at the `[`.
    Index(Box<Expr>, Box<Expr>, Place),
    /// `f(a, b)`, a call, at the `(`.
    Call(Box<Expr>, Vec<Expr>, Place),
    /// A unary operation, at its operator.
    Unary(UnaryOp, Box<Expr>, Place),
    /// A binary operation, at its operator.
    Binary(BinaryOp, Box<Expr>, Box<Expr>, Place),
    /// `&T{a, b}`, a composite literal by its values alone, at the `&`.
    Literal(Ident, Vec<Expr>, Place),
    /// `&T{f: a, g: b}`, a composite literal by fields, at the `&`.
    Keyed(Ident, Vec<Element>, Place),
}

/// An element of a composite literal, with its field.
#[cycle(expressions)]
#[derive(Drop)]
pub struct Element {
    pub field: Ident,
    pub value: Expr,
}
