//! Statements as they are written. Their expressions are boxed, which keeps statements small.

use crate::expressions::Expr;
use crate::names::{Ident, Place};
use crate::ops::{AssignOp, StepOp};
use crate::types::{Binding, TypeExpr};

/// Local variables that are declared together (The Go Programming Language Specification,
/// "Variable declarations").
#[derive(Drop)]
pub enum LocalVar {
    /// `a, b T`, with zero values.
    Zero(Binding),
    /// `a T = x`, at the `=`.
    Typed(Ident, TypeExpr, Box<Expr>, Place),
    /// `a = x`, at the `=`.
    Inferred(Ident, Box<Expr>, Place),
}

/// A statement (The Go Programming Language Specification, "Statements").
#[derive(Drop)]
pub enum Stmt {
    /// A block, at the `{`.
    Block(Vec<Stmt>, Place),
    /// An expression statement.
    Plain(Box<Expr>),
    /// `c <- x`, a send statement, at the `<-`.
    Send(Box<Expr>, Box<Expr>, Place),
    /// `x++` or `x--`, at the operator.
    Step(StepOp, Box<Expr>, Place),
    /// `x = y` or an assignment that computes first, at the operator.
    Assign(AssignOp, Box<Expr>, Box<Expr>, Place),
    /// `a := x`, a short variable declaration, at the `:=`.
    Define(Ident, Box<Expr>, Place),
    /// An "if" statement, at `if`.
    If {
        init: Option<Box<Stmt>>,
        test: Box<Expr>,
        body: Vec<Stmt>,
        /// What follows `else`: a block or an "if" statement. It is a statement of either kind, so later passes need no case for it.
        other: Option<Box<Stmt>>,
        at: Place,
    },
    /// A "for" statement, at `for`.
    For {
        init: Option<Box<Stmt>>,
        test: Option<Box<Expr>>,
        post: Option<Box<Stmt>>,
        body: Vec<Stmt>,
        at: Place,
    },
    /// `go f(a, b)`, at `go`.
    Go(Ident, Vec<Expr>, Place),
    /// A declaration of variables, at `var`.
    Var(Vec<LocalVar>, Place),
    /// A "return" statement, at `return`.
    Return(Option<Box<Expr>>, Place),
    /// A "break" statement.
    Break(Place),
    /// A "continue" statement.
    Continue(Place),
}
