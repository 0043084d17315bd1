//! Statements of typed trees. Their terms are boxed, which keeps statements small.

use crate::actions::Action;
use crate::lists::Row;
use crate::terms::Term;
use crate::types::Type;
use rgo_ast::{BinaryOp, Name, Place};

/// What a print writes: bytes as they are, or the next value.
#[derive(Drop)]
pub enum Piece {
    Text(Name),
    Value,
}

/// A statement. If it can trap, it has the place of that trap.
#[derive(Drop)]
pub enum Stmt {
    /// A block, at whose end its local variables go out of scope. A statement with a header is in a block of its own, since the
    /// variable of its header goes out of scope with it.
    Block(Vec<Stmt>),
    /// The local variable of this number begins with a value, at the `=` or `:=`.
    Declare(usize, Type, Box<Term>, Place),
    /// The local variable of this number begins with the zero of its type, at its name.
    Zero(usize, Type, Place),
    /// The local variable of this number is assigned a value.
    Assign(usize, Box<Term>, Place),
    /// A store, a send, a close, a package variable set: its operands, and then the action.
    Perform(Action, Vec<Term>, Place),
    /// An assignment that computes first, to a field, an element or a package variable: the operands of the variable, its read, the
    /// value, the operator, the write. The operands appear once, since they are evaluated once for the read and the write.
    Update {
        operands: Vec<Term>,
        read: Action,
        /// The type of the variable.
        ty: Type,
        read_at: Place,
        op: BinaryOp,
        value: Box<Term>,
        write: Action,
        /// The place of the operator and of the write.
        at: Place,
    },
    /// A value that is not used.
    Discard(Box<Term>),
    /// A call of the function of this number, which has no result.
    Invoke(usize, Vec<Term>, Place),
    /// `go f(a, b)`, by the function's number.
    Go(usize, Vec<Term>, Place),
    /// `fmt.Println`, by its pieces and the values among them.
    Print(Row<Piece>, Vec<Term>, Place),
    /// `if` without `else`.
    If(Box<Term>, Vec<Stmt>, Place),
    /// `if` with `else`.
    IfElse(Box<Term>, Vec<Stmt>, Vec<Stmt>, Place),
    /// `for`, after its first statement, which is in the block around it.
    Loop {
        test: Option<Box<Term>>,
        body: Vec<Stmt>,
        post: Vec<Stmt>,
        at: Place,
    },
    Break(Place),
    Continue(Place),
    Return(Option<Box<Term>>, Place),
}
