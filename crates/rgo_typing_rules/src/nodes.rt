//! The nodes of a program that are checked against the rules. A node has what the rules ask, and nothing else: the answers to
//! questions about names and scopes are given with it, so that a rule needs no scope and no tree.

use crate::builtins::Builtin;
use crate::kinds::Kind;
use crate::meanings::{Meaning, Signature};
use crate::roles::Role;
use crate::shapes::Shape;
use rgo_ast::{BinaryOp, UnaryOp};

/// A node of a program, with what the rules ask about it and its parts. Names and types are
/// borrowed from the text (`'t`), wanted types from the package (`'p`), and values from the caller
/// (`'v`).
#[derive(Clone, Copy)]
pub enum Node<'t, 'p, 'v> {
    /// An import: whether its path was imported before, and the path.
    Import(bool, &'t [u8]),
    /// A declared name: whether its block, struct or parameter list has declared it before.
    Declared(bool, &'t [u8]),
    /// The end of a function: whether it has a result, and whether its body is terminating.
    End(bool, bool),
    /// The end of the text: whether there is a function `main` without parameters and result.
    TextEnd(bool),
    /// A name as a type.
    TypeName(Option<Meaning>),
    /// A name after `*` or `&`, or in `new`.
    BaseName(Option<Meaning>),
    /// The `*` or the `new` with such a name.
    Pointed(Option<Meaning>),
    /// An integer literal.
    Number(u64),
    /// A string literal.
    Text(Role),
    /// An operand name.
    Name(Role, Option<Meaning>),
    /// The size of a slice or the capacity of a channel, in `make`.
    Size(Shape<'t>),
    /// A selector: whether its operand is a struct pointer and the struct has the field.
    Selector(bool),
    /// An index: its operand and the index itself.
    Index(Shape<'t>, Shape<'t>),
    /// A unary operation.
    Unary(UnaryOp, Shape<'t>),
    /// A binary operation.
    Binary(BinaryOp, Shape<'t>, Shape<'t>),
    /// A literal by its values: the types of the struct's fields, if its name is a struct's.
    Literal(Option<&'p [Kind<'t>]>, &'v [Shape<'t>]),
    /// A literal by fields: the type of each element's field, if there is such a field; whether
    /// a field appears twice; and the values.
    Keyed(Option<&'p [Option<Kind<'t>>]>, bool, &'v [Shape<'t>]),
    /// A call of a name that nothing declares.
    CallMissing,
    /// A call of something that is not a function.
    CallNothing,
    /// A call of a function.
    Call(Role, &'p Signature<'t>, &'v [Shape<'t>]),
    /// A call of a builtin.
    CallBuiltin(Builtin, Role, &'v [Shape<'t>]),
    /// An expression statement: whether it is a call or receive that may be a statement.
    Alone(bool),
    /// A send statement: the channel and the value.
    Send(Shape<'t>, Shape<'t>),
    /// `=`: whether its left side is a variable, a field or an element; both sides.
    Assign(bool, Shape<'t>, Shape<'t>),
    /// An assignment with an operator, as `+=`: the same, and the operator.
    Update(BinaryOp, bool, Shape<'t>, Shape<'t>),
    /// A variable declared with a value and without a type.
    Define(Shape<'t>),
    /// A variable declared with a type and a value.
    DefineAs(Kind<'t>, Shape<'t>),
    /// The condition of an `if` or `for`.
    Condition(Shape<'t>),
    /// `go` of a function.
    Go(&'p Signature<'t>, &'v [Shape<'t>]),
    /// `go` of something that is not a function.
    GoNothing,
    /// A `return`: the function's result, and what is returned.
    Return(Option<Kind<'t>>, Option<Shape<'t>>),
    /// `break` or `continue`: whether it is inside a `for`.
    Branch(bool),
}
