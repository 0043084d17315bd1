//! Terms: typed expressions.

use crate::actions::{Action, Logical};
use crate::lists::Row;
use crate::types::Type;
use rgo_ast::Place;

/// An expression of a typed tree. Its parts are evaluated from left to right, and then the term is. If it can trap, its place is that
/// of the trap.
#[derive(Drop)]
pub enum Term {
    /// The local variable of this number in its function: parameters come first, then
    /// declarations in the order of the text.
    Local(usize),
    /// An operation on the parts' values, with the type of its value. A constant has no parts.
    Apply(Action, Vec<Term>, Type, Place),
    /// `&&` or `||`: the right side is evaluated only if it decides.
    Logic(Logical, Box<Term>, Box<Term>, Place),
    /// A new object of the struct of this number, with these elements in the order of the text, and the number of each element's field.
    /// The order is that of their evaluation, which for a literal by fields need not be that of the fields.
    Build(usize, Vec<Term>, Row<usize>, Place),
    /// A call of the function of this number, with the type of its result.
    Call(usize, Vec<Term>, Type, Place),
}
