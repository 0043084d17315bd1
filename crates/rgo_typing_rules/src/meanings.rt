//! What names mean, and what functions take and return.

use crate::builtins::Builtin;
use crate::kinds::Kind;
use rgo_typed::Base;

/// What a name in scope means. Local variables are numbered in their function; package variables, functions and structs each in the
/// package. A number is the index in the lists of the checker, so a meaning needs no reference to a declaration.
#[derive(Clone, Copy)]
pub enum Meaning {
    /// A local variable.
    Local(usize),
    /// A package variable.
    Global(usize),
    /// A function.
    Function(usize),
    /// A struct.
    Struct(usize),
    /// `int` or `bool`.
    Basic(Base),
    /// `true` or `false`.
    Truth(bool),
    /// `nil`.
    Nil,
    /// A predeclared builtin.
    Builtin(Builtin),
    /// `fmt`, and whether it is imported. Without the import it is a name that nothing declares.
    Package(bool),
}

/// What a function takes and returns.
#[derive(Drop)]
pub struct Signature<'a> {
    pub params: Vec<Kind<'a>>,
    pub result_type: Option<Kind<'a>>,
}
