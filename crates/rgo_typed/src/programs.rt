//! Programs that keep the typing rules.

use crate::lists::Row;
use crate::statements::Stmt;
use crate::types::Type;
use rgo_ast::{Name, Place};

/// A struct, by its name and the types of its fields.
#[derive(Drop)]
pub struct Struct {
    pub name: Name,
    pub fields: Row<Type>,
}

/// A package variable.
#[derive(Drop)]
pub struct Variable {
    pub name: Name,
    pub ty: Type,
}

/// A function.
#[derive(Drop)]
pub struct Function {
    pub name: Name,
    /// How many of its local variables are parameters.
    pub params: usize,
    /// The types of its local variables by number, the parameters first.
    pub locals: Row<Type>,
    pub result_type: Option<Type>,
    pub body: Vec<Stmt>,
    /// The place of the closing brace.
    pub end: Place,
}

/// A program. Structs, package variables and functions are numbered in the order of the text, each
/// kind by itself, from 0.
#[derive(Drop)]
pub struct Typed {
    pub structs: Row<Struct>,
    pub variables: Row<Variable>,
    pub functions: Vec<Function>,
}
