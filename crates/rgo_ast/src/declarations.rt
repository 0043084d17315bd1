//! Declarations at the top of a text, and the whole of it. They are in the order of the text, which is that of checking.

use crate::names::{Ident, ImportPath, Place};
use crate::statements::Stmt;
use crate::types::{Binding, TypeExpr};

/// A struct type with its name (The Go Programming Language Specification, "Type declarations").
#[derive(Drop)]
pub struct TypeSpec {
    pub name: Ident,
    pub fields: Vec<Binding>,
}

/// A function (The Go Programming Language Specification, "Function declarations").
#[derive(Drop)]
pub struct Function {
    pub name: Ident,
    pub params: Vec<Binding>,
    pub result_type: Option<TypeExpr>,
    pub body: Vec<Stmt>,
    /// The place of `func`.
    pub at: Place,
    /// The place of the closing brace, where a missing `return` is reported.
    pub end: Place,
}

/// A declaration outside of functions (The Go Programming Language Specification, "Declarations and
/// scope").
#[derive(Drop)]
pub enum Decl {
    /// Types, at `type`.
    Types(Vec<TypeSpec>, Place),
    /// Variables, at `var`.
    Vars(Vec<Binding>, Place),
    /// A function.
    Func(Function),
}

/// Imports that are declared together, at `import` (The Go Programming Language Specification,
/// "Import declarations").
#[derive(Drop)]
pub struct Import {
    pub paths: Vec<ImportPath>,
    pub at: Place,
}

/// A whole text (The Go Programming Language Specification, "Source file organization").
#[derive(Drop)]
pub struct Program {
    pub imports: Vec<Import>,
    pub decls: Vec<Decl>,
    /// The length of the text, where a missing `main` is reported.
    pub end: Place,
}
