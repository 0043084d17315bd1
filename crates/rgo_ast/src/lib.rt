//! The surface trees: what a text says, before any name in it is resolved. They keep what the typing reports or checks: the place of
//! each node, parentheses, types as they are spelled. Final commas, empty statements and groups of declarations leave nothing.
#![tactic(auto)]

mod declarations;
mod expressions;
mod names;
mod ops;
mod places;
mod statements;
mod types;

pub use declarations::{Decl, Function, Import, Program, TypeSpec};
pub use expressions::{Element, Expr};
pub use names::{Ident, ImportPath, Name, Place};
pub use ops::{AssignOp, BinaryOp, StepOp, UnaryOp};
pub use statements::{LocalVar, Stmt};
pub use types::{Binding, TypeExpr};
