//! The typed trees: a program whose names are resolved, whose constants are computed and whose parentheses are gone. Every later pass
//! works on them, and no later pass looks at the source again: so a tree has the place of each trap that may come of it.
#![tactic(auto)]

mod actions;
mod lists;
mod programs;
mod statements;
mod terms;
mod types;

pub use actions::{Action, Logical};
pub use lists::Row;
pub use programs::{Function, Struct, Typed, Variable};
pub use statements::{Piece, Stmt};
pub use terms::Term;
pub use types::{Base, Layer, Type};
