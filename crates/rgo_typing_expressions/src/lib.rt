//! The typing of expressions: whether they keep the rules on meaning, and their typed trees.
#![tactic(auto)]

mod callees;
mod calls;
mod checkers;
mod expressions;
mod fields;
mod keyed;
mod laws;
mod literals;
mod made;
mod names;
mod operands;
mod packages;
mod results;
mod scopes;
mod types;

pub use callees::{Callee, bare, named_callee};
pub use calls::call;
pub use checkers::Checker;
pub use expressions::params_of;
pub use fields::{Field, find_field};
pub use laws::typed_where_unbroken;
pub use packages::{Fields, Package};
pub use results::Values;
pub use rgo_typing_operations::{Checked, apply_one, apply_two, atom, constant, plain, with_type};
pub use scopes::Scope;
