//! The typing: whether a program keeps the rules on meaning, and its typed tree if it does.
#![tactic(auto)]

mod bodies;
mod checking;
mod flow;
mod nested;
mod statements;

pub use checking::check;
pub use rgo_typing_rules::{TypeError, TypeRefusal};
