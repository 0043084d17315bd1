//! The typing of statements that contain no others; and what is defined for all statements. What contains statements is in rgo_types:
//! the functions here need no induction on statements.
#![tactic(auto)]

mod assignments;
mod calls;
mod locals;
mod prints;
mod simple;
mod statements;

pub use statements::{Enclosing, check_simple};
