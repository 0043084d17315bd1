//! Lowering: from typed trees to three-address code.
#![tactic(auto)]

mod blocks;
mod builder;
mod encode;
mod errors;
mod functions;
mod instructions;
mod laws;
mod programs;
mod sizes;
mod statements;
mod targets;
mod terms;

pub use errors::LowerError;
pub use laws::{examples, lowering_is_determined, lowering_simulates};
pub use programs::lower;
