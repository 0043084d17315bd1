//! The checker of code with regions: whether code keeps the fourteen rules.
#![tactic(auto)]

mod actions;
mod bools;
mod check;
mod classes;
mod entries;
mod errors;
mod existence;
mod existing;
mod instructions;
mod laws;
mod lending;
mod naming;
mod parameters;
mod passing;
mod regions;
mod scan;
mod sizes;
mod types;
mod typing;
mod walking;

pub use check::check_code;
pub use errors::CheckError;
pub use laws::{examples, one_outcome, some_outcome};
