//! Liveness of the variables of three-address code.
#![tactic(auto)]

mod blocks;
mod graphs;
mod liveness;
mod queries;
mod ranges;
mod solving;
mod table;
mod uses;

pub use liveness::live;
pub use ranges::Range;
pub use table::Liveness;
