//! What holds of the code of every well-formed program.
#![tactic(auto)]

mod laws;

pub use laws::{examples, lowered_is_typed, lowered_prints};
