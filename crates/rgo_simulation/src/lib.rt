//! When one machine simulates another.
#![tactic(auto)]

mod laws;

pub use laws::{Following, following_simulates};
