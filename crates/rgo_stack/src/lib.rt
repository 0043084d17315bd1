//! The stack of a goroutine: the variables of all its frames in one list of words, on which [`rgo_compact`] executes simple
//! instructions, and the operations on the newest frame by which all other instructions are executed one at a time.
//!
//! Invariants: the words of a frame follow those of its caller; words above the newest frame have no meaning; a caller's entry says
//! at which call it waits. Only the goroutine itself uses its stack, in its turn. Why: docs/DECISIONS.md, "Goroutines over the
//! table".
#![tactic(auto)]

mod calls;
mod growth;
mod laws;
mod stacks;
mod steps;

pub use calls::NoCall;
pub use laws::{examples, frames_law, places_law};
pub use stacks::{Place, Stack};
pub use steps::Ran;

// The crates below that those above name too.
pub use rgo_loop as looping;
