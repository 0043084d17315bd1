//! Recorded runs: code runs with its regions on the caller's thread, and each of its steps is noted.
//!
//! Invariant: the notes are a run of the code without its regions, from its start to the state that the world is at. Why:
//! docs/DECISIONS.md, "The recorded run".
#![tactic(auto)]

mod laws;
mod notes;
mod printing;
mod recorders;
mod recording;

pub use laws::recorded_replays;
pub use notes::{Note, Notes};
pub use recording::{Recorded, run_recorded};
