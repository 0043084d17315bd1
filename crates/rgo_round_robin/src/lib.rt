//! Runs of any machine: goroutines in rounds, on the caller's thread. `record` and the tests of machines use it; `rgo run` has a
//! driver of its own, `rgo_runtime`.
//!
//! Invariant between turns: the run is at a state that rounds of turns within the limits lead to, and each goroutine that has no
//! turn in the round has returned or waits at a channel that is not ready. Why: docs/DECISIONS.md, "The recorded run".
#![tactic(auto)]

mod drivers;
mod lines;
mod meetings;
mod plain;
mod rounds;
mod running;
mod runs;
mod turns;
mod waiting;

pub use plain::Plain;
pub use running::Running;
pub use runs::run;
