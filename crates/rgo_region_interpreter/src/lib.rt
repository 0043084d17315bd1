//! The region machine in code, for recorded runs: a program runs with its regions, on one thread, and the memory of a region is
//! freed with it.
//!
//! Invariants, while the world shows a state of the region machine: each goroutine has a holder; each name that an instruction uses
//! is bound to a live region or to Global; the table has a row for each live region. So the early returns in this crate for a
//! missing holder, frame, name or row are never taken. No test asks whether an object's region is live: region safety says so of
//! every run. Why: docs/DECISIONS.md, "The recorded run".
#![tactic(auto)]

mod calls;
mod duties;
mod holders;
mod instructions;
mod laws;
mod marks;
mod meetings;
mod objects;
mod running;
mod starting;
mod tables;
mod turns;
mod worlds;

pub use laws::extent_examples;
pub use worlds::World;
