//! A driver of goroutines over the table of a run, for tests: they have turns one after another, or each in a thread of its own,
//! until the run is over. The program's own driver is `rgo_runtime`, which decides for itself who has a turn; this one exists because a
//! test has to choose the order of turns. It has few clauses, since no part of the program rests on it: the tests compare its results.
#![tactic(auto)]

pub mod crew;
pub mod driving;
mod errors;
pub mod over;

pub use errors::CrewError;
