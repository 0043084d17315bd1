//! The runtime of `rgo run`: it schedules the goroutines of checked code on worker threads, over the words of one table, writes their
//! prints in order, and reports how the run has ended. `runs` has the loop of the scheduler, `crew` what one round of it does.
//!
//! All state of this crate belongs to the thread of the driver. In a round, worker threads have the goroutines of the run queue, one each,
//! and nothing else; what goroutines share is in the table, and only the crates below access it.
#![tactic(auto)]

pub mod crew;
pub mod deadlock;
pub mod ends;
pub mod laws;
pub mod parking;
pub mod printing;
pub mod queues;
pub mod retiring;
pub mod runs;
pub mod shares;
pub mod sizing;
mod time_slices;
pub mod turns;
mod waking;

// The crates below that those above name too.
pub use rgo_table_runs::goroutine as goroutine;
