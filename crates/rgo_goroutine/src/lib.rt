//! Goroutines over the table of a run. A [`Goroutine`](goroutine::Goroutine) has a seat at the table, its frames and what it knows of
//! regions. In a turn it makes up to a slice of instructions, by atomic accesses alone: no turn waits for another goroutine.
//!
//! [`turning`] has the turn: a loop over instructions, `execute` of `rgo_acts`, and one other act wherever it stops. [`goroutine`] has
//! what a driver needs besides: where goroutines begin and end, and what is taken from them between turns. [`waking`] is what a turn
//! reports to a driver that parks and wakes goroutines.
//!
//! Invariants between turns:
//! - The record on the seat has all local steps of the goroutine; no channel is locked by it, no object of it is half made, and no
//!   page is claimed by it and not linked.
//! - Its last prints and children are in its lists until its driver takes them; none is lost or doubled.
//!
//! A turn is called by one worker, which has the goroutine for itself; everything else by the driver, between turns. Why:
//! docs/DECISIONS.md, "Goroutines over the table".
#![tactic(auto)]

pub mod goroutine;
mod instructions;
pub mod turning;
pub mod waking;

// The crates below that those above name too.
pub use rgo_acts as acts;
pub use rgo_acts::body as body;
