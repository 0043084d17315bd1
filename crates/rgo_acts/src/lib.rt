//! What goroutines do at the table of a run, one act at a time: an instruction that accesses words of the table, or a duty towards
//! a region. An [`Actor`](actors::Actor) is a goroutine with its seat. Its body shows its record before an act and after it; no act
//! waits.
//!
//! Invariants between two acts:
//! - The body shows the record that the seat has, after `behind` local steps that no access has put into the run yet.
//! - That record is possible: some run leads to a table in which a goroutine has it. What the code relies on without a test, such
//!   as that a name has a region, follows from this.
//! - Memory for what follows an act is taken before its first access, since an access cannot be undone.
//!
//! An act is called by the worker that has the goroutine's turn; nobody else has the actor then. Why: docs/DECISIONS.md,
//! "Goroutines over the table".
#![tactic(auto)]

pub mod actors;
pub mod cells;
pub mod channels;
pub mod duties;
pub mod ends;
pub mod locals;
pub mod objects;
pub mod prints;
pub mod runs;
pub mod starts;

// The crates below that those above name too.
pub use rgo_body as body;
