//! The body of a goroutine: its frames, what it has of regions, what it owes, and what it has counted. Only the loop,
//! [`Body::run`], accesses the table; for every other access there is an operation that brings the body to where the record of the
//! goroutine is after it.
//!
//! Each operation asks that the body shows a possible record, one that some run leads to, and says only: whatever record it showed
//! before, it now shows that record after this step. So an arm that cannot be reached is excluded by the runs that lead there, and
//! needs no test. Only the goroutine itself, in its turn, changes its body. Why: docs/DECISIONS.md, "Goroutines over the table".
//!
//! [`Program`] is the code that goroutines run. [`Body`] shows the record of a goroutine (specs/Shows.antt) between two
//! instructions or duties. Local steps, which need no access, are done whole: [`Body::run`] does instructions that touch no
//! region, the others of calls.rt and duties.rt one step each. [`Next`] is the instruction at which a goroutine is.
#![tactic(auto)]

mod acts;
mod bodies;
mod calls;
mod channels;
mod counts;
mod duties;
mod fields;
mod instructions;
mod laws;
mod nexts;
mod objects;
mod programs;
mod queues;
mod reserves;
mod running;
mod starts;

pub use bodies::{Body, Side};
pub use counts::Counts;
pub use laws::{examples, like_shown};
pub use nexts::Next;
pub use programs::Program;
pub use queues::Duty;
pub use rgo_stack::NoCall;

// The crates below that those above name too.
pub use rgo_pages as pages;
pub use rgo_stack::looping as looping;
