//! Operations of goroutines on channels, over the table of a run: [`send`], [`receive`], [`close_channel`] and [`acknowledge`].
//! Each is a short list of atomic accesses of `rgo_core_steps`, and never waits: it returns as [`Tried`] what came of it. The
//! contracts say which accesses were made, what they found, and what the record of the goroutine is after them.
//!
//! Invariants, for a channel in a live region:
//! - While the lock bit is set, exactly one goroutine has the lock, and only that goroutine accesses the cells and the control.
//! - A buffer has at most as many values as the capacity; the oldest is in the cell that the control names.
//! - The capacity, and the page numbers of a spread channel, were stored before the channel existed and never change.
//!
//! The control word of a channel has a lock bit, whether the channel is closed, how many values its buffer has, and which cell has
//! the oldest. Without a buffer the number is a phase instead: 0 for no offer, 1 for an offer, 2 for an offer that was taken.
//!
//! An operation in steps, each of which is one access:
//! 1. Load the capacity (a send or a receive alone), then the control. If it is locked, return `Busy`. If the operation cannot take
//!    effect now, return `NotReady`; if it ends the run, `Trap`. Each is decided by the control alone, at the moment of its load.
//! 2. Exchange the control that was loaded for the same with the lock bit. If the exchange finds another control, return
//!    `Busy`: another goroutine has operated on the channel since, so what was decided in step 1 is void. There is no second try
//!    here: a loop would have no bound, and would keep a worker busy while the goroutine with the lock has no turn.
//! 3. Load or store the one cell that the control names. Nobody else does, since they all find the lock bit. If the channel does not
//!    fit a page, load the number of the cell's page before that.
//! 4. Store the control after the operation, without the lock bit. With this store the operation takes effect. A plain store will
//!    do, since no other goroutine changes a locked control.
//!
//! The sender of an offer does the same once more after step 4: when it finds phase 2, it stores phase 0, and leaves its send. So a
//! meeting has these steps: the sender locks, stores the cell, stores phase 1; the receiver locks, loads the cell, stores phase 2
//! (the meeting takes effect); the sender locks, stores phase 0.
//!
//! Only the goroutine whose record is on the seat calls these functions, from its own turn, and only with the operation that is its
//! next instruction. Why: docs/DECISIONS.md, "Operations on channels".
#![tactic(auto)]

pub mod answers;
pub mod closes;
pub mod laws;
mod looks;
mod reaching;
pub mod receives;
pub mod sends;

pub use answers::Tried;
pub use closes::{acknowledge, close_channel};
pub use receives::receive;
pub use sends::send;
