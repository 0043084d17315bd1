//! Machines, by definition: what the source machine and every machine below it have in common. Goroutines, each a stack of
//! frames, run over one memory; they step one at a time, or two of them meet at a channel.
#![tactic(auto)]

mod ends;
mod laws;
mod limits;
mod lines;
mod picks;

pub use ends::RunEnd;
pub use laws::{deadlocks_wait, print_grows};
pub use limits::{DEEPEST, Limits, Shortage, Sizes};
pub use lines::write_line;
pub use picks::{End, Pick};
