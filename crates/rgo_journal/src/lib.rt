//! Journals: the picks of a run as a text, one in a line, and the run that they are, taken again.
//!
//! A journal is the line `rgo picks 1`, then a line for each pick, then the line `text`:
//!
//! | line | pick |
//! |---|---|
//! | `one G` | goroutine `G` steps alone |
//! | `meet R S` | receiver `R` and sender `S` step together, at a channel without a buffer |
//! | `case G K` | goroutine `G` takes case `K` of a `select`, alone |
//! | `casemeet G K S` | goroutine `G` takes case `K`, a receive, together with sender `S` |
//!
//! Goroutines are numbered from 0 in the order of their start; `main` is 0. Numbers are decimal, without leading zeros, and
//! have 32 bits. The subset of Go that rgo runs has no `select`, so its last two lines have a form, and no step.
#![tactic(auto)]

mod errors;
mod laws;
mod picks;
mod printing;
mod reading;
mod replays;

pub use errors::{PicksError, PicksText};
pub use laws::{examples, one_replay, read_back, same_steps};
pub use picks::{TacPick, journal_pick, machine_pick};
pub use printing::{print_pick, print_picks};
pub use reading::{PickList, Picks, read_picks};
pub use replays::{ReplayEnd, replay};
