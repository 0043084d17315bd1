//! Summaries: what callers need to know of the region classes of functions.
#![tactic(auto)]

mod beginning;
mod calls;
mod family;
mod names;
mod nodes;
mod progress;
mod spreading;

pub use family::summaries;
