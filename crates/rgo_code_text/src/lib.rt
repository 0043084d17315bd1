//! The text of code with regions, read: the code, or the first line that has no form.
#![tactic(auto)]

mod actions;
mod building;
mod calls;
mod items;
mod jumps;
mod laws;
mod numbered;
mod numbers;
mod ops;
mod places;
mod prints;
mod reading;
mod refusals;

pub use laws::{examples, one_of_both, one_refusal, one_text, rules_suffice};
pub use reading::read_code;
pub use refusals::{CodeText, ReadError};
