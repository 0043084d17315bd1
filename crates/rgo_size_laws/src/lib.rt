//! Laws of sizes: the code of a text's program is at most linear in the length of the text. rgo_run uses them to prove that lowering
//! never finds a program too large.
#![tactic(auto)]

mod laws;

pub use laws::{examples, size_is_linear};
