//! Region classes: which variables of a function may hold pointers into the same region.
#![tactic(auto)]

mod calls;
mod classes;
mod functions;
mod instructions;
mod labels;
mod laws;
mod names;

pub use classes::{Classes, Summaries, Summary};
pub use functions::classes_of;
pub use instructions::{join_body, join_op};
pub use labels::{Labels, merge};
pub use laws::same_is_least;
pub use names::name;
pub use rgo_tac::Class;
