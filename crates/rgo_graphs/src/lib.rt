//! Relations between numbers, kept as rows, and what is reached along them.
#![tactic(auto)]

mod reach;
mod rows;

pub use reach::reached;
pub use rows::{add_row, empty_rows, transposed};
