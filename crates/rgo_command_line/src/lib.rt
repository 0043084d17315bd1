//! The command line: which command its words ask for, with which options.
#![tactic(auto)]

mod commands;
mod laws;
mod limits;
mod numbers;
mod parser;

pub use commands::{Command, WordsError, read_words};
pub use laws::words_asked;
pub use limits::RunOptions;
