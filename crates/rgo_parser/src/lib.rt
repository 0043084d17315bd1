//! The parser: the tree of a text's lexemes, or the first lexeme that cannot continue any program.
//!
//! The pipeline in rgo_run calls `parse`. Each private function reads one production of the grammar from a `Reader` of rgo_reader, and
//! its contract states that it agrees with the reading function of rgo_grammar for that production. rgo_grammar proves that the
//! reading functions find the one tree or the first bad lexeme. The functions that call each other in a cycle are in `expressions`
//! and `statements`; what can be read outside the cycles is in the other files and in rgo_reader, so that each cycle is small.
#![tactic(auto)]

mod declarations;
mod expressions;
mod headers;
mod items;
mod laws;
mod locals;
mod openings;
mod parser;
mod programs;
mod simple;
mod statements;

pub use laws::one_answer;
pub use parser::{ParseError, ParseRefusal, parse};
