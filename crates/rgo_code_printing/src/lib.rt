//! Code with regions, printed as a code text.
#![tactic(auto)]

mod actions;
mod code;
mod declarations;
mod functions;
mod instrs;
mod items;
mod lists;
mod ops;
mod pieces;
mod spacing;
mod types;
mod words;

pub use code::print_code;
