//! The reader of a text's lexemes, and the parts of the grammar that contain no expression: names and types, the separators of
//! lists, and what comes before, between and after the operands of expressions.
//!
//! Each function reads one part from a `Reader`, and its contract states that it agrees with the reading function of rgo_grammar for
//! that part. rgo_parser is built on this crate. The two are apart because these parts are read without recursion through
//! expressions, so the cycles of rgo_parser are small.
#![tactic(auto)]

mod lists;
mod operands;
mod prefixes;
mod readers;
mod suffixes;
mod types;

pub use lists::{closes, separated};
pub use operands::{Bracket, Opening, close_operand, open_operand};
pub use prefixes::{Prefix, level, operator, read_prefix};
pub use readers::{Fault, Read, Reader, ident};
pub use suffixes::{Suffix, is_keyed, read_suffix};
pub use types::{binding, ty, typed_names};
