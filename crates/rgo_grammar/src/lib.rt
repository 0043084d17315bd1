//! The grammar: which lists of lexemes are programs, with which tree, and at which lexeme the others fail.
//!
//! The only code is `deep_at`, the check of nesting that rgo_parser makes before it parses. The rest is definitions, and the law that
//! each list of lexemes is exactly one program or has exactly one first bad lexeme.
#![tactic(auto)]

mod laws;
mod nesting;

pub use laws::one_reading;
pub use nesting::{Level, deep_at};
