//! Well-formed typed trees: what later passes may assume of the typed tree of a valid program. The definitions are in specs/; this
//! crate proves laws about them. It does not know the checker: that the checker's trees are well-formed is the law of rgo_typing_laws.
#![tactic(auto)]

mod laws;

pub use laws::{examples, lists, one_type};
