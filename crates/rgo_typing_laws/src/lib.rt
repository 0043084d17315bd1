//! The law of type soundness: the typed tree of a program that breaks no rule is well-formed. rgo_run uses it for the programs that it
//! lowers and runs.
#![tactic(auto)]

mod laws;

pub use laws::well_formed_where_unbroken;
