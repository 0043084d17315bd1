//! Names in scope: a table of blocks in which a name means its newest declaration in the innermost
//! block that declares it.
#![tactic(auto)]

mod newest;
mod scopes;

pub use scopes::Scopes;
