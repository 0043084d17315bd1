//! Regions put into three-address code: where they are created, passed, protected and removed.
#![tactic(auto)]

mod bare;
mod filling;
mod laws;
mod notes;
mod passing;
mod programs;

pub use laws::one_code;
pub use programs::insert;
