//! The region machine: three-address code that runs with its regions. It is a definition; `rgo_region_interpreter` and the table of
//! `rgo_core` execute it. The only code here are the types that their answers share with it.
#![tactic(auto)]

mod laws;
mod limits;
mod regions;
mod tallies;

pub use laws::{examples, room_examples, spread_examples};
pub use limits::Limit;
pub use regions::Region;
pub use tallies::Tally;
