//! The interpreter of three-address code: the three-address machine in code, step by step, and three faster ways through the steps
//! that come most often. A faster way may refuse any step: it then changes nothing, and the caller takes the general step.
#![tactic(auto)]

mod acts;
mod cases;
mod frames;
mod machine;
mod makes;
mod marks;
mod quick;
mod stands;
mod states;
mod stretches;
mod transfers;

pub use frames::Frame;
pub use machine::{TacMachine, start};
pub use makes::make_object;
pub use marks::Mark;
pub use states::{TacState, tac_printed, tac_start, tac_step, tac_stuck};
pub use stretches::stretch;
pub use transfers::call_or_return;
