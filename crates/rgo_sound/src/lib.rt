//! Region safety: what holds of every run of checked code with its regions.
#![tactic(auto)]

mod laws;

pub use laws::{
    erasure, examples, names_only_live, no_step_missing, offers_stay, others_stay,
    owners_stay_made, removed_stays, reserved_for_next, room_is_kept, runs_on, safety,
    start_is_good, steps_keep_good, tally_adds, types_keep, whole_is_enough,
};

// The crates below that those above name too.
pub use rgo_ast as ast;
pub use rgo_code as code;
pub use rgo_machine as machine;
pub use rgo_memory as memory;
pub use rgo_region_machine as region_machine;
pub use rgo_tac as tac;
pub use rgo_typed as typed;
