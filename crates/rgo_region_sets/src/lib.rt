//! Which regions an instruction has to create, protect and remove. `rgo_insert` writes these sets into the code, and
//! `rgo_checker` compares the lists of code with them.
#![tactic(auto)]

mod branches;
mod created;
mod dying;
mod entry;
mod given;
mod liveness;
mod merging;
mod names;
mod protected;
mod regions;
mod removed;
mod sets;
mod spans;
mod table;
mod used;

pub use created::creations;
pub use entry::{entry_removals, holds_at_entry};
pub use given::gives;
pub use liveness::live_names;
pub use protected::protections;
pub use regions::{parameter_classes, region_parameters};
pub use removed::{RemovedNames, removals};
pub use table::LiveNames;
