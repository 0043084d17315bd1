//! The loop over simple instructions makes local steps of the record of a goroutine. These laws state what the record is after
//! them, so that the next access of the goroutine takes them into the run. Between two accesses no other goroutine sees them, so the loop
//! may run as long as it needs no word of the table.
#![tactic(auto)]

pub mod laws;
