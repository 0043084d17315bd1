//! The counts of regions on the table of a run: a region is created in a free slot, goroutines take and end stakes in it, and the one
//! that ends the last stake frees the slot after the pages of the region are returned.
//!
//! Invariant: a count is 0 while its slot is free, and otherwise one more than the stakes in its region. So 1 means a region that
//! nobody can reach and whose pages are being returned; a search must not take its slot, and does not, since it takes only 0.
//!
//! [`creation`] has the search for a free slot, [`stakes`] the rest. The accesses are those of `rgo_core_steps::counts`, whose head
//! has the protocol of a count.
#![tactic(auto)]

pub mod creation;
pub mod stakes;
