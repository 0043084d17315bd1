//! Pages on the table of a run: a page is claimed for a region, the words of objects in it are stored and loaded, and the pages of a
//! region without stakes are returned.
//!
//! Invariants:
//! - A page is free (state 0), or claimed for exactly one slot (state: slot plus 1).
//! - A claimed page is on the chain of its slot, unless its claimer is between the claim and the swap of the head.
//! - A chain is read and its pages are freed only while its region has no stake and its slot is not free, by one goroutine.
//!
//! [`claiming`] has the search for a free page, [`cells`] the words, [`releasing`] the return. [`laws`] says who may return pages,
//! and when. The accesses are those of `rgo_core_steps`; the head of its `pages` has the protocol of a page.
#![tactic(auto)]

pub mod cells;
pub mod claiming;
pub mod laws;
pub mod releasing;
