//! The memory of a table of words: which words, and which records of goroutines, are the image of a state of the region
//! machine, and what each atomic access does to that image. Objects lie in pages; a page is claimed for the slot of a region
//! and is on its chain; a slot counts the stakes in its region; a chain is returned when the last stake has ended.
//! Why: docs/DECISIONS.md, "Tables of words".
//!
//! Each law of [`laws`] is about one state: from the image of a state and a step of the region machine follows that the
//! words and the records after an access are the image of the state after the step. [`layout`] says where the words are.
#![tactic(auto)]

pub mod laws;
pub mod layout;
pub mod records;
