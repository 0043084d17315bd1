//! The channels of a table of words: which words, and which records of goroutines, are the image of a state of the region
//! machine, and what each atomic access does to that image. A channel has a word for its control, one for its capacity, and a
//! cell for each value of its buffer; without a buffer it has one cell, for the value of an offer. An operation locks the
//! control, loads or stores a cell, and takes effect with the store that unlocks.
//!
//! A channel that does not fit a page is spread: its cells are words of data pages, whose numbers follow the capacity. Before
//! an access to such a cell the operation loads the number of its page.
//!
//! Each law of [`laws`] is about one state, and computes the region machine's step, so that the other images can be proved of the
//! same state. That the channel is in a live region follows from region safety. [`controls`] reads and makes controls. Why:
//! docs/DECISIONS.md, "Operations on channels".
#![tactic(auto)]

pub mod controls;
pub mod laws;
pub mod records;
