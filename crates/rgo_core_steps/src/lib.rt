//! Atomic accesses of goroutines on the table of a run: each call is one access, of one kind. A contract states what the record of
//! the goroutine has to show before it, what the access found and left, and what the record is after it. That the rule of the
//! table allows the access is a law of `rgo_core`. The record after it is a function of the record before and of the number found, so
//! that callers can carry an instruction over several accesses.
//!
//! [`clock`] has the tickets of prints and the end of the run, [`numbers`] the starts of goroutines, and [`seats`] passes records
//! from seat to seat. [`memory`] has the words of objects and package variables, [`pages`] and [`counts`] those by which regions
//! are made and returned, and [`channels`] those of channels. [`counting`] counts the accesses of the calls above.
#![tactic(auto)]

pub mod channels;
pub mod clock;
pub mod counting;
pub mod counts;
pub mod grown;
pub mod laws;
pub mod memory;
pub mod numbers;
pub mod pages;
pub mod searches;
pub mod seats;
