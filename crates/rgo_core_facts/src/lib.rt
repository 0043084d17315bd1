//! What follows from the record of a goroutine, at every moment of a run: where the words are that its next instruction accesses,
//! which object it makes and where, and which regions it knows.
//!
//! A fact holds of each record that a goroutine of some table may have. So code that runs a goroutine may use it without looking
//! at the table, and an arm of its code that a fact excludes needs no test. A fact stays true while others access the table, since it is
//! about the record alone. Why: docs/DECISIONS.md, "Goroutines over the table".
#![tactic(auto)]

pub mod control;
pub mod memory;
