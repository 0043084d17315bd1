//! From a table of a run that was closed to what the program did.
//!
//! The rule of the table says that one run of the region machine explains its words and records. [`laws`] says what that run is
//! where a driver has the records of all goroutines: up to which event the program has run, what it has printed, why it has ended,
//! and what it has counted (`specs/closing`). A deadlock and a shortage of pages or regions are ends that no goroutine has set;
//! they follow from a pass in which each goroutine had a turn and changed nothing (`specs/passing`). The claim on the whole program
//! takes the run from there (`specs/claims`).
//!
//! What a turn of a pass has found was so at the access that found it. It was so at one common moment, too, since all goroutines
//! had met the driver before, and none of the turns changed a word. Why: docs/DECISIONS.md, "The driver of a run".
#![tactic(auto)]

pub mod laws;

// The crates below that those above name too.
pub use rgo_goroutine as goroutine;
