//! The frames of a table of words: how the records of goroutines, with words in place of values and slots in place of regions,
//! represent the frames and the stakes of the region machine, and what each step does to a record.
//!
//! Each law of [`laws`] is about one state: if the record of a goroutine is before a step, the region machine has that step, and
//! the records after it represent the goroutines of the state after it. The step is computed from the machine's definition and never
//! a premise, so a goroutine that can step by its record can step in the run. [`words`] has the operators as they run on words, and
//! [`constants`] what the laws require of a code's constants. Why: docs/DECISIONS.md, "Tables of words".
#![tactic(auto)]

pub mod constants;
pub mod laws;
pub mod records;
pub mod words;
