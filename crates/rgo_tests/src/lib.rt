//! The tests above all other crates: whole calls. Each test calls public functions only, with values that were worked out by
//! hand or come from another program.
//!
//! There are several crates of tests, so that they are proved in parallel.
#![tactic(auto)]

#[cfg(test)]
mod checks;
#[cfg(test)]
mod lines;
#[cfg(test)]
mod run;
#[cfg(test)]
mod slow_sinks;
