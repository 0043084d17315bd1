//! Tests of goroutines over the table of a run. Programs of a text are compiled, and their goroutines have turns until the run is
//! over: in rounds, in an order that the test lists, or each in a thread of its own.
#![tactic(auto)]

#[cfg(test)]
mod driver;
#[cfg(test)]
mod endings;
#[cfg(test)]
mod examples;
#[cfg(test)]
mod programs;
#[cfg(test)]
mod rows;
#[cfg(test)]
mod threads;
