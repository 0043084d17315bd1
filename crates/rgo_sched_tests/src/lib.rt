//! The tests of rounds on worker threads: what the tasks are afterwards, when the workers arrive, that they run beside
//! each other and steal from each other, and tasks that share a lock. Tests of whole runs use [`Meeting`], too.
#![tactic(auto)]

#[cfg(test)]
mod beside;
#[cfg(test)]
mod counters;
#[cfg(test)]
mod gates;
#[cfg(test)]
mod locked;
mod meetings;
#[cfg(test)]
mod stealing;

pub use meetings::Meeting;
