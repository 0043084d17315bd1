//! Tables of words that goroutines access from any thread, one atomic access at a time, and the rule that gives such a table
//! a meaning: there is one run, of whatever machine, that explains the words after every access.
//!
//! The rule knows no machine. An [`rule::Explanation`] defines which runs explain which words and records. A crate above proves
//! for each kind of access that it leads from an explained table to an explained table, whatever the rest of the table is: such a
//! law is a `Move` (`specs/Steps.antt`). It has to hold for every rest because other threads access the table at the same time.
//! The calls of [`steps`] and [`seats`] make such accesses on a real table, and [`laws`] has what follows from the rule.
//! [`counting`] is the smallest example.
#![tactic(auto)]

pub mod accesses;
pub mod counting;
pub mod laws;
pub mod rule;
pub mod seats;
pub mod steps;
pub mod told;
