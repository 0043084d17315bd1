//! The tests of tables: that of a run opens on code that was read and checked, is looked at, and closes; that of the smallest example
//! of the rule is accessed from two threads.
#![tactic(auto)]

#[cfg(test)]
mod adding;
#[cfg(test)]
mod tables;
#[cfg(test)]
mod texts;
