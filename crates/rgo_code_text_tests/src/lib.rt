//! The tests of code texts: texts that are read and printed again, texts that are rejected, and code that breaks a rule.
#![tactic(auto)]

#[cfg(test)]
mod checking;
#[cfg(test)]
mod checks;
#[cfg(test)]
mod code_texts;
#[cfg(test)]
mod forms;
#[cfg(test)]
mod refusals;
