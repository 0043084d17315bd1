//! The tests of trees, of the typing of expressions, and of values and memory, a module for each crate. Each test
//! calls public functions only, with values that were worked out by hand or come from another program.
#![tactic(auto)]

#[cfg(test)]
mod ast;
#[cfg(test)]
mod checks;
#[cfg(test)]
mod memory;
#[cfg(test)]
mod texts;
#[cfg(test)]
mod typed;
#[cfg(test)]
mod typed_trees;
#[cfg(test)]
mod typing_expressions;
#[cfg(test)]
mod typing_rules;
#[cfg(test)]
mod values;
