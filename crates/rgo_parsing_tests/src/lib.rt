//! The tests of what reads text: lexer, grammar, parser, names in scope, and the words of a command line, a module
//! for each crate. Each test calls public functions only, with values that were worked out by hand or come from
//! another program.
#![tactic(auto)]

#[cfg(test)]
mod checks;
#[cfg(test)]
mod grammar;
#[cfg(test)]
mod lexer;
#[cfg(test)]
mod lines;
#[cfg(test)]
mod parser;
#[cfg(test)]
mod scopes;
#[cfg(test)]
mod words;
