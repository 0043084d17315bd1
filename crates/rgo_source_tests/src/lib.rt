//! The tests of the typing of whole programs, of what runs them (the source machine and the driver), and of sources and
//! sinks. Each test calls public functions only, with values that were worked out by hand or come from another program.
#![tactic(auto)]

#[cfg(test)]
mod checks;
#[cfg(test)]
mod driver;
#[cfg(test)]
mod meaning;
#[cfg(test)]
mod outside;
#[cfg(test)]
mod texts;
#[cfg(test)]
mod typed_programs;
#[cfg(test)]
mod types;
