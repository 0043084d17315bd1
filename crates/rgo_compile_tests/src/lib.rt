//! The tests of the code of programs: which three-address code a text has and how that runs, what its analyses find (where
//! variables are live, which of them are in one class, what a function's callers see of its classes), and which code with
//! regions a program has. Each test calls public functions only, with values that were worked out by hand from the rules of
//! docs/CODE.md and docs/REGION_INFERENCE.md, or come from another producer of code texts.
#![tactic(auto)]

#[cfg(test)]
mod analyses;
#[cfg(test)]
mod checks;
#[cfg(test)]
mod classes;
#[cfg(test)]
mod codes;
#[cfg(test)]
mod inserted;
#[cfg(test)]
mod listing;
#[cfg(test)]
mod liveness;
#[cfg(test)]
mod lowering;
#[cfg(test)]
mod stepping;
#[cfg(test)]
mod stretches;
#[cfg(test)]
mod texts;
