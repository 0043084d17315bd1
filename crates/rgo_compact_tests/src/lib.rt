//! Tests of compact code: programs are compiled, decoded and run by the loop up to the first instruction that it leaves to others.
//! The results and the numbers of instructions were worked out by hand.
#![tactic(auto)]

#[cfg(test)]
mod programs;
#[cfg(test)]
mod runs;
