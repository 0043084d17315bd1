//! Tests of the parts of a driver of goroutines over the table. The expected answers were worked out by hand.
#![tactic(auto)]

#[cfg(test)]
mod parking;
#[cfg(test)]
mod printing;
#[cfg(test)]
mod shares;
#[cfg(test)]
mod texts;
#[cfg(test)]
mod waking;
