//! Tests of what a goroutine knows about regions. The expected answers were worked out by hand.
#![tactic(auto)]

#[cfg(test)]
mod holdings;
