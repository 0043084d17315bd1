//! Lists of goroutines: those that wait, by channel, and those that have a turn.

ghost use Rattle.std.specs.Prelude.{◌≡◌, ◌≤◌, ◌<◌, ◌++◌, ◌∷◌, [], ℕ, OnOk, Contains};
ghost use Rattle.rgo_round_robin.specs.Points.{listed_at_channel};

use std::alloc::{AllocError, Global};
use std::collections::HashMap;

/// Takes the goroutines that are listed at a channel. The list itself moves, so nothing is copied and nothing can fail.
pub(crate) fn take_list(
    alloc: Global,
    waiting: &mut HashMap<usize, Vec<usize>>,
    channel: usize,
) -> Vec<usize>
    ensures taken { result.items ≡ listed_at_channel waiting.old channel }
    ensures none { listed_at_channel waiting.new channel ≡ [] }
    ensures others { (n : ℕ) → (n ≡ channel → ⊥) → listed_at_channel waiting.new n ≡ listed_at_channel waiting.old n }
{
    match waiting.remove(&channel) {
        Some(list) => list,
        None => Vec::new(alloc),
    }
}

/// Lists goroutines at a channel, in place of those that are listed there.
pub(crate) fn put_list(
    waiting: &mut HashMap<usize, Vec<usize>>,
    channel: usize,
    list: Vec<usize>,
) -> Result<(), AllocError>
    ensures put { OnOk result (listed_at_channel waiting.new channel ≡ list.items) }
    ensures others { OnOk result ((n : ℕ) → (n ≡ channel → ⊥) → listed_at_channel waiting.new n ≡ listed_at_channel waiting.old n) }
{
    match waiting.insert(channel, list) {
        Ok(_) => Ok(()),
        Err(_) => Err(AllocError),
    }
}

/// The goroutines of these numbers are ready.
pub(crate) fn admit(ready: &mut Vec<usize>, from: usize, to: usize) -> Result<(), AllocError>
    ensures stay { OnOk result ((g : ℕ) → Contains ready.old.items g → Contains ready.new.items g) }
    ensures fresh { OnOk result ((g : ℕ) → from ≤ g → g < to → Contains ready.new.items g) }
{
    for g in from..to {
        ready.push(g)?;
    }
    Ok(())
}
