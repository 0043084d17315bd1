//! The ranges of instructions in which a variable is live.

ghost use Rattle.std.specs.Prelude.{◌≡◌, ◌<◌, ◌≤◌, ◌+◌, ◌↔◌, ◌^◌, ℕ, length, Contains, slice_index, vec_len, IfOk, OnOk};
ghost use Rattle.rgo_graphs.specs.Rows.{IsAscending, Relates, rows_of, row_at};
ghost use Rattle.rgo_flow.specs.Ranges.{AddsPoints, ForSome, IsBetween, IsCovered, IsKeptFor, IsKeptOut, IsStart};
ghost use Rattle.rgo_flow.specs.Table.{IsLive};

use crate::table::Liveness;
use std::alloc::{AllocError, Global};

/// Instructions in a row, the last one included.
#[derive(Clone, Copy, Debug, PartialEq, Eq)]
pub struct Range {
    pub from: u32,
    pub to: u32,
}

/// The instruction after the last of the writers before `end`, if that is after `first`; else `first`.
fn start_of(writers: &[u32], first: u32, end: u32) -> u32
    requires ascending { IsAscending writers.now }
    ensures { IsStart writers.now first end result }
{
    let count = writers.partition_point(|w| *w < end);
    if count == 0 {
        return first;
    }
    first.max(writers[count - 1] + 1)
}

/// Adds the instructions from `first` to `to` that follow the last writer before `end`: before that one, the value is another.
fn add(
    ranges: &mut Vec<Range>,
    writers: &[u32],
    first: u32,
    end: u32,
    to: u32,
) -> Result<(), AllocError>
    requires ascending { IsAscending writers.now }
    ensures { OnOk result (AddsPoints ranges.old.items ranges.new.items (IsBetween writers.now first end to)) }
{
    let from = start_of(writers, first, end);
    if from <= to {
        ranges.push(Range { from, to })?;
    }
    Ok(())
}

/// The ranges that end with readers.
fn add_readers(
    ranges: &mut Vec<Range>,
    first: &[u32],
    readers: &[u32],
    writers: &[u32],
) -> Result<(), AllocError>
    requires ascending { IsAscending writers.now }
    requires inside { (r : ℕ) → Contains readers.now r → r < length first.now }
    ensures { OnOk result (AddsPoints ranges.old.items ranges.new.items
        (λ at. ForSome readers.now (λ r. IsKeptFor first.now writers.now r at))) }
{
    for r in readers {
        add(ranges, writers, first[*r as usize], *r, *r)?;
    }
    Ok(())
}

/// The ranges that end with blocks that begin at these heads.
fn add_blocks(
    ranges: &mut Vec<Range>,
    last: &[u32],
    heads: &[u32],
    writers: &[u32],
) -> Result<(), AllocError>
    requires ascending { IsAscending writers.now }
    requires inside { (h : ℕ) → Contains heads.now h → h < length last.now }
    requires few { (h : ℕ) → h < length last.now → slice_index last.now h + 1 < 2 ^ 32 }
    ensures { OnOk result (AddsPoints ranges.old.items ranges.new.items
        (λ at. ForSome heads.now (λ h. IsKeptOut last.now writers.now h at))) }
{
    for h in heads {
        let to = last[*h as usize];
        add(ranges, writers, *h, to + 1, to)?;
    }
    Ok(())
}

/// The ranges that end with blocks that one of the solved blocks may follow.
fn add_exits(
    ranges: &mut Vec<Range>,
    before: &[Vec<u32>],
    last: &[u32],
    solved: &[u32],
    writers: &[u32],
) -> Result<(), AllocError>
    requires ascending { IsAscending writers.now }
    requires inside { (s h : ℕ) → Relates (rows_of before.now) s h → h < length last.now }
    requires few { (h : ℕ) → h < length last.now → slice_index last.now h + 1 < 2 ^ 32 }
    requires rows { (s : ℕ) → Contains solved.now s → s < length before.now }
    ensures { OnOk result (AddsPoints ranges.old.items ranges.new.items
        (λ at. ForSome solved.now (λ s. ForSome (row_at (rows_of before.now) s)
        (λ h. IsKeptOut last.now writers.now h at)))) }
{
    for s in solved {
        add_blocks(ranges, last, &before[*s as usize], writers)?;
    }
    Ok(())
}

impl Liveness {
    /// The ranges in which a variable is live. They may overlap.
    ///
    /// # Errors
    ///
    /// On allocation failure.
    pub fn ranges(&self, alloc: Global, variable: u32) -> Result<Vec<Range>, AllocError>
        ensures { IfOk result (λ ranges. (at : ℕ) → IsCovered ranges.items at ↔ IsLive self.now variable at) }
    {
        let mut ranges = Vec::new(alloc);
        let v = variable as usize;
        if v >= self.readers.len() {
            return Ok(ranges);
        }
        let (readers, writers) = (&self.readers[v], &self.writers[v]);
        add_readers(&mut ranges, &self.first, readers, writers)?;
        add_exits(
            &mut ranges,
            &self.before,
            &self.last,
            &self.solved[v],
            writers,
        )?;
        Ok(ranges)
    }
}
