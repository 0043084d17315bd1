//! The tables of the live names of a function.

ghost use Rattle.std.specs.List.Sorted.{IsStrictlyIncreasing};
ghost use Rattle.rgo_region_sets.specs.Spans.{AreApart};

use crate::spans::Span;

/// At which instructions the names of a function are live.
#[derive(Drop)]
pub struct LiveNames {
    /// In the order of names and instructions, and apart, so that a binary search finds the only one that may have an instruction.
    pub(crate) spans: Vec<Span>,
    /// The numbers of the branches, which ascend.
    pub(crate) points: Vec<u32>,
    /// For each branch, the names that are live into it and not where it leads if its variable is true.
    pub(crate) taken: Vec<Vec<u32>>,
    /// The same if its variable is false.
    pub(crate) passed: Vec<Vec<u32>>,
    ghost apart: { AreApart spans.items },
    ghost rising: { IsStrictlyIncreasing points.items },
}
