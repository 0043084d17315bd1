//! What a run of instructions does with a variable.

ghost use Rattle.std.specs.Prelude.{◌≡◌, ◌<◌, ◌≤◌, ◌+◌, ◌↔◌, ◌^◌, ◌-◌, ℕ, length, Contains, slice_index, slice_index_or, IfOk};
ghost use Rattle.rgo_graphs.specs.Rows.{IsAscending};
ghost use Rattle.rgo_flow.specs.Uses.{IsFirstUse, IsNext};

use std::alloc::{AllocError, Global};

/// What is done first with a variable. Its old value is needed only if that is a read.
#[derive(Clone, Copy, Debug, PartialEq, Eq)]
pub enum FirstUse {
    Read,
    Written,
    Unused,
}

/// The first of these ascending points that is not before `from`. Without one it is a number that no instruction has, since a
/// function has at most 2³² - 2.
pub fn next_from(points: &[u32], from: u32) -> u32
    requires ascending { IsAscending points.now }
    ensures { IsNext points.now from result }
{
    let at = points.partition_point(|p| *p < from);
    if at < points.len() {
        points[at]
    } else {
        u32::MAX
    }
}

/// What the instructions from one to another do first with a variable that is read and written at these. An instruction that
/// does both reads first.
pub fn first_use(readers: &[u32], writers: &[u32], from: u32, to: u32) -> FirstUse
    requires readers { IsAscending readers.now }
    requires writers { IsAscending writers.now }
    requires to { to + 1 < 2 ^ 32 }
    ensures { IsFirstUse readers.now writers.now from to result }
{
    let read = next_from(readers, from);
    let written = next_from(writers, from);
    if read <= to && read <= written {
        FirstUse::Read
    } else if written <= to {
        FirstUse::Written
    } else {
        FirstUse::Unused
    }
}
