//! Whether a variable is live at a point, from the tables.

ghost use Rattle.std.specs.Prelude.{◌≡◌, ◌<◌, ◌+◌, ◌^◌, ℕ, true, length, Contains};
ghost use Rattle.rgo_graphs.specs.Rows.{IsAscending, Relates, rows_of};
ghost use Rattle.rgo_flow.specs.Solved.{IsLiveFrom};
ghost use Rattle.rgo_flow.specs.Table.{IsLive};

use crate::table::Liveness;
use crate::uses::{FirstUse, first_use, next_from};

/// Whether a point is among these, which ascend.
fn has(points: &[u32], point: u32) -> bool
    requires ascending { IsAscending points.now }
    requires point { point + 1 < 2 ^ 32 }
    ensures yes { result ≡ true → Contains points.now point }
    ensures no { Contains points.now point → result ≡ true }
{
    next_from(points, point) == point
}

/// Whether one of the blocks of a row is among the solved ones.
fn enters(row: &[u32], solved: &[u32]) -> bool
    requires ascending { IsAscending solved.now }
    requires row { (j : ℕ) → Contains row.now j → j + 1 < 2 ^ 32 }
    ensures yes { result ≡ true → (j : ℕ) × Contains row.now j × Contains solved.now j }
    ensures no { (j : ℕ) → Contains row.now j → Contains solved.now j → result ≡ true }
{
    for j in row {
        if has(solved, *j) {
            return true;
        }
    }
    false
}

/// Whether a variable that is read and written at these points is live into an instruction. Its first use in the rest of the
/// block decides; without one, whether it is live into a block that may follow.
fn live_by(
    exits: &[Vec<u32>],
    first: u32,
    last: u32,
    readers: &[u32],
    writers: &[u32],
    solved: &[u32],
    point: u32,
) -> bool
    requires first { first < length exits.now }
    requires last { last + 1 < 2 ^ 32 }
    requires exits { (i j : ℕ) → Relates (rows_of exits.now) i j → j + 1 < 2 ^ 32 }
    requires readers { IsAscending readers.now }
    requires writers { IsAscending writers.now }
    requires solved { IsAscending solved.now }
    ensures yes { result ≡ true → IsLiveFrom (rows_of exits.now) first last readers.now writers.now solved.now point }
    ensures no { IsLiveFrom (rows_of exits.now) first last readers.now writers.now solved.now point → result ≡ true }
{
    match first_use(readers, writers, point, last) {
        FirstUse::Read => true,
        FirstUse::Written => false,
        FirstUse::Unused => enters(&exits[first as usize], solved),
    }
}

impl Liveness {
    /// Whether a variable is live into an instruction. A variable is not if nothing reads or writes it, nor is any into an
    /// instruction that the function does not have.
    pub fn is_live(&self, point: u32, variable: u32) -> bool
        ensures yes { result ≡ true → IsLive self.now variable point }
        ensures no { IsLive self.now variable point → result ≡ true }
    {
        let (i, v) = (point as usize, variable as usize);
        if i >= self.first.len() || v >= self.readers.len() {
            return false;
        }
        let (first, last) = (self.first[i], self.last[i]);
        live_by(
            &self.exits,
            first,
            last,
            &self.readers[v],
            &self.writers[v],
            &self.solved[v],
            point,
        )
    }
}
