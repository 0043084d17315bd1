//! The blocks that variables are live into: for each variable a search backwards from the blocks that read it first, which
//! stops at those that write it first.

ghost use Rattle.std.specs.Prelude.{◌≡◌, ◌<◌, ◌≤◌, ◌+◌, ◌↔◌, ◌^◌, ◌⊎◌, ℕ, List, All, true, length, vec_len, Contains, slice_index, IfOk, OnOk};
ghost use Rattle.rgo_graphs.specs.Rows.{AllAscending, IsAscending, IsTransposed, Relates, row_at, rows_of};
ghost use Rattle.rgo_flow.specs.Uses.{IsFirstUse};
ghost use Rattle.rgo_flow.specs.Solved.{AreHeads, Solves};

use crate::uses::{FirstUse, first_use};
use rgo_graphs::reached;
use std::alloc::{AllocError, Global};

fn is_first_use(wanted: FirstUse, readers: &[u32], writers: &[u32], head: u32, last: u32) -> bool
    requires readers { IsAscending readers.now }
    requires writers { IsAscending writers.now }
    requires last { last + 1 < 2 ^ 32 }
    ensures yes { result ≡ true → IsFirstUse readers.now writers.now head last wanted }
    ensures no { IsFirstUse readers.now writers.now head last wanted → result ≡ true }
{
    first_use(readers, writers, head, last) == wanted
}

/// The blocks of these points in which the first use of the variable is the wanted one.
fn heads(
    alloc: Global,
    points: &[u32],
    wanted: FirstUse,
    readers: &[u32],
    writers: &[u32],
    first: &[u32],
    last: &[u32],
) -> Result<Vec<u32>, AllocError>
    requires readers { IsAscending readers.now }
    requires writers { IsAscending writers.now }
    requires points { (p : ℕ) → Contains points.now p → p < length first.now }
    requires first { (p : ℕ) → p < length first.now → slice_index first.now p < length last.now }
    requires last { (p : ℕ) → p < length last.now → slice_index last.now p + 1 < 2 ^ 32 }
    ensures heads { IfOk result (λ heads.
        AreHeads points.now wanted readers.now writers.now first.now last.now heads.items) }
{
    let mut heads = Vec::new(alloc);
    for p in points {
        let head = first[*p as usize];
        if is_first_use(wanted, readers, writers, head, last[head as usize]) {
            heads.push(head)?;
        }
    }
    Ok(heads)
}

/// In ascending order, in which queries search.
fn sorted(mut row: Vec<u32>) -> Vec<u32>
    ensures ascending { IsAscending result.items }
    ensures same { (x : ℕ) → Contains result.items x ↔ Contains row.items x }
{
    row.sort_unstable();
    row
}

/// The blocks that a variable, read and written at these points, is live into. The stamp is new for each variable, so that the
/// marks of earlier searches need not be cleared.
fn solve(
    alloc: Global,
    before: &[Vec<u32>],
    first: &[u32],
    last: &[u32],
    readers: &[u32],
    writers: &[u32],
    marks: &mut [usize],
    stamp: usize,
) -> Result<Vec<u32>, AllocError>
    requires read { IsAscending readers.now }
    requires written { IsAscending writers.now }
    requires read_in { (p : ℕ) → Contains readers.now p → p < length first.now }
    requires written_in { (p : ℕ) → Contains writers.now p → p < length first.now }
    requires first { (p : ℕ) → p < length first.now → slice_index first.now p < length first.now }
    requires lasts { length last.now ≡ length first.now }
    requires last { (p : ℕ) → p < length first.now → slice_index last.now p + 1 < 2 ^ 32 }
    requires size { length before.now ≡ length first.now }
    requires rows { (j p : ℕ) → Relates (rows_of before.now) j p → p < length before.now }
    requires marks { length marks.old ≡ length first.now }
    requires some { 0 < stamp }
    requires fresh { All (λ m. m < stamp) marks.old }
    ensures len { length marks.new ≡ length marks.old }
    ensures marks { All (λ m. m ≤ stamp) marks.new }
    ensures ascending { IfOk result (λ solved. IsAscending solved.items) }
    ensures solved { IfOk result (λ solved.
        Solves (rows_of before.now) first.now last.now readers.now writers.now solved.items) }
{
    let seeds = heads(
        alloc,
        readers,
        FirstUse::Read,
        readers,
        writers,
        first,
        last,
    )?;
    let barriers = heads(
        alloc,
        writers,
        FirstUse::Written,
        readers,
        writers,
        first,
        last,
    )?;
    let found = reached(alloc, before, &seeds, &barriers, marks, stamp)?;
    Ok(sorted(found))
}

/// The blocks that each variable is live into.
pub fn solve_all(
    alloc: Global,
    before: &[Vec<u32>],
    first: &[u32],
    last: &[u32],
    readers: &[Vec<u32>],
    writers: &[Vec<u32>],
    marks: &mut [usize],
) -> Result<Vec<Vec<u32>>, AllocError>
    requires written { length writers.now ≡ length readers.now }
    requires read_up { AllAscending (rows_of readers.now) }
    requires written_up { AllAscending (rows_of writers.now) }
    requires read_in { (v p : ℕ) → Relates (rows_of readers.now) v p → p < length first.now }
    requires written_in { (v p : ℕ) → Relates (rows_of writers.now) v p → p < length first.now }
    requires first { (p : ℕ) → p < length first.now → slice_index first.now p < length first.now }
    requires lasts { length last.now ≡ length first.now }
    requires last { (p : ℕ) → p < length first.now → slice_index last.now p + 1 < 2 ^ 32 }
    requires size { length before.now ≡ length first.now }
    requires rows { (j p : ℕ) → Relates (rows_of before.now) j p → p < length before.now }
    requires marks { length marks.old ≡ length first.now }
    requires fresh { All (λ m. m ≤ 0) marks.old }
    ensures len { IfOk result (λ solved. vec_len solved ≡ length readers.now) }
    ensures ascending { IfOk result (λ solved. AllAscending (rows_of solved.items)) }
    ensures solved { IfOk result (λ solved. (v : ℕ) → v < length readers.now →
        Solves (rows_of before.now) first.now last.now (row_at (rows_of readers.now) v)
        (row_at (rows_of writers.now) v) (row_at (rows_of solved.items) v)) }
{
    let mut solved = Vec::new(alloc);
    for v in 0..readers.len() {
        let row = solve(
            alloc,
            before,
            first,
            last,
            &readers[v],
            &writers[v],
            marks,
            v + 1,
        )?;
        solved.push(row)?;
    }
    Ok(solved)
}
