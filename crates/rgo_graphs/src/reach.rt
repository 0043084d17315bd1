//! What is reached backwards from seeds. The points that were found are also the queue of the search: each one is entered once.

ghost use Rattle.std.specs.Prelude.{◌≡◌, ◌↔◌, ◌∷◌, List, [], ℕ, ◌<◌, ◌≤◌, length, All, Contains, OnOk, IfOk, slice_index};
ghost use Rattle.rgo_graphs.specs.Rows.{Relates, rows_of};
ghost use Rattle.rgo_graphs.specs.Reach.{Reached};
ghost use Rattle.rgo_graphs.specs.Visits.{Bars, Visits};

use std::alloc::{AllocError, Global};

/// Adds a point unless this search has found it, which its mark says.
fn visit(found: &mut Vec<u32>, marks: &mut [usize], stamp: usize, p: u32) -> Result<(), AllocError>
    requires inside { p < length marks.old }
    ensures len { length marks.new ≡ length marks.old }
    ensures most { All (λ m. m ≤ stamp) marks.old → All (λ m. m ≤ stamp) marks.new }
    ensures visits { OnOk result (Visits stamp found.old.items marks.old found.new.items marks.new (p ∷ [])) }
{
    if marks[p as usize] != stamp {
        marks[p as usize] = stamp;
        found.push(p)?;
    }
    Ok(())
}

fn visit_all(
    found: &mut Vec<u32>,
    marks: &mut [usize],
    stamp: usize,
    these: &[u32],
) -> Result<(), AllocError>
    requires inside { (p : ℕ) → Contains these.now p → p < length marks.old }
    ensures len { length marks.new ≡ length marks.old }
    ensures most { All (λ m. m ≤ stamp) marks.old → All (λ m. m ≤ stamp) marks.new }
    ensures visits { OnOk result (Visits stamp found.old.items marks.old found.new.items marks.new these.now) }
{
    // The last first: so what is found mostly falls, and is sorted quickly.
    let mut left = these.len();
    while left > 0 {
        left -= 1;
        visit(found, marks, stamp, these[left])?;
    }
    Ok(())
}

/// Marks barriers without adding them, so that the search takes them for found and does not enter them.
fn bar_all(marks: &mut [usize], stamp: usize, these: &[u32])
    requires inside { (p : ℕ) → Contains these.now p → p < length marks.old }
    ensures bars { Bars stamp marks.old marks.new these.now }
{
    for p in these {
        marks[*p as usize] = stamp;
    }
}

/// What is reached backwards from the seeds past no barrier, each once. The marks are to be below
/// the stamp, and are at most the stamp afterwards.
pub fn reached(
    alloc: Global,
    before: &[Vec<u32>],
    seeds: &[u32],
    barriers: &[u32],
    marks: &mut [usize],
    stamp: usize,
) -> Result<Vec<u32>, AllocError>
    requires size { length marks.old ≡ length before.now }
    requires rows { (j p : ℕ) → Relates (rows_of before.now) j p → p < length before.now }
    requires seeds { (p : ℕ) → Contains seeds.now p → p < length before.now }
    requires barriers { (p : ℕ) → Contains barriers.now p → p < length before.now }
    requires some { 0 < stamp }
    requires fresh { All (λ m. m < stamp) marks.old }
    ensures len { length marks.new ≡ length marks.old }
    ensures marks { All (λ m. m ≤ stamp) marks.new }
    ensures found { IfOk result (λ found. (p : ℕ) →
        Contains found.items p ↔ Reached (rows_of before.now) seeds.now barriers.now p) }
{
    let mut found = Vec::new(alloc);
    visit_all(&mut found, marks, stamp, seeds)?;
    // After the seeds: a seed is found even if it is a barrier.
    bar_all(marks, stamp, barriers);
    let mut next = 0;
    while next < found.len() {
        let j = found[next];
        visit_all(&mut found, marks, stamp, &before[j as usize])?;
        next += 1;
    }
    Ok(found)
}
