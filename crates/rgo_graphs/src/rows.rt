//! Relations as rows of numbers, and the same relation from the other side.

ghost use Rattle.std.specs.Prelude.{◌≡◌, ℕ, ◌+◌, ◌^◌, ◌<◌, ◌≤◌, length, vec_len, Contains, OnOk, IfOk};
ghost use Rattle.rgo_graphs.specs.Rows.{AllAscending, Adds, IsTransposed, Relates, rows_of};

use std::alloc::{AllocError, Global};

fn push_at(rows: &mut Vec<Vec<u32>>, at: u32, item: u32) -> Result<(), AllocError>
    requires inside { at < vec_len rows.old }
    ensures len { vec_len rows.new ≡ vec_len rows.old }
    ensures added { OnOk result (Adds (rows_of rows.old.items) (rows_of rows.new.items)
        (λ i x. (i ≡ at) × (x ≡ item))) }
    ensures ascending { OnOk result (AllAscending (rows_of rows.old.items) →
        ((x : ℕ) → Relates (rows_of rows.old.items) at x → x ≤ item) → AllAscending (rows_of rows.new.items)) }
{
    rows[at as usize].push(item)?;
    Ok(())
}

/// Adds a number to these rows.
pub fn add_row(rows: &mut Vec<Vec<u32>>, these: &[u32], item: u32) -> Result<(), AllocError>
    requires inside { (x : ℕ) → Contains these.now x → x < vec_len rows.old }
    ensures len { vec_len rows.new ≡ vec_len rows.old }
    ensures added { OnOk result (Adds (rows_of rows.old.items) (rows_of rows.new.items)
        (λ i x. Contains these.now i × (x ≡ item))) }
    ensures ascending { OnOk result (AllAscending (rows_of rows.old.items) →
        ((i x : ℕ) → Relates (rows_of rows.old.items) i x → x ≤ item) → AllAscending (rows_of rows.new.items)) }
{
    for at in these {
        push_at(rows, *at, item)?;
    }
    Ok(())
}

/// `count` rows without numbers.
pub fn empty_rows(alloc: Global, count: usize) -> Result<Vec<Vec<u32>>, AllocError>
    ensures len { IfOk result (λ rows. vec_len rows ≡ count) }
    ensures empty { IfOk result (λ rows. (i x : ℕ) → Relates (rows_of rows.items) i x → ⊥) }
{
    let mut rows: Vec<Vec<u32>> = Vec::new(alloc);
    for done in 0..count {
        rows.push(Vec::new(alloc))?;
    }
    Ok(rows)
}

/// The same relation from the other side: row x has i where row i had x, in ascending order.
pub fn transposed(
    alloc: Global,
    rows: &[Vec<u32>],
    count: usize,
) -> Result<Vec<Vec<u32>>, AllocError>
    requires few { length rows.now < 2 ^ 32 }
    requires below { (i x : ℕ) → Relates (rows_of rows.now) i x → x < count }
    ensures len { IfOk result (λ transposed. vec_len transposed ≡ count) }
    ensures transposed { IfOk result (λ transposed. IsTransposed (rows_of rows.now) (rows_of transposed.items)) }
    ensures ascending { IfOk result (λ transposed. AllAscending (rows_of transposed.items)) }
{
    let mut transposed = empty_rows(alloc, count)?;
    // Row by row, so that each transposed row ascends without being sorted.
    for (i, row) in rows.iter().enumerate() {
        add_row(&mut transposed, row, i as u32)?;
    }
    Ok(transposed)
}
