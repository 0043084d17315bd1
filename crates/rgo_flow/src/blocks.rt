//! Basic blocks: runs of instructions that are entered at the first only and left at the last only. Liveness is solved
//! between blocks, which are far fewer than instructions.

ghost use Rattle.std.specs.Prelude.{◌≡◌, ◌<◌, ◌≤◌, ◌+◌, ◌↔◌, ◌∷◌, [], List, ◌^◌, ℕ, Bool, true, false, length, vec_len, Contains, slice_index, slice_index_or, IfOk};
ghost use Rattle.rgo_graphs.specs.Rows.{IsTransposed, Relates, rows_of};
ghost use Rattle.rgo_flow.specs.Blocks.{AreExits, AreJoined, Blocks as AreBlocks, Firsts, Joined, Lasts};

use rgo_graphs::transposed;
use std::alloc::{AllocError, Global};

fn is_one(row: &[u32], x: usize) -> bool
    ensures { result ≡ true → row.now ≡ x ∷ [] }
{
    row.len() == 1 && row[0] as usize == x
}

/// Whether an instruction and the next one are in one block: each has no other neighbour on that side.
fn joins_at(successors: &[Vec<u32>], before: &[Vec<u32>], i: usize) -> bool
    requires inside { i < length successors.now }
    requires size { length before.now ≡ length successors.now }
    ensures { result ≡ true → Joined (rows_of successors.now) (rows_of before.now) i }
{
    i + 1 < successors.len() && is_one(&successors[i], i + 1) && is_one(&before[i + 1], i)
}

fn joins(
    alloc: Global,
    successors: &[Vec<u32>],
    before: &[Vec<u32>],
) -> Result<Vec<bool>, AllocError>
    requires size { length before.now ≡ length successors.now }
    ensures len { IfOk result (λ joins. vec_len joins ≡ length successors.now) }
    ensures joined { IfOk result (λ joins. AreJoined (rows_of successors.now) (rows_of before.now) joins.items) }
{
    let mut joins = Vec::new(alloc);
    for i in 0..successors.len() {
        let joined = joins_at(successors, before, i);
        joins.push(joined)?;
    }
    Ok(joins)
}

/// The last instruction of the block of each, from the end backwards, since it is the same as that of the next one in the block.
fn lasts(alloc: Global, joins: &[bool]) -> Result<Vec<u32>, AllocError>
    requires few { length joins.now < 2 ^ 32 }
    ensures { IfOk result (λ last. Lasts joins.now last.items) }
{
    let mut lasts = vec![in alloc; 0; joins.len()]?;
    let mut last = 0;
    let mut i = joins.len();
    while i > 0 {
        i -= 1;
        if !joins[i] {
            last = i as u32;
        }
        lasts[i] = last;
    }
    Ok(lasts)
}

/// The first instruction of the block of each.
fn firsts(alloc: Global, joins: &[bool]) -> Result<Vec<u32>, AllocError>
    requires few { length joins.now < 2 ^ 32 }
    ensures { IfOk result (λ first. Firsts joins.now first.items) }
{
    let mut firsts = Vec::new(alloc);
    let mut first = 0;
    let mut joined = false;
    for (i, joins) in joins.iter().enumerate() {
        if !joined {
            first = i as u32;
        }
        firsts.push(first)?;
        joined = *joins;
    }
    Ok(firsts)
}

/// For each instruction the first and the last of its block, and for the first of each block what
/// follows the block.
#[derive(Drop)]
pub struct Parts {
    pub first: Vec<u32>,
    pub last: Vec<u32>,
    pub exits: Vec<Vec<u32>>,
}

/// What follows the block that begins at this instruction; nothing if none begins there.
fn exit_row(
    alloc: Global,
    successors: &[Vec<u32>],
    first: &[u32],
    last: &[u32],
    i: usize,
) -> Result<Vec<u32>, AllocError>
    requires blocks { AreBlocks (rows_of successors.now) first.now last.now }
    requires inside { i < length successors.now }
    ensures row { IfOk result (λ row. (j : ℕ) → Contains row.items j
        ↔ ((slice_index first.now i ≡ i) × Relates (rows_of successors.now) (slice_index last.now i) j)) }
{
    let mut row = Vec::new(alloc);
    if first[i] as usize != i {
        return Ok(row);
    }
    row.extend_from_slice(&successors[last[i] as usize])?;
    Ok(row)
}

fn exits(
    alloc: Global,
    successors: &[Vec<u32>],
    first: &[u32],
    last: &[u32],
) -> Result<Vec<Vec<u32>>, AllocError>
    requires blocks { AreBlocks (rows_of successors.now) first.now last.now }
    ensures len { IfOk result (λ exits. vec_len exits ≡ length successors.now) }
    ensures exits { IfOk result (λ exits. AreExits (rows_of successors.now) first.now last.now (rows_of exits.items)) }
{
    let mut exits: Vec<Vec<u32>> = Vec::new(alloc);
    for i in 0..successors.len() {
        let row = exit_row(alloc, successors, first, last, i)?;
        exits.push(row)?;
    }
    Ok(exits)
}

/// The blocks of a function, given the successors of each instruction.
pub fn cut(alloc: Global, successors: &[Vec<u32>]) -> Result<Parts, AllocError>
    requires few { length successors.now + 1 < 2 ^ 32 }
    requires targets { (i j : ℕ) → Relates (rows_of successors.now) i j → j < length successors.now }
    ensures cut { IfOk result (λ parts. AreBlocks (rows_of successors.now) parts.first.items parts.last.items) }
    ensures len { IfOk result (λ parts. vec_len parts.exits ≡ length successors.now) }
    ensures exits { IfOk result (λ parts.
        AreExits (rows_of successors.now) parts.first.items parts.last.items (rows_of parts.exits.items)) }
{
    let before = transposed(alloc, successors, successors.len())?;
    let joins = joins(alloc, successors, &before)?;
    let first = firsts(alloc, &joins)?;
    let last = lasts(alloc, &joins)?;
    let exits = exits(alloc, successors, &first, &last)?;
    Ok(Parts { first, last, exits })
}
