//! The instructions of a function as rows of numbers: each one is decoded once, and the searches for all variables use the rows.

ghost use Rattle.std.specs.Prelude.{◌≡◌, ◌+◌, ◌↔◌, ◌<◌, ◌^◌, ℕ, Some, length, Contains, OnOk, IfOk};
ghost use Rattle.rgo_graphs.specs.Rows.{Relates, rows_of};
ghost use Rattle.rgo_tac.specs.Flow.{variables_of, targets_of};
ghost use Rattle.rgo_flow.specs.Live.{ReadsVariable, WritesVariable};
ghost use Rattle.rgo_flow.specs.Graphs.{AddsTarget, HasTargets, IsGraphOf, LeadsInside};

use rgo_tac::{ReadVariables, TacFn, Targets, leads_to, reads, writes};
use std::alloc::{AllocError, Global};

/// For each instruction the instructions that may be next, the variables that it reads, and the variable that it
/// writes.
#[derive(Drop)]
pub struct Graph {
    pub successors: Vec<Vec<u32>>,
    pub reads: Vec<Vec<u32>>,
    pub writes: Vec<Vec<u32>>,
    /// The numbers of all variables are below it.
    pub variables: usize,
}

/// Targets past the last instruction are left out: nothing is read there.
fn add_target(row: &mut Vec<u32>, target: usize, count: usize) -> Result<(), AllocError>
    requires few { count < 2 ^ 32 }
    ensures { OnOk result (AddsTarget row.old.items row.new.items target count) }
{
    if target >= count {
        return Ok(());
    }
    row.push(target as u32)?;
    Ok(())
}

fn targets_below(alloc: Global, targets: &[usize], count: usize) -> Result<Vec<u32>, AllocError>
    requires few { count < 2 ^ 32 }
    ensures { IfOk result (λ row. HasTargets row.items targets.now count) }
{
    let mut row = Vec::new(alloc);
    for target in targets {
        add_target(&mut row, *target, count)?;
    }
    Ok(row)
}

fn target_row(alloc: Global, targets: Targets, count: usize) -> Result<Vec<u32>, AllocError>
    requires few { count < 2 ^ 32 }
    ensures { IfOk result (λ row. HasTargets row.items (targets_of targets) count) }
{
    match targets {
        Targets::Nowhere => targets_below(alloc, &[], count),
        Targets::One(target) => targets_below(alloc, &[target], count),
        Targets::Either(target, other) => targets_below(alloc, &[target, other], count),
    }
}

fn variable_row(alloc: Global, variables: ReadVariables<'_>) -> Result<Vec<u32>, AllocError>
    ensures { IfOk result (λ row. row.items ≡ variables_of variables.entry) }
{
    let mut row = Vec::new(alloc);
    for n in 0..variables.len() {
        if let Some(variable) = variables.get(n) {
            row.push(variable)?;
        }
    }
    Ok(row)
}

/// The rows of an instruction, here and below. Callers have numbers of instructions only, so `None` does not occur.
fn successor_row(alloc: Global, function: &TacFn, at: usize) -> Result<Vec<u32>, AllocError>
    ensures { IfOk result (λ row. (j : ℕ) → Contains row.items j ↔ LeadsInside function.now at j) }
{
    match function.op(at) {
        Some(op) => target_row(alloc, leads_to(op, at), function.instr_count() as usize),
        None => Ok(Vec::new(alloc)),
    }
}

fn read_row(alloc: Global, function: &TacFn, at: usize) -> Result<Vec<u32>, AllocError>
    ensures { IfOk result (λ row. (v : ℕ) → Contains row.items v ↔ ReadsVariable function.now at v) }
{
    match function.op(at) {
        Some(op) => variable_row(alloc, reads(op)),
        None => Ok(Vec::new(alloc)),
    }
}

fn written_at(function: &TacFn, at: usize) -> Option<u32>
    ensures { (v : ℕ) → (result ≡ Some v) ↔ WritesVariable function.now at v }
{
    match function.op(at) {
        Some(op) => writes(op),
        None => None,
    }
}

fn write_row(alloc: Global, function: &TacFn, at: usize) -> Result<Vec<u32>, AllocError>
    ensures { IfOk result (λ row. (v : ℕ) → Contains row.items v ↔ WritesVariable function.now at v) }
{
    let mut row = Vec::new(alloc);
    if let Some(variable) = written_at(function, at) {
        row.push(variable)?;
    }
    Ok(row)
}

fn row_width(row: &[u32]) -> usize
    ensures { (x : ℕ) → Contains row.now x → x < result }
{
    let mut width: usize = 0;
    for x in row {
        width = width.max(*x as usize + 1);
    }
    width
}

/// One more than the greatest number of the rows.
fn width(rows: &[Vec<u32>]) -> usize
    ensures { (i x : ℕ) → Relates (rows_of rows.now) i x → x < result }
{
    let mut width: usize = 0;
    for row in rows {
        width = width.max(row_width(row));
    }
    width
}

/// One more than the greatest number of a variable that is read or written. It is taken from the rows and not from the function: code
/// that was not checked may name variables that do not exist.
fn variable_count(reads: &[Vec<u32>], writes: &[Vec<u32>]) -> usize
    ensures read { (i x : ℕ) → Relates (rows_of reads.now) i x → x < result }
    ensures written { (i x : ℕ) → Relates (rows_of writes.now) i x → x < result }
{
    width(reads).max(width(writes))
}

/// The graph of a function.
pub fn graph_of(alloc: Global, function: &TacFn) -> Result<Graph, AllocError>
    ensures { IfOk result (λ graph. IsGraphOf function.now graph) }
{
    let count = function.instr_count() as usize;
    let mut successors: Vec<Vec<u32>> = Vec::new(alloc);
    let mut reads: Vec<Vec<u32>> = Vec::new(alloc);
    let mut writes: Vec<Vec<u32>> = Vec::new(alloc);
    for at in 0..count {
        let row = successor_row(alloc, function, at)?;
        successors.push(row)?;
        let row = read_row(alloc, function, at)?;
        reads.push(row)?;
        let row = write_row(alloc, function, at)?;
        writes.push(row)?;
    }
    let variables = variable_count(&reads, &writes);
    Ok(Graph {
        successors,
        reads,
        writes,
        variables,
    })
}
