//! The notes of instructions.

ghost use Rattle.std.specs.Prelude.{◌<◌, ◌^◌, IfOk};
ghost use Rattle.std.specs.List.Sorted.{IsStrictlyIncreasing};
ghost use Rattle.rgo_tac.specs.Ops.{operation_of};
ghost use Rattle.rgo_region_sets.specs.Live.{AreLiveNames};
ghost use Rattle.rgo_insert.specs.Filled.{GivesFor, IsRight, ProtectsFor};

use crate::bare::Bare;
use crate::passing::passes_of;
use rgo_code::{Class, CodeFn, Note};
use rgo_region_sets::{LiveNames, creations, gives, protections, removals};
use rgo_tac::Op;
use rgo_typed::Row;
use std::alloc::{AllocError, Global};

/// What an instruction protects. A goroutine's start protects nothing: the new goroutine has a stake of its own in each region.
fn protects_of(
    alloc: Global,
    f: &CodeFn<'_>,
    live: &LiveNames,
    at: usize,
    op: Op<'_>,
    passes: &[Class],
) -> Result<Vec<u32>, AllocError>
    requires few { at < 2 ^ 63 }
    requires live { AreLiveNames live.now f.now }
    ensures protects { IfOk result (λ names. ProtectsFor f.now at (operation_of op.entry) passes.now names.items) }
    ensures ascends { IfOk result (λ protects. IsStrictlyIncreasing protects.items) }
{
    match op {
        Op::Call { .. } => protections(alloc, f, live, at, passes),
        Op::Do { .. }
        | Op::Go { .. }
        | Op::Print { .. }
        | Op::Jump(_)
        | Op::Branch { .. }
        | Op::Return(_) => Ok(Vec::new(alloc)),
    }
}

/// What a call leaves to its callee to remove.
fn gives_of(
    alloc: Global,
    functions: &Bare<'_>,
    op: Op<'_>,
    passes: &[Class],
    protects: &[u32],
) -> Result<Vec<u32>, AllocError>
    requires protects { IsStrictlyIncreasing protects.now }
    ensures gives { IfOk result (λ names.
        GivesFor functions.now (operation_of op.entry) passes.now protects.now names.items) }
    ensures ascends { IfOk result (λ gives. IsStrictlyIncreasing gives.items) }
{
    match op {
        Op::Call { function, .. } => match functions.function(function as usize) {
            Some(callee) => gives(alloc, Some(&callee), passes, protects),
            None => gives(alloc, None, passes, protects),
        },
        Op::Do { .. }
        | Op::Go { .. }
        | Op::Print { .. }
        | Op::Jump(_)
        | Op::Branch { .. }
        | Op::Return(_) => Ok(Vec::new(alloc)),
    }
}

/// The note of an instruction. What it removes depends on what it leaves to its callee, and that on what it passes and
/// protects, hence the order.
pub(crate) fn note_of(
    alloc: Global,
    functions: &Bare<'_>,
    f: &CodeFn<'_>,
    live: &LiveNames,
    at: usize,
    op: Op<'_>,
) -> Result<Note, AllocError>
    requires few { at < 2 ^ 63 }
    requires live { AreLiveNames live.now f.now }
    ensures { IfOk result (λ note. IsRight functions.now f.now at (operation_of op.entry) note) }
{
    let creates = creations(alloc, f, live, at)?;
    let passes = passes_of(alloc, functions, f, op)?;
    let protects = protects_of(alloc, f, live, at, op, &passes)?;
    let gives = gives_of(alloc, functions, op, &passes, &protects)?;
    let removed = removals(alloc, f, live, at, &gives)?;
    Ok(Note {
        creates: Row::new(creates),
        passes: Row::new(passes),
        protects: Row::new(protects),
        removes: Row::new(removed.after),
        otherwise: Row::new(removed.otherwise),
    })
}
