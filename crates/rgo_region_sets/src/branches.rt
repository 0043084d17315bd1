//! The branches of a function. They alone have two ways, on which different names may die.

ghost use Rattle.std.specs.Prelude.{◌≡◌, ◌<◌, ◌+◌, ◌^◌, length, vec_len, OnOk, IfOk};
ghost use Rattle.rgo_tac.specs.Ops.{operation_of};
ghost use Rattle.rgo_region_sets.specs.Branches as spec;
ghost use Rattle.rgo_region_sets.specs.Branches.{AreBranches};

use rgo_tac::{Op, TacFn};
use std::alloc::{AllocError, Global};

/// The numbers of the branches, and where each leads.
#[derive(Drop)]
pub struct Branches {
    pub points: Vec<u32>,
    pub targets: Vec<u32>,
    pub others: Vec<u32>,
}

fn ways_of(op: Op<'_>) -> Option<(u32, u32)>
    ensures { result ≡ spec.ways_of (operation_of op.entry) }
{
    match op {
        Op::Branch { target, other, .. } => Some((target, other)),
        Op::Do { .. }
        | Op::Call { .. }
        | Op::Go { .. }
        | Op::Print { .. }
        | Op::Jump(_)
        | Op::Return(_) => None,
    }
}

/// Where a branch leads, if its variable is true and if it is false; `None` for other instructions.
pub(crate) fn branch_at(function: &TacFn, at: usize) -> Option<(u32, u32)>
    ensures { result ≡ spec.branch_at function.now at }
{
    match function.op(at) {
        Some(op) => ways_of(op),
        None => None,
    }
}

fn add_branch(branches: &mut Branches, function: &TacFn, point: u32) -> Result<(), AllocError>
    requires { AreBranches function.now branches.old.points.items branches.old.targets.items
        branches.old.others.items point }
    ensures { OnOk result (AreBranches function.now branches.new.points.items branches.new.targets.items
        branches.new.others.items (point + 1)) }
{
    if let Some((target, other)) = branch_at(function, point as usize) {
        branches.points.push(point)?;
        branches.targets.push(target)?;
        branches.others.push(other)?;
    }
    Ok(())
}

/// The branches of a function, in order.
pub(crate) fn branches_of(alloc: Global, function: &TacFn) -> Result<Branches, AllocError>
    ensures branches { IfOk result (λ branches. AreBranches function.now branches.points.items
        branches.targets.items branches.others.items (length function.now.body)) }
    ensures few { IfOk result (λ branches. vec_len branches.points < 2 ^ 32) }
{
    let mut branches = Branches {
        points: Vec::new(alloc),
        targets: Vec::new(alloc),
        others: Vec::new(alloc),
    };
    for point in 0..function.instr_count() {
        add_branch(&mut branches, function, point)?;
    }
    Ok(branches)
}
