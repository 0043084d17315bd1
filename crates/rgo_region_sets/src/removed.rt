//! The names that are removed after an instruction.

ghost use Rattle.std.specs.Prelude.{Decides, ◌≡◌, ◌⊎◌, ◌↔◌, ℕ, Some, Contains, OnOk, IfOk, slice_get};
ghost use Rattle.std.specs.List.Sorted.{IsStrictlyIncreasing};
ghost use Rattle.rgo_graphs.specs.Rows.{rows_of};
ghost use Rattle.rgo_region_sets.specs.Asked.{AreCandidates, AreRemoved, IsDead, way};
ghost use Rattle.rgo_region_sets.specs.Live.{AddsDying, AreLiveNames, IsKnown, IsWay};
ghost use Rattle.rgo_region_sets.specs.Sets.{IsSet};

use crate::branches::branch_at;
use crate::names::{is_own, push_if};
use crate::sets::{has, set_of};
use crate::table::LiveNames;
use crate::used::used_names;
use rgo_code::CodeFn;
use rgo_tac::leads_to;
use std::alloc::{AllocError, Global};

/// The names that are removed after an instruction; after a branch, `after` where the variable is true, and `otherwise`
/// where it is false.
#[derive(Drop)]
pub struct RemovedNames {
    pub after: Vec<u32>,
    pub otherwise: Vec<u32>,
}

fn add_all(names: &mut Vec<u32>, these: &[u32]) -> Result<(), AllocError>
    ensures { OnOk result ((k : ℕ) → Contains names.new.items k
        ↔ (Contains names.old.items k ⊎ Contains these.now k)) }
{
    names.extend_from_slice(these)?;
    Ok(())
}

/// The place of a point; none for a number above those of 32 bits, which no instruction has.
fn place_of(points: &[u32], at: usize) -> Option<usize>
    requires rising { IsStrictlyIncreasing points.now }
    ensures { (b : ℕ) → (slice_get points.now b ≡ Some at) ↔ (result ≡ Some b) }
{
    if at > u32::MAX as usize {
        return None;
    }
    match points.binary_search(&(at as u32)) {
        Ok(b) => Some(b),
        Err(_) => None,
    }
}

/// Adds the names that are live into a branch and not into the target of one of its ways.
fn add_dying(
    names: &mut Vec<u32>,
    live: &LiveNames,
    rows: &[Vec<u32>],
    at: usize,
) -> Result<(), AllocError>
    ensures { OnOk result ((next : ℕ) → IsKnown live.now (rows_of rows.now) at next
        → AddsDying live.now names.old.items names.new.items at next) }
{
    match place_of(&live.points, at) {
        Some(b) => match rows.get(b) {
            Some(row) => add_all(names, row),
            None => Ok(()),
        },
        None => Ok(()),
    }
}

/// The names that may have to be removed on a way: those that the instruction uses, and at a branch those that are live into
/// it and not into the target. On the only way of another instruction, what it does not use cannot die.
fn may_die(
    alloc: Global,
    f: &CodeFn<'_>,
    live: &LiveNames,
    rows: &[Vec<u32>],
    at: usize,
) -> Result<Vec<u32>, AllocError>
    requires live { AreLiveNames live.now f.now }
    ensures names { IfOk result (λ names. (next : ℕ) → IsWay live.now f.now (rows_of rows.now) at next
        → AreCandidates f.now at next names.items) }
    ensures ascends { IfOk result (λ names. IsStrictlyIncreasing names.items) }
{
    let mut names = used_names(alloc, f, at)?;
    if branch_at(f.tac(), at).is_some() {
        add_dying(&mut names, live, rows, at)?;
    }
    Ok(set_of(names))
}

/// Whether a name is own, not given, and not live into the next instruction.
fn is_dead(f: &CodeFn<'_>, live: &LiveNames, gives: &[u32], next: usize, name: u32) -> bool
    requires live { AreLiveNames live.now f.now }
    requires gives { IsStrictlyIncreasing gives.now }
    ensures { Decides result (IsDead f.now gives.now next name) }
{
    is_own(f, name) && !has(gives, name) && !live.is_live(next, name)
}

/// Those of these names that are own, not given, and not live into the next instruction.
fn dead(
    alloc: Global,
    f: &CodeFn<'_>,
    live: &LiveNames,
    names: &[u32],
    gives: &[u32],
    next: usize,
) -> Result<Vec<u32>, AllocError>
    requires live { AreLiveNames live.now f.now }
    requires ascends { IsStrictlyIncreasing names.now }
    requires gives { IsStrictlyIncreasing gives.now }
    ensures { IfOk result (λ dead. IsSet dead.items (λ k. Contains names.now k × IsDead f.now gives.now next k)) }
{
    let mut dead = Vec::new(alloc);
    for name in names {
        let test = is_dead(f, live, gives, next, *name);
        push_if(&mut dead, *name, test)?;
    }
    Ok(dead)
}

/// The instruction to which a way of an instruction leads.
fn target(f: &CodeFn<'_>, at: usize, n: usize) -> Option<usize>
    ensures { result ≡ way f.now at n }
{
    match f.tac().op(at) {
        Some(op) => leads_to(op, at).get(n),
        None => None,
    }
}

fn on_way(
    alloc: Global,
    f: &CodeFn<'_>,
    live: &LiveNames,
    rows: &[Vec<u32>],
    at: usize,
    gives: &[u32],
    n: usize,
) -> Result<Vec<u32>, AllocError>
    requires live { AreLiveNames live.now f.now }
    requires gives { IsStrictlyIncreasing gives.now }
    requires way { (next : ℕ) → way f.now at n ≡ Some next → IsWay live.now f.now (rows_of rows.now) at next }
    ensures { IfOk result (λ names. AreRemoved f.now at gives.now (way f.now at n) names.items) }
{
    match target(f, at, n) {
        Some(next) => {
            let names = may_die(alloc, f, live, rows, at)?;
            dead(alloc, f, live, &names, gives, next)
        }
        None => Ok(Vec::new(alloc)),
    }
}

/// What is removed after an instruction that leaves these names to a callee to remove: the own names that are held or
/// created before it, not given, and not held where it leads.
///
/// # Errors
///
/// On allocation failure.
pub fn removals(
    alloc: Global,
    f: &CodeFn<'_>,
    live: &LiveNames,
    at: usize,
    gives: &[u32],
) -> Result<RemovedNames, AllocError>
    requires live { AreLiveNames live.now f.now }
    requires gives { IsStrictlyIncreasing gives.now }
    ensures after { IfOk result (λ r. AreRemoved f.now at gives.now (way f.now at 0) r.after.items) }
    ensures otherwise { IfOk result (λ r. AreRemoved f.now at gives.now (way f.now at 1) r.otherwise.items) }
{
    let after = on_way(alloc, f, live, &live.taken, at, gives, 0)?;
    let otherwise = on_way(alloc, f, live, &live.passed, at, gives, 1)?;
    Ok(RemovedNames { after, otherwise })
}
