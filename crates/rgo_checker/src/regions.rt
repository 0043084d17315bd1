//! The rules on creations, protections and removals: the lists are those that the rules ask for.

ghost use Rattle.std.specs.Prelude.{◌≡◌, ◌<◌, ◌^◌, ◌||◌, ℕ, Some, slice_get, nat_eq, bytes_eq, IfOk, OnOk};
ghost use Rattle.std.specs.Bool.{Decides};
ghost use Rattle.std.specs.HashSet.{contains};
ghost use Rattle.std.specs.List.{list_all};
ghost use Rattle.std.specs.List.Sorted.{IsStrictlyIncreasing};
ghost use Rattle.rgo_tac.specs.Ops.{op_in, operation_of};
ghost use Rattle.rgo_code.specs.declared.rules.Rule.TheVariants as rule;
ghost use Rattle.rgo_code.specs.Erasure.{erased_fn};
ghost use Rattle.rgo_code.specs.Names.{IsParameterName};
ghost use Rattle.rgo_checker.specs.Instrs.{EntryKept, InstrKept};
ghost use Rattle.rgo_checker.specs.Prepared.{IsPreparedToCheck};
ghost use Rattle.rgo_checker.specs.Regions as spec;
ghost use Rattle.rgo_region_sets.specs.Asked.{IsGiven};
ghost use Rattle.rgo_region_sets.specs.Sets.{IsSet};

use crate::bools::both;
use crate::classes::class_at;
use rgo_code::{Class, Code, CodeFn};
use rgo_region_sets::{
    LiveNames, creations, entry_removals, gives, holds_at_entry, protections, removals,
};
use rgo_tac::Op;
use std::alloc::{AllocError, Global};
use std::collections::HashSet;

/// Whether the names are the wanted ones. Both lists ascend, so they are equal exactly if they have the same names.
fn same_names(names: &[u32], wanted: &[u32]) -> bool
    ensures { result ≡ bytes_eq names.now wanted.now }
{
    names == wanted
}

fn add_name(names: &mut HashSet<u32>, class: Class) -> Result<(), AllocError>
    ensures { OnOk result ((q : ℕ) → contains nat_eq names.new q
        ≡ (spec.has_name class q || contains nat_eq names.old q)) }
{
    match class {
        Class::Name(k) => {
            names.insert(k)?;
            Ok(())
        }
        Class::NoClass | Class::Global => Ok(()),
    }
}

fn parameter_names(alloc: Global, f: &CodeFn<'_>) -> Result<HashSet<u32>, AllocError>
    ensures { IfOk result (λ names. (k : ℕ) → Decides (contains nat_eq names k) (IsParameterName f.now k)) }
{
    let mut names = HashSet::new(alloc);
    let function = f.tac();
    let params = function.params();
    let types = function.variables();
    // The contract does not assume rule 1, so a head may announce more parameters than there are variables.
    let count = params.min(types.len());
    for v in 0..count {
        add_name(&mut names, class_at(f, v))?;
    }
    Ok(names)
}

fn all_among(held: &[u32], names: &HashSet<u32>) -> bool
    ensures { result ≡ list_all (λ k. contains nat_eq names.now k) held.now }
{
    held.iter().all(|k| names.contains(k))
}

/// Whether the names that the first instruction holds are those of parameters: no other region exists at entry, so any other
/// name would be used before it is created.
pub(crate) fn entry_known(
    alloc: Global,
    f: &CodeFn<'_>,
    live: &LiveNames,
) -> Result<bool, AllocError>
    requires { IsPreparedToCheck live.now f.now }
    ensures { IfOk result (λ b. Decides b (EntryKept f.now rule.Entry)) }
{
    let held = holds_at_entry(alloc, f, live)?;
    let names = parameter_names(alloc, f)?;
    Ok(all_among(&held, &names))
}

/// Whether the names of parameters that die at entry are removed. A caller leaves regions to its callee without knowing whether
/// the callee uses them.
pub(crate) fn entry_removes_dead(
    alloc: Global,
    f: &CodeFn<'_>,
    live: &LiveNames,
) -> Result<bool, AllocError>
    requires { IsPreparedToCheck live.now f.now }
    ensures { IfOk result (λ b. Decides b (EntryKept f.now rule.Removals)) }
{
    let wanted = entry_removals(alloc, f, live)?;
    Ok(same_names(f.entry(), &wanted))
}

/// Whether an instruction creates the own names that it uses and that were not held.
pub(crate) fn creates_used(
    alloc: Global,
    code: &Code,
    f: &CodeFn<'_>,
    live: &LiveNames,
    at: usize,
    op: Op<'_>,
) -> Result<bool, AllocError>
    requires here { op_in (slice_get (erased_fn f.now).body at) ≡ Some (operation_of op) }
    requires prepared { IsPreparedToCheck live.now f.now }
    ensures { IfOk result (λ b. Decides b (InstrKept code.now f.now at rule.Creations)) }
{
    let wanted = creations(alloc, f, live, at)?;
    Ok(same_names(f.creates(at), &wanted))
}

fn is_call(op: Op<'_>) -> bool
    ensures { result ≡ spec.is_call (operation_of op.entry) }
{
    match op {
        Op::Call { .. } => true,
        Op::Do { .. }
        | Op::Go { .. }
        | Op::Print { .. }
        | Op::Jump(_)
        | Op::Branch { .. }
        | Op::Return(_) => false,
    }
}

/// Whether a call protects the names that it passes and that are needed after it.
pub(crate) fn protects_used(
    alloc: Global,
    code: &Code,
    f: &CodeFn<'_>,
    live: &LiveNames,
    at: usize,
    op: Op<'_>,
) -> Result<bool, AllocError>
    requires here { op_in (slice_get (erased_fn f.now).body at) ≡ Some (operation_of op) }
    requires small { at < 2 ^ 63 }
    requires prepared { IsPreparedToCheck live.now f.now }
    ensures { IfOk result (λ b. Decides b (InstrKept code.now f.now at rule.Protections)) }
{
    // Only calls have such a list, and the rule asks nothing of other instructions.
    if !is_call(op) {
        return Ok(true);
    }
    let wanted = protections(alloc, f, live, at, f.passes(at))?;
    Ok(same_names(f.protects(at), &wanted))
}

/// What a call leaves to its callee. Rule 1 excludes a callee that does not exist; `IsGiven` is defined for that, too, so the
/// contract needs no premise.
fn given_by_call(
    alloc: Global,
    code: &Code,
    n: u32,
    passes: &[Class],
    protects: &[u32],
) -> Result<Vec<u32>, AllocError>
    requires { IsStrictlyIncreasing protects.now }
    ensures { IfOk result (λ names. IsSet names.items
        (IsGiven (slice_get code.now.functions n) passes.now protects.now)) }
{
    match code.function(n as usize) {
        Some(callee) => gives(alloc, Some(&callee), passes, protects),
        None => gives(alloc, None, passes, protects),
    }
}

fn callee_of(op: Op<'_>) -> Option<u32>
    ensures { result ≡ spec.called_function (operation_of op.entry) }
{
    match op {
        Op::Call { function, .. } => Some(function),
        Op::Do { .. }
        | Op::Go { .. }
        | Op::Print { .. }
        | Op::Jump(_)
        | Op::Branch { .. }
        | Op::Return(_) => None,
    }
}

/// The names that an instruction leaves to a callee to remove.
fn given(
    alloc: Global,
    code: &Code,
    op: Op<'_>,
    passes: &[Class],
    protects: &[u32],
) -> Result<Vec<u32>, AllocError>
    requires { IsStrictlyIncreasing protects.now }
    ensures { IfOk result (λ names. IsSet names.items
        (spec.GivenBy code.now (operation_of op.entry) passes.now protects.now)) }
{
    match callee_of(op) {
        Some(n) => given_by_call(alloc, code, n, passes, protects),
        None => Ok(Vec::new(alloc)),
    }
}

/// Whether exactly the names that die after an instruction are removed there. Rule 9 has to be kept first (`created`): `removals`
/// counts as created what that rule asks for, and does not read the list.
pub(crate) fn removes_dead(
    alloc: Global,
    code: &Code,
    f: &CodeFn<'_>,
    live: &LiveNames,
    at: usize,
    op: Op<'_>,
) -> Result<bool, AllocError>
    requires here { op_in (slice_get (erased_fn f.now).body at) ≡ Some (operation_of op) }
    requires prepared { IsPreparedToCheck live.now f.now }
    requires created { InstrKept code.now f.now at rule.Creations }
    ensures { IfOk result (λ b. Decides b (InstrKept code.now f.now at rule.Removals)) }
{
    let gives = given(alloc, code, op, f.passes(at), f.protects(at))?;
    let wanted = removals(alloc, f, live, at, &gives)?;
    Ok(both(
        same_names(f.removes(at), &wanted.after),
        same_names(f.otherwise(at), &wanted.otherwise),
    ))
}
