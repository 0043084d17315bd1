//! The names that a call leaves to its callee to remove: those of which the caller and its callers need nothing afterwards.

ghost use Rattle.std.specs.Prelude.{Decides, ◌≡◌, Some, IfOk, slice_get};
ghost use Rattle.std.specs.Option.{option_map};
ghost use Rattle.std.specs.List.Sorted.{IsStrictlyIncreasing};
ghost use Rattle.rgo_code.specs.Names.{IsPassedForResult};
ghost use Rattle.rgo_region_sets.specs.Asked.{IsInNeither, IsGiven, IsNamePassedFor};
ghost use Rattle.rgo_region_sets.specs.Sets.{IsSet};

use crate::names::{name_of, push_if};
use crate::regions::region_parameters;
use crate::sets::{has, set_of};
use rgo_code::{Class, CodeFn};
use std::alloc::{AllocError, Global};

/// The names that are passed for the class of the result.
fn passed_for(
    alloc: Global,
    regions: &[Class],
    result_class: Class,
    passes: &[Class],
) -> Result<Vec<u32>, AllocError>
    ensures { IfOk result (λ names. IsSet names.items (IsNamePassedFor regions.now result_class passes.now)) }
{
    let mut names = Vec::new(alloc);
    for (at, class) in passes.iter().enumerate() {
        if let Some(name) = name_of(*class) {
            let lent = is_at(regions, at, result_class);
            push_if(&mut names, name, lent)?;
        }
    }
    Ok(set_of(names))
}

fn is_at(classes: &[Class], at: usize, class: Class) -> bool
    ensures { Decides result (slice_get classes.now at ≡ Some class) }
{
    match classes.get(at) {
        Some(found) => *found == class,
        None => false,
    }
}

/// The names that are passed for the class of the callee's result. The callee may not remove them, as it returns what is in them.
fn lent(
    alloc: Global,
    callee: Option<&CodeFn<'_>>,
    passes: &[Class],
) -> Result<Vec<u32>, AllocError>
    ensures { IfOk result (λ names. IsSet names.items
        (IsPassedForResult (option_map (λ f. f.now) callee.entry) passes.now)) }
{
    match callee {
        Some(callee) => {
            let regions = region_parameters(alloc, callee)?;
            passed_for(alloc, &regions, callee.result_class(), passes)
        }
        None => Ok(Vec::new(alloc)),
    }
}

/// Whether a name is neither protected nor passed for the callee's result.
fn is_given(protects: &[u32], lent: &[u32], name: u32) -> bool
    requires protects { IsStrictlyIncreasing protects.now }
    requires lent { IsStrictlyIncreasing lent.now }
    ensures { Decides result (IsInNeither protects.now lent.now name) }
{
    !has(protects, name) && !has(lent, name)
}

/// The names that a call passes, without protection and not for the callee's result.
///
/// # Errors
///
/// On allocation failure.
pub fn gives(
    alloc: Global,
    callee: Option<&CodeFn<'_>>,
    passes: &[Class],
    protects: &[u32],
) -> Result<Vec<u32>, AllocError>
    requires protects { IsStrictlyIncreasing protects.now }
    ensures { IfOk result (λ names. IsSet names.items
        (IsGiven (option_map (λ f. f.now) callee.entry) passes.now protects.now)) }
{
    let lent = lent(alloc, callee, passes)?;
    let mut names = Vec::new(alloc);
    for class in passes {
        if let Some(name) = name_of(*class) {
            let given = is_given(protects, &lent, name);
            push_if(&mut names, name, given)?;
        }
    }
    Ok(set_of(names))
}
