//! Names among classes.

ghost use Rattle.std.specs.Prelude.{Decides, ◌≡◌, ◌||◌, ℕ, not, nat_eq, IfOk, OnOk};
ghost use Rattle.std.specs.BTreeSet.{contains};
ghost use Rattle.std.specs.Ordering.{nat_cmp};
ghost use Rattle.rgo_code.specs.Names.{IsOwn};
ghost use Rattle.rgo_region_sets.specs.Sets.{pushed_if};
ghost use Rattle.rgo_region_sets.specs.Used as spec;

use rgo_code::{Class, CodeFn};
use std::alloc::AllocError;
use std::collections::BTreeSet;

/// The name that a class is, if it is one.
pub(crate) fn name_of(class: Class) -> Option<u32>
    ensures { result ≡ spec.name_of class }
{
    match class {
        Class::Name(name) => Some(name),
        Class::NoClass | Class::Global => None,
    }
}

/// Whether a name is not the class of the result, whose region belongs to the caller.
pub(crate) fn is_own(f: &CodeFn<'_>, name: u32) -> bool
    ensures { Decides result (IsOwn f.now name) }
{
    match name_of(f.result_class()) {
        Some(k) => k != name,
        None => true,
    }
}

/// Puts the name into the set of those that were seen. Returns whether it is the first time.
pub(crate) fn see(seen: &mut BTreeSet<u32>, name: u32) -> Result<bool, AllocError>
    ensures first { IfOk result (λ first. first ≡ not (contains nat_cmp seen.old name)) }
    ensures adds { OnOk result ((k : ℕ) → contains nat_cmp seen.new k
        ≡ (contains nat_cmp seen.old k || nat_eq k name)) }
{
    let first = seen.insert(name)?;
    Ok(first)
}

pub(crate) fn push_if(names: &mut Vec<u32>, name: u32, test: bool) -> Result<(), AllocError>
    ensures { OnOk result (names.new.items ≡ pushed_if test names.old.items name) }
{
    if test {
        names.push(name)?;
    }
    Ok(())
}
