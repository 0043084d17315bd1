//! The names that a call protects.

ghost use Rattle.std.specs.Prelude.{Decides, ◌<◌, ◌^◌, OnOk, IfOk};
ghost use Rattle.rgo_region_sets.specs.Asked.{AddsPassed, IsNeeded, Protects};
ghost use Rattle.rgo_region_sets.specs.Live.{AreLiveNames};
ghost use Rattle.rgo_region_sets.specs.Sets.{IsSet};

use crate::names::{is_own, name_of, push_if, see};
use crate::sets::set_of;
use crate::table::LiveNames;
use rgo_code::{Class, CodeFn};
use std::alloc::{AllocError, Global};
use std::collections::BTreeSet;

/// Whether a name that is passed for the first time, or again, is to be protected. If it is passed again, the callee has two names for
/// one region, and may use it by one name after the other has died.
fn is_needed(f: &CodeFn<'_>, live: &LiveNames, at: usize, first: bool, name: u32) -> bool
    requires few { at < 2 ^ 63 }
    requires live { AreLiveNames live.now f.now }
    ensures { Decides result (IsNeeded f.now at first name) }
{
    !first || !is_own(f, name) || live.is_live(at + 1, name)
}

/// Adds the name of a class that is passed, if it has to be protected.
fn protect(
    names: &mut Vec<u32>,
    seen: &mut BTreeSet<u32>,
    f: &CodeFn<'_>,
    live: &LiveNames,
    at: usize,
    class: Class,
) -> Result<(), AllocError>
    requires few { at < 2 ^ 63 }
    requires live { AreLiveNames live.now f.now }
    ensures { OnOk result (AddsPassed f.now at class names.old.items names.new.items seen.old seen.new) }
{
    match name_of(class) {
        Some(name) => {
            let first = see(seen, name)?;
            let needed = is_needed(f, live, at, first, name);
            push_if(names, name, needed)
        }
        None => Ok(()),
    }
}

/// The names that are passed and live after the instruction, or passed and the result's, or passed twice.
///
/// # Errors
///
/// On allocation failure.
pub fn protections(
    alloc: Global,
    f: &CodeFn<'_>,
    live: &LiveNames,
    at: usize,
    passes: &[Class],
) -> Result<Vec<u32>, AllocError>
    requires few { at < 2 ^ 63 }
    requires live { AreLiveNames live.now f.now }
    ensures { IfOk result (λ names. IsSet names.items (Protects f.now at passes.now)) }
{
    let mut names = Vec::new(alloc);
    let mut seen = BTreeSet::new(alloc);
    for class in passes {
        protect(&mut names, &mut seen, f, live, at, *class)?;
    }
    Ok(set_of(names))
}
