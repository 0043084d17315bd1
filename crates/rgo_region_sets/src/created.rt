//! The names that are created before an instruction.

ghost use Rattle.std.specs.Prelude.{Decides, IfOk};
ghost use Rattle.rgo_region_sets.specs.Asked.{Creates, IsMissing};
ghost use Rattle.rgo_region_sets.specs.Live.{AreLiveNames};
ghost use Rattle.rgo_region_sets.specs.Sets.{IsSet};

use crate::names::{is_own, push_if};
use crate::table::LiveNames;
use crate::used::used_names;
use rgo_code::CodeFn;
use std::alloc::{AllocError, Global};

/// Whether an own name is not held before the instruction.
pub(crate) fn is_missing(f: &CodeFn<'_>, live: &LiveNames, at: usize, name: u32) -> bool
    requires live { AreLiveNames live.now f.now }
    ensures { Decides result (IsMissing f.now at name) }
{
    is_own(f, name) && !live.is_live(at, name)
}

/// The own names that the instruction uses and that are not held before it.
///
/// # Errors
///
/// On allocation failure.
pub fn creations(
    alloc: Global,
    f: &CodeFn<'_>,
    live: &LiveNames,
    at: usize,
) -> Result<Vec<u32>, AllocError>
    requires live { AreLiveNames live.now f.now }
    ensures { IfOk result (λ names. IsSet names.items (Creates f.now at)) }
{
    let used = used_names(alloc, f, at)?;
    let mut names = Vec::new(alloc);
    for name in &used {
        let missing = is_missing(f, live, at, *name);
        push_if(&mut names, *name, missing)?;
    }
    Ok(names)
}
