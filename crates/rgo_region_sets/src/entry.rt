//! The names at the entry of a function.

ghost use Rattle.std.specs.Prelude.{◌≡◌, Decides, IfOk};
ghost use Rattle.rgo_code.specs.Names.{Holds, IsOwn};
ghost use Rattle.rgo_region_sets.specs.Asked.{EntryRemoves};
ghost use Rattle.rgo_region_sets.specs.Live.{AreLiveNames};
ghost use Rattle.rgo_region_sets.specs.Sets.{IsSet};

use crate::created::is_missing;
use crate::names::{is_own, name_of, push_if};
use crate::regions::parameter_classes;
use crate::sets::set_of;
use crate::spans::Span;
use crate::table::LiveNames;
use rgo_code::CodeFn;
use std::alloc::{AllocError, Global};

/// The own names of parameters that the first instruction does not hold: nothing in the function would ever remove them.
///
/// # Errors
///
/// On allocation failure.
pub fn entry_removals(
    alloc: Global,
    f: &CodeFn<'_>,
    live: &LiveNames,
) -> Result<Vec<u32>, AllocError>
    requires live { AreLiveNames live.now f.now }
    ensures { IfOk result (λ names. IsSet names.items (EntryRemoves f.now)) }
{
    let classes = parameter_classes(alloc, f)?;
    let mut names = Vec::new(alloc);
    for class in &classes {
        if let Some(name) = name_of(*class) {
            let missing = is_missing(f, live, 0, name);
            push_if(&mut names, name, missing)?;
        }
    }
    Ok(set_of(names))
}

/// Whether a span has the first instruction, and its name is own. A span that has it begins there: no instruction is before.
fn is_held(f: &CodeFn<'_>, span: Span) -> bool
    ensures { Decides result ((span.from ≡ 0) × IsOwn f.now span.name) }
{
    span.from == 0 && is_own(f, span.name)
}

/// The own names that are live into the first instruction.
///
/// # Errors
///
/// On allocation failure.
pub fn holds_at_entry(
    alloc: Global,
    f: &CodeFn<'_>,
    live: &LiveNames,
) -> Result<Vec<u32>, AllocError>
    requires live { AreLiveNames live.now f.now }
    ensures { IfOk result (λ names. IsSet names.items (λ k. Holds f.now k 0)) }
{
    let mut names = Vec::new(alloc);
    for span in &live.spans {
        let held = is_held(f, *span);
        push_if(&mut names, span.name, held)?;
    }
    Ok(set_of(names))
}
