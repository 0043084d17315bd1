//! What functions say of regions.

ghost use Rattle.std.specs.Prelude.{◌≡◌, length, IfOk};
ghost use Rattle.rgo_region_sets.specs.Live.{AreLiveNames};
ghost use Rattle.rgo_code.specs.Erasure.{erased_fn};
ghost use Rattle.rgo_code.specs.Views.{code_fns};
ghost use Rattle.rgo_insert.specs.Filled.{AreFilled, AreRight, IsFilled};

use crate::bare::Bare;
use crate::notes::note_of;
use rgo_code::{CodeFn, Note, Regions};
use rgo_region_sets::{LiveNames, entry_removals, live_names};
use rgo_tac::{TacFn, copy_items};
use rgo_typed::Row;
use std::alloc::{AllocError, Global};

/// The notes of a function's instructions.
fn notes_of(
    alloc: Global,
    functions: &Bare<'_>,
    f: &CodeFn<'_>,
    live: &LiveNames,
) -> Result<Vec<Note>, AllocError>
    requires live { AreLiveNames live.now f.now }
    ensures { IfOk result (λ notes. AreRight functions.now f.now notes.items (length (erased_fn f.now).body)) }
{
    let mut notes = Vec::new(alloc);
    for at in 0..f.tac().len() {
        match f.tac().op(at) {
            Some(op) => notes.push(note_of(alloc, functions, f, live, at, op)?)?,
            // Each number of the loop is that of an instruction.
            None => {}
        }
    }
    Ok(notes)
}

/// What a function with these classes says of regions. The names that are live depend on its classes only, so they are known before
/// any note.
fn filled(
    alloc: Global,
    functions: &Bare<'_>,
    function: &TacFn,
    bare: &Regions,
) -> Result<Regions, AllocError>
    ensures { IfOk result (IsFilled functions.now function.now bare.now) }
{
    let f = CodeFn::new(function, bare);
    let live = live_names(alloc, &f)?;
    let classes = copy_items(alloc, bare.classes.items())?;
    let entry = entry_removals(alloc, &f, &live)?;
    let notes = notes_of(alloc, functions, &f, &live)?;
    Ok(Regions {
        classes,
        result: bare.result,
        entry: Row::new(entry),
        notes: Row::new(notes),
    })
}

/// What all functions say.
pub(crate) fn all_filled(
    alloc: Global,
    functions: &[TacFn],
    bare: &[Regions],
) -> Result<Vec<Regions>, AllocError>
    requires len { length bare.now ≡ length functions.now }
    ensures { IfOk result (λ all. AreFilled (code_fns functions.now bare.now) functions.now bare.now all.items) }
{
    let all = Bare::new(functions, bare);
    let mut regions = Vec::new(alloc);
    for (n, function) in functions.iter().enumerate() {
        regions.push(filled(alloc, &all, function, &bare[n])?)?;
    }
    Ok(regions)
}
