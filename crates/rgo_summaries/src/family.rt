//! The least family of summaries.

ghost use Rattle.std.specs.Prelude.{IfOk};
ghost use Rattle.rgo_summaries.specs.Families.{IsLeastFamily};

use crate::beginning::begin_all;
use crate::names::summaries_of;
use crate::spreading::spread;
use rgo_classes::Summaries;
use rgo_tac::Tac;
use rgo_typed::Row;
use std::alloc::{AllocError, Global};

/// The summaries of a program's functions: which of the package variables, the result and the parameters may hold
/// pointers into the same region.
///
/// # Errors
///
/// On allocation failure.
pub fn summaries(alloc: Global, code: &Tac) -> Result<Summaries, AllocError>
    ensures { IfOk result (λ family. IsLeastFamily code.now family.functions) }
{
    let begun = begin_all(alloc, code)?;
    let mut progress = begun.progress;
    spread(alloc, &mut progress, &begun.sites)?;
    let functions = summaries_of(alloc, code.functions(), &mut progress.nodes)?;
    Ok(Summaries {
        functions: Row::new(functions),
    })
}
