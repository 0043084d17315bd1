//! The classes of a function.

ghost use Rattle.std.specs.Prelude.{IfOk};
ghost use Rattle.rgo_classes.specs.Classes.{AreClasses};

use crate::classes::{Classes, Summaries};
use crate::instructions::join_body;
use crate::labels::Labels;
use crate::names::name;
use rgo_tac::TacFn;
use std::alloc::{AllocError, Global};

/// The classes of a function's variables and result, where the functions that it calls have these summaries.
///
/// # Errors
///
/// On allocation failure.
pub fn classes_of(
    alloc: Global,
    function: &TacFn,
    summaries: &Summaries,
) -> Result<Classes, AllocError>
    ensures { IfOk result (AreClasses summaries.now.functions function.now) }
{
    let mut labels = Labels::new(alloc, function)?;
    join_body(alloc, function, &mut labels, summaries)?;
    name(alloc, function, &labels, function.variables().len())
}
