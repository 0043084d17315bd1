//! Names that have to differ from those before them.

ghost use Rattle.std.specs.Prelude.{IfOk};
ghost use Rattle.rgo_checker.specs.Naming.{AddsToNames};

use std::alloc::AllocError;
use std::collections::HashSet;

/// The names so far.
pub(crate) type Names<'a> = HashSet<&'a [u8]>;

/// Adds a name. Returns whether it is new.
pub(crate) fn add<'a>(names: &mut Names<'a>, name: &'a [u8]) -> Result<bool, AllocError>
    ensures { IfOk result (λ is_new. AddsToNames names.old name.now is_new names.new) }
{
    match names.insert(name) {
        Ok(is_new) => Ok(is_new),
        Err(_) => Err(AllocError),
    }
}
