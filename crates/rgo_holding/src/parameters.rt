//! The region parameters of functions, computed once for a program: each call of a function would otherwise do it again.

ghost use Rattle.std.specs.Prelude.{◌≡◌, IfOk, map};
ghost use Rattle.rgo_sound.specs.Code.Names as names;

use rgo_region_sets::region_parameters;
use rgo_sound::code::Code;
use rgo_sound::tac::Class;
use std::alloc::{AllocError, Global};

/// The region parameters of each function, by its number.
///
/// # Errors
///
/// On allocation failure.
pub fn formals(alloc: Global, code: &Code) -> Result<Vec<Vec<Class>>, AllocError>
    ensures { IfOk result (λ all. map (λ v. v.items) all.items ≡ map names.region_parameters code.now.functions) }
{
    let mut all = Vec::new(alloc);
    for n in 0..code.len() {
        if let Some(function) = code.function(n) {
            all.push(region_parameters(alloc, &function)?)?;
        }
    }
    Ok(all)
}
