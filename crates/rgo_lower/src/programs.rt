//! The code of programs.

ghost use Rattle.std.specs.Prelude.{◌≡◌, ◌↔◌, ◌+◌, ◌<◌, ◌^◌, Err, IfOk};
ghost use Rattle.rgo_typed.specs.Views.{typed_of};
ghost use Rattle.rgo_wellformed.specs.WellFormed.{IsWellFormed};
ghost use Rattle.rgo_lower.specs.declared.errors.LowerError.TheVariants.{TooLarge};
ghost use Rattle.rgo_lower.specs.Lowered.{IsLowered};
ghost use Rattle.rgo_lower.specs.Sizes.{IsTooLargeToLower, program_size};

use crate::errors::LowerError;
use crate::functions::lower_function;
use crate::sizes::is_too_large;
use rgo_tac::{Tac, copy_structs, copy_variables};
use rgo_typed::{Row, Typed};
use std::alloc::{AllocError, Global};

/// The three-address code of a program that is not too large.
fn emit(alloc: Global, program: &Typed) -> Result<Tac, AllocError>
    requires well { IsWellFormed (typed_of program.now) }
    requires size { program_size (typed_of program.now) + 2 < 2 ^ 32 }
    ensures { IfOk result (λ code. IsLowered (typed_of program.now) code) }
{
    let structs = copy_structs(alloc, program.structs.items())?;
    let variables = copy_variables(alloc, program.variables.items())?;
    // In the order of the program, since calls name functions by number.
    let mut functions = Vec::new(alloc);
    for function in &program.functions {
        functions.push(lower_function(alloc, function)?)?;
    }
    Ok(Tac::new(structs, variables, Row::new(functions)))
}

/// The three-address code of a program.
///
/// # Errors
///
/// `TooLarge` if the program has 2³² - 2 or more structs, package variables or functions, or a struct as many fields, or if
/// the code of a function would count as many of instructions, variables, lists of variables, texts and labels, as
/// `program_size` of `specs/Sizes.antt` counts them: that is known before any code is made. `NoMemory` on allocation failure.
pub fn lower(alloc: Global, program: &Typed) -> Result<Tac, LowerError>
    requires { IsWellFormed (typed_of program.now) }
    ensures code { IfOk result (λ code. IsLowered (typed_of program.now) code) }
    ensures large { (result ≡ Err TooLarge) ↔ IsTooLargeToLower (typed_of program.now) }
{
    if is_too_large(program) {
        return Err(LowerError::TooLarge);
    }
    match emit(alloc, program) {
        Ok(code) => Ok(code),
        Err(_) => Err(LowerError::NoMemory),
    }
}
