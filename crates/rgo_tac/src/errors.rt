//! Why a function is not made.

ghost use Rattle.std.specs.Prelude.{◌≡◌};
ghost use Rattle.rgo_tac.specs.declared.errors.FunctionError.TheVariants.{NoMemory};

use std::alloc::AllocError;

/// Why a function was not made.
#[derive(Clone, Copy, Debug, PartialEq, Eq)]
pub enum FunctionError {
    NoMemory,
    /// It would have more variables or instructions than numbers of 32 bits can name. An error here, and a property of the type from
    /// then on, so that no layer above tests it again.
    TooLarge,
}

impl From<AllocError> for FunctionError {
    ghost from_gives = { λ _ e. e ≡ NoMemory };

    fn from(_e: AllocError) -> FunctionError {
        FunctionError::NoMemory
    }
}
