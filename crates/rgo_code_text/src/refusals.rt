//! Why a text is not the text of any code.

ghost use Rattle.std.specs.Prelude.{◌≡◌};
ghost use Rattle.rgo_code_text.specs.declared.refusals.ReadError.TheVariants.{NoMemory};

use std::alloc::{AllocError, AllocFailed};
use thiserror::Error;

/// The number of the first line without form, counted from 1.
#[derive(Clone, Copy, Debug, PartialEq, Eq)]
pub struct CodeText {
    pub line: u32,
}

/// Why no code was read: memory ran out, the text has 2³² - 2 bytes or more, or it is refused.
#[derive(Clone, Copy, Debug, PartialEq, Eq, Error)]
pub enum ReadError {
    #[error("out of memory")]
    NoMemory,
    #[error("the code text is too long")]
    TooLarge,
    #[error("line {} of the code text has no form", .0.line)]
    Refused(CodeText),
}

impl From<AllocError> for ReadError {
    ghost from_gives = { λ _ e. e ≡ NoMemory };

    fn from(_e: AllocError) -> ReadError {
        ReadError::NoMemory
    }
}

impl<T: Drop> From<AllocFailed<T>> for ReadError {
    ghost from_gives = { λ _ e. e ≡ NoMemory };

    fn from(_e: AllocFailed<T>) -> ReadError {
        ReadError::NoMemory
    }
}
