//! Texts that do not begin with a journal.

ghost use Rattle.std.specs.Prelude.{◌≡◌};
ghost use Rattle.rgo_journal.specs.declared.errors.PicksError.TheVariants.{NoMemory};

use std::alloc::{AllocError, AllocFailed};
use thiserror::Error;

/// The number of the first line that has no form in a journal, counted from 1. If the text ends before the line `text`,
/// that is what follows its last newline.
#[derive(Clone, Copy, Debug, PartialEq, Eq)]
pub struct PicksText {
    pub line: usize,
}

/// Why no journal was read.
#[derive(Clone, Copy, Debug, PartialEq, Eq, Error)]
pub enum PicksError {
    #[error("out of memory")]
    NoMemory,
    #[error("line {} of the journal has no form", .0.line)]
    Refused(PicksText),
}

impl From<AllocError> for PicksError {
    ghost from_gives = { λ _ e. e ≡ NoMemory };

    fn from(_e: AllocError) -> PicksError {
        PicksError::NoMemory
    }
}

impl<T: Drop> From<AllocFailed<T>> for PicksError {
    ghost from_gives = { λ _ e. e ≡ NoMemory };

    fn from(_e: AllocFailed<T>) -> PicksError {
        PicksError::NoMemory
    }
}
