//! Why a run was not driven to its end. These are errors of the driver or of the test that called it; however a run ends, that is a
//! `CrewEnd` instead.

ghost use Rattle.std.specs.Prelude.{◌≡◌};
ghost use Rattle.rgo_crew.specs.declared.errors.CrewError.TheVariants.{NoMemory};

use std::alloc::{AllocError, AllocFailed};
use thiserror::Error;

/// Why a run was not driven to its end.
#[derive(Clone, Copy, Debug, PartialEq, Eq, Error)]
pub enum CrewError {
    /// The driver ran out of memory.
    #[error("out of memory")]
    NoMemory,
    /// No page, more than 65,536 of them, or pages of more than 4,096 words.
    #[error("the table has no page, too many, or too large ones")]
    Pages,
    /// More than 65,536 slots or package variables.
    #[error("the table has too many slots or variables")]
    Slots,
    /// All pages together have more than 1,073,741,824 words.
    #[error("the pages of the table are too large together")]
    Cells,
    /// More than 1,000,000 goroutines.
    #[error("there may be too many goroutines")]
    Goroutines,
    /// A turn of a goroutine that does not exist.
    #[error("no goroutine has this place")]
    NoGoroutine,
    /// A goroutine has executed too many instructions to have another turn. Its counts would no longer fit.
    #[error("a goroutine has executed too many instructions")]
    StepsSpent,
    /// A goroutine was to retire before its prints were gathered and the goroutines that it had started were adopted: they would be lost.
    #[error("a goroutine retires too early")]
    TooEarly,
    /// The tickets of the prints are not the numbers from 0 on: a print was lost, or two have the same ticket.
    #[error("a print is missing")]
    NoPrint,
}

impl From<AllocError> for CrewError {
    ghost from_gives = { λ _ e. e ≡ NoMemory };

    fn from(_e: AllocError) -> CrewError {
        CrewError::NoMemory
    }
}

impl<T: Drop> From<AllocFailed<T>> for CrewError {
    ghost from_gives = { λ _ e. e ≡ NoMemory };

    fn from(_e: AllocFailed<T>) -> CrewError {
        CrewError::NoMemory
    }
}
