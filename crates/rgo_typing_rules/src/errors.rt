//! Why a program gets no typed tree: one refusal, and not a list. One fault at a determined place can be stated and proved exactly; a
//! list would depend on how checking recovers.

use crate::rules::Rule;
use rgo_ast::Place;
use std::alloc::{AllocError, AllocFailed};
use thiserror::Error;

/// The first node that breaks a rule, in the order of checking.
#[derive(Clone, Copy, Debug, PartialEq, Eq)]
pub struct TypeRefusal {
    /// The first rule that it breaks.
    pub rule: Rule,
    pub at: Place,
}

/// Why a program gets no typed tree.
#[derive(Clone, Copy, Debug, PartialEq, Eq, Error)]
pub enum TypeError {
    /// An allocation failed.
    #[error("no memory for the typed tree")]
    NoMemory,
    /// The program breaks a rule.
    #[error("breaks a rule on meaning")]
    Refused(TypeRefusal),
}

impl From<AllocError> for TypeError {
    ghost use Rattle.std.specs.Prelude.{◌≡◌};
    ghost use Rattle.rgo_typing_rules.specs.declared.errors.TypeError.TheVariants.{NoMemory};

    ghost from_gives = { λ _ e. e ≡ NoMemory };

    fn from(_: AllocError) -> TypeError {
        TypeError::NoMemory
    }
}

impl<T: Drop> From<AllocFailed<T>> for TypeError {
    ghost use Rattle.std.specs.Prelude.{◌≡◌};
    ghost use Rattle.rgo_typing_rules.specs.declared.errors.TypeError.TheVariants.{NoMemory};

    ghost from_gives = { λ _ e. e ≡ NoMemory };

    fn from(_: AllocFailed<T>) -> TypeError {
        TypeError::NoMemory
    }
}
