//! Why code is rejected by the checker.

use rgo_code::CodeRefusal;
use thiserror::Error;

/// Why a check fails.
#[derive(Clone, Copy, Debug, PartialEq, Eq, Error)]
pub enum CheckError {
    #[error("out of memory")]
    NoMemory,
    /// Not all lines of the code have numbers of 32 bits, which is known before any rule is checked.
    #[error("the code is too large")]
    TooLarge,
    /// The code breaks a rule.
    #[error("line {} of the code breaks rule {}", .0.line, .0.rule.number())]
    Refused(CodeRefusal),
}
