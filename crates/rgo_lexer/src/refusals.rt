//! Lexical errors: why a text cannot be cut into lexemes. Their numbers and names are printed. Why: docs/DECISIONS.md, "Tokens".

ghost use Rattle.std.specs.Prelude.{◌≡◌};
ghost use Rattle.rgo_lexer.specs.LexicalKinds.{lexical_kind_number, lexical_kind_name};
ghost use Rattle.rgo_lexer.specs.declared.refusals.LexError.TheVariants.{NoMemory};

use std::alloc::{AllocError, AllocFailed};
use thiserror::Error;

/// The kinds of lexical error.
#[derive(Clone, Copy, Debug, PartialEq, Eq)]
pub enum LexicalKind {
    /// A byte that belongs to no character of UTF-8.
    BadUtf8,
    /// A byte that begins neither a separator nor a token.
    BadByte,
    /// A number that is malformed or exceeds the greatest `int`.
    BadNumber,
    /// A backslash in a string that does not begin an escape.
    BadEscape,
    /// A string that is not closed on its line.
    OpenString,
    /// A comment that is not closed.
    OpenComment,
}

impl LexicalKind {
    /// The number that is printed, from 1.
    pub fn number(self) -> u8
        ensures { result ≡ lexical_kind_number self }
    {
        match self {
            LexicalKind::BadUtf8 => 1,
            LexicalKind::BadByte => 2,
            LexicalKind::BadNumber => 3,
            LexicalKind::BadEscape => 4,
            LexicalKind::OpenString => 5,
            LexicalKind::OpenComment => 6,
        }
    }

    /// The name that is printed.
    pub fn name(self) -> &'static str
        ensures { result.now ≡ lexical_kind_name self }
    {
        match self {
            LexicalKind::BadUtf8 => "BadUtf8",
            LexicalKind::BadByte => "BadByte",
            LexicalKind::BadNumber => "BadNumber",
            LexicalKind::BadEscape => "BadEscape",
            LexicalKind::OpenString => "OpenString",
            LexicalKind::OpenComment => "OpenComment",
        }
    }
}

/// The first lexical error of a text, and its place: the number of bytes before it.
#[derive(Clone, Copy, Debug, PartialEq, Eq)]
pub struct LexRefusal {
    pub kind: LexicalKind,
    pub at: usize,
}

/// Why a text has no list of lexemes: memory ran out, or it has a lexical error.
#[derive(Clone, Copy, Debug, PartialEq, Eq, Error)]
pub enum LexError {
    #[error("out of memory")]
    NoMemory,
    #[error("refused at byte {}: {}", .0.at, .0.kind.name())]
    Refused(LexRefusal),
}

impl From<AllocError> for LexError {
    ghost from_gives = { λ _ e. e ≡ NoMemory };

    fn from(_e: AllocError) -> LexError {
        LexError::NoMemory
    }
}

impl<T: Drop> From<AllocFailed<T>> for LexError {
    ghost from_gives = { λ _ e. e ≡ NoMemory };

    fn from(_e: AllocFailed<T>) -> LexError {
        LexError::NoMemory
    }
}
