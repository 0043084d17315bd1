//! The errors of [`crate::pipeline`]: why a text has no program, or a code text no code. The errors of the compiler's stages are
//! converted to them, so that most stages end in `?`.
//! Why: docs/DECISIONS.md, "Refusals".

ghost use Rattle.std.specs.Prelude.{◌≡◌};
ghost use Rattle.rgo_run.specs.declared.refusals.TextError.TheVariants.{NoMemory};
ghost use Rattle.rgo_run.specs.Errors.{check_error, lex_error, reading_error, type_error};

use rgo_ast::Place;
use rgo_checker::CheckError;
use rgo_code::CodeRefusal;
use rgo_code_text::ReadError;
use rgo_lexer::{LexError, LexRefusal};
use rgo_typing_rules::{TypeError, TypeRefusal};
use std::alloc::AllocError;
use thiserror::Error;

/// Why a text is not a program: the first place at which it breaks a rule. Places are bytes from the beginning of the text.
#[derive(Clone, Copy, Debug, PartialEq, Eq)]
pub enum TextRefusal {
    /// It has more bytes than a text may have.
    TooLong,
    /// It cannot be cut into tokens: the first lexical error and its place.
    Lexical(LexRefusal),
    /// The place of the first token with which no program of the grammar can continue.
    Syntax { at: Place },
    /// The place of the first token at which the nesting exceeds the limit.
    Nesting { at: Place },
    /// It breaks a typing rule: the first violation in the order of checking.
    Typing(TypeRefusal),
}

/// Why a code text is rejected.
#[derive(Clone, Copy, Debug, PartialEq, Eq)]
pub enum CodeTextRefusal {
    /// It has more bytes than a code text may have.
    TooLong,
    /// It does not match the grammar of code texts: the number, from 1, of the first line that does not.
    NoForm { line: u32 },
    /// Its code breaks a rule: the rule with the least number that is broken, and the first line that breaks it.
    Breaks(CodeRefusal),
}

/// Why a text has no program or code: memory ran out, or the text is rejected.
#[derive(Clone, Copy, Debug, PartialEq, Eq, Error)]
pub enum TextError {
    #[error("out of memory")]
    NoMemory,
    #[error("the text is not a valid program")]
    Refused(TextRefusal),
}

/// Why a code text has no code: memory ran out, or the text is rejected.
#[derive(Clone, Copy, Debug, PartialEq, Eq, Error)]
pub enum CodeTextError {
    #[error("out of memory")]
    NoMemory,
    #[error("the text is not that of code that keeps all rules")]
    Refused(CodeTextRefusal),
}

impl From<AllocError> for TextError {
    ghost from_gives = { λ _ e. e ≡ NoMemory };

    fn from(_e: AllocError) -> TextError {
        TextError::NoMemory
    }
}

impl From<LexError> for TextError {
    ghost from_gives = { λ error e. e ≡ lex_error error };

    fn from(error: LexError) -> TextError {
        match error {
            LexError::Refused(refusal) => TextError::Refused(TextRefusal::Lexical(refusal)),
            LexError::NoMemory => TextError::NoMemory,
        }
    }
}

impl From<TypeError> for TextError {
    ghost from_gives = { λ error e. e ≡ type_error error };

    fn from(error: TypeError) -> TextError {
        match error {
            TypeError::Refused(refusal) => TextError::Refused(TextRefusal::Typing(refusal)),
            TypeError::NoMemory => TextError::NoMemory,
        }
    }
}

impl From<ReadError> for CodeTextError {
    ghost from_gives = { λ error e. e ≡ reading_error error };

    fn from(error: ReadError) -> CodeTextError {
        match error {
            ReadError::Refused(refusal) => {
                CodeTextError::Refused(CodeTextRefusal::NoForm { line: refusal.line })
            }
            ReadError::TooLarge => CodeTextError::Refused(CodeTextRefusal::TooLong),
            ReadError::NoMemory => CodeTextError::NoMemory,
        }
    }
}

impl From<CheckError> for CodeTextError {
    ghost from_gives = { λ error e. e ≡ check_error error };

    fn from(error: CheckError) -> CodeTextError {
        match error {
            CheckError::Refused(refusal) => CodeTextError::Refused(CodeTextRefusal::Breaks(
                refusal,
            )),
            // `TooLarge` means that the code has more lines than the checker can number. Each line of a code text has at least
            // one byte, so no code text within the limit has so much code: its text would be too long.
            CheckError::TooLarge => CodeTextError::Refused(CodeTextRefusal::TooLong),
            CheckError::NoMemory => CodeTextError::NoMemory,
        }
    }
}
