//! How a call of `rgo` ends: what [`crate::commands`] returns and [`crate::report`] reports. The definitions of a status and of a
//! line are functions of this type (specs/Endings.antt). Why: docs/DECISIONS.md, "Errors and statuses".

ghost use Rattle.std.specs.Prelude.{◌≡◌, None};
ghost use Rattle.rgo_run.specs.declared.endings.Ending.TheVariants.{NoMemory};
ghost use Rattle.rgo_run.specs.declared.endings.TextKind.TheVariants as text_kind;
ghost use Rattle.rgo_run.specs.Errors.{code_text_error, command_error, text_error};

use crate::refusals::{CodeTextError, CodeTextRefusal, TextError, TextRefusal};
use rgo_command_line::WordsError;
use rgo_machine::RunEnd;
use rgo_region_machine::Tally;
use std::alloc::AllocError;

/// The kind of text that a command is about. It determines how places are reported.
#[derive(Clone, Copy, Debug, PartialEq, Eq)]
pub enum TextKind {
    /// The source of a program. Its places are offsets in bytes, and are reported as a line and a column.
    Go,
    /// A code text. Its places are the numbers that its instructions have after `@`, and are reported unchanged.
    Code,
}

/// How a call ended, which determines its status and its line on `err`. Places are those of the
/// text, in bytes from its beginning; after the run of a code text, those of its instructions.
#[derive(Clone, Copy, Debug, PartialEq, Eq)]
pub enum Ending {
    /// The text is valid, and it was only to be checked, or its code was printed.
    Valid,
    /// The program or code of a text of this kind was run: how the run ended, and its counts if `--stats` asked for them.
    Ran {
        kind: TextKind,
        end: RunEnd,
        stats: Option<Tally>,
    },
    /// The words name no command.
    Usage,
    /// A read of the source failed.
    ReadFault,
    /// The text is not a valid program.
    Refused(TextRefusal),
    /// The code text is malformed, or its code breaks a rule.
    CodeRefused(CodeTextRefusal),
    /// A write of the code to `out` failed.
    WriteFault,
    /// Memory ran out before a run. If it ran out in a run, the ending is `Ran` with `RunEnd::NoMemory`.
    NoMemory,
}

impl Ending {
    /// The ending of a recorded or replayed run. Neither command has `--stats`, and the text is always the source of a program.
    pub(crate) fn of_run(end: RunEnd) -> Ending
        ensures { result ≡ Ending.Ran text_kind.Go end None }
    {
        Ending::Ran {
            kind: TextKind::Go,
            end,
            stats: None,
        }
    }
}

impl From<WordsError> for Ending {
    ghost from_gives = { λ error ending. ending ≡ command_error error };

    fn from(error: WordsError) -> Ending {
        match error {
            WordsError::Usage => Ending::Usage,
            WordsError::NoMemory => Ending::NoMemory,
        }
    }
}

impl From<TextError> for Ending {
    ghost from_gives = { λ error ending. ending ≡ text_error error };

    fn from(error: TextError) -> Ending {
        match error {
            TextError::Refused(refusal) => Ending::Refused(refusal),
            TextError::NoMemory => Ending::NoMemory,
        }
    }
}

impl From<CodeTextError> for Ending {
    ghost from_gives = { λ error ending. ending ≡ code_text_error error };

    fn from(error: CodeTextError) -> Ending {
        match error {
            CodeTextError::Refused(refusal) => Ending::CodeRefused(refusal),
            CodeTextError::NoMemory => Ending::NoMemory,
        }
    }
}

impl From<AllocError> for Ending {
    ghost from_gives = { λ _ ending. ending ≡ NoMemory };

    fn from(_error: AllocError) -> Ending {
        Ending::NoMemory
    }
}
