//! The command that the words of a command line ask for. The words are all that a command depends on: neither the machine nor the
//! environment is asked, so the same words mean the same run everywhere.

ghost use Rattle.std.specs.Prelude.{◌≡◌, IfOk, IfSome, map, string_bytes};
ghost use Rattle.clap.specs.Words.{found_of, rows_of, subcommand_rows_of};
ghost use Rattle.rgo_command_line.specs.Commands.{KeepsBounds, ReadsCommand, command_met, command_named};
ghost use Rattle.rgo_command_line.specs.declared.commands.WordsError.TheVariants.{NoMemory};

use crate::limits::{RunOptions, big_of, options_of, recording_of};
use crate::parser::parser;
use clap::ArgMatches;
use clap::error::ErrorKind;
use std::alloc::{AllocError, Global};
use thiserror::Error;

/// What the program is asked to do.
#[derive(Clone, Copy, Debug, PartialEq, Eq)]
pub enum Command {
    /// `run`: reads a text and runs its program, with these options.
    Run(RunOptions),
    /// `check`: reads a text and checks it.
    Check,
    /// `emit`: reads a text and prints its code.
    Emit,
    /// `code`: reads a code text and checks it.
    Code,
    /// `big N`: runs a large program that starts this many goroutines, without reading a text.
    Big(u32),
    /// `record`: reads a text, runs its program with these options, and writes the journal of the run. It has no option for
    /// workers and none for counts.
    Record(RunOptions),
    /// `replay`: reads a journal and the text that follows it, and takes the journal's picks in a run of the program.
    Replay,
    /// `runcode`: reads a code text, checks it and runs its code, with these options.
    RunCode(RunOptions),
}

/// Why the words are not a command.
#[derive(Clone, Copy, Debug, PartialEq, Eq, Error)]
pub enum WordsError {
    /// Memory ran out. It may be returned for any words, also for those that ask for nothing.
    #[error("out of memory")]
    NoMemory,
    /// The words ask for nothing, for a number out of its range, or for pages that are too large
    /// together.
    #[error("no command")]
    Usage,
}

impl From<AllocError> for WordsError {
    ghost from_gives = { λ _ e. e ≡ NoMemory };

    fn from(_e: AllocError) -> WordsError {
        WordsError::NoMemory
    }
}

fn command_named(name: &str, matches: &ArgMatches<'_>) -> Option<Command>
    ensures value { result ≡ command_named name.now (rows_of (found_of matches.now)) }
    ensures bounds { IfSome result KeepsBounds }
{
    match name {
        "run" => Some(Command::Run(options_of(matches)?)),
        "check" => Some(Command::Check),
        "emit" => Some(Command::Emit),
        "code" => Some(Command::Code),
        "big" => Some(Command::Big(big_of(matches)?)),
        "record" => Some(Command::Record(recording_of(matches)?)),
        "replay" => Some(Command::Replay),
        "runcode" => Some(Command::RunCode(options_of(matches)?)),
        _ => None,
    }
}

/// `clap` also accepts words without a subcommand, which ask for nothing.
fn command_met(matches: &ArgMatches<'_>) -> Option<Command>
    ensures value { result ≡ command_met (subcommand_rows_of matches.now) }
    ensures bounds { IfSome result KeepsBounds }
{
    let (name, matches) = matches.subcommand()?;
    command_named(name, matches)
}

/// The command that the words ask for. The first word is the program's name, and is ignored.
///
/// `run` and `runcode` take the options `--steps N`, `--goroutines N`, `--pages N`,
/// `--page-words N`, `--regions N`, `--workers N` and `--stats`, each at most once and in any order. An option
/// with a number may be written `--steps=N`; `--stats` has no value. `N` is one or more decimal digits:
///
/// - steps: 1 to 4,398,046,511,104, which is also the default;
/// - goroutines: 1 to 1,000,000, by default 100,000;
/// - pages: 1 to 65,536, by default 4,096;
/// - words of a page: 16 to 4,096, by default 256;
/// - regions: 1 to 65,536, which is also the default;
/// - workers: 1 to 64, by default 4.
///
/// Pages times words of a page is at most 16,777,216. `check`, `emit`, `code` and `replay` take no option. A
/// `--` may end the words.
///
/// `big` takes a number of goroutines and no option: one or more decimal digits, from 1 to 10,000.
/// A `--` may appear after the number or before it.
///
/// `Usage` is returned only if they ask for nothing; `NoMemory` may be returned for any words, since `clap` allocates while it reads.
pub fn read_words(alloc: Global, words: &[String]) -> Result<Command, WordsError>
    ensures asked { ReadsCommand (map string_bytes words.now) result }
    ensures bounds { IfOk result KeepsBounds }
{
    let parser = parser(alloc)?;
    match parser.try_get_matches_from(words) {
        Ok(matches) => command_met(&matches).ok_or(WordsError::Usage),
        Err(error) => match error.kind() {
            ErrorKind::OutOfMemory => Err(WordsError::NoMemory),
            _ => Err(WordsError::Usage),
        },
    }
}
