//! The command `replay`: splits what was read into a journal and a text, repeats the picks on the text's three-address code, and
//! reports the ending. It runs the code without regions, since a pick selects steps of that machine.
//! Why: docs/DECISIONS.md, "The recorded run".

ghost use Rattle.std.specs.Prelude.{◌≡◌, ◌⊎◌, ◌<◌, ◌^◌, ◌++◌, length, List, ℕ, true, codes, string_bytes, IfOk};
ghost use Rattle.rgo_outside.specs.Causes.{Rose};
ghost use Rattle.rgo_run.specs.Calls.{use_of};
ghost use Rattle.rgo_run.specs.Endings.{numbered_line, status_of};
ghost use Rattle.rgo_run.specs.declared.endings.Ending as endings;
ghost use Rattle.rgo_run.specs.Replayed.{EndsOn, IsSplit, ReplaysBytes, ReportsReplay, error_of};

use crate::endings::Ending;
use crate::pipeline::lower_text;
use crate::report::{report, write, write_or_no_memory};
use rgo_journal::{PicksError, ReplayEnd, TacPick, read_picks, replay};
use rgo_machine::RunEnd;
use rgo_outside::Sink;
use std::alloc::{AllocError, Global};

/// How a call of `replay` ended.
#[derive(Clone, Copy, Debug, PartialEq, Eq)]
pub enum ReplayEnding {
    /// The bytes do not begin with a journal: the number, from 1, of the first malformed line.
    NoJournal { line: usize },
    /// The bytes were a journal and a valid text; how the replay of the picks ended.
    Replayed(ReplayEnd),
    /// Nothing was replayed, for a reason that other commands have, too. Places are in bytes from the beginning of the text after
    /// the journal.
    Other(Ending),
}

impl From<PicksError> for ReplayEnding {
    ghost from_gives = { λ error ending. ending ≡ error_of error };

    fn from(error: PicksError) -> ReplayEnding {
        match error {
            PicksError::Refused(refusal) => ReplayEnding::NoJournal { line: refusal.line },
            PicksError::NoMemory => ReplayEnding::Other(Ending::NoMemory),
        }
    }
}

fn replay_text<K: Sink>(alloc: Global, text: &[u8], picks: &[TacPick], out: &mut K) -> ReplayEnding
    ensures { (bytes : List ℕ) → IsSplit bytes picks.now text.now → EndsOn bytes text.now result (use_of K.Sink out.old out.new) }
{
    match lower_text(alloc, text) {
        Ok(code) => ReplayEnding::Replayed(replay(alloc, &code, picks, out)),
        Err(error) => ReplayEnding::Other(Ending::from(error)),
    }
}

/// A message with the number of a line of the journal.
fn journal_line(alloc: Global, line: u128, message: &str) -> Result<String, AllocError>
    ensures { IfOk result (λ text. string_bytes text ≡ numbered_line line (message.now ++ codes "\n")) }
{
    format!(in alloc; "rgo: line {line}: {message}\n")
}

/// Reports how a replay ended. If the replay reached the end of a run, it reports that as `run` does. The pick with number
/// `index`, from 0, is in line `index + 2`: line 1 is the journal's head.
fn report_end<E: Sink>(alloc: Global, text: &[u8], end: ReplayEnd, err: &mut E) -> u8
    requires { length text.now < 2 ^ 63 }
    ensures { ReportsReplay text.now (ReplayEnding.Replayed end) result (use_of E.Sink err.old err.new) }
{
    match end {
        ReplayEnd::Ended(end) => report(alloc, text, Ending::of_run(RunEnd::Ended(end)), err),
        ReplayEnd::Deadlock => report(alloc, text, Ending::of_run(RunEnd::Deadlock), err),
        ReplayEnd::Unfinished => write(err, b"rgo: replay unfinished\n", 13),
        ReplayEnd::Foreign { index } => {
            let line = journal_line(alloc, index as u128 + 2, "pick");
            write_or_no_memory(err, line, 1)
        }
        ReplayEnd::WriteFault => report(alloc, text, Ending::of_run(RunEnd::WriteFault), err),
        ReplayEnd::NoMemory => report(alloc, text, Ending::of_run(RunEnd::NoMemory), err),
    }
}

/// Writes the line of an ending and returns its status; if there is no memory for the line, it reports that memory ran out.
/// `written` holds because `Other` is returned only before anything is written.
fn report_replay<E: Sink>(alloc: Global, text: &[u8], ending: ReplayEnding, err: &mut E) -> u8
    requires short { length text.now < 2 ^ 63 }
    requires written { (e : endings.Ending) → ending ≡ ReplayEnding.Other e → status_of e ≡ 10 → ⊥ }
    ensures { ReportsReplay text.now ending result (use_of E.Sink err.old err.new) }
{
    match ending {
        ReplayEnding::NoJournal { line } => {
            let line = journal_line(alloc, line as u128, "picks text");
            write_or_no_memory(err, line, 1)
        }
        ReplayEnding::Replayed(end) => report_end(alloc, text, end, err),
        ReplayEnding::Other(ending) => report(alloc, text, ending, err),
    }
}

/// Performs `replay` on the bytes that were read, and returns the status. If they do not begin with a journal, no text is known, and
/// the report is about an empty one: its line has the number of a line of the journal, not a place.
pub(crate) fn replay_bytes<K: Sink, E: Sink>(
    alloc: Global,
    bytes: &[u8],
    out: &mut K,
    err: &mut E,
) -> u8
    requires { length bytes.now < 2 ^ 63 }
    ensures replays { ReplaysBytes bytes.now (use_of K.Sink out.old out.new) (use_of E.Sink err.old err.new) result }
    ensures not_usage { result ≡ 64 → ⊥ }
    ensures not_read { result ≡ 9 → ⊥ }
    ensures write_failed { result ≡ 10
        → (Rose (K.faults out.old) (K.faults out.new) × (K.broken out.new ≡ true))
        ⊎ (Rose (E.faults err.old) (E.faults err.new) × (E.broken err.new ≡ true)) }
{
    match read_picks(alloc, bytes) {
        Ok(picks) => {
            let text = &bytes[picks.rest..];
            let ending = replay_text(alloc, text, picks.list.items(), out);
            report_replay(alloc, text, ending, err)
        }
        Err(error) => report_replay(alloc, &[], ReplayEnding::from(error), err),
    }
}
