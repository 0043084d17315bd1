//! The command `record`: runs a program by the driver of one goroutine at a time, and writes the journal of its picks to `err`
//! before the line of its ending. Why: docs/DECISIONS.md, "The recorded run".

ghost use Rattle.std.specs.Prelude.{◌≡◌, ◌⊎◌, ◌<◌, ◌^◌, ℕ, List, true, false, length};
ghost use Rattle.rgo_outside.specs.Causes.{Rose};
ghost use Rattle.rgo_typed.specs.Tree.{Typed as Program};
ghost use Rattle.rgo_recording.specs.Notes.{noted_picks};
ghost use Rattle.rgo_run.specs.Calls.{use_of};
ghost use Rattle.rgo_run.specs.Compiled.{IsCompiledFrom};
ghost use Rattle.rgo_run.specs.Headline.{EndsRun};
ghost use Rattle.rgo_run.specs.Recorded.{KeepsJournal, KeepsNotes, RecordsText, ReportsKept, WritesJournal};
ghost use Rattle.rgo_run.specs.Verdicts.{IsTypedProgram};

use crate::endings::Ending;
use crate::pipeline::compile;
use crate::report::report;
use rgo_code::Checked;
use rgo_command_line::RunOptions;
use rgo_machine::RunEnd;
use rgo_outside::{Sink, write_all};
use rgo_recording::{Notes, run_recorded};
use std::alloc::Global;

/// How a recorded run ended, and its journal, which is empty if memory ran out or a write failed.
#[derive(Drop)]
struct Kept {
    ending: Ending,
    journal: Vec<u8>,
}

/// The journal of a run, by its end. If memory ran out or a write failed, there is none: `out` may then lack a part of what the steps
/// have printed, so a replay could not promise the same bytes.
fn keep(alloc: Global, end: RunEnd, notes: &Notes) -> Kept
    ensures ends { EndsRun result.ending }
    ensures keeps { KeepsNotes end (noted_picks notes.now) result.ending result.journal.items }
{
    match end {
        RunEnd::NoMemory | RunEnd::WriteFault => Kept {
            ending: Ending::of_run(end),
            journal: Vec::new(alloc),
        },
        _ => match notes.journal(alloc) {
            Ok(journal) => Kept {
                ending: Ending::of_run(end),
                journal,
            },
            // Without its journal a recording is of no use, so a lack of memory for it is the ending that is reported.
            Err(_) => Kept {
                ending: Ending::of_run(RunEnd::NoMemory),
                journal: Vec::new(alloc),
            },
        },
    }
}

/// Runs the code of a program and keeps its journal. An error means that memory ran out before the first step.
fn record_code<K: Sink>(alloc: Global, options: RunOptions, code: &Checked, out: &mut K) -> Kept
    requires { options.stats ≡ false }
    ensures ends { EndsRun result.ending }
    ensures keeps { (text : List ℕ) (program : Program) → IsTypedProgram text program → IsCompiledFrom program code.now
        → KeepsJournal options text result.ending result.journal.items (use_of K.Sink out.old out.new) }
{
    match run_recorded(alloc, code, options.sizes, options.limits, out) {
        Ok(recorded) => keep(alloc, recorded.end, &recorded.notes),
        Err(_) => Kept {
            ending: Ending::NoMemory,
            journal: Vec::new(alloc),
        },
    }
}

/// Writes the journal in one piece, and returns whether all of it was written.
fn write_journal<E: Sink>(err: &mut E, journal: &[u8]) -> bool
    ensures { WritesJournal result journal.now (use_of E.Sink err.old err.new) }
{
    write_all(err, journal).is_ok()
}

/// Writes the journal, and then the line of the ending; returns the status. If writing the journal failed, no line follows: nothing
/// is written to a sink after a failed write.
fn report_kept<E: Sink>(alloc: Global, text: &[u8], kept: Kept, err: &mut E) -> u8
    requires { length text.now < 2 ^ 63 }
    ensures { ReportsKept text.now kept.ending kept.journal.items result (use_of E.Sink err.old err.new) }
{
    if !write_journal(err, &kept.journal) {
        return 10;
    }
    report(alloc, text, kept.ending, err)
}

/// Performs `record` on a text, and returns the status. If the text is rejected, or memory runs out before the run, no journal is
/// written.
pub(crate) fn record_text<K: Sink, E: Sink>(
    alloc: Global,
    options: RunOptions,
    text: &[u8],
    out: &mut K,
    err: &mut E,
) -> u8
    requires stats { options.stats ≡ false }
    requires length { length text.now < 2 ^ 63 }
    ensures records { RecordsText options text.now result
        (use_of K.Sink out.old out.new)
        (use_of E.Sink err.old err.new) }
    ensures not_usage { result ≡ 64 → ⊥ }
    ensures not_read { result ≡ 9 → ⊥ }
    ensures refused { result ≡ 1 → out.new ≡ out.old }
    ensures write_failed { result ≡ 10
        → (Rose (K.faults out.old) (K.faults out.new) × (K.broken out.new ≡ true))
        ⊎ (Rose (E.faults err.old) (E.faults err.new) × (E.broken err.new ≡ true)) }
{
    match compile(alloc, text) {
        Ok(code) => {
            let kept = record_code(alloc, options, &code, out);
            report_kept(alloc, text, kept, err)
        }
        Err(error) => report(alloc, text, Ending::from(error), err),
    }
}
