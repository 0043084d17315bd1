//! The one entry point: reads the words and the text, lets [`crate::commands`] act on it, and lets [`crate::report`] report the
//! ending. `replay` and `record` report for themselves, since a journal comes into their reports.

ghost use Rattle.std.specs.Prelude.{◌≡◌, ◌⊎◌, ℕ, true, false, map, string_bytes};
ghost use Rattle.std.specs.Prelude.{IfErr, IfOk, IsErrOf, Some, None};
ghost use Rattle.rgo_outside.specs.Causes.{Rose};
ghost use Rattle.rgo_command_line.specs.Commands.{KeepsBounds, command_of};
ghost use Rattle.rgo_command_line.specs.declared.commands.Command.TheVariants.{Big, Check, Replay};
ghost use Rattle.rgo_run.specs.Errors.{read_error};
ghost use Rattle.rgo_run.specs.Texts.{IsTextRead, NotRead};
ghost use Rattle.rgo_run.specs.Calls.{AsksRun, use_of, source_use};
ghost use Rattle.rgo_run.specs.Endings.{is_fault_status, is_run_status};
ghost use Rattle.rgo_run.specs.Replayed.{Claim};

use crate::commands::{kind_of, perform};
use crate::endings::{Ending, TextKind};
use crate::pipeline::limit_of;
use crate::recording::record_text;
use crate::refusals::{CodeTextRefusal, TextRefusal};
use crate::replaying::replay_bytes;
use crate::report::report;
use rgo_big::big_source;
use rgo_command_line::{Command, read_words};
use rgo_outside::{Gate, ReadEnd, Sink, Source, read_all};
use std::alloc::Global;
use std::thread::Threads;

// The ending of a call whose text could not be read.
fn read_ending(kind: TextKind, end: ReadEnd) -> Ending
    ensures { result ≡ read_error kind end }
{
    match end {
        ReadEnd::Fault => Ending::ReadFault,
        ReadEnd::TooLong => match kind {
            TextKind::Go => Ending::Refused(TextRefusal::TooLong),
            TextKind::Code => Ending::CodeRefused(CodeTextRefusal::TooLong),
        },
        ReadEnd::NoMemory => Ending::NoMemory,
    }
}

// Reads the words, and then the text that the command is about: what the source has left, or for `big` the large text. The words
// come first, so that wrong words leave the source unread.
fn read<S: Source>(
    alloc: Global,
    words: &[String],
    source: &mut S,
) -> Result<(Command, Vec<u8>), Ending>
    ensures ok { IfOk result (λ r. IsTextRead (map string_bytes words.now)
        (source_use (S.left source.old) (S.faults source.old) (S.faults source.new))
        r.0 r.1.items) }
    ensures err { IfErr result (NotRead (map string_bytes words.now)
        (source_use (S.left source.old) (S.faults source.old) (S.faults source.new))) }
    ensures usage { IsErrOf result Ending.Usage → source.new ≡ source.old }
    ensures big { (n : ℕ) → command_of (map string_bytes words.now) ≡ Some (Big n) → source.new ≡ source.old }
    ensures bounds { IfOk result (λ r. KeepsBounds r.0) }
{
    let command = read_words(alloc, words)?;
    match command {
        Command::Big(n) => Ok((command, big_source(alloc, n)?)),
        _ => match read_all(alloc, source, limit_of(kind_of(command))) {
            Ok(text) => Ok((command, text)),
            Err(end) => Err(read_ending(kind_of(command), end)),
        },
    }
}

/// The whole program: reads the words and the text, performs the command, writes at most one report to `err`, and returns the
/// status.
///
/// The words are the program's name, which is ignored, and a command with its options, as `read_words` defines them. The text is
/// what the source has left.
///
/// | command | what it does |
/// |---|---|
/// | `run` | runs the program of a text of at most 1,048,576 bytes, and writes its print to `out` |
/// | `check` | checks such a text; writes nothing to `out` |
/// | `emit` | writes the code with regions of such a text to `out`, as a code text |
/// | `code` | checks a code text of at most 67,108,864 bytes; writes nothing to `out` |
/// | `runcode` | checks a code text and runs its code as `run` does |
/// | `big N` | runs the text of `rgo_big` that starts `N` goroutines, with the default options; does not read the source |
/// | `record` | runs as `run` with one worker, without `--workers` and `--stats`, and then writes its journal to `err` |
/// | `replay` | reads a journal (`rgo_journal`) and the text after it, together at most 67,108,864 bytes, and repeats the recorded run |
///
/// `replay` takes the journal's picks one after the other in a run of the text's three-address code and writes what they print to
/// `out`; its places are those of the text. `record` writes the journal in one piece, or no journal if memory ran out or a write
/// failed. After that at most one line on `err` reports the ending; with `--stats` a line of counts comes before it. After a failed
/// write nothing more is written to that sink.
///
/// A run proceeds in rounds, in which each ready goroutine has one turn. Goroutines take single steps on the words of one table,
/// and no step waits for another. With one worker the turns come one after the other on the caller's thread. With more, `rt` starts
/// threads in the first two rounds if two to eight goroutines are ready, and in each round whose turns are long enough; the workers
/// share the goroutines out, steal from each other, and their steps come in any order. A worker that has goroutines in a round
/// arrives at the gate before their first turn, with its number, from 0, and that of the round, from 1. A goroutine that waits at a
/// channel has no turn until the channel may have changed; a deadlock is found by a pass over all of them.
/// Why: docs/DECISIONS.md, "The driver of a run".
///
/// | status | when |
/// |---|---|
/// | 0 | `main` returned; for `check` and `emit` the text is a valid program; for `code` the code keeps all rules |
/// | 1 | the text is too long, or breaks a rule: `err` says which, and at which line and column; for a code text, at which line |
/// | 1 | also for `replay`: a line of the journal is malformed, or its pick has no step: `err` says which |
/// | 2 | a goroutine trapped: `err` says why, and at which line and column; for a code text, at which of its places |
/// | 3 | no goroutine can step, alone or with another, and `main` has not returned |
/// | 4 | a goroutine needs a page, and all that `--pages` allows are in use |
/// | 5 | a region is to be created, and as many are live as `--regions` allows |
/// | 6 | an object takes more than 64 data pages, or more than the words of a page less 2 |
/// | 7 | a goroutine that has 100,000 calls open makes another |
/// | 8 | the run took at least as many steps as `--steps` allows |
/// | 9 | a read of the source failed |
/// | 10 | a write to `out` or `err` failed |
/// | 11 | memory ran out |
/// | 12 | a goroutine starts another, and as many exist as `--goroutines` allows, counting those that have returned |
/// | 13 | for `replay`: all picks were taken, none ended the run, and the run could continue |
/// | 64 | the words name no command; the source is not read |
pub fn rgo<H: Threads + Sync, S: Source, K: Sink, E: Sink, G: Gate + Sync>(
    rt: &H,
    alloc: Global,
    words: &[String],
    source: &mut S,
    out: &mut K,
    err: &mut E,
    gate: &G,
) -> u8
    ensures headline { Claim (record {
      words = map string_bytes words.now;
      source = source_use (S.left source.old) (S.faults source.old) (S.faults source.new);
      out = use_of K.Sink out.old out.new;
      err = use_of E.Sink err.old err.new;
      status = result;
    }) }

    // What a caller can conclude from the status alone.
    ensures usage { result ≡ 64 → command_of (map string_bytes words.now) ≡ None }
    ensures not_read { result ≡ 64 → source.new ≡ source.old }
    ensures unread_big { (n : ℕ) → command_of (map string_bytes words.now) ≡ Some (Big n)
        → source.new ≡ source.old }
    ensures checked { command_of (map string_bytes words.now) ≡ Some Check → out.new ≡ out.old }
    ensures ran { is_run_status result ≡ true → AsksRun (map string_bytes words.now)
        ⊎ (command_of (map string_bytes words.now) ≡ Some Replay) }
    ensures replayed { result ≡ 13 → command_of (map string_bytes words.now) ≡ Some Replay }
    ensures not_run { result ≡ 64 → out.new ≡ out.old }
    ensures refused { (command_of (map string_bytes words.now) ≡ Some Replay → ⊥) → result ≡ 1 → out.new ≡ out.old }
    ensures unread { result ≡ 9 → out.new ≡ out.old }
    ensures read_failed { result ≡ 9 → Rose (S.faults source.old) (S.faults source.new) }
    ensures write_failed { result ≡ 10
        → (Rose (K.faults out.old) (K.faults out.new) × (K.broken out.new ≡ true))
        ⊎ (Rose (E.faults err.old) (E.faults err.new) × (E.broken err.new ≡ true)) }
    ensures held { is_fault_status result ≡ false → (S.faults source.new ≡ S.faults source.old)
        × (K.faults out.new ≡ K.faults out.old) × (E.faults err.new ≡ E.faults err.old) }
{
    match read(alloc, words, source) {
        Ok((command, text)) => {
            if let Command::Replay = command {
                return replay_bytes(alloc, &text, out, err);
            }
            if let Command::Record(options) = command {
                return record_text(alloc, options, &text, out, err);
            }
            let ending = perform(rt, alloc, command, &text, out, gate);
            report(alloc, &text, ending, err)
        }
        Err(ending) => report(alloc, &[], ending, err),
    }
}
