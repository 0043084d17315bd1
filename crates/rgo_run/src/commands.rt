//! What each command does with a text that was read: [`perform`] returns the ending, which `top` reports. What it writes to `out`
//! goes out here; nothing here writes to `err`.

ghost use Rattle.std.specs.Prelude.{◌≡◌, ℕ, List, IfOk};
ghost use Rattle.rgo_code.specs.Erasure.{erased};
ghost use Rattle.rgo_code_printing.specs.Text.{text_of};
ghost use Rattle.rgo_command_line.specs.Commands.{KeepsBounds};
ghost use Rattle.rgo_command_line.specs.Limits.{LieInBounds};
ghost use Rattle.rgo_machine.specs.declared.ends.RunEnd.{RunEnd};
ghost use Rattle.rgo_command_line.specs.declared.commands.Command.TheVariants.{Check, Emit, Record, Replay};
ghost use Rattle.rgo_command_line.specs.declared.limits.RunOptions.{RunOptions};
ghost use Rattle.rgo_run.specs.declared.endings.TextKind.TheVariants as text_kind;
ghost use Rattle.rgo_run.specs.Calls.{text_kind_of, use_of};
ghost use Rattle.rgo_run.specs.Compiled.{IsCompiled, WritesCode};
ghost use Rattle.rgo_run.specs.Constants.{TacConstantsFit};
ghost use Rattle.rgo_run.specs.Endings.{status_of};
ghost use Rattle.rgo_run.specs.Runs.{IsCodeFor, IsRunnable, IsSaid, Runnable};
ghost use Rattle.rgo_region_machine.specs.Tallies.{counts_in};
ghost use Rattle.rgo_run.specs.Texts.{ChecksText, PerformsCommand, RunsOrFails};

use crate::constants::constants_fit;
use crate::endings::{Ending, TextKind};
use crate::pipeline::{check_text, compile, read_checked};
use rgo_code::{Checked, Code};
use rgo_code_printing::print_code;
use rgo_command_line::{Command, RunOptions};
use rgo_outside::{Gate, Sink, write_all};
use rgo_region_machine::Tally;
use rgo_runtime::runs::{has_table, run};
use std::alloc::{AllocError, Global};
use std::thread::Threads;

/// The kind of text that a command is about.
pub(crate) fn kind_of(command: Command) -> TextKind
    ensures { result ≡ text_kind_of command }
{
    match command {
        // `replay` reads a journal before its text, so both together are allowed the length of a code text.
        Command::Code | Command::Replay | Command::RunCode(_) => TextKind::Code,
        _ => TextKind::Go,
    }
}

// `check` ends with the types: a text that has passed them always has code, so compiling it would find nothing more.
fn check_only(alloc: Global, text: &[u8]) -> Ending
    ensures { ChecksText text_kind.Go text.now result }
{
    match check_text(alloc, text) {
        Ok(_) => Ending::Valid,
        Err(error) => Ending::from(error),
    }
}

// The counts to report, if `--stats` asked for them.
fn stats_of(options: RunOptions, made: Tally) -> Option<Tally>
    ensures { (end : RunEnd) → IsSaid options.stats end (counts_in made) result }
{
    if options.stats { Some(made) } else { None }
}

// Runs the code with regions of a text of this kind. A table that would have too many words counts as a lack of memory. In fact
// the options leave room enough, and no text of at most 67,108,864 bytes has enough package variables to matter; testing is
// simpler than proving that. Why: docs/DECISIONS.md, "The driver of a run".
fn run_code<H: Threads + Sync, K: Sink, G: Gate + Sync>(
    rt: &H,
    alloc: Global,
    kind: TextKind,
    options: RunOptions,
    code: &Checked,
    out: &mut K,
    gate: &G,
) -> Ending
    requires { LieInBounds options }
    ensures performs { (text : List ℕ) (what : Runnable) → IsRunnable kind text what → IsCodeFor what code.now
        → RunsOrFails kind options text result (use_of K.Sink out.old out.new) }
    ensures refused { status_of result ≡ 1 → out.new ≡ out.old }
{
    if !has_table(&options.sizes, code.code().tac().variables().len()) {
        return Ending::NoMemory;
    }
    match run(
        rt,
        alloc,
        code,
        options.sizes,
        options.limits,
        options.workers,
        out,
        gate,
    ) {
        Ok(outcome) => Ending::Ran {
            kind,
            end: outcome.end,
            stats: stats_of(options, outcome.tally),
        },
        Err(_) => Ending::NoMemory,
    }
}

// The whole text is accepted before the first step, so a rejected text has printed nothing.
fn run_text<H: Threads + Sync, K: Sink, G: Gate + Sync>(
    rt: &H,
    alloc: Global,
    options: RunOptions,
    text: &[u8],
    out: &mut K,
    gate: &G,
) -> Ending
    requires { LieInBounds options }
    ensures performs { RunsOrFails text_kind.Go options text.now result (use_of K.Sink out.old out.new) }
    ensures refused { status_of result ≡ 1 → out.new ≡ out.old }
{
    match compile(alloc, text) {
        Ok(code) => run_code(rt, alloc, TextKind::Go, options, &code, out, gate),
        Err(error) => Ending::from(error),
    }
}

// Code of any origin is checked first: that no step touches a removed region is proved only of code that keeps the rules.
fn run_code_text<H: Threads + Sync, K: Sink, G: Gate + Sync>(
    rt: &H,
    alloc: Global,
    options: RunOptions,
    text: &[u8],
    out: &mut K,
    gate: &G,
) -> Ending
    requires { LieInBounds options }
    ensures performs { RunsOrFails text_kind.Code options text.now result (use_of K.Sink out.old out.new) }
    ensures refused { status_of result ≡ 1 → out.new ≡ out.old }
{
    match read_checked(alloc, text) {
        Ok(code) => run_code(rt, alloc, TextKind::Code, options, &code, out, gate),
        Err(error) => Ending::from(error),
    }
}

// One write for the whole text, so `out` has a part of it only after a failed write, which the status reports.
fn write_code<K: Sink>(out: &mut K, bytes: &[u8]) -> Ending
    ensures { WritesCode bytes.now result (use_of K.Sink out.old out.new) }
{
    if write_all(out, bytes).is_ok() {
        Ending::Valid
    } else {
        Ending::WriteFault
    }
}

// The text of some code. A place of more than 32 bits, which code texts cannot express, counts as a lack of memory; in fact no
// text of at most 1,048,576 bytes has such a place.
fn code_text(alloc: Global, code: &Code) -> Result<Vec<u8>, AllocError>
    ensures text { IfOk result (λ bytes. bytes.items ≡ text_of code.now) }
    ensures fits { IfOk result (λ bytes. TacConstantsFit (erased code.now)) }
{
    if !constants_fit(code.tac()) {
        return Err(AllocError);
    }
    let bytes = print_code(alloc, code)?;
    Ok(bytes)
}

fn emit_code<K: Sink>(alloc: Global, code: &Checked, out: &mut K) -> Ending
    ensures performs { (text : List ℕ) → IsCompiled text code.now → PerformsCommand Emit text result
        (use_of K.Sink out.old out.new) }
    ensures refused { status_of result ≡ 1 → out.new ≡ out.old }
{
    match code_text(alloc, code.code()) {
        Ok(bytes) => write_code(out, &bytes),
        Err(_) => Ending::NoMemory,
    }
}

fn emit_text<K: Sink>(alloc: Global, text: &[u8], out: &mut K) -> Ending
    ensures performs { PerformsCommand Emit text.now result (use_of K.Sink out.old out.new) }
    ensures refused { status_of result ≡ 1 → out.new ≡ out.old }
{
    match compile(alloc, text) {
        Ok(code) => emit_code(alloc, &code, out),
        Err(error) => Ending::from(error),
    }
}

// The same check as before a run, without the run: what `code` accepts, `runcode` starts.
fn check_code_text(alloc: Global, text: &[u8]) -> Ending
    ensures { ChecksText text_kind.Code text.now result }
{
    match read_checked(alloc, text) {
        Ok(_) => Ending::Valid,
        Err(error) => Ending::from(error),
    }
}

/// Performs a command other than `record` and `replay` on its text. Those two report for themselves: `record` writes a journal
/// before its report, and the places of `replay` are relative to the text after its journal.
pub(crate) fn perform<H: Threads + Sync, K: Sink, G: Gate + Sync>(
    rt: &H,
    alloc: Global,
    command: Command,
    text: &[u8],
    out: &mut K,
    gate: &G,
) -> Ending
    requires bounds { KeepsBounds command }
    requires other { command ≡ Replay → ⊥ }
    requires unrecorded { (options : RunOptions) → command ≡ Record options → ⊥ }
    ensures performs { PerformsCommand command text.now result (use_of K.Sink out.old out.new) }
    ensures checked { command ≡ Check → out.new ≡ out.old }
    ensures refused { status_of result ≡ 1 → out.new ≡ out.old }
{
    match command {
        Command::Run(options) => run_text(rt, alloc, options, text, out, gate),
        Command::Check => check_only(alloc, text),
        Command::Emit => emit_text(alloc, text, out),
        Command::Code => check_code_text(alloc, text),
        Command::Big(_) => run_text(rt, alloc, RunOptions::default(), text, out, gate),
        Command::RunCode(options) => run_code_text(rt, alloc, options, text, out, gate),
        Command::Record(_) | Command::Replay => unreachable!(),
    }
}
