//! No goroutine that can continue is left parked: the checks for a deadlock find nobody who could.

ghost use Rattle.std.specs.Prelude.{◌≤◌};

use crate::texts;
use rgo_checker::check_code;
use rgo_code::Checked;
use rgo_code_text::read_code;
use rgo_outside::{MemSink, NoGate};
use rgo_runtime::runs::{Outcome, has_table, run};
use rgo_sound::machine::{Limits, RunEnd, Sizes};
use std::alloc::Global;
use std::process::Abort;
use std::test::Fail;
use std::thread::Threads;

/// The code of a text that keeps all rules.
fn checked(alloc: Global, text: &str) -> Result<Checked, Fail> {
    let Ok(code) = read_code(alloc, text.as_bytes()) else {
        return Err(Fail::from("the text has no code"));
    };
    match check_code(alloc, &code) {
        Ok(()) => Ok(Checked::new(code)),
        Err(_) => Err(Fail::from("the code breaks a rule")),
    }
}

/// Runs code on this many workers, and puts what it prints into a sink.
fn run_code<H: Threads + Sync>(
    rt: &H,
    alloc: Global,
    code: &Checked,
    workers: u32,
    out: &mut MemSink,
) -> Result<Outcome, Fail>
    requires { (1 ≤ workers) × (workers ≤ 64) }
{
    let sizes = Sizes {
        page_words: 256,
        pages: 64,
        regions: 1_024,
    };
    let limits = Limits {
        steps: 1 << 30,
        goroutines: 1_000,
    };
    if !has_table(&sizes, code.code().tac().variables().len()) {
        return Err(Fail::from("the table is too large"));
    }
    Ok(run(rt, alloc, code, sizes, limits, workers, out, &NoGate)?)
}

/// The program of this text prints this, and none of its goroutines has to be found by a check.
fn nobody_is_forgotten<R: Abort + AllocGlobal + Threads + Sync>(
    rt: &R,
    text: &str,
    printed: &str,
    workers: u32,
) -> Result<(), Fail>
    requires { (1 ≤ workers) × (workers ≤ 64) }
{
    let code = checked(rt.alloc(), text)?;
    let mut out = MemSink::new(rt.alloc(), 64, Vec::new(rt.alloc()))?;
    let outcome = run_code(rt, rt.alloc(), &code, workers, &mut out)?;
    assert!(rt; matches!(outcome.end, RunEnd::Ended(_)));
    assert_eq!(rt; outcome.rescues, 0);
    assert_eq!(rt; out.bytes(), printed.as_bytes());
    Ok(())
}

#[test]
fn senders_at_one_channel_are_woken(rt: HostRuntime) -> Result<(), Fail> {
    for workers in [1, 2, 7, 64] {
        nobody_is_forgotten(&rt, texts::COLLECT, "190\n", workers)?;
    }
    Ok(())
}

#[test]
fn workers_at_one_channel_are_woken(rt: HostRuntime) -> Result<(), Fail> {
    for workers in [1, 2, 7, 64] {
        nobody_is_forgotten(&rt, texts::JOBS, "42925\n", workers)?;
    }
    Ok(())
}

#[test]
fn clients_of_one_server_are_woken(rt: HostRuntime) -> Result<(), Fail> {
    for workers in [1, 2, 7, 64] {
        nobody_is_forgotten(&rt, texts::SERVER, "210\n", workers)?;
    }
    Ok(())
}
