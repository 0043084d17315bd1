//! Calls of `rgo` over sources and sinks in memory.

use crate::checks::same;
use crate::lines::words_of;
use rgo_outside::{Gate, MemSink, MemSource, NoGate, Sink, Source};
use rgo_run::rgo;
use std::alloc::{AllocError, Global};
use std::process::Abort;
use std::thread::Threads;

/// The first three lines of most texts.
pub(super) const HEAD: &str = "package main\nimport \"fmt\"\ntype N struct { v int; p *N }\n";

/// How many bytes a read returns at most, and which read, which write to `out` and which write to
/// `err` fail, counted from 1; 0 means that none fails.
#[derive(Clone, Copy)]
pub(super) struct Outside(
    pub(super) usize,
    pub(super) u64,
    pub(super) u64,
    pub(super) u64,
);

/// Nothing fails.
pub(super) const SOUND: Outside = Outside(1000, 0, 0, 0);

/// What is printed and reported, and the status.
pub(super) type Wanted<'a> = (&'a str, &'a str, u8);

/// The line after the head, as a text.
pub(super) fn with_head(alloc: Global, line: &str) -> Result<String, AllocError> {
    format!(in alloc; "{HEAD}{line}\n")
}

/// Calls `rgo` with the words of a line, and returns the status. It has no clause about the call, so that the tests are
/// proved without the headline.
pub(super) fn status_of<
    R: Threads + AllocGlobal + Sync,
    S: Source,
    K: Sink,
    E: Sink,
    G: Gate + Sync,
>(
    rt: &R,
    line: &str,
    source: &mut S,
    out: &mut K,
    err: &mut E,
    gate: &G,
) -> Result<u8, AllocError> {
    let words = words_of(rt.alloc(), line, ' ')?;
    Ok(rgo(rt, rt.alloc(), &words, source, out, err, gate))
}

/// The sinks with what a call printed and reported, and the status.
#[derive(Drop)]
pub(super) struct Outcome {
    pub(super) out: MemSink,
    pub(super) err: MemSink,
    pub(super) status: u8,
}

fn sink(alloc: Global, failing: u64) -> Result<MemSink, AllocError> {
    MemSink::new(alloc, 100_000, vec![in alloc; failing; 1]?)
}

/// Calls `rgo` with the words of a line, over sinks in memory of which these writes fail.
pub(super) fn outcome_of<R: Threads + AllocGlobal + Sync, S: Source, G: Gate + Sync>(
    rt: &R,
    line: &str,
    source: &mut S,
    failing: (u64, u64),
    gate: &G,
) -> Result<Outcome, AllocError> {
    let alloc = rt.alloc();
    let mut out = sink(alloc, failing.0)?;
    let mut err = sink(alloc, failing.1)?;
    let status = status_of(rt, line, source, &mut out, &mut err, gate)?;
    Ok(Outcome { out, err, status })
}

/// Ends the test, with the words and the text, unless these bytes were written.
fn wrote<R: Abort>(rt: &R, words: &str, text: &[u8], found: &[u8], wanted: &str) {
    let text = str::from_utf8(text).unwrap_or("?");
    let shown = str::from_utf8(found).unwrap_or("?");
    assert!(rt;
        found == wanted.as_bytes(),
        "{words} wrote {shown:?} and not {wanted:?} of {text}"
    );
}

/// Ends the test, with the words and the text, unless this was printed and reported, with this status.
pub(super) fn is_wanted<R: Abort>(
    rt: &R,
    words: &str,
    text: &[u8],
    found: &Outcome,
    wanted: Wanted<'_>,
) {
    let (print, report, status) = wanted;
    wrote(rt, words, text, found.out.bytes(), print);
    wrote(rt, words, text, found.err.bytes(), report);
    same(rt, words, &found.status, &status);
}

/// Calls `rgo` with a text.
pub(super) fn called<R: Threads + AllocGlobal + Sync, G: Gate + Sync>(
    rt: &R,
    words: &str,
    text: &[u8],
    outside: Outside,
    gate: &G,
) -> Result<Outcome, AllocError> {
    let alloc = rt.alloc();
    let Outside(per_read, read, out, err) = outside;
    let mut source = MemSource::new(
        text.to_vec(alloc)?,
        per_read.max(1),
        vec![in alloc; read; 1]?,
    );
    outcome_of(rt, words, &mut source, (out, err), gate)
}

/// The numbers of workers with which a run is called that names none, as words.
static WORKERS: [&str; 5] = [
    " --workers 1",
    " --workers 2",
    " --workers 7",
    " --workers 64",
    "",
];

static AS_IT_IS: [&str; 1] = [""];

/// A call as its command, the numbers of workers with which it is made, as words, and its options.
fn calls_of(words: &str) -> (&str, &'static [&'static str], &str) {
    for command in ["rgo runcode", "rgo run"] {
        match words.strip_prefix(command) {
            Some(options) if !options.contains("--workers") => return (command, &WORKERS, options),
            _ => {}
        }
    }
    (words, &AS_IT_IS, "")
}

/// Calls `rgo` with a text, and compares what is printed and reported, and the status. A run that names no number of
/// workers is called with 1, 2, 7 and 64, too.
pub(super) fn expect<R: Threads + Abort + AllocGlobal + Sync>(
    rt: &R,
    words: &str,
    text: &[u8],
    outside: Outside,
    wanted: Wanted<'_>,
) -> Result<(), AllocError> {
    let (command, numbers, options) = calls_of(words);
    for workers in numbers {
        let words = format!(in rt.alloc(); "{command}{workers}{options}")?;
        let found = called(rt, &words, text, outside, &NoGate)?;
        is_wanted(rt, &words, text, &found, wanted);
    }
    Ok(())
}
