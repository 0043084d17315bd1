//! Calls with other words, and calls over other sources and sinks.

use super::calls::{Wanted, is_wanted, outcome_of, status_of, with_head};
use crate::checks::same;
use crate::slow_sinks::SlowSink;
use rgo_outside::{NoFaultSink, NoGate, StdSink, StdSource};
use std::alloc::AllocError;
use std::process::Abort;
use std::thread::Threads;

const USAGE: &str =
    "usage: rgo run [--steps N] [--pages N] [--page-words N] [--regions N] [--goroutines N] [--workers N] [--stats] | check | emit | code | big N | record [--steps N] [--pages N] [--page-words N] [--regions N] [--goroutines N] | replay | runcode [--steps N] [--pages N] [--page-words N] [--regions N] [--goroutines N] [--workers N] [--stats]\n";

/// What is wanted of words that no call has.
const REFUSED: Wanted<'static> = ("", USAGE, 64);

/// Calls that read no text, with what is wanted of each: `big` runs its own text.
static UNREAD: [(&str, Wanted<'static>); 22] = [
    ("rgo", REFUSED),
    ("rgo big 0", REFUSED),
    ("rgo help", REFUSED),
    ("rgo --help", REFUSED),
    ("rgo run --steps", REFUSED),
    ("rgo run --steps 0", REFUSED),
    ("rgo run --goroutines 1000001", REFUSED),
    ("rgo check run", REFUSED),
    ("rgo Run", REFUSED),
    ("rgo run ", REFUSED),
    ("rgo run run", REFUSED),
    ("rgo  run", REFUSED),
    ("rgo run code", REFUSED),
    ("rgo record --workers 1", REFUSED),
    ("rgo record --stats", REFUSED),
    ("rgo runcode --steps 0", REFUSED),
    ("rgo runcode code", REFUSED),
    ("rgo big 1", ("1 0\n", "", 0)),
    ("rgo big 2", ("2 1\n", "", 0)),
    ("rgo big 10", ("10 165\n", "", 0)),
    ("rgo big 25 --", ("25 350\n", "", 0)),
    ("rgo big -- 040", ("40 660\n", "", 0)),
];

/// Calls `rgo` over a source that it shall not read, and compares what is printed and reported, and the status.
fn nothing_is_read<R: Threads + Abort + AllocGlobal + Sync>(
    rt: &R,
    line: &str,
    wanted: Wanted<'_>,
) -> Result<(), AllocError> {
    let mut left = b"text".as_slice();
    let mut source = StdSource::new(&mut left);
    let found = outcome_of(rt, line, &mut source, (0, 0), &NoGate)?;
    is_wanted(rt, line, b"text", &found, wanted);
    same(rt, line, &left, &b"text".as_slice());
    Ok(())
}

#[test]
fn other_words_and_big_read_no_text(rt: HostRuntime) -> Result<(), AllocError> {
    for (line, wanted) in &UNREAD {
        nothing_is_read(&rt, line, *wanted)?;
    }
    Ok(())
}

#[test]
fn a_slow_sink_gets_every_byte(rt: HostRuntime) -> Result<(), AllocError> {
    let alloc = rt.alloc();
    let line = "func main() { fmt.Println(\"hi\", 1, true); fmt.Println(2, 3) }";
    let text = with_head(alloc, line)?;
    let mut source = StdSource::new(text.as_bytes());
    let mut out = SlowSink::new(16);
    let status = status_of(
        &rt,
        "rgo run",
        &mut source,
        &mut out,
        &mut NoFaultSink,
        &NoGate,
    )?;
    same(&rt, "status", &status, &0);
    let wanted = b"hi 1 true\n2 3\n\0\0".as_slice();
    same(&rt, "out", &out.bytes.as_slice(), &wanted);
    Ok(())
}

#[test]
fn streams_of_std_are_read_and_written(rt: HostRuntime) -> Result<(), AllocError> {
    let alloc = rt.alloc();
    let mut source = StdSource::new(b"x".as_slice());
    let mut printed: Vec<u8> = Vec::new(alloc);
    let mut reported: Vec<u8> = Vec::new(alloc);
    let mut out = StdSink::new(&mut printed);
    let mut err = StdSink::new(&mut reported);
    let status = status_of(&rt, "rgo run", &mut source, &mut out, &mut err, &NoGate)?;
    same(&rt, "status", &status, &1);
    same(&rt, "out", &printed.len(), &0);
    let wanted = b"rgo: 1:1: syntax\n".as_slice();
    same(&rt, "err", &reported.as_slice(), &wanted);
    Ok(())
}
