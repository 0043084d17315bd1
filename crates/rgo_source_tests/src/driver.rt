//! Programs with how their runs in rounds end and what they print.

use crate::checks::same;
use crate::texts::typed;
use rgo_machine::{End, Limits, RunEnd};
use rgo_memory::Trap;
use rgo_outside::MemSink;
use rgo_round_robin::{Plain, run};
use rgo_source_interpreter::{SourceMachine, start};
use rgo_typed::Typed;
use std::alloc::{AllocError, Global};
use std::process::Abort;
use std::test::Fail;

const AMPLE: Limits = Limits {
    steps: 3_000_000,
    goroutines: 100,
};

const FEW_STEPS: Limits = Limits {
    steps: 10_000,
    goroutines: 100,
};

const ONE_GOROUTINE: Limits = Limits {
    steps: 1000,
    goroutines: 1,
};

const LONG: Limits = Limits {
    steps: 30_000_000,
    goroutines: 100,
};

const MANY: Limits = Limits {
    steps: 100_000_000,
    goroutines: 1_000_000,
};

const RETURN: &str = "for i := 0; i < 100000; i++ { go f() } }; func f() {";

const WAIT: &str = "\
c := make(chan int); for i := 0; i < 100000; i++ { go f(c) }; <-make(chan int) }; func f(c chan int) { c <- 7";

const BEFORE: &str = "package main; import \"fmt\"; func main() { ";

const TWO_LINES: &str = "fmt.Println(\"a\", 7); fmt.Println(\"b\", -8); ";

const MEETING: &str = "\
c := make(chan int); go f(c); fmt.Println(\"got\", <-c) }; func f(c chan int) { c <- 7";

/// A function that calls itself as often as its argument says, and where it is called.
const DEEP: &str = "func f(n int) { if n > 0 { f(n - 1) } }";

/// Runs a program from its start.
fn end_of(
    alloc: Global,
    program: &Typed,
    limits: Limits,
    out: &mut MemSink,
) -> Result<RunEnd, AllocError> {
    let machine = SourceMachine::new(program);
    let state = start(alloc, program)?;
    Ok(run(alloc, &mut Plain::new(&machine, state), limits, out))
}

/// Runs `main` with this body, and compares how the run ends and what is printed.
fn ends_so<R: Abort + AllocGlobal>(
    rt: &R,
    limits: Limits,
    body: &str,
    end: RunEnd,
    print: &str,
) -> Result<(), Fail> {
    let alloc = rt.alloc();
    let text = format!(in alloc; "{BEFORE}{body} }}")?;
    let program = typed(alloc, text.as_str())?;
    let mut out = MemSink::new(alloc, 1000, Vec::new(alloc))?;
    let ended = end_of(alloc, &program, limits, &mut out)?;
    same(rt, body, &ended, &end);
    same(rt, body, &out.bytes(), &print.as_bytes());
    Ok(())
}

/// Bodies that print two lines, with how their runs end.
static ENDS: [(&str, Limits, RunEnd); 4] = [
    ("return", AMPLE, RunEnd::Ended(End::Exit)),
    ("var c chan int; <-c", AMPLE, RunEnd::Deadlock),
    (
        "x := 0; y := 1 / x",
        AMPLE,
        RunEnd::Ended(End::Trap(Trap::DivideZero, 100)),
    ),
    ("for { }", FEW_STEPS, RunEnd::StepsSpent),
];

#[test]
fn runs_end_as_their_last_statements_do(rt: HostRuntime) -> Result<(), Fail> {
    let alloc = rt.alloc();
    for (last, limits, end) in &ENDS {
        let body = format!(in alloc; "{TWO_LINES}{last}")?;
        ends_so(&rt, *limits, body.as_str(), *end, "a 7\nb -8\n")?;
    }
    Ok(())
}

#[test]
fn calls_have_a_limit(rt: HostRuntime) -> Result<(), Fail> {
    ends_so(&rt, AMPLE, "main()", RunEnd::CallsTooDeep, "")
}

/// `main` and 99,999 calls are 100,000 frames; one call more is too deep.
#[test]
fn a_goroutine_has_at_most_100000_frames(rt: HostRuntime) -> Result<(), Fail> {
    let alloc = rt.alloc();
    let within = format!(in alloc; "f(99998) }}; {DEEP}; func g() {{")?;
    ends_so(&rt, LONG, within.as_str(), RunEnd::Ended(End::Exit), "")?;
    let beyond = format!(in alloc; "f(99999) }}; {DEEP}; func g() {{")?;
    ends_so(&rt, LONG, beyond.as_str(), RunEnd::CallsTooDeep, "")
}

/// `main` and 99 others are 100 goroutines, also where each has returned before the next begins.
#[test]
fn there_are_at_most_as_many_goroutines_as_the_limit(rt: HostRuntime) -> Result<(), Fail> {
    let alloc = rt.alloc();
    let within = format!(in alloc;
        "for i := 0; i < 99; i++ {{ go f(i) }} }}; {DEEP}; func g() {{"
    )?;
    ends_so(&rt, AMPLE, within.as_str(), RunEnd::Ended(End::Exit), "")?;
    let beyond = format!(in alloc;
        "for i := 0; i < 100; i++ {{ go f(i) }} }}; {DEEP}; func g() {{"
    )?;
    ends_so(&rt, AMPLE, beyond.as_str(), RunEnd::GoroutinesSpent, "")
}

/// Goroutines that have returned cost nothing in later rounds.
#[test]
fn many_goroutines_return(rt: HostRuntime) -> Result<(), Fail> {
    ends_so(&rt, MANY, RETURN, RunEnd::Ended(End::Exit), "")
}

/// Goroutines that wait cost nothing in later rounds.
#[test]
fn many_goroutines_wait(rt: HostRuntime) -> Result<(), Fail> {
    ends_so(&rt, MANY, WAIT, RunEnd::Deadlock, "")
}

#[test]
fn goroutines_meet_within_their_limit(rt: HostRuntime) -> Result<(), Fail> {
    ends_so(&rt, AMPLE, MEETING, RunEnd::Ended(End::Exit), "got 7\n")?;
    ends_so(&rt, ONE_GOROUTINE, MEETING, RunEnd::GoroutinesSpent, "")
}

/// After a failed write of the second line nothing more is written.
#[test]
fn a_failed_write_ends_the_run(rt: HostRuntime) -> Result<(), Fail> {
    let alloc = rt.alloc();
    let text = format!(in alloc; "{BEFORE}{TWO_LINES}fmt.Println(\"c\", 9) }}")?;
    let program = typed(alloc, text.as_str())?;
    let mut out = MemSink::new(alloc, 1000, vec![in alloc; 2u64; 1]?)?;
    let ended = end_of(alloc, &program, AMPLE, &mut out)?;
    same(&rt, "the end", &ended, &RunEnd::WriteFault);
    same(&rt, "the print", &out.bytes(), &b"a 7\n".as_slice());
    Ok(())
}
