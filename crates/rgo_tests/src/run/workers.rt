//! Runs on several workers: that they run beside one another, and the large text.

use super::calls::{SOUND, called, expect, is_wanted, with_head};
use super::running::ECHO;
use crate::checks::same;
use rgo_big::big_source;
use rgo_outside::{Gate, NoGate};
use rgo_sched_tests::Meeting;
use std::alloc::AllocError;
use std::process::Abort;
use std::thread::Threads;

/// Both goroutines need several turns.
const TWO: &str = "\
func sum(n int) int { s := 0; for i := 0; i < n; i++ { s += i }; return s }
func half(c chan int) { c <- sum(2000) }
func main() { c := make(chan int); go half(c); s := sum(2000); fmt.Println(s + <-c) }";

/// Holds workers 0 and 1 in round 2 until both have arrived in it.
#[derive(Drop)]
struct Holding {
    round_2: Meeting,
}

impl Gate for Holding {
    fn arrive(&self, worker: u32, round: u64) {
        if worker < 2 && round == 2 {
            self.round_2.wait();
        }
    }
}

/// Calls `rgo` with a text, and compares how many of workers 0 and 1 have arrived in round 2, and whether one has missed the other.
fn have_arrived<R: Threads + Abort + AllocGlobal + Sync>(
    rt: &R,
    calls: &str,
    text: &str,
    print: &str,
    wanted: (u32, bool),
) -> Result<(), AllocError> {
    let text = with_head(rt.alloc(), text)?;
    for words in calls.split(" | ") {
        let gate = Holding {
            round_2: Meeting::new(2),
        };
        let found = called(rt, words, text.as_bytes(), SOUND, &gate)?;
        is_wanted(rt, words, text.as_bytes(), &found, (print, "", 0));
        let arrived = (gate.round_2.arrived(), gate.round_2.missed());
        same(rt, words, &arrived, &wanted);
    }
    Ok(())
}

/// Calls in which several workers run.
const SEVERAL: &str = "rgo run | rgo run --workers 2 | rgo run --workers 7";

#[test]
fn workers_wait_for_one_another(rt: HostRuntime) -> Result<(), AllocError> {
    let sum = "3998000\n";
    have_arrived(&rt, SEVERAL, TWO, sum, (2, false))?;
    have_arrived(&rt, "rgo run --workers 1", TWO, sum, (1, true))?;
    let echo = "1\n11\n21\n31\n41\n";
    have_arrived(&rt, SEVERAL, ECHO, echo, (2, false))?;
    have_arrived(&rt, "rgo run --workers 1", ECHO, echo, (1, true))
}

/// How many goroutines the large text starts, and what it prints. With at most seven, all run on workers in a round.
static LARGE: [(u32, &str); 4] = [
    (1, "1 0\n"),
    (7, "7 56\n"),
    (20, "20 330\n"),
    (100, "100 1650\n"),
];

#[test]
fn the_large_text_runs_on_any_number_of_workers(rt: HostRuntime) -> Result<(), AllocError> {
    for (goroutines, print) in &LARGE {
        for words in ["rgo run", "rgo run --workers 8", "rgo run --workers 64"] {
            let text = big_source(rt.alloc(), *goroutines)?;
            expect(&rt, words, &text, SOUND, (print, "", 0))?;
        }
    }
    Ok(())
}

#[test]
fn the_code_of_the_large_text_does_what_the_text_does(rt: HostRuntime) -> Result<(), AllocError> {
    let text = big_source(rt.alloc(), 100)?;
    let emitted = called(&rt, "rgo emit", &text, SOUND, &NoGate)?;
    same(&rt, "rgo emit", &emitted.status, &0);
    let wanted = ("100 1650\n", "", 0);
    expect(&rt, "rgo runcode", emitted.out.bytes(), SOUND, wanted)
}
