//! A worker that is free takes the tasks of one that is held up: in a turn, or at the gate.
ghost use Rattle.std.specs.Prelude.{⊤, ◌≤◌};

use crate::meetings::MOST_TURNS;
use rgo_outside::{Gate, NoGate};
use rgo_sched::{Task, round};
use std::process::Abort;
use std::sync::atomic::{AtomicBool, AtomicU32, Ordering};
use std::test::Fail;
use std::thread;
use std::thread::Threads;

/// Which tasks have begun and ended their turns, task k in the bit 2^k, and whether someone waited for them too long.
#[derive(Drop)]
struct Progress {
    begun: AtomicU32,
    ended: AtomicU32,
    missed: AtomicBool,
}

impl Progress {
    fn new() -> Progress {
        Progress {
            begun: AtomicU32::new(0),
            ended: AtomicU32::new(0),
            missed: AtomicBool::new(false),
        }
    }

    /// Waits until some tasks have begun and others have ended.
    fn wait(&self, begun: u32, ended: u32) {
        for _ in 0..MOST_TURNS {
            let have_begun = self.begun.load(Ordering::SeqCst) & begun == begun;
            let have_ended = self.ended.load(Ordering::SeqCst) & ended == ended;
            if have_begun && have_ended {
                return;
            }
            thread::yield_now();
        }
        self.missed.store(true, Ordering::SeqCst);
    }

    fn missed(&self) -> bool {
        self.missed.load(Ordering::SeqCst)
    }
}

/// Waits in its turn until other tasks have begun or ended.
#[derive(Drop)]
struct Waiter<'a> {
    progress: &'a Progress,
    bit: u32,
    begun: u32,
    ended: u32,
}

impl<'a> Task for Waiter<'a> {
    ghost goes = { λ _ _ _. ⊤ };

    fn turn(&mut self) -> bool {
        self.progress.begun.fetch_or(self.bit, Ordering::SeqCst);
        self.progress.wait(self.begun, self.ended);
        self.progress.ended.fetch_or(self.bit, Ordering::SeqCst);
        false
    }
}

/// A round of tasks of which each waits for those that have begun and those that have ended by its bits.
fn wait_for_each_other<R: Threads + Abort + AllocGlobal + Sync, G: Gate + Sync>(
    rt: &R,
    progress: &Progress,
    waits: &[(u32, u32)],
    workers: u32,
    number: u64,
    gate: &G,
) -> Result<(), Fail>
    requires { (1 ≤ workers) × (workers ≤ 64) }
{
    let mut tasks = Vec::new(rt.alloc());
    let mut bit = 1u32;
    for &(begun, ended) in waits {
        tasks.push(Waiter {
            progress,
            bit,
            begun,
            ended,
        })?;
        bit = bit.wrapping_mul(2);
    }
    let went = round(rt, &mut tasks, workers, number, gate)?;
    assert!(rt; !went, "{workers} workers, round {number}");
    assert!(rt; !progress.missed(), "{workers} workers, round {number}");
    let ended = progress.ended.load(Ordering::SeqCst);
    assert_eq!(rt;
        ended,
        bit.wrapping_sub(1),
        "{workers} workers, round {number}"
    );
    Ok(())
}

#[test]
fn a_task_is_stolen_from_a_worker_that_is_in_a_turn(rt: HostRuntime) -> Result<(), Fail> {
    // Task 0 waits for task 2 to end, which was dealt to the same worker, and task 1 for task 0 to begin.
    for number in 0..20u64 {
        let waits = [(0u32, 4u32), (1, 0), (0, 0)];
        wait_for_each_other(&rt, &Progress::new(), &waits, 2, number, &NoGate)?;
    }
    Ok(())
}

/// Holds each worker that arrives until two tasks have ended.
#[derive(Drop)]
struct Shut<'a> {
    progress: &'a Progress,
    arrived: AtomicU32,
}

impl<'a> Gate for Shut<'a> {
    fn arrive(&self, _worker: u32, _round: u64) {
        self.arrived.fetch_add(1, Ordering::SeqCst);
        self.progress.wait(0, 3);
    }
}

#[test]
fn a_worker_without_a_task_steals_and_does_not_arrive(rt: HostRuntime) -> Result<(), Fail> {
    for number in 0..20u64 {
        let progress = Progress::new();
        let gate = Shut {
            progress: &progress,
            arrived: AtomicU32::new(0),
        };
        wait_for_each_other(&rt, &progress, &[(0u32, 0u32), (0, 0)], 3, number, &gate)?;
        assert_eq!(&rt; gate.arrived.load(Ordering::SeqCst), 2, "round {number}");
    }
    Ok(())
}
