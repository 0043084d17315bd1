//! Rounds of counters: each keeps its position and has one turn, whatever the number of workers.
ghost use Rattle.std.specs.Prelude.{◌≡◌, ◌≤◌};

use rgo_outside::NoGate;
use rgo_sched::{Task, round};
use std::alloc::{AllocError, Global};
use std::process::Abort;
use std::test::Fail;
use std::thread::Threads;

/// Counts its turns, and continues in all but the last.
#[derive(Drop)]
struct Counter {
    number: u32,
    turns: u32,
    last: u32,
}

impl Task for Counter {
    ghost goes = { λ before after _. after.number ≡ before.number };

    fn turn(&mut self) -> bool {
        self.turns = self.turns.saturating_add(1);
        self.turns < self.last
    }
}

/// Counters with numbers from 0 on, each of which continues after none of its turns, but the one numbered `longest`, whose
/// third turn is its last.
fn counters(alloc: Global, count: u32, longest: u32) -> Result<Vec<Counter>, AllocError> {
    let mut tasks = Vec::new(alloc);
    for number in 0..count {
        let last = if number == longest { 3 } else { 1 };
        tasks.push(Counter {
            number,
            turns: 0,
            last,
        })?;
    }
    Ok(tasks)
}

fn has_rounds<R: Threads + Abort + AllocGlobal + Sync>(
    rt: &R,
    count: u32,
    workers: u32,
    longest: u32,
) -> Result<(), Fail>
    requires { (1 ≤ workers) × (workers ≤ 64) }
{
    let mut tasks = counters(rt.alloc(), count, longest)?;
    for number in 1..=4u32 {
        let went = round(rt, &mut tasks, workers, u64::from(number), &NoGate)?;
        assert_eq!(rt;
            went,
            longest < count && number < 3,
            "{count} tasks, {workers} workers, {longest}, {number}"
        );
        assert_eq!(rt;
            tasks.len(),
            count as usize,
            "{count} tasks, {workers} workers"
        );
        for (at, task) in tasks.iter().enumerate() {
            assert_eq!(rt;
                task.number as usize,
                at,
                "{count} tasks, {workers} workers"
            );
            assert_eq!(rt;
                task.turns,
                number,
                "{count} tasks, {workers} workers, at {at}"
            );
        }
    }
    Ok(())
}

fn short_lists_have_rounds<R: Threads + Abort + AllocGlobal + Sync>(
    rt: &R,
    workers: u32,
) -> Result<(), Fail>
    requires { (1 ≤ workers) × (workers ≤ 64) }
{
    for count in 0..=20u32 {
        for longest in 0..=count {
            has_rounds(rt, count, workers, longest)?;
        }
    }
    Ok(())
}

#[test]
fn each_counter_has_one_turn(rt: HostRuntime) -> Result<(), Fail> {
    short_lists_have_rounds(&rt, 1)?;
    short_lists_have_rounds(&rt, 2)?;
    short_lists_have_rounds(&rt, 4)?;
    short_lists_have_rounds(&rt, 7)?;
    for count in [0u32, 1, 3, 63, 64, 65] {
        has_rounds(&rt, count, 64, 1)?;
    }
    has_rounds(&rt, 1_000, 1, 999)?;
    has_rounds(&rt, 1_000, 2, 999)?;
    has_rounds(&rt, 1_000, 7, 999)?;
    has_rounds(&rt, 1_000, 64, 999)
}

fn boxes_have_a_round<R: Threads + Abort + AllocGlobal + Sync>(
    rt: &R,
    workers: u32,
) -> Result<(), Fail>
    requires { (1 ≤ workers) × (workers ≤ 64) }
{
    let mut tasks = Vec::new(rt.alloc());
    for number in 0..100u32 {
        tasks.push(Box::new(
            rt.alloc(),
            Counter {
                number,
                turns: 0,
                last: 1,
            },
        )?)?;
    }
    let went = round(rt, &mut tasks, workers, 1, &NoGate)?;
    assert!(rt; !went, "{workers} workers");
    for (at, task) in tasks.iter().enumerate() {
        assert_eq!(rt; task.number as usize, at, "{workers} workers");
        assert_eq!(rt; task.turns, 1, "{workers} workers, at {at}");
    }
    Ok(())
}

#[test]
fn each_counter_in_a_box_has_one_turn(rt: HostRuntime) -> Result<(), Fail> {
    boxes_have_a_round(&rt, 1)?;
    boxes_have_a_round(&rt, 4)
}
