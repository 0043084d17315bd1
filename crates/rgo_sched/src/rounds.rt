//! A round: the tasks are dealt into deques, one for each worker, and the workers run at once and steal from each other.
ghost use Rattle.std.specs.Prelude.{◌≡◌, ◌<◌, ◌≤◌, [], length, vec_capacity, IfOk, IfErr};
ghost use Rattle.rgo_sched.specs.Crew.{Every, HasAllParts, IsCrew, New, NoneLost};
ghost use Rattle.rgo_sched.specs.Rounds.{RoundOf};

use crate::alone::turn_in_order;
use crate::crew::{Worker, hand_out, new_crew, take_back};
use crate::deal::{deal, give_back};
use crate::deques::TaskStealer;
use crate::gather::{empty_results, gather_all};
use crate::queued::{Before, Done};
use crate::tasks::Task;
use crate::work::work_all;
use rgo_outside::Gate;
use std::alloc::AllocError;
use std::marker::Brand;
use std::thread::Threads;

/// Gives each task one turn, and returns whether any went on. The tasks keep their positions.
///
/// The task at position k is dealt to worker k modulo `workers`. Each worker that was dealt one arrives at the gate, in round
/// `number`, before its first turn. It turns its own tasks in ascending order, and then steals: it asks each other worker once,
/// in ascending order, and begins anew until no worker has a task for it. A worker that was dealt nothing steals, too. The
/// workers run at once, one of them in the caller's thread and each other one in a thread of its own; if the system makes
/// no thread, they run one after the other.
///
/// If an allocation fails, it does so before any turn, and the tasks are as they were. One worker takes no memory.
pub fn round<R: Threads + Sync, T: Task + Drop + Send, G: Gate + Sync>(
    rt: &R,
    tasks: &mut Vec<T>,
    workers: u32,
    number: u64,
    gate: &G,
) -> Result<bool, AllocError>
    requires workers { (1 ≤ workers) × (workers ≤ 64) }
    ensures ok { IfOk result (λ went. RoundOf T.goes tasks.old.items tasks.new.items went) }
    ensures err { IfErr result (λ _. tasks.new ≡ tasks.old) }
{
    if tasks.is_empty() {
        return Ok(false);
    }
    if workers == 1 {
        return Ok(turn_in_order(tasks.as_mut_slice(), number, gate));
    }
    round_of::<R, T, G, Brand>(rt, tasks, workers as usize, number, gate)
}

/// The round of several workers, of tasks that contracts know as `B.tasks`. All memory is taken first, while the tasks are still
/// in their list: a task that has had its turn could not be put back as it was.
fn round_of<R: Threads + Sync, T: Task + Drop + Send, G: Gate + Sync, B: Before<T> + Send + Sync>(
    rt: &R,
    tasks: &mut Vec<T>,
    workers: usize,
    number: u64,
    gate: &G,
) -> Result<bool, AllocError>
    requires dealt { tasks.old.items ≡ B.tasks }
    requires workers { (1 ≤ workers) × (workers ≤ 64) }
    ensures ok { IfOk result (λ went. RoundOf T.goes tasks.old.items tasks.new.items went) }
    ensures err { IfErr result (λ _. tasks.new ≡ tasks.old) }
{
    let alloc = *tasks.allocator();
    let count = tasks.len();
    let mut results = empty_results::<T, B>(alloc, count)?;
    let (crew, stealers) = new_crew::<T, B>(alloc, count, workers)?;
    Ok(turn_all(
        rt,
        tasks,
        crew,
        stealers.as_slice(),
        results.as_mut_slice(),
        number,
        gate,
    ))
}

/// The round after its memory was allocated. Nothing in it can fail.
fn turn_all<R: Threads + Sync, T: Task + Drop + Send, G: Gate + Sync, B: Before<T> + Send + Sync>(
    rt: &R,
    tasks: &mut Vec<T>,
    mut crew: Vec<Worker<T, B>>,
    stealers: &[TaskStealer<T, B>],
    results: &mut [Option<Done<T, B>>],
    number: u64,
    gate: &G,
) -> bool
    requires dealt { tasks.old.items ≡ B.tasks }
    requires room { length B.tasks ≤ vec_capacity tasks.old }
    requires size { length results.old ≡ length B.tasks }
    requires some { 0 < length crew.items }
    requires crew { IsCrew stealers.now (λ _. 0) crew.items }
    requires new { Every (New (length B.tasks) (length stealers.now)) crew.items }
    ensures { RoundOf T.goes B.tasks tasks.new.items result }
{
    play(rt, tasks, crew.as_mut_slice(), stealers, number, gate);
    gather_all(crew, results);
    give_back(results, tasks)
}

/// Deals the tasks, lets the workers work, and joins what they know. The order is forced: permits come before tasks, since a worker
/// may steal as soon as it runs, and they come back after all workers have ended.
fn play<R: Threads + Sync, T: Task + Drop + Send, G: Gate + Sync, B: Before<T> + Send + Sync>(
    rt: &R,
    tasks: &mut Vec<T>,
    crew: &mut [Worker<T, B>],
    stealers: &[TaskStealer<T, B>],
    number: u64,
    gate: &G,
)
    requires dealt { tasks.old.items ≡ B.tasks }
    requires some { 0 < length crew.old }
    requires crew { IsCrew stealers.now (λ _. 0) crew.old }
    requires new { Every (New (length B.tasks) (length stealers.now)) crew.old }
    ensures none_lost { NoneLost (length B.tasks) crew.new }
    ensures all { Every HasAllParts crew.new }
    ensures len { length crew.new ≡ length crew.old }
    ensures room { (tasks.new.items ≡ []) × (vec_capacity tasks.new ≡ vec_capacity tasks.old) }
{
    let count = tasks.len();
    hand_out(crew, stealers);
    deal(tasks, crew, stealers);
    work_all(rt, crew, stealers, count, number, gate);
    take_back(crew, stealers);
}
