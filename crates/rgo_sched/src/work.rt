//! The workers at their work, each in its own thread. Loops are bounded by the room in `done`, which is all tasks of the round: so
//! each ends without a proof about the other threads.
ghost use Rattle.std.specs.Prelude.{◌≡◌, ℕ, ◌<◌, length};
ghost use Rattle.crossbeam_deque.specs.Handles.{view, SameWorker, worker_view, worker_flavor};
ghost use Rattle.rgo_sched.specs.Accounts.{TookInto, total_weight};
ghost use Rattle.rgo_sched.specs.Crew.{DoneIsTaken, Every, IsCrew, WorkerIsReady, Worked, put_by};
ghost use Rattle.rgo_sched.specs.Permits.{AllFit, Fits, TakenWasDone};

use crate::crew::Worker;
use crate::deques::{Permit, TaskDeque, TaskStealer, turn_own, turn_stolen};
use crate::queued::{Before, Done};
use crate::tasks::Task;
use rgo_outside::Gate;
use std::thread;
use std::thread::Threads;

/// Turns the worker's own tasks until its deque is empty. A worker has room for all tasks of the round, so it never stops because
/// room is missing.
fn work_own<T: Task + Drop, B: Before<T>>(own: &mut TaskDeque<T, B>, done: &mut Vec<Done<T, B>>)
    requires part { 0 < (worker_view own.old).parts }
    requires fifo { worker_flavor own.old ≡ 0 }
    ensures taken { TookInto (worker_view own.old) (worker_view own.new) done.old.items done.new.items }
    ensures same { SameWorker own.old own.new }
{
    let room = done.capacity() - done.len();
    for _ in 0..room {
        if !turn_own(own, done) {
            break;
        }
    }
}

/// Asks another worker's deque for a task and turns it, and returns whether it got one. A worker does not ask itself: its own deque
/// was empty, and nothing is added. It is a function of its own so that each branch has a goal of its own.
fn ask<T: Task + Drop, B: Before<T>>(
    stealer: &TaskStealer<T, B>,
    permit: &mut Permit<T, B>,
    done: &mut Vec<Done<T, B>>,
    is_other: bool,
) -> bool
    requires { Fits stealer.now permit.old }
    ensures taken { TookInto (view permit.old.pass) (view permit.new.pass) done.old.items done.new.items }
    ensures fits { Fits stealer.now permit.new }
{
    if is_other && done.len() < done.capacity() {
        return turn_stolen(stealer, permit, done);
    }
    false
}

/// Asks each other worker once, in ascending order, and returns whether it got a task.
fn sweep<T: Task + Drop, B: Before<T>>(
    permits: &mut [Permit<T, B>],
    done: &mut Vec<Done<T, B>>,
    stealers: &[TaskStealer<T, B>],
    number: usize,
) -> bool
    requires fit { AllFit stealers.now permits.old }
    requires full { length permits.old ≡ length stealers.now }
    ensures moved { TakenWasDone permits.old permits.new done.old.items done.new.items }
    ensures fit { AllFit stealers.now permits.new }
{
    let mut got = false;
    for other in 0..stealers.len() {
        got |= ask(&stealers[other], &mut permits[other], done, other != number);
    }
    got
}

/// Sweeps over the others until a sweep gets nothing. Each other sweep gets at least one task, so there are at most as many as
/// tasks. A worker that ends has nothing left to do: no task is added, and a task that it missed is taken by its owner.
fn steal<T: Task + Drop, B: Before<T>>(
    permits: &mut [Permit<T, B>],
    done: &mut Vec<Done<T, B>>,
    stealers: &[TaskStealer<T, B>],
    number: usize,
)
    requires fit { AllFit stealers.now permits.old }
    requires full { length permits.old ≡ length stealers.now }
    ensures moved { TakenWasDone permits.old permits.new done.old.items done.new.items }
    ensures fit { AllFit stealers.now permits.new }
{
    let room = done.capacity() - done.len();
    for _ in 0..room {
        if !sweep(permits, done, stealers, number) {
            break;
        }
    }
}

/// A worker that was dealt a task arrives at the gate, and then turns its own tasks. One without a task does not arrive, so the same
/// workers arrive in each run and a test can wait for them.
fn begin<T: Task + Drop, B: Before<T>, G: Gate>(
    own: &mut TaskDeque<T, B>,
    done: &mut Vec<Done<T, B>>,
    number: usize,
    tasks: usize,
    round: u64,
    gate: &G,
)
    requires number { number < 64 }
    requires part { 0 < (worker_view own.old).parts }
    requires fifo { worker_flavor own.old ≡ 0 }
    ensures taken { TookInto (worker_view own.old) (worker_view own.new) done.old.items done.new.items }
    ensures same { SameWorker own.old own.new }
{
    if number < tasks {
        gate.arrive(number as u32, round);
        work_own(own, done);
    }
}

/// One worker's part of the round: its own tasks, and then those that it steals.
fn work<T: Task + Drop, B: Before<T>, G: Gate>(
    worker: &mut Worker<T, B>,
    stealers: &[TaskStealer<T, B>],
    number: usize,
    tasks: usize,
    round: u64,
    gate: &G,
)
    requires number { number < 64 }
    requires part { 0 < (worker_view worker.old.own).parts }
    requires fifo { worker_flavor worker.old.own ≡ 0 }
    requires fit { AllFit stealers.now worker.old.permits.items }
    requires full { length worker.old.permits.items ≡ length stealers.now }
    requires counted { DoneIsTaken worker.old }
    ensures counted { DoneIsTaken worker.new }
    ensures fit { AllFit stealers.now worker.new.permits.items }
    ensures stays { Worked worker.old worker.new }
{
    begin(
        &mut worker.own,
        &mut worker.done,
        number,
        tasks,
        round,
        gate,
    );
    steal(
        worker.permits.as_mut_slice(),
        &mut worker.done,
        stealers,
        number,
    );
}

/// All workers at once, each in a thread of its own; if the system makes no thread, they work one after the other.
pub fn work_all<
    T: Task + Drop + Send,
    B: Before<T> + Send + Sync,
    G: Gate + Sync,
    R: Threads + Sync,
>(
    rt: &R,
    crew: &mut [Worker<T, B>],
    stealers: &[TaskStealer<T, B>],
    tasks: usize,
    round: u64,
    gate: &G,
)
    requires some { 0 < length crew.old }
    requires crew { IsCrew stealers.now (λ _. 0) crew.old }
    requires each { Every (WorkerIsReady (length stealers.now)) crew.old }
    ensures counted { Every DoneIsTaken crew.new }
    ensures puts { (w : ℕ → ℕ) → total_weight (put_by w) crew.new ≡ total_weight (put_by w) crew.old }
    ensures crew { IsCrew stealers.now (λ _. 0) crew.new }
{
    thread::for_each_mut(
        rt,
        crew,
        stealers.len(),
        &|number: usize, worker: &mut Worker<T, B>|
            requires { (number < 64) × (0 < (worker_view worker.old.own).parts) × (worker_flavor worker.old.own ≡ 0)
                × AllFit stealers.now worker.old.permits.items × (length worker.old.permits.items ≡ length stealers.now)
                × DoneIsTaken worker.old }
            ensures { Worked worker.old worker.new × AllFit stealers.entry.now worker.new.permits.items × DoneIsTaken worker.new }
        { work(worker, stealers, number, tasks, round, gate) },
    );
}
