//! The workers of a round, made before any task moves, and the permits by which they steal from each other. Invariant
//! (`IsCrew`): the parts of each deque are with its owner, with the permits of workers for it, or in hand, 128 in all. So when all
//! permits are back, the owner knows all that was put into its deque and taken from it.
ghost use Rattle.std.specs.Prelude.{◌≡◌, ◌<◌, ◌≤◌, [], length, IfOk};
ghost use Rattle.crossbeam_deque.specs.Handles.{view, IsPassOf, SameWorker, worker_deque, worker_index, worker_view};
ghost use Rattle.rgo_sched.specs.Accounts.{joined_accounts, less_one, one_part};
ghost use Rattle.rgo_sched.specs.Crew.{Every, FewerPermits, HasSlots, IsCrew, WorkerIsReady, New, SameCounts};

use crate::accounts::Account;
use crate::deques::{Part, Permit, TaskDeque, TaskStealer};
use crate::queued::{Before, Done, Queued};
use crate::tasks::Task;
use crossbeam_deque::Pass;
use std::alloc::{AllocError, Global};

/// One worker: its deque, a permit for each deque, and what it has done. Only its own thread uses it during a round, so nothing
/// but the deques is shared.
#[derive(Drop)]
pub struct Worker<T: Task + Drop, B: Before<T>> {
    pub own: TaskDeque<T, B>,
    pub permits: Vec<Permit<T, B>>,
    pub done: Vec<Done<T, B>>,
}

/// A worker with no task and no permit, but with room for them: its deque has a slot for each task that is dealt to it. Its list
/// of what is done has room for all tasks, since it may steal them all and memory must not run out after a task has had its turn.
pub fn new_worker<T: Task + Drop, B: Before<T>>(
    alloc: Global,
    tasks: usize,
    workers: usize,
) -> Result<Worker<T, B>, AllocError>
    requires { 0 < workers }
    ensures { IfOk result (New tasks workers) }
{
    Ok(Worker {
        own: TaskDeque::fifo_as(alloc, tasks.div_ceil(workers))?,
        permits: Vec::with_capacity(alloc, workers)?,
        done: Vec::with_capacity(alloc, tasks)?,
    })
}

/// The workers of a round, without permits, and a stealer for the deque of each. There are at most 64 workers: each deque gives out
/// a permit for each of them, and its owner must keep some of the 128 parts.
pub fn new_crew<T: Task + Drop, B: Before<T>>(
    alloc: Global,
    tasks: usize,
    workers: usize,
) -> Result<(Vec<Worker<T, B>>, Vec<TaskStealer<T, B>>), AllocError>
    requires { (0 < workers) × (workers ≤ 64) }
    ensures crew { IfOk result (λ r. IsCrew r.1.items (λ _. 0) r.0.items) }
    ensures new { IfOk result (λ r. Every (New tasks workers) r.0.items) }
    ensures len { IfOk result (λ r. length r.0.items ≡ workers) }
{
    let mut crew = Vec::with_capacity(alloc, workers)?;
    let mut stealers = Vec::with_capacity(alloc, workers)?;
    for _ in 0..workers {
        let worker = new_worker(alloc, tasks, workers)?;
        let stealer = worker.own.stealer()?;
        crew.push_reserved(worker);
        stealers.push_reserved(stealer);
    }
    Ok((crew, stealers))
}

/// Gives each worker a permit for each deque, its own too, so that a permit's index is the number of its deque. That for its own is
/// never used.
pub fn hand_out<T: Task + Drop, B: Before<T>>(
    crew: &mut [Worker<T, B>],
    stealers: &[TaskStealer<T, B>],
)
    requires crew { IsCrew stealers.now (λ _. 0) crew.old }
    requires new { Every (New (length B.tasks) (length stealers.now)) crew.old }
    ensures crew { IsCrew stealers.now (λ _. 0) crew.new }
    ensures each { Every (WorkerIsReady (length stealers.now)) crew.new }
    ensures slots { Every (HasSlots (length B.tasks) (length stealers.now)) crew.new }
{
    for worker in 0..stealers.len() {
        for deque in 0..stealers.len() {
            let pass = cut(&mut crew[deque].own);
            crew[worker].permits.push_reserved(Permit { pass, deque });
        }
    }
}

/// A new pass with one part of the owner's. The owner must keep one: without a part it could not put or take.
fn cut<T: Task + Drop, B: Before<T>>(own: &mut TaskDeque<T, B>) -> Pass<Queued<T, B>, Account>
    requires { 1 < (worker_view own.old).parts }
    ensures views { (worker_view own.new ≡ less_one (worker_view own.old)) × (view result ≡ one_part) }
    ensures same { SameWorker own.old own.new × (worker_index own.new ≡ worker_index own.old)
        × IsPassOf (worker_deque own.old) result }
{
    own.another::<Part>()
}

/// Joins a pass into what the owner knows.
fn absorb<T: Task + Drop, B: Before<T>>(
    own: &mut TaskDeque<T, B>,
    pass: Pass<Queued<T, B>, Account>,
)
    requires table { IsPassOf (worker_deque own.old) pass }
    requires part { 0 < (worker_view own.old).parts }
    ensures views { worker_view own.new ≡ joined_accounts (worker_view own.old) (view pass) }
    ensures same { SameWorker own.old own.new }
{
    own.absorb::<Part>(pass);
}

/// Joins the last permit of a worker into what the owner of its deque knows, if the worker has one. The last one, since then those
/// before it stay at the index of their deque.
fn take_one<T: Task + Drop, B: Before<T>>(
    crew: &mut [Worker<T, B>],
    stealers: &[TaskStealer<T, B>],
    worker: usize,
)
    requires crew { IsCrew stealers.now (λ _. 0) crew.old }
    requires worker { worker < length crew.old }
    ensures crew { IsCrew stealers.now (λ _. 0) crew.new }
    ensures fewer { FewerPermits worker crew.old crew.new }
    ensures counts { SameCounts crew.old crew.new }
{
    let Some(permit) = crew[worker].permits.pop() else {
        return;
    };
    let deque = crew[worker].permits.len();
    absorb(&mut crew[deque].own, permit.pass);
}

/// Joins all permits into what the owners of their deques know. Only after this can an owner see that its deque is empty for good:
/// before, another worker may have taken a task that the owner's account does not have.
pub fn take_back<T: Task + Drop, B: Before<T>>(
    crew: &mut [Worker<T, B>],
    stealers: &[TaskStealer<T, B>],
)
    requires crew { IsCrew stealers.now (λ _. 0) crew.old }
    ensures crew { IsCrew stealers.now (λ _. 0) crew.new }
    ensures none { Every (λ w. w.permits.items ≡ []) crew.new }
    ensures counts { SameCounts crew.old crew.new }
{
    for worker in 0..stealers.len() {
        for _ in 0..stealers.len() {
            take_one(crew, stealers, worker);
        }
    }
}
