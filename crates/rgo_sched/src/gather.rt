//! What the workers have done, position by position. All of this is on the caller's thread, after the workers have ended. A place for
//! each position takes the place of a sort, and shows without a proof about permutations that each task is there once.
ghost use Rattle.std.specs.Prelude.{◌≡◌, ℕ, ◌+◌, ◌<◌, ◌⊎◌, length, IfOk};
ghost use Rattle.crossbeam_deque.specs.Handles.{worker_view, worker_flavor};
ghost use Rattle.rgo_sched.specs.Accounts.{total_weight};
ghost use Rattle.rgo_sched.specs.Crew.{Every, HasAllParts, NoneLost, done_by, put_by};
ghost use Rattle.rgo_sched.specs.Positions.{Filled, only};

use crate::crew::Worker;
use crate::deques::{TakesAlone, TaskDeque};
use crate::queued::{Before, Done};
use crate::tasks::Task;
use std::alloc::{AllocError, Global};

/// A place for each task.
pub fn empty_results<T: Task + Drop, B: Before<T>>(
    alloc: Global,
    tasks: usize,
) -> Result<Vec<Option<Done<T, B>>>, AllocError>
    ensures { IfOk result (λ v. length v.items ≡ tasks) }
{
    let mut results = Vec::with_capacity(alloc, tasks)?;
    for _ in 0..tasks {
        results.push_reserved(None);
    }
    Ok(results)
}

/// Puts a task at its position. If the place were taken, the older task would be dropped: the rule of the deques excludes it.
pub fn store<T: Task + Drop, B: Before<T>>(results: &mut [Option<Done<T, B>>], done: Done<T, B>)
    requires { length results.old ≡ length B.tasks }
    ensures here { Filled results.new done }
    ensures kept { (k : ℕ) → Filled results.old k → Filled results.new k }
    ensures size { length results.new ≡ length results.old }
{
    let at = done.at();
    results[at] = Some(done);
}

/// Turns what is left in a deque. After a round nothing is left: its worker has seen it empty, or was dealt nothing. It is here
/// because what a worker has seen is not in its contract. So that no task is lost follows without it.
fn drain<T: Task + Drop, B: Before<T>>(
    own: &mut TaskDeque<T, B>,
    results: &mut [Option<Done<T, B>>],
)
    requires size { length results.old ≡ length B.tasks }
    requires all { (worker_view own.old).parts ≡ 128 }
    requires fifo { worker_flavor own.old ≡ 0 }
    ensures left { (k : ℕ) → Filled results.new k
        ⊎ (total_weight (only k) (worker_view own.old).put ≡ total_weight (only k) (worker_view own.old).taken) }
    ensures kept { (k : ℕ) → Filled results.old k → Filled results.new k }
    ensures size { length results.new ≡ length results.old }
{
    while let Some(queued) = own.pop_as::<TakesAlone>() {
        store(results, queued.turn());
    }
}

/// Stores what one worker has done, and what its deque still holds. A position that this leaves empty was put here no more often
/// than it was taken, so another worker has it.
fn gather<T: Task + Drop, B: Before<T>>(
    mut worker: Worker<T, B>,
    results: &mut [Option<Done<T, B>>],
)
    requires size { length results.old ≡ length B.tasks }
    requires all { (worker_view worker.own).parts ≡ 128 }
    requires fifo { worker_flavor worker.own ≡ 0 }
    ensures left { (k : ℕ) → Filled results.new k
        ⊎ (put_by (only k) worker + done_by (only k) worker ≡ total_weight (only k) (worker_view worker.own).taken) }
    ensures kept { (k : ℕ) → Filled results.old k → Filled results.new k }
    ensures size { length results.new ≡ length results.old }
{
    drain(&mut worker.own, results);
    while let Some(done) = worker.done.pop() {
        store(results, done);
    }
}

/// Stores what all workers have done, after which each position has its task.
pub fn gather_all<T: Task + Drop, B: Before<T>>(
    mut crew: Vec<Worker<T, B>>,
    results: &mut [Option<Done<T, B>>],
)
    requires size { length results.old ≡ length B.tasks }
    requires all { Every HasAllParts crew.items }
    requires none_lost { NoneLost (length B.tasks) crew.items }
    ensures all { (k : ℕ) → k < length B.tasks → Filled results.new k }
    ensures size { length results.new ≡ length results.old }
{
    while let Some(worker) = crew.pop() {
        gather(worker, results);
    }
}
