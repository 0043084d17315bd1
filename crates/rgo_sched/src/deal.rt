//! The tasks go to the workers, and come back into their list. Both run on the caller's thread: before the workers start, and after
//! they have all ended.
ghost use Rattle.std.specs.Prelude.{◌≡◌, ℕ, ◌+◌, ◌<◌, ◌≤◌, [], ◌∷◌, length, vec_capacity};
ghost use Rattle.crossbeam_deque.specs.Handles.{SameWorker, worker_capacity, worker_index, worker_view};
ghost use Rattle.rgo_sched.specs.Accounts.{Put, total_weight};
ghost use Rattle.rgo_sched.specs.Crew.{Every, HasSlots, IsCrew, WorkerIsReady, put_by};
ghost use Rattle.rgo_sched.specs.Positions.{Filled, only};
ghost use Rattle.rgo_sched.specs.Rounds.{RoundOf};

use crate::crew::Worker;
use crate::deques::{Puts, TaskDeque, TaskStealer};
use crate::queued::{Before, Done, Queued};
use crate::tasks::Task;

/// Puts a task into a deque that has a slot that was never used, so the push cannot be refused.
fn give<T: Task + Drop, B: Before<T>>(own: &mut TaskDeque<T, B>, queued: Queued<T, B>)
    requires part { 0 < (worker_view own.old).parts }
    requires slots { worker_index own.old < worker_capacity own.old }
    ensures given { Put (worker_view own.old) (queued ∷ []) (worker_view own.new) }
    ensures same { SameWorker own.old own.new × (worker_index own.new ≡ worker_index own.old + 1) }
{
    match own.push_as::<Puts>(queued) {
        Ok(()) => {}
        Err(_) => unreachable!(),
    }
}

/// The task at position k goes to worker k modulo the number of workers, in ascending order. The list is reversed first, because
/// only its end can be taken without moving the rest. It keeps its memory, into which the tasks come back.
pub fn deal<T: Task + Drop, B: Before<T>>(
    tasks: &mut Vec<T>,
    crew: &mut [Worker<T, B>],
    stealers: &[TaskStealer<T, B>],
)
    requires dealt { tasks.old.items ≡ B.tasks }
    requires some { 0 < length crew.old }
    requires crew { IsCrew stealers.now (λ _. 0) crew.old }
    requires each { Every (WorkerIsReady (length stealers.now)) crew.old }
    requires slots { Every (HasSlots (length B.tasks) (length stealers.now)) crew.old }
    ensures puts { (k : ℕ) → k < length B.tasks → 1 ≤ total_weight (put_by (only k)) crew.new }
    ensures crew { IsCrew stealers.now (λ _. 0) crew.new }
    ensures each { Every (WorkerIsReady (length stealers.now)) crew.new }
    ensures room { (tasks.new.items ≡ []) × (vec_capacity tasks.new ≡ vec_capacity tasks.old) }
{
    let count = tasks.len();
    tasks.reverse();
    for at in 0..count {
        let worker = at % crew.len();
        match tasks.pop() {
            Some(task) => give(&mut crew[worker].own, Queued::new(at, task)),
            None => unreachable!(),
        }
    }
}

/// The tasks after their turns, in order, and whether any went on. Each place is filled (`all`), so its `None` cannot occur.
pub fn give_back<T: Task + Drop, B: Before<T>>(
    results: &mut [Option<Done<T, B>>],
    tasks: &mut Vec<T>,
) -> bool
    requires size { length results.old ≡ length B.tasks }
    requires all { (k : ℕ) → k < length B.tasks → Filled results.old k }
    requires room { (tasks.old.items ≡ []) × (length B.tasks ≤ vec_capacity tasks.old) }
    ensures { RoundOf T.goes B.tasks tasks.new.items result }
{
    let mut went = false;
    for at in 0..results.len() {
        match results[at].take() {
            Some(done) => {
                let (task, on) = done.into_task();
                tasks.push_reserved(task);
                went |= on;
            }
            None => unreachable!(),
        }
    }
    went
}
