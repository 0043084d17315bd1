//! A task on its way through a round on several workers. Contracts count positions in place of tasks: two tasks may be equal, but
//! their positions differ.
ghost use Rattle.std.specs.Prelude.{◌≡◌, ◌<◌, ℕ, Some, slice_get, List, [], length};

use crate::tasks::Task;
use std::marker::{Brand, Model, PhantomData};

/// The tasks as they were before the round, as contracts know them. Each round picks its own, so `Brand` has a placeholder.
pub trait Before<T> {
    ghost tasks: { List T };
}

impl<T> Before<T> for Brand {
    ghost tasks = { [] };
}

/// A task before its turn, with its position. Contracts see the position alone. The invariant states which task it is, so code that
/// hands on each position once hands on each task once.
#[derive(Drop)]
pub struct Queued<T: Task + Drop, B: Before<T>> {
    at: usize,
    task: T,
    of: PhantomData<B>,
}

impl<T: Task + Drop, B: Before<T>> Model for Queued<T, B> {
    ghost Value = { ℕ };

    ghost view = { λ q. q.at };

    ghost invariant = { λ q. slice_get B.tasks q.at ≡ Some q.task };
}

/// The task of a position after exactly one turn, with the answer of that turn. Contracts see the position alone.
#[derive(Drop)]
pub struct Done<T: Task + Drop, B: Before<T>> {
    at: usize,
    task: T,
    went: bool,
    of: PhantomData<B>,
}

impl<T: Task + Drop, B: Before<T>> Model for Done<T, B> {
    ghost Value = { ℕ };

    ghost view = { λ d. d.at };

    ghost invariant = { λ d. (t : T) × (slice_get B.tasks d.at ≡ Some t) × T.goes t d.task d.went };
}

impl<T: Task + Drop, B: Before<T>> Queued<T, B> {
    pub fn new(at: usize, task: T) -> Queued<T, B>
        requires { slice_get B.tasks at ≡ Some task }
        ensures at { result ≡ at }
        ensures inside { result < length B.tasks }
    {
        Queued {
            at,
            task,
            of: PhantomData,
        }
    }

    /// The one turn. It takes the task by value, so no task can have a second one.
    pub fn turn(self) -> Done<T, B>
        ensures { result ≡ self }
    {
        let Queued {
            at,
            mut task,
            of: _,
        } = self;
        let went = task.turn();
        Done {
            at,
            task,
            went,
            of: PhantomData,
        }
    }
}

impl<T: Task + Drop, B: Before<T>> Done<T, B> {
    pub fn at(&self) -> usize
        ensures at { result ≡ self.now }
        ensures inside { result < length B.tasks }
    {
        self.at
    }

    /// The task after its turn, and whether it went on.
    pub fn into_task(self) -> (T, bool)
        ensures { (t : T) × (slice_get B.tasks self ≡ Some t) × T.goes t result.0 result.1 }
    {
        let Done {
            at: _,
            task,
            went,
            of: _,
        } = self;
        (task, went)
    }
}
