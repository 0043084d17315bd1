//! The deques: the rule that they keep, and how a worker takes a task from its own or steals one and turns it. The owner and all
//! others take at the same end, first in, first out, so tasks of one deque begin in the order in which they were dealt.
ghost use Rattle.std.specs.Prelude.{◌≡◌, ℕ, ◌+◌, ◌<◌, ◌≤◌, IsTrue, length, vec_len};
ghost use Rattle.crossbeam_deque.specs.Handles.{view, IsPassOf, SamePass, SameWorker, stealer_deque, worker_view, worker_flavor};
ghost use Rattle.rgo_sched.specs.Accounts.{Balanced, Put, Took, TookInto, all_parts, joined_accounts, less_one, no_part, one_part, total_weight};

use crate::accounts::Account;
use crate::queued::{Before, Done, Queued};
use crate::tasks::Task;
use crossbeam_deque::protocol::{Join, Outcome, Protocol, Split};
use crossbeam_deque::{Pass, Steal, Stealer, Worker};
use std::alloc::Global;

/// The rule: what was put was taken or is in the deque. It holds after every access, whichever threads are at the deque.
pub struct Balance;

impl<T: Task + Drop, B: Before<T>> Protocol<Queued<T, B>, Account> for Balance {
    ghost holds = { Balanced };

    ghost first = { all_parts };

    ghost guest = { no_part };
}

/// One task is put.
pub struct Puts;

impl<T: Task + Drop, B: Before<T>> Outcome<Queued<T, B>, Account> for Puts {
    ghost then = { Put };
}

/// One task is taken, while others may take some, too. So an empty deque shows nothing about what was taken.
pub struct Takes;

impl<T: Task + Drop, B: Before<T>> Outcome<Queued<T, B>, Account> for Takes {
    ghost then = { Took };
}

/// One task is taken while no other pass has a part: all that was taken is then in this account. It is never more than was put, so a
/// loop that takes ends, and it is all that was put once the deque is empty.
pub struct TakesAlone;

impl<T: Task + Drop, B: Before<T>> Outcome<Queued<T, B>, Account> for TakesAlone {
    ghost then = { λ v xs w. Took v xs w × (v.parts ≡ 128 → length w.taken ≤ length w.put) };

    ghost empty = { λ v. v.parts ≡ 128 → (w : ℕ → ℕ) → total_weight w v.put ≡ total_weight w v.taken };
}

/// One part goes to a new pass, and comes back with what that pass took.
pub struct Part;

impl Split<Account> for Part {
    ghost left = { less_one };

    ghost right = { λ v. one_part };
}

impl Join<Account> for Part {
    ghost both = { joined_accounts };

    ghost spent = { no_part };
}

/// The end of a deque at which its worker pops.
pub type TaskDeque<T, B> = Worker<Queued<T, B>, Global, Account, Balance>;

/// The end of a deque at which the other workers steal.
pub type TaskStealer<T, B> = Stealer<Queued<T, B>, Global, Account, Balance>;

/// What a worker needs to steal from one deque: a pass of it. The number of the deque gives the permit a size, since pointers
/// to elements of no size are not covered by the borrow checker.
#[derive(Drop)]
pub struct Permit<T: Task + Drop, B: Before<T>> {
    pub pass: Pass<Queued<T, B>, Account>,
    pub deque: usize,
}

/// Takes one task of its own, turns it, and returns whether there was one. It may only be called by the worker itself. `false`: at
/// that moment its deque was empty, and it stays so, since no task is added while the workers run.
pub fn turn_own<T: Task + Drop, B: Before<T>>(
    own: &mut TaskDeque<T, B>,
    done: &mut Vec<Done<T, B>>,
) -> bool
    requires part { 0 < (worker_view own.old).parts }
    requires fifo { worker_flavor own.old ≡ 0 }
    requires room { vec_len done.old < done.old.cap }
    ensures taken { TookInto (worker_view own.old) (worker_view own.new) done.old.items done.new.items }
    ensures room { (done.new.cap ≡ done.old.cap) × (vec_len done.new ≤ vec_len done.old + 1) }
    ensures same { SameWorker own.old own.new }
{
    match own.pop_as::<Takes>() {
        None => false,
        Some(queued) => {
            done.push_reserved(queued.turn());
            true
        }
    }
}

/// Steals one task, turns it, and returns whether it got one. Any worker may call it. If another worker was faster it returns
/// `false`, as for an empty deque, and does not try again: such a loop would end only by fairness. A task that is missed in this
/// way is taken by the worker in whose deque it is.
pub fn turn_stolen<T: Task + Drop, B: Before<T>>(
    stealer: &TaskStealer<T, B>,
    permit: &mut Permit<T, B>,
    done: &mut Vec<Done<T, B>>,
) -> bool
    requires table { IsPassOf (stealer_deque stealer.now) permit.old.pass }
    requires part { 0 < (view permit.old.pass).parts }
    requires room { vec_len done.old < done.old.cap }
    ensures more { IsTrue result → vec_len done.new ≡ vec_len done.old + 1 }
    ensures taken { TookInto (view permit.old.pass) (view permit.new.pass) done.old.items done.new.items }
    ensures room { (done.new.cap ≡ done.old.cap) × (vec_len done.old ≤ vec_len done.new) }
    ensures same { SamePass permit.old.pass permit.new.pass }
{
    match stealer.steal_as::<Takes>(&mut permit.pass) {
        Steal::Success(queued) => {
            done.push_reserved(queued.turn());
            true
        }
        Steal::Empty => false,
        Steal::Retry => false,
    }
}
