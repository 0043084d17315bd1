//! Queues of values at addresses, the oldest first at each. The goroutines that wait to do one kind of operation are in one of these.
//!
//! Invariant: `count` is how many values all queues have together. An address has one queue; one from which all were taken stays as an
//! empty one, since its word is likely to be waited at again.
//!
//! Only the driver's thread calls these functions, between rounds.
ghost use Rattle.std.specs.Prelude.{◌≡◌, ◌==◌, ◌+◌, ◌++◌, ◌∷◌, [], ◌≤◌, ◌-◌, IfErr, IfOk, MatchOption, None, OnErr, OnOk, drop, length, min, nat_eq, take, vec_capacity, vec_len, ◌<◌};
ghost use Rattle.indexmap.specs.IndexMap.{get};
ghost use Rattle.std.specs.VecDeque.{deque_items};
ghost use Rattle.rgo_runtime.specs.Parking.{QueueExamples, TakesAll, elsewhere, queue_with, pairs_of, parked_values, values_at};

use indexmap::IndexMap;
use std::alloc::{AllocError, AllocFailed, Global};
use std::collections::VecDeque;
use std::marker::Model;

/// The queue of each address.
type ByAddress<T> = IndexMap<usize, VecDeque<T>>;

/// The most addresses at which empty queues keep their memory, and the most values for which such a queue has memory.
const MOST_KEPT: usize = 1_024;

const LONGEST_KEPT: usize = 64;

/// Values, each at an address.
///
/// An address at which a value was keeps an entry of a few words until [`Queues::take_all`], and, where there are not many, the memory of
/// a short queue.
#[derive(Drop)]
pub struct Queues<T: Drop> {
    queues: ByAddress<T>,
    /// How many values there are.
    count: usize,
    alloc: Global,
}

impl<T: Drop> Model for Queues<T> {
    ghost use Rattle.std.specs.Prelude.{◌≡◌, ℕ, List, length};
    ghost use Rattle.rgo_runtime.specs.Parking.{pairs_of};
    ghost use Rattle.std.specs.VecDeque.{deque_items};

    ghost Value = { List (ℕ × T) };

    ghost view = { λ q. pairs_of deque_items q.queues.entries };

    ghost invariant = { λ q. q.count ≡ length (pairs_of deque_items q.queues.entries) };
}

/// Adds a value at one of the two ends of a queue.
#[inline(always)]
fn join<T: Drop>(queue: &mut VecDeque<T>, value: T, is_oldest: bool) -> Result<(), AllocFailed<T>>
    ensures joined { OnOk result (queue.new.items ≡ queue_with is_oldest value queue.old.items) }
    ensures back { IfErr result (λ failed. failed.value ≡ value) }
    ensures same { OnErr result (queue.new.items ≡ queue.old.items) }
{
    if is_oldest {
        queue.push_front(value)
    } else {
        queue.push_back(value)
    }
}

/// Begins a queue at an address that has none. The entry's memory is reserved before the value moves into its queue, so that the error can
/// return the value.
fn new_queue<T: Drop>(
    alloc: Global,
    queues: &mut ByAddress<T>,
    at: usize,
    value: T,
) -> Result<(), AllocFailed<T>>
    requires { get nat_eq queues.old at ≡ None }
    ensures begun { OnOk result (pairs_of deque_items queues.new.entries ≡ pairs_of deque_items queues.old.entries ++ (at, value) ∷ []) }
    ensures back { IfErr result (λ failed. failed.value ≡ value) }
    ensures same { OnErr result (pairs_of deque_items queues.new.entries ≡ pairs_of deque_items queues.old.entries) }
{
    match queues.reserve(1) {
        Ok(()) => {}
        Err(_) => return Err(AllocFailed { value }),
    }
    let mut queue = VecDeque::new(alloc);
    match queue.push_back(value) {
        Ok(()) => {}
        Err(failed) => return Err(failed),
    }
    // There is room: it was reserved above.
    queues.insert(at, queue).unwrap();
    Ok(())
}

/// Adds a value to the queue of an address.
#[inline(always)]
fn add<T: Drop>(
    alloc: Global,
    queues: &mut ByAddress<T>,
    at: usize,
    value: T,
    is_oldest: bool,
) -> Result<(), AllocFailed<T>>
    ensures joined { OnOk result (values_at at (pairs_of deque_items queues.new.entries)
        ≡ queue_with is_oldest value (values_at at (pairs_of deque_items queues.old.entries))) }
    ensures others { OnOk result (elsewhere at (pairs_of deque_items queues.new.entries) ≡ elsewhere at (pairs_of deque_items queues.old.entries)) }
    ensures back { IfErr result (λ failed. failed.value ≡ value) }
    ensures same { OnErr result (pairs_of deque_items queues.new.entries ≡ pairs_of deque_items queues.old.entries) }
{
    match queues.get_mut(&at) {
        Some(queue) => match join(queue, value, is_oldest) {
            Ok(()) => Ok(()),
            Err(failed) => Err(failed),
        },
        None => match new_queue(alloc, queues, at, value) {
            Ok(()) => Ok(()),
            Err(failed) => Err(failed),
        },
    }
}

/// The first values of a queue come to the end of a list that has room for them.
#[inline(always)]
fn move_oldest<T: Drop>(queue: &mut VecDeque<T>, many: usize, into: &mut Vec<T>)
    requires some { many ≤ length queue.old.items }
    requires room { many ≤ vec_capacity into.old - vec_len into.old }
    ensures into { into.new.items ≡ into.old.items ++ take many queue.old.items }
    ensures left { queue.new.items ≡ drop many queue.old.items }
{
    let mut left = many;
    while left > 0 {
        left -= 1;
        match queue.pop_front() {
            Some(value) => into.push_reserved(value),
            // Cannot be: the queue has at least `many`.
            None => {}
        }
    }
}

/// A queue that is empty keeps its memory for those that wait there next, unless it is long or there are many queues.
#[inline(always)]
fn trim<T: Drop>(alloc: Global, queue: &mut VecDeque<T>, is_few: bool)
    ensures { queue.new.items ≡ queue.old.items }
{
    if queue.is_empty() && (!is_few || queue.capacity() > LONGEST_KEPT) {
        *queue = VecDeque::new(alloc);
    }
}

/// Moves up to `most` values of an address, the oldest first, to the end of a list. Returns how many came, by which `count` shrinks. An
/// address without a queue is not an error: a word may change at which nobody waits.
#[inline(always)]
fn take_from<T: Drop>(
    alloc: Global,
    queues: &mut ByAddress<T>,
    at: usize,
    most: usize,
    into: &mut Vec<T>,
) -> Result<usize, AllocError>
    ensures many { IfOk result (λ many. many ≡ min most (length (values_at at (pairs_of deque_items queues.old.entries)))) }
    ensures into { IfOk result (λ many. into.new.items ≡ into.old.items ++ take many (values_at at (pairs_of deque_items queues.old.entries))) }
    ensures left { IfOk result (λ many. values_at at (pairs_of deque_items queues.new.entries)
        ≡ drop many (values_at at (pairs_of deque_items queues.old.entries))) }
    ensures others { OnOk result (elsewhere at (pairs_of deque_items queues.new.entries) ≡ elsewhere at (pairs_of deque_items queues.old.entries)) }
    ensures same { OnErr result (pairs_of deque_items queues.new.entries ≡ pairs_of deque_items queues.old.entries) }
    ensures kept { OnErr result (into.new.items ≡ into.old.items) }
{
    let is_few = queues.len() <= MOST_KEPT;
    match queues.get_mut(&at) {
        Some(queue) => {
            let many = most.min(queue.len());
            match into.reserve(many) {
                Ok(()) => {
                    move_oldest(queue, many, into);
                    trim(alloc, queue, is_few);
                    Ok(many)
                }
                Err(error) => Err(error),
            }
        }
        None => Ok(0),
    }
}

/// Moves all values to the end of a list that has room for them, so that no append can fail when some have moved and others have not.
fn take_each<T: Drop>(queues: &mut ByAddress<T>, into: &mut Vec<T>)
    requires { length (pairs_of deque_items queues.old.entries) ≤ vec_capacity into.old - vec_len into.old }
    ensures moved { TakesAll (pairs_of deque_items queues.old.entries) into.old.items into.new.items }
    ensures none { queues.new.entries ≡ [] }
    ensures room { vec_capacity into.old ≤ vec_capacity into.new }
{
    while let Some((_, queue)) = queues.pop() {
        let mut values = queue.into_vec();
        // There is room for all: the caller has reserved it.
        into.append(&mut values).unwrap();
    }
}

impl<T: Drop> Queues<T> {
    /// No values.
    pub fn new(alloc: Global) -> Queues<T>
        ensures { result ≡ [] }
    {
        Queues {
            queues: IndexMap::new(alloc),
            count: 0,
            alloc,
        }
    }

    /// How many values there are, until the next call that adds or takes some.
    pub fn len(&self) -> usize
        ensures { result ≡ length self.now }
    {
        self.count
    }

    /// Whether a value is at an address.
    pub fn has_any(&self, at: usize) -> bool {
        self.count > 0 && self.queues.get(&at).is_some_and(|queue| !queue.is_empty())
    }

    /// Adds a value at an address: as the oldest there, or as the youngest.
    ///
    /// # Errors
    ///
    /// On allocation failure. Then nothing has changed, and the error returns the value.
    #[inline(always)]
    pub fn push(&mut self, at: usize, value: T, is_oldest: bool) -> Result<(), AllocFailed<T>>
        ensures joined { OnOk result (values_at at self.new ≡ queue_with is_oldest value (values_at at self.old)) }
        ensures others { OnOk result (elsewhere at self.new ≡ elsewhere at self.old) }
        ensures back { IfErr result (λ failed. failed.value ≡ value) }
        ensures same { OnErr result (self.new ≡ self.old) }
    {
        let Some(count) = self.count.checked_add(1) else {
            // Cannot be: as many values do not fit in memory.
            return Err(AllocFailed { value });
        };
        match add(self.alloc, &mut self.queues, at, value, is_oldest) {
            Ok(()) => {
                self.count = count;
                Ok(())
            }
            Err(failed) => Err(failed),
        }
    }

    /// Up to `most` values of an address come to the list's end, the oldest first. Returns how many. No other is touched.
    ///
    /// # Errors
    ///
    /// On allocation failure. Then nothing has changed.
    #[inline(always)]
    pub fn take(&mut self, at: usize, most: usize, into: &mut Vec<T>) -> Result<usize, AllocError>
        ensures many { IfOk result (λ many. many ≡ min most (length (values_at at self.old))) }
        ensures into { IfOk result (λ many. into.new.items ≡ into.old.items ++ take many (values_at at self.old)) }
        ensures left { IfOk result (λ many. values_at at self.new ≡ drop many (values_at at self.old)) }
        ensures others { OnOk result (elsewhere at self.new ≡ elsewhere at self.old) }
        ensures same { OnErr result (self.new ≡ self.old) }
        ensures kept { OnErr result (into.new.items ≡ into.old.items) }
    {
        if self.count == 0 || most == 0 {
            // Most calls are of an operation for which nobody waits.
            return Ok(0);
        }
        match take_from(self.alloc, &mut self.queues, at, most, into) {
            Ok(many) => {
                self.count -= many;
                Ok(many)
            }
            Err(error) => Err(error),
        }
    }

    /// Takes the values of some address, at least one, the oldest first; `None` if there is none. For a driver that ends a run, to which
    /// addresses no longer matter. It skips queues that are empty.
    pub fn pop(&mut self) -> Option<Vec<T>>
        ensures some { MatchOption result (self.old ≡ []) (λ values. 0 < length values.items) }
        ensures rest { MatchOption result (self.new ≡ []) (λ values. parked_values self.old ≡ parked_values self.new ++ values.items) }
    {
        while let Some((_, queue)) = self.queues.pop() {
            if !queue.is_empty() {
                let values = queue.into_vec();
                self.count -= values.len();
                return Some(values);
            }
        }
        None
    }

    /// All values come to the end of a list that has room for them.
    pub fn take_all(&mut self, into: &mut Vec<T>)
        requires { length self.old ≤ vec_capacity into.old - vec_len into.old }
        ensures moved { TakesAll self.old into.old.items into.new.items }
        ensures none { self.new ≡ [] }
        ensures room { vec_capacity into.old ≤ vec_capacity into.new }
    {
        take_each(&mut self.queues, into);
        self.count = 0;
    }
}

/// Values that are at two addresses.
pub fn examples()
    ensures { QueueExamples }
{}
