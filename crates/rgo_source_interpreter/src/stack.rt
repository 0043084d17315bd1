//! A list that grows and shrinks at one end. Contracts see it with the newest first, as the definition has it; the newest item is last
//! in memory, where a list grows.
#![tactic(auto, using(crate::proofs::Stacks::stacks))]

ghost use Rattle.std.specs.Prelude.{◌≡◌, [], ◌∷◌, ◌++◌, drop, take, length, reverse, slice_get, MatchOption};
ghost use Rattle.rgo_source_interpreter.specs.Changes.{Changes};
ghost use Rattle.rgo_meaning.specs.Frames.{replaced};

use std::alloc::{AllocError, Global};
use std::marker::Model;

/// Items, of which the newest is at hand. A type of its own and not a list, so that clauses need not reverse it.
#[derive(Drop)]
pub struct Stack<T> {
    items: Vec<T>,
}

impl<T> Model for Stack<T> {
    ghost use Rattle.std.specs.Prelude.{List, reverse};
    ghost use Rattle.std.specs.Coded.{coded_list};

    ghost Value = { List T };

    ghost coded = { coded_list T.code };

    ghost view = { λ s. reverse s.items.items };
}

impl<T> Stack<T> {
    /// No items. Takes no memory.
    pub fn new(alloc: Global) -> Stack<T>
        ensures { result ≡ [] }
    {
        Stack {
            items: Vec::new(alloc),
        }
    }
}

impl<T: Copy + Drop> Stack<T> {
    /// How many items there are.
    pub fn len(&self) -> usize
        ensures { result ≡ length self.now }
    {
        self.items.len()
    }

    /// The newest item.
    pub fn first(&self) -> Option<T>
        ensures { MatchOption result (self.now ≡ []) (λ x. self.now ≡ x ∷ drop 1 self.now) }
    {
        match self.items.split_last() {
            Some((last, _)) => Some(*last),
            None => None,
        }
    }

    /// The newest items, up to `count`, in the order in which they came.
    pub fn last(&self, count: usize) -> &[T]
        ensures { result.now ≡ reverse (take count self.now) }
    {
        &self.items[self.items.len().saturating_sub(count)..]
    }

    /// The items below the newest, up to `count`, in the order in which they came.
    pub fn below_first(&self, count: usize) -> &[T]
        ensures { result.now ≡ reverse (take count (drop 1 self.now)) }
    {
        let below = &self.items[..self.items.len().saturating_sub(1)];
        &below[below.len().saturating_sub(count)..]
    }

    /// The item below `newer` newer ones.
    pub fn below(&self, newer: usize) -> Option<T>
        ensures { result ≡ slice_get self.now newer }
    {
        let n = self.items.len();
        if newer < n {
            Some(self.items[n - 1 - newer])
        } else {
            None
        }
    }

    /// Removes the newest items, up to `count`.
    pub fn remove(&mut self, count: usize)
        ensures { self.new ≡ drop count self.old }
    {
        self.items.truncate(self.items.len().saturating_sub(count));
    }

    /// Pushes an item. On allocation failure nothing changes.
    pub fn push(&mut self, item: T) -> Result<(), AllocError>
        ensures { Changes result self.old self.new (item ∷ self.old) }
    {
        self.items.push(item)?;
        Ok(())
    }

    /// Pushes the newest items, up to `count`, once more. On allocation failure nothing changes.
    pub fn repeat(&mut self, count: usize) -> Result<(), AllocError>
        ensures { Changes result self.old self.new (take count self.old ++ self.old) }
    {
        let from = self.items.len().saturating_sub(count);
        self.items.extend_from_within(from..)
    }

    /// Replaces the newest items, up to `count`, by these, of which the first is then the newest. On
    /// allocation failure nothing changes.
    pub fn put(&mut self, count: usize, items: &[T]) -> Result<(), AllocError>
        ensures { Changes result self.old self.new (items.now ++ drop count self.old) }
    {
        // Before the old items are dropped, so that nothing has changed if there is no memory.
        self.items.reserve(items.len())?;
        self.items.truncate(self.items.len().saturating_sub(count));
        let mut left = items.len();
        while left > 0 {
            left -= 1;
            self.items.push_reserved(items[left]);
        }
        Ok(())
    }

    /// Replaces the newest item, and up to `count` below it, by this one. Does nothing if there is no item.
    pub fn replace(&mut self, count: usize, item: T)
        ensures { self.new ≡ replaced item count self.old }
    {
        let n = self.items.len();
        if n > 0 {
            let kept = (n - 1).saturating_sub(count);
            self.items[kept] = item;
            self.items.truncate(kept + 1);
        }
    }
}
