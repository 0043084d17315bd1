//! The memory of a running program.

ghost use Rattle.std.specs.Prelude.{◌≡◌, ℕ, map, length, IsTrue, IfOk, IfSome};
ghost use Rattle.std.specs.Borrow.{sem};
ghost use Rattle.std.specs.Option.{option_copied, option_copied_mut};
ghost use Rattle.rgo_memory.specs.Values.{zero_of};
ghost use Rattle.rgo_memory.specs.Opening.{opening};
ghost use Rattle.rgo_interpreter.specs.Blocks.{slot_in_block};
ghost use Rattle.rgo_memory.specs.Memory.{emptied, object_at};
ghost use Rattle.rgo_interpreter.specs.Lending.{LendsBlock, LendsObject};
ghost use Rattle.rgo_interpreter.specs.Views.{memory_view, object_view_or_empty, block_of, IsBlockAt};

use crate::blocks::{Block, SLOTS};
use crate::objects::Object;
use indexmap::IndexMap;
use rgo_memory::{Value, zero};
use rgo_typed::Variable;
use std::alloc::{AllocError, Global};

/// The objects that were made, each by its number in the order of making, and the package
/// variables. An object can be taken away: then its memory is returned, and it reads as a struct
/// without fields. Numbers are not used again, so that values are those of the definition, whose heap never frees.
#[derive(Drop)]
pub struct Memory {
    /// The objects, by blocks of consecutive numbers. A block without objects is not kept, unless it is the newest one: so the
    /// memory of a run follows the objects that are there, and not those that were made.
    pub(crate) blocks: IndexMap<usize, Block>,
    /// How many objects were made: the next one has this number.
    pub(crate) made: usize,
    pub variables: Vec<Value>,
    /// Lists that frames no longer need: new frames take their variables from here, so that a call
    /// allocates nothing. What they hold is not part of the memory.
    pub spare: Vec<Vec<Value>>,
}

fn zero_variables(alloc: Global, variables: &[Variable]) -> Result<Vec<Value>, AllocError>
    ensures { IfOk result (λ values. values.items ≡ map (λ v. zero_of v.ty) variables.now) }
{
    variables.iter().map(|v| zero(&v.ty)).collect(alloc)
}

impl Memory {
    /// The memory as a program starts: no object, and each package variable at the zero of its type
    /// (The Go Programming Language Specification, "The zero value").
    ///
    /// # Errors
    ///
    /// On allocation failure.
    pub fn new(alloc: Global, variables: &[Variable]) -> Result<Memory, AllocError>
        ensures { IfOk result (λ memory. memory_view memory ≡ opening variables.now) }
    {
        Ok(Memory {
            blocks: IndexMap::new(alloc),
            made: 0,
            variables: zero_variables(alloc, variables)?,
            spare: Vec::new(alloc),
        })
    }

    /// How many objects were made. Those that were taken away are counted too.
    #[inline(always)]
    pub fn len(&self) -> usize
        ensures { result ≡ length (memory_view self.now).heap }
    {
        self.made
    }

    /// Takes an object away, and returns its memory. Its number is not used again. Nothing happens if it was taken away
    /// before, or never made. Called when a region is removed, for each of its objects.
    pub fn take_away(&mut self, n: usize)
        ensures { memory_view self.new ≡ emptied (memory_view self.old) n }
    {
        let number = n / SLOTS;
        let Some(block) = self.block_mut(number) else {
            return;
        };
        block.clear(n % SLOTS);
        // The newest block stays, since the next object comes into it.
        if number != self.made / SLOTS {
            self.drop_if_empty(number);
        }
    }

    /// Drops the block of this number, if it has no object.
    pub(crate) fn drop_if_empty(&mut self, number: usize)
        ensures slots { (b k : ℕ) → slot_in_block (block_of self.new b) k ≡ slot_in_block (block_of self.old b) k }
        ensures made { self.new.made ≡ self.old.made }
        ensures variables { self.new.variables ≡ self.old.variables }
    {
        let Some(block) = self.block(number) else {
            return;
        };
        if block.is_empty() {
            self.blocks.swap_remove(&number);
        }
    }

    /// Whether the block at this index has this number.
    #[inline(always)]
    fn is_at(&self, index: usize, number: usize) -> bool
        ensures { IsTrue result → IsBlockAt self.now index number }
    {
        match self.blocks.get_index(index) {
            Some((key, _)) => *key == number,
            None => false,
        }
    }

    /// The index of the block of a number, if it can be found without a lookup: if the blocks that were removed are all
    /// older, or all newer. Both are guesses, and `is_at` tests each. A walk over a list takes a quarter longer if each access
    /// searches the map.
    #[inline(always)]
    fn index_of(&self, number: usize) -> Option<usize>
        ensures { IfSome result (λ index. IsBlockAt self.now index number) }
    {
        let made = self.made.saturating_add(SLOTS - 1) / SLOTS;
        let removed = made.saturating_sub(self.blocks.len());
        let index = number.saturating_sub(removed);
        if self.is_at(index, number) {
            Some(index)
        } else if self.is_at(number, number) {
            Some(number)
        } else {
            None
        }
    }

    /// The block of a number.
    #[inline(always)]
    fn block(&self, number: usize) -> Option<&Block>
        ensures { option_copied result ≡ block_of self.now number }
    {
        match self.index_of(number) {
            Some(index) => self.blocks.get_index(index).map(|(_, block)| block),
            None => self.blocks.get(&number),
        }
    }

    /// The same, to be changed.
    #[inline(always)]
    pub(crate) fn block_mut(&mut self, number: usize) -> Option<&mut Block>
        ensures* writes_back { sem 𝓛 (LendsBlock self.entry number result) }
        ensures value { option_copied_mut result ≡ block_of self.old number }
    {
        match self.index_of(number) {
            Some(index) => self.blocks.get_index_mut(index),
            None => self.blocks.get_mut(&number),
        }
    }

    /// The object of a number, `None` if it was taken away or never made. The test of `made` is needed by the clause: the memory that
    /// clauses see ends there, and no invariant states that blocks do, too.
    #[inline(always)]
    pub(crate) fn object(&self, n: usize) -> Option<&Object>
        ensures { object_at (memory_view self.now) n ≡ object_view_or_empty (option_copied result) }
    {
        if n < self.made {
            match self.block(n / SLOTS) {
                Some(block) => block.get(n % SLOTS),
                None => None,
            }
        } else {
            None
        }
    }

    /// The same, to be changed.
    #[inline(always)]
    pub(crate) fn object_mut(&mut self, n: usize) -> Option<&mut Object>
        ensures* writes_back { sem 𝓛 (LendsObject self.entry n result) }
        ensures value { object_at (memory_view self.old) n ≡ object_view_or_empty (option_copied_mut result) }
    {
        if n < self.made {
            match self.block_mut(n / SLOTS) {
                Some(block) => block.get_mut(n % SLOTS),
                None => None,
            }
        } else {
            None
        }
    }
}
