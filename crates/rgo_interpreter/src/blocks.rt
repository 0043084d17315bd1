//! Blocks of objects: the objects of neighbouring numbers are neighbours in memory, too. A program often reads
//! objects in about the order in which it made them.

ghost use Rattle.std.specs.Prelude.{◌≡◌, ◌<◌, ℕ, IsTrue, IfOk, OnOk, None, Some};
ghost use Rattle.std.specs.Borrow.{sem};
ghost use Rattle.std.specs.Option.{option_copied, option_copied_mut};
ghost use Rattle.rgo_interpreter.specs.Blocks.{slot_of_block, Puts};
ghost use Rattle.rgo_interpreter.specs.Lending.{LendsSlot};

use crate::objects::Object;
use std::alloc::{AllocError, Global};

/// How many numbers share a block: a power of two, so that the block and the slot of a number are a shift and a mask.
pub(crate) const SLOTS: usize = 16;

/// The objects of consecutive numbers, by slots. There may be fewer slots than numbers: the others have no object.
#[derive(Drop)]
pub(crate) struct Block {
    slots: Vec<Option<Object>>,
}

impl Block {
    /// A block without objects.
    ///
    /// # Errors
    ///
    /// On allocation failure.
    pub(crate) fn new(alloc: Global) -> Result<Block, AllocError>
        ensures { IfOk result (λ block. (k : ℕ) → slot_of_block block k ≡ None) }
    {
        Ok(Block {
            slots: Vec::with_capacity(alloc, SLOTS)?,
        })
    }

    /// The object in a slot.
    #[inline(always)]
    pub(crate) fn get(&self, slot: usize) -> Option<&Object>
        ensures { option_copied result ≡ slot_of_block self.now slot }
    {
        match self.slots.get(slot) {
            Some(object) => object.as_ref(),
            None => None,
        }
    }

    /// The same, to be changed.
    #[inline(always)]
    pub(crate) fn get_mut(&mut self, slot: usize) -> Option<&mut Object>
        ensures* writes_back { sem 𝓛 (LendsSlot self.entry slot result) }
        ensures value { option_copied_mut result ≡ slot_of_block self.old slot }
    {
        match self.slots.get_mut(slot) {
            Some(object) => object.as_mut(),
            None => None,
        }
    }

    /// A new object in a slot, which is the last one from then on.
    ///
    /// # Errors
    ///
    /// On allocation failure.
    pub(crate) fn put(&mut self, slot: usize, object: Object) -> Result<(), AllocError>
        ensures put { OnOk result (slot_of_block self.new slot ≡ Some object) }
        ensures kept { (k : ℕ) → k < slot → slot_of_block self.new k ≡ slot_of_block self.old k }
    {
        // Changes nothing in a run: the newest block has a slot for each number below. No invariant states that, and with this
        // the contract holds without it.
        self.slots.resize_with(slot, || None)?;
        self.slots.push(Some(object))?;
        Ok(())
    }

    /// Takes the object in a slot away, and returns its memory. The slot stays, since the numbers of the others count on it.
    pub(crate) fn clear(&mut self, slot: usize)
        ensures { Puts self.old slot None self.new }
    {
        if let Some(object) = self.slots.get_mut(slot) {
            *object = None;
        }
    }

    /// Whether no slot has an object. It looks at the newest first, since the oldest are mostly taken away first.
    pub(crate) fn is_empty(&self) -> bool
        ensures { IsTrue result → (k : ℕ) → slot_of_block self.now k ≡ None }
    {
        self.slots.iter().rev().all(|object| object.is_none())
    }
}
