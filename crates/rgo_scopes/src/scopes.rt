//! The table of blocks: what each block declares, and what each declaration hid.
//!
//! Invariant: the index says of each name what the blocks say, and each declaration has what its name meant before it. So a look-up
//! takes one step however deep blocks are nested, and the end of a block only undoes its own declarations.

ghost use Rattle.std.specs.Prelude.{◌≡◌, OnOk, OnErr, is_some};
ghost use Rattle.rgo_scopes.specs.Blocks.{no_names, found, found_in, declared, entered, block_left};

use crate::newest::{Newest, Seen, look_up, note, restore};
use indexmap::IndexMap;
use std::alloc::{AllocError, Global};
use std::marker::Model;
use std::mem;

/// A declaration, and what its name meant before.
#[derive(Drop)]
pub(crate) struct Binding<'a, T> {
    name: &'a [u8],
    value: T,
    hidden: Option<Seen<T>>,
}

/// Names with what they mean, block by block. A block may declare a name again, and so may the
/// blocks inside it.
///
/// Costs are expected costs, since a name is found by a hash with a fixed seed. The table keeps
/// memory for each name that was ever declared.
#[derive(Drop)]
pub struct Scopes<'a, T> {
    here: Vec<Binding<'a, T>>,
    outer: Vec<Vec<Binding<'a, T>>>,
    newest: Newest<'a, T>,
}

impl<'a, T> Model for Scopes<'a, T> {
    ghost use Rattle.rgo_scopes.specs.Blocks.{NestedBlocks};

    ghost Value = { NestedBlocks T };

    ghost use Rattle.rgo_scopes.specs.Trail.{blocks_of, IsTrail};

    ghost view = { λ s. blocks_of s.here.items s.outer.items };

    ghost invariant = { λ s. IsTrail s.here.items s.outer.items s.newest };
}

impl<'a, T: Copy> Scopes<'a, T> {
    /// One block with no names. Allocates nothing.
    pub fn new(alloc: Global) -> Self
        ensures { result ≡ no_names }
    {
        Scopes {
            here: Vec::new(alloc),
            outer: Vec::new(alloc),
            newest: IndexMap::new(alloc),
        }
    }

    /// What a name means: the value of its newest declaration in the innermost block that declares
    /// it. Takes O(1) time.
    pub fn get(&self, name: &[u8]) -> Option<T>
        ensures { result ≡ found name.now self.now }
    {
        match look_up(&self.newest, name) {
            Some(seen) => {
                let Seen { value, .. } = seen;
                Some(value)
            }
            None => None,
        }
    }

    /// Whether the innermost block declares a name. Takes O(1) time.
    pub fn is_declared_here(&self, name: &[u8]) -> bool
        ensures { result ≡ is_some (found_in name.now self.now.here) }
    {
        match look_up(&self.newest, name) {
            Some(seen) => seen.block == self.outer.len(),
            None => false,
        }
    }

    /// Declares a name in the innermost block, where it may be declared already. Takes amortised
    /// O(1) time. On allocation failure the table stays as it was.
    pub fn declare(&mut self, name: &'a [u8], value: T) -> Result<(), AllocError>
        ensures declared { OnOk result (self.new ≡ declared name.now value self.old) }
        ensures err { OnErr result (self.new ≡ self.old) }
    {
        // Room first: after the index has changed, nothing may fail.
        let hidden = look_up(&self.newest, name);
        let block = self.outer.len();
        self.here.reserve(1)?;
        note(&mut self.newest, name, Seen { value, block })?;
        self.here.push_reserved(Binding {
            name,
            value,
            hidden,
        });
        Ok(())
    }

    /// Begins a block inside the innermost one. Takes amortised O(1) time. On allocation failure
    /// the table stays as it was.
    pub fn enter(&mut self) -> Result<(), AllocError>
        ensures entered { OnOk result (self.new ≡ entered self.old) }
        ensures err { OnErr result (self.new ≡ self.old) }
    {
        let alloc = *self.here.allocator();
        self.outer.reserve(1)?;
        let here = mem::replace(&mut self.here, Vec::new(alloc));
        self.outer.push_reserved(here);
        Ok(())
    }

    /// Ends the innermost block, so that its names mean again what they meant before it. Ending the
    /// outermost block leaves one with no names. Takes O(n) time for the n declarations of the
    /// block. Allocates nothing.
    pub fn leave(&mut self)
        ensures { self.new ≡ block_left self.old }
    {
        // The newest first: a name that the block declared twice is hidden twice, and its first declaration has the outer meaning.
        while let Some(binding) = self.here.pop() {
            restore(&mut self.newest, binding.name, binding.hidden);
        }
        if let Some(block) = self.outer.pop() {
            self.here = block;
        }
    }
}
