//! The pages that a goroutine has reserved for the spread object that its next instruction makes.

ghost use Rattle.std.specs.Prelude.{◌≡◌, ◌≤◌, ◌+◌, ◌++◌, ◌∷◌, [], OnOk};
ghost use Rattle.rgo_body.specs.Reserves as spec;

use std::alloc::{AllocError, Global};
use std::marker::Model;

/// The numbers of these pages, that of the lead page first. Without pages there is no memory.
#[derive(Drop)]
pub(crate) struct Reserved {
    pages: Vec<u32>,
}

impl Model for Reserved {
    ghost use Rattle.std.specs.Prelude.{◌-◌};
    ghost use Rattle.std.specs.Vec.{vec_capacity, vec_len};
    ghost use Rattle.rgo_body.specs.Reserves as spec;

    ghost Value = { spec.PageReserve };

    ghost view = { λ r. record {
      pages = r.pages.items;
      room = vec_capacity r.pages - vec_len r.pages;
    } };
}

impl Reserved {
    pub(crate) fn new(alloc: Global) -> Reserved
        ensures { result ≡ spec.none_reserved }
    {
        Reserved {
            pages: Vec::new(alloc),
        }
    }

    pub(crate) fn pages(&self) -> &[u32]
        ensures { result.now ≡ self.now.pages }
    {
        &self.pages
    }

    /// Reserves room for exactly this many more, as it is known how many pages the object needs.
    ///
    /// # Errors
    ///
    /// On allocation failure.
    pub(crate) fn reserve(&mut self, more: usize) -> Result<(), AllocError>
        ensures room { OnOk result (more ≤ self.new.room) }
        ensures same { self.new.pages ≡ self.old.pages }
    {
        self.pages.reserve_exact(more)
    }

    /// The page comes after all others.
    pub(crate) fn push(&mut self, page: u32)
        requires room { 1 ≤ self.old.room }
        ensures pages { self.new.pages ≡ self.old.pages ++ page ∷ [] }
        ensures room { self.new.room + 1 ≡ self.old.room }
    {
        self.pages.push_reserved(page);
    }

    /// The pages are no longer reserved. The list gives up its memory: spread objects are rare, and a goroutine that waits
    /// should take little.
    pub(crate) fn clear(&mut self)
        ensures { self.new ≡ spec.none_reserved }
    {
        self.pages.clear();
        self.pages.shrink_to(0);
    }
}
