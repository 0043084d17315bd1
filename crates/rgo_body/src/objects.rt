//! The region, the own page and the reserved pages for an object that the next instruction makes.

ghost use Rattle.std.specs.Option.{option_map};
ghost use Rattle.std.specs.Prelude.{◌≡◌, ◌^◌, ◌+◌, ◌<◌, ◌≤◌, ◌++◌, ◌∷◌, [], ℕ, OnOk, Some, suc, true};
ghost use Rattle.rgo_sound.specs.Code.Names.{class_of};
ghost use Rattle.rgo_core.specs.Core.{Setup};
ghost use Rattle.rgo_core.specs.Records.{Record};
ghost use Rattle.rgo_core.specs.Memory.Records.{page_of};
ghost use Rattle.rgo_core_steps.specs.Making.{next_is_spread};
ghost use Rattle.rgo_holding.specs.Holds.{region_of_key};
ghost use Rattle.rgo_holding.specs.Known.{own_page, slot_or_global};
ghost use Rattle.rgo_pages.specs.Claiming.{has_claimed};
ghost use Rattle.rgo_sound.specs.RegionMachine.Regions.{class_region};
ghost use Rattle.rgo_sound.specs.RegionMachine.States.{top_names};
ghost use Rattle.rgo_sound.specs.RegionMachine.declared.regions.Region.{Region};
ghost use Rattle.rgo_body.specs.Programs.{CompactProgram as Program_};
ghost use Rattle.rgo_body.specs.Shows.{BodyShows};
ghost use Rattle.rgo_body.specs.Steps.{StillShows};

use crate::bodies::Body;
use crate::nexts::Next;
use crate::programs::Program;
use rgo_holding::{Key, Page};
use std::alloc::AllocError;

impl Body {
    /// The region of the class of a variable of the newest frame.
    pub fn region_of(&self, next: &Next<'_>, variable: u32) -> Option<Key>
        ensures { (T : Setup) (p : Program_) (c : Record) → BodyShows T p self.now c
            → option_map (region_of_key self.now.holding) result
            ≡ option_map Some (class_region (top_names c.frame.holder.environments) (class_of next.now.function variable)) }
    {
        self.holding.key_of(next.function.class_of(variable))
    }

    /// The page that it fills in a region; `None` before its first object there. No other goroutine fills this page, so what is left of
    /// it needs no access to find out.
    pub fn own_page(&self, key: Key) -> Option<Page>
        ensures { (T : Setup) (p : Program_) (c : Record) (region : Region) → BodyShows T p self.now c
            → region_of_key self.now.holding key ≡ Some region
            → option_map (own_page (slot_or_global T.sizes.regions region)) result
            ≡ page_of (slot_or_global T.sizes.regions region) c.memory.fills }
    {
        self.holding.page(key)
    }

    /// The slot of a region; Global has the one after those of the others, so that its pages are on a chain like all others.
    pub fn page_slot(&self, key: Key) -> u32
        ensures { (T : Setup) (p : Program_) (c : Record) (region : Region) → BodyShows T p self.now c
            → region_of_key self.now.holding key ≡ Some region → result ≡ slot_or_global T.sizes.regions region }
    {
        self.holding.slot(key)
    }

    /// Room for the numbers of this many pages more for a spread object. Taken before the first of them is claimed, since a claim
    /// cannot be undone.
    ///
    /// # Errors
    ///
    /// On allocation failure.
    pub fn room_to_reserve(&mut self, more: usize) -> Result<(), AllocError>
        ensures room { OnOk result (more ≤ self.new.reserved.room) }
        ensures same { self.new ≡ record self.old { reserved = record self.old.reserved { room = self.new.reserved.room } } }
        ensures stays { (p : Program_) → StillShows p self.old self.new }
    {
        self.reserved.reserve(more)
    }

    /// It has claimed this page for the spread object that its next instruction makes.
    pub fn reserved_page(&mut self, program: &Program<'_>, page: u32)
        requires room { 1 ≤ self.old.reserved.room }
        requires count { self.old.counts.taken + 1 < 2 ^ 64 }
        ensures shows { (T : Setup) (c : Record) (slot : ℕ) → BodyShows T program.now self.old c → next_is_spread T c ≡ true
            → BodyShows T program.now self.new (has_claimed T c page slot) }
        ensures pages { self.new.reserved.pages ≡ self.old.reserved.pages ++ page ∷ [] }
        ensures room { self.new.reserved.room + 1 ≡ self.old.reserved.room }
        ensures same { self.new ≡ record self.old {
          reserved = self.new.reserved;
          counts = record self.old.counts { taken = suc self.old.counts.taken };
        } }
    {
        self.reserved.push(page);
        self.counts.add_page();
    }
}
