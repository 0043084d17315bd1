//! What a goroutine has made and done. Each goroutine counts for itself, so that no word is shared for it; the driver adds up.
//! Most functions have room for one more as a premise: the turn asks `has_room` once before each instruction.

ghost use Rattle.std.specs.Prelude.{◌≡◌, ◌↔◌, ◌^◌, ◌≤◌, ◌<◌, ◌+◌, ℕ, suc, true};
ghost use Rattle.rgo_sound.specs.Tally.{no_share};
ghost use Rattle.rgo_body.specs.Bodies.{CanCount};

use std::marker::Model;

/// Its share of what the run has made and done.
#[derive(Drop)]
pub struct Counts {
    /// Regions.
    pub made: u64,
    pub removed: u64,
    /// Pages, and those of regions that were removed.
    pub taken: u64,
    pub returned: u64,
    /// Instructions.
    pub steps: u64,
    pub objects: u64,
    pub goroutines: u64,
}

impl Model for Counts {
    ghost use Rattle.rgo_sound.specs.RegionMachine.Counts as spec;

    ghost Value = { spec.Counts };

    ghost view = { λ c. record {
      made = c.made;
      removed = c.removed;
      taken = c.taken;
      returned = c.returned;
      steps = c.steps;
      objects = c.objects;
      goroutines = c.goroutines;
    } };
}

impl Counts {
    /// Nothing was made or done. `main` counts itself, since no other goroutine has started it.
    pub(crate) fn new(goroutines: u64) -> Counts
        ensures { result ≡ record no_share { goroutines = goroutines } }
    {
        Counts {
            made: 0,
            removed: 0,
            taken: 0,
            returned: 0,
            steps: 0,
            objects: 0,
            goroutines,
        }
    }

    /// An instruction.
    pub(crate) fn add_step(&mut self)
        requires { self.old.steps + 1 < 2 ^ 64 }
        ensures { self.new ≡ record self.old { steps = suc self.old.steps } }
    {
        self.steps += 1;
    }

    /// Several instructions.
    pub(crate) fn add_steps(&mut self, n: u64)
        requires { self.old.steps + n < 2 ^ 64 }
        ensures { self.new ≡ record self.old { steps = self.old.steps + n } }
    {
        self.steps += n;
    }

    /// An instruction that makes an object.
    pub(crate) fn add_object(&mut self)
        requires { (self.old.steps + 1 < 2 ^ 64) × (self.old.objects + 1 < 2 ^ 64) }
        ensures { self.new ≡ record self.old { steps = suc self.old.steps; objects = suc self.old.objects } }
    {
        self.steps += 1;
        self.objects += 1;
    }

    /// An instruction that starts a goroutine.
    pub(crate) fn add_goroutine(&mut self)
        requires { (self.old.steps + 1 < 2 ^ 64) × (self.old.goroutines + 1 < 2 ^ 64) }
        ensures { self.new ≡ record self.old { steps = suc self.old.steps; goroutines = suc self.old.goroutines } }
    {
        self.steps += 1;
        self.goroutines += 1;
    }

    /// A region is created.
    pub(crate) fn add_region(&mut self)
        requires { self.old.made + 1 < 2 ^ 64 }
        ensures { self.new ≡ record self.old { made = suc self.old.made } }
    {
        self.made += 1;
    }

    /// A page is claimed.
    pub(crate) fn add_page(&mut self)
        requires { self.old.taken + 1 < 2 ^ 64 }
        ensures { self.new ≡ record self.old { taken = suc self.old.taken } }
    {
        self.taken += 1;
    }

    /// A region is removed with these pages.
    pub(crate) fn remove_region(&mut self, pages: u64)
        requires removed { self.old.removed + 1 < 2 ^ 64 }
        requires returned { self.old.returned + pages < 2 ^ 64 }
        ensures { self.new ≡ record self.old {
          removed = suc self.old.removed;
          returned = self.old.returned + pages;
        } }
    {
        self.removed += 1;
        self.returned += pages;
    }

    /// Whether one more of each can be counted, and as many pages as an object may have. It is practically always so: at a step each
    /// nanosecond, 64 bits last for centuries.
    pub fn has_room(&self) -> bool
        ensures { (result ≡ true) ↔ CanCount self.now }
    {
        self.made < u64::MAX
            && self.removed < u64::MAX
            && self.taken < u64::MAX - 64
            && self.steps < u64::MAX
            && self.objects < u64::MAX
            && self.goroutines < u64::MAX
    }
}
