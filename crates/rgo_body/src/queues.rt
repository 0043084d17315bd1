//! What a goroutine owes, in the order in which it is done. New duties always come before the old ones, as in the definition: what is
//! owed after an instruction is done before what was owed already.

ghost use Rattle.std.specs.Prelude.{◌≡◌, ◌≤◌, ◌+◌, ◌++◌, ◌∷◌, [], List, MatchOption, OnOk, length, map};
ghost use Rattle.rgo_sound.specs.RegionMachine.Owed.{regions_named};
ghost use Rattle.rgo_sound.specs.RegionMachine.States as machine;
ghost use Rattle.rgo_body.specs.Queues as spec;

use rgo_sound::region_machine::Region;
use rgo_sound::tac::Class;
use std::alloc::{AllocError, Global};
use std::marker::Model;

/// A step with a region, by its name in the newest frame. At the end there is no frame.
#[derive(Clone, Copy, Debug, PartialEq, Eq)]
pub enum Duty {
    Create(u32),
    /// A stake for a goroutine that is about to start.
    Share(u32),
    Protect(u32),
    Unprotect(u32),
    Remove(u32),
    /// The end of the protection that a region has which was given at two positions when the goroutine started.
    EndBase(Region),
}

/// A duty of a name, without the name.
#[derive(Clone, Copy)]
pub(crate) enum Kind {
    Create,
    Protect,
    Unprotect,
    Remove,
}

fn duty_with(kind: Kind, name: u32) -> Duty
    ensures { spec.duty_of result ≡ spec.duty_with kind name }
{
    match kind {
        Kind::Create => Duty::Create(name),
        Kind::Protect => Duty::Protect(name),
        Kind::Unprotect => Duty::Unprotect(name),
        Kind::Remove => Duty::Remove(name),
    }
}

/// Duties; the first one is the last of the list, so both a new first one and its end cost no move of the others.
#[derive(Drop)]
pub(crate) struct Queue {
    duties: Vec<Duty>,
}

impl Model for Queue {
    ghost use Rattle.std.specs.Prelude.{◌-◌};
    ghost use Rattle.std.specs.Vec.{vec_capacity, vec_len};
    ghost use Rattle.rgo_body.specs.Queues as spec;

    ghost Value = { spec.Queue };

    ghost view = { λ q. record {
      duties = spec.duties_of q.duties.items;
      room = vec_capacity q.duties - vec_len q.duties;
    } };
}

impl Queue {
    pub(crate) fn new(alloc: Global) -> Queue
        ensures { result.duties ≡ [] }
    {
        Queue {
            duties: Vec::new(alloc),
        }
    }

    pub(crate) fn first(&self) -> Option<Duty>
        ensures { MatchOption result (self.now.duties ≡ [])
            (λ d. (ds : List machine.Duty) × (self.now.duties ≡ spec.duty_of d ∷ ds)) }
    {
        self.duties.last().copied()
    }

    /// The first duty is done.
    pub(crate) fn pop(&mut self)
        ensures { (d : machine.Duty) (ds : List machine.Duty) → self.old.duties ≡ d ∷ ds → self.new.duties ≡ ds }
    {
        let _ = self.duties.pop();
    }

    /// Reserves room for this many more.
    ///
    /// # Errors
    ///
    /// On allocation failure.
    pub(crate) fn reserve(&mut self, more: usize) -> Result<(), AllocError>
        ensures room { OnOk result (more ≤ self.new.room) }
        ensures same { self.new.duties ≡ self.old.duties }
    {
        self.duties.reserve(more)
    }

    /// Reserves room for the sum of both. A sum that no number can hold is more than any memory, so it is a refusal of memory.
    ///
    /// # Errors
    ///
    /// On allocation failure.
    pub(crate) fn reserve_both(&mut self, first: usize, second: usize) -> Result<(), AllocError>
        ensures room { OnOk result (first + second ≤ self.new.room) }
        ensures same { self.new.duties ≡ self.old.duties }
    {
        match first.checked_add(second) {
            Some(more) => self.reserve(more),
            None => Err(AllocError),
        }
    }

    /// The duty comes before all others. There must be room, since most duties are put after an access.
    pub(crate) fn put(&mut self, duty: Duty)
        requires room { 1 ≤ self.old.room }
        ensures put { self.new.duties ≡ spec.duty_of duty ∷ self.old.duties }
        ensures room { self.new.room + 1 ≡ self.old.room }
    {
        self.duties.push_reserved(duty);
    }

    /// The duties of these names come before all others.
    pub(crate) fn put_all(&mut self, kind: Kind, names: &[u32])
        requires room { length names.now ≤ self.old.room }
        ensures put { self.new.duties ≡ map (spec.duty_with kind) names.now ++ self.old.duties }
        ensures room { self.new.room + length names.now ≡ self.old.room }
    {
        let mut i = names.len();
        while i > 0 {
            i -= 1;
            self.put(duty_with(kind, names[i]));
        }
    }

    /// A stake for each region that is passed comes before all others. A region that is passed twice gets two duties; the second one is
    /// done at once, since a child needs one stake.
    pub(crate) fn put_shares(&mut self, passes: &[Class])
        requires room { length passes.now ≤ self.old.room }
        ensures put { self.new.duties ≡ map machine.Share (regions_named passes.now) ++ self.old.duties }
        ensures room { self.old.room ≤ self.new.room + length passes.now }
    {
        let mut i = passes.len();
        while i > 0 {
            i -= 1;
            match passes[i] {
                Class::NoClass | Class::Global => {}
                Class::Name(name) => self.put(Duty::Share(name)),
            }
        }
    }
}
