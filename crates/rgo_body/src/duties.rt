//! What a goroutine owes around its instructions. Duties that end in a change of a shared count return the region, and the act at
//! the table follows; all others are done here.
//!
//! The name of a first duty always has a region: the record is possible, and region safety holds for every run. So the early
//! returns for a name without a region are never taken.

ghost use Rattle.std.specs.Prelude.{◌≡◌, ◌++◌, Some, map, slice_get, ◌^◌, ◌+◌, ◌<◌, ◌∷◌, [], ℕ, List, MatchOption, OnErr, OnOk, false, true};
ghost use Rattle.rgo_sound.specs.Code.Code.{CodeInstr};
ghost use Rattle.rgo_sound.specs.Code.Erasure.{erased_op};
ghost use Rattle.rgo_core.specs.Core.{Situation, Setup};
ghost use Rattle.rgo_core.specs.Records.{Record};
ghost use Rattle.rgo_core_steps.specs.Counts.{IsSharing, created_in_slot, shared_record};
ghost use Rattle.rgo_core_steps.specs.Making.{next_is_spread};
ghost use Rattle.rgo_holding.specs.Holds.{region_of_key};
ghost use Rattle.rgo_holding.specs.Known.{slot_or_global};
ghost use Rattle.rgo_holding.specs.Changes.{HoldingHasRoom, SameRegions};
ghost use Rattle.rgo_pages.specs.Claiming.{has_claimed};
ghost use Rattle.rgo_sound.specs.RegionMachine.Owed.{duties_of_op};
ghost use Rattle.rgo_sound.specs.RegionMachine.States as machine;
ghost use Rattle.rgo_core.specs.Memory.Records.{Fill};
ghost use Rattle.rgo_holding.specs.Holds.{IsHoldingOf};
ghost use Rattle.rgo_sound.specs.RegionMachine.declared.regions.Region.{Region as Region_};
ghost use Rattle.rgo_sound.specs.RegionMachine.declared.regions.Region.TheVariants.{Numbered};
ghost use Rattle.rgo_sound.specs.Stakes.{is_in};
ghost use Rattle.rgo_sound.specs.Tac.Ops.{operation_of};
ghost use Rattle.rgo_body.specs.Bodies.{CanCount, frames_of_body};
ghost use Rattle.rgo_body.specs.Duties as spec;
ghost use Rattle.rgo_body.specs.Nexts.{IsNextOf};
ghost use Rattle.rgo_body.specs.Programs as spec_program;
ghost use Rattle.rgo_body.specs.Shows.{BodyIsPossible, BodyShows};
ghost use Rattle.rgo_body.specs.Steps.{Becomes, BecomesHere, BecomesIf, StillShows};
ghost use Rattle.rgo_body.specs.declared.bodies.Side.TheVariants.{AtRest};

use crate::bodies::Body;
use crate::nexts::Next;
use crate::programs::Program;
use crate::queues::{Duty, Kind, Queue};
use rgo_holding::{Holding, Key};
use rgo_sound::region_machine::Region;
use rgo_sound::tac::Op;
use std::alloc::AllocError;

/// Whether a goroutine needs no stake in a region for a coming child: it has taken one, or the region is Global.
fn has_share(holding: &Holding, key: Key) -> bool
    ensures { (slots : ℕ) (h : machine.Holder) (fills : List Fill) (r : Region_) → IsHoldingOf slots holding.now h fills
        → region_of_key holding.now key ≡ Some r → result ≡ spec.has_share h.pending r }
{
    match holding.region(key) {
        Region::Global => true,
        Region::Numbered(_) => holding.is_pending(key),
    }
}

/// Whether a region stays when its name is removed: it is protected, or Global.
fn is_kept(holding: &Holding, key: Key) -> bool
    ensures { (slots : ℕ) (h : machine.Holder) (fills : List Fill) (r : Region_) → IsHoldingOf slots holding.now h fills
        → region_of_key holding.now key ≡ Some r → result ≡ spec.is_kept h.base h.environments r }
{
    match holding.region(key) {
        Region::Global => true,
        Region::Numbered(_) => holding.guards(key),
    }
}

/// The same of the first region of the base, when that protection ends. The protection that ends must not count for itself.
fn is_kept_beyond_base(holding: &Holding, key: Key) -> bool
    ensures { (slots : ℕ) (h : machine.Holder) (fills : List Fill) (r : Region_) (rest : List Region_) → IsHoldingOf slots holding.now h fills
        → region_of_key holding.now key ≡ Some r → h.base ≡ r ∷ rest → result ≡ spec.is_kept rest h.environments r }
{
    match holding.region(key) {
        Region::Global => true,
        Region::Numbered(_) => holding.guards_beyond_base(key),
    }
}

/// What a duty that ends a stake does to names and protections. Done after the access: until then the record still has the name.
fn forget(holding: &mut Holding, duty: Duty)
    ensures forgets { spec.Forgets holding.old holding.new duty }
    ensures regions { SameRegions holding.old holding.new }
{
    match duty {
        Duty::Remove(name) => holding.unbind(name),
        Duty::EndBase(_) => {
            holding.end_base();
        }
        Duty::Create(_) | Duty::Share(_) | Duty::Protect(_) | Duty::Unprotect(_) => {}
    }
}

/// What is owed before an instruction comes into a queue. Room for all of it is taken first, since the queue must not have a part. The
/// creates are put last and so come first: what is passed or protected may be a region that is created here.
///
/// # Errors
///
/// On allocation failure. Then the queue is as it was.
fn enqueue(queue: &mut Queue, next: &Next<'_>) -> Result<(), AllocError>
    ensures queued { OnOk result ((instr : CodeInstr) → slice_get next.now.function.body next.now.at ≡ Some instr
        → erased_op instr.op ≡ operation_of next.now.op
        → queue.new.duties ≡ map machine.Create instr.creates ++ (duties_of_op instr.op ++ queue.old.duties)) }
    ensures kept { OnErr result (queue.new.duties ≡ queue.old.duties) }
{
    let creates = next.creates();
    match next.op {
        Op::Call { .. } => {
            let protects = next.protects();
            match queue.reserve_both(creates.len(), protects.len()) {
                Ok(()) => {}
                Err(e) => return Err(e),
            }
            queue.put_all(Kind::Protect, protects);
            queue.put_all(Kind::Create, creates);
            Ok(())
        }
        Op::Go { .. } => {
            let passes = next.passes();
            match queue.reserve_both(creates.len(), passes.len()) {
                Ok(()) => {}
                Err(e) => return Err(e),
            }
            queue.put_shares(passes);
            queue.put_all(Kind::Create, creates);
            Ok(())
        }
        Op::Do { .. } | Op::Print { .. } | Op::Jump(_) | Op::Branch { .. } | Op::Return(_) => {
            match queue.reserve(creates.len()) {
                Ok(()) => {}
                Err(e) => return Err(e),
            }
            queue.put_all(Kind::Create, creates);
            Ok(())
        }
    }
}

impl Body {
    /// Puts what it owes before its next instruction into its queue.
    ///
    /// # Errors
    ///
    /// On allocation failure. Then it owes what it owed before.
    pub fn expand(&mut self, program: &Program<'_>, next: &Next<'_>) -> Result<(), AllocError>
        requires next { IsNextOf program.now.code (frames_of_body self.old) next.now }
        requires empty { self.old.queue.duties ≡ [] }
        requires not_yet { self.old.is_expanded ≡ false }
        ensures expanded { OnOk result (self.new.is_expanded ≡ true) }
        ensures stays { StillShows program.now self.old self.new }
        ensures same { self.new ≡ record self.old { queue = self.new.queue; is_expanded = self.new.is_expanded } }
    {
        match enqueue(&mut self.queue, next) {
            Ok(()) => {}
            Err(e) => return Err(e),
        }
        self.is_expanded = true;
        Ok(())
    }

    /// Its first duty protects the region of this name.
    ///
    /// # Errors
    ///
    /// On allocation failure. Then nothing has changed.
    pub fn protect(&mut self, program: &Program<'_>, name: u32) -> Result<(), AllocError>
        requires possible { BodyIsPossible program.now self.old }
        requires first { spec.OwesFirst self.old (machine.Protect name) }
        requires rests { self.old.side ≡ AtRest }
        ensures done { OnOk result (spec.DoesLocal program.now self.old self.new) }
        ensures stays { OnErr result (StillShows program.now self.old self.new) }
        ensures same { OnErr result (self.new ≡ record self.old { holding = self.new.holding }) }
    {
        // The name of a first duty has a region.
        let Some(key) = self.holding.key(name) else {
            unreachable!();
        };
        match self.holding.protect(key) {
            Ok(()) => {}
            Err(e) => return Err(e),
        }
        self.queue.pop();
        Ok(())
    }

    /// Its first duty ends a protection of the region of this name.
    pub fn unprotect(&mut self, program: &Program<'_>, name: u32)
        requires possible { BodyIsPossible program.now self.old }
        requires first { spec.OwesFirst self.old (machine.Unprotect name) }
        requires rests { self.old.side ≡ AtRest }
        ensures { spec.DoesLocal program.now self.old self.new }
    {
        // Never taken: each name that is protected has a region.
        let Some(key) = self.holding.key(name) else {
            return;
        };
        self.holding.unprotect(key);
        self.queue.pop();
    }

    /// Its first duty takes a stake in the region of this name for a goroutine that is about to start. If it has taken one already,
    /// or the region is Global, the duty is done. Otherwise returns the region, in which a stake is to be taken.
    pub fn share(&mut self, program: &Program<'_>, name: u32) -> Option<Key>
        requires possible { BodyIsPossible program.now self.old }
        requires first { spec.OwesFirst self.old (machine.Share name) }
        requires rests { self.old.side ≡ AtRest }
        ensures { MatchOption result (spec.DoesLocal program.now self.old self.new)
            (λ key. (self.new ≡ self.old) × spec.SharesIn program.now self.old key) }
    {
        let Some(key) = self.holding.key(name) else {
            return None;
        };
        if has_share(&self.holding, key) {
            self.queue.pop();
            return None;
        }
        Some(key)
    }

    /// Its first duty removes the region of this name. If the region is Global, or the goroutine protects it, the duty is done.
    /// Otherwise returns the region, in which its stake is to end.
    pub fn remove(&mut self, program: &Program<'_>, name: u32) -> Option<Key>
        requires possible { BodyIsPossible program.now self.old }
        requires first { spec.OwesFirst self.old (machine.Remove name) }
        requires rests { self.old.side ≡ AtRest }
        ensures { MatchOption result (spec.DoesLocal program.now self.old self.new)
            (λ key. (self.new ≡ self.old) × spec.LeavesIn program.now self.old key) }
    {
        let Some(key) = self.holding.key(name) else {
            return None;
        };
        if is_kept(&self.holding, key) {
            self.holding.unbind(name);
            self.queue.pop();
            return None;
        }
        Some(key)
    }

    /// Its first duty ends its protection of a region since it started. If it protects the region in another way, the duty is done.
    /// Otherwise returns the region, in which its stake is to end.
    pub fn end_base(&mut self, program: &Program<'_>) -> Option<Key>
        requires possible { BodyIsPossible program.now self.old }
        requires first { (region : Region_) × spec.OwesFirst self.old (machine.EndBase region) }
        requires rests { self.old.side ≡ AtRest }
        ensures { MatchOption result (spec.DoesLocal program.now self.old self.new)
            (λ key. (self.new ≡ self.old) × spec.LeavesIn program.now self.old key) }
    {
        // Never taken: the duty is owed for the first region of the base.
        let Some(key) = self.holding.first_base() else {
            return None;
        };
        if is_kept_beyond_base(&self.holding, key) {
            self.holding.end_base();
            self.queue.pop();
            return None;
        }
        Some(key)
    }

    /// Memory for a region that is created by this name.
    ///
    /// # Errors
    ///
    /// On allocation failure.
    pub fn room_to_create(&mut self, program: &Program<'_>, name: u32) -> Result<(), AllocError>
        requires possible { BodyIsPossible program.now self.old }
        requires first { spec.OwesFirst self.old (machine.Create name) }
        ensures room { OnOk result (HoldingHasRoom self.new.holding name) }
        ensures same { self.new ≡ record self.old { holding = self.new.holding } }
        ensures stays { StillShows program.now self.old self.new }
    {
        self.holding.reserve(name)
    }

    /// Its first duty has created a region in this slot. It cannot fail: `room_to_create` was called before the access.
    pub fn created(&mut self, program: &Program<'_>, name: u32, slot: u32)
        requires first { spec.OwesFirst self.old (machine.Create name) }
        requires room { HoldingHasRoom self.old.holding name }
        requires count { self.old.counts.made + 1 < 2 ^ 64 }
        ensures shows { (T : Setup) (g : ℕ) (c : Record) → Situation T g c → BodyShows T program.now self.old c → slot < T.sizes.regions
            → is_in slot c.frame.holder.stakes ≡ false → BodyShows T program.now self.new (created_in_slot c slot) }
        ensures done { spec.HasDoneDuty self.old self.new }
    {
        self.holding.create(name, slot);
        self.queue.pop();
        self.counts.add_region();
    }

    /// Its first duty has taken a stake in this region.
    pub fn shared(&mut self, program: &Program<'_>, key: Key)
        requires first { (name : ℕ) × spec.OwesFirst self.old (machine.Share name) }
        requires shares { spec.SharesIn program.now self.old key }
        ensures shows { BecomesHere program.now self.old self.new (λ T c. shared_record c) }
        ensures done { spec.HasDoneDuty self.old self.new }
    {
        self.holding.add_pending(key);
        self.queue.pop();
    }

    /// Its first duty has ended its stake in this region. From here on it knows no key of the region, so no instruction of it can reach
    /// the region's words.
    pub fn left(&mut self, program: &Program<'_>, key: Key)
        requires possible { BodyIsPossible program.now self.old }
        requires first { (d : machine.Duty) × spec.OwesFirst self.old d }
        requires leaves { spec.LeavesIn program.now self.old key }
        ensures shows { spec.StakeHasEnded program.now self.old self.new }
        ensures done { spec.HasDoneDuty self.old self.new }
        ensures counts { self.new.counts ≡ self.old.counts }
    {
        // Never taken: the caller attends to a duty that is first in the queue.
        let Some(duty) = self.queue.first() else {
            return;
        };
        forget(&mut self.holding, duty);
        self.holding.leave(key);
        self.queue.pop();
    }

    /// It has returned this many pages of a region, which is now gone. Counted after the slot was freed, when nothing of the region is
    /// left.
    pub fn gave_back(&mut self, program: &Program<'_>, pages: u64)
        requires removed { self.old.counts.removed + 1 < 2 ^ 64 }
        requires returned { self.old.counts.returned + pages < 2 ^ 64 }
        ensures shows { Becomes program.now self.old self.new (λ T c. spec.without_region c pages) }
        ensures same { self.new ≡ record self.old { counts = self.new.counts } }
    {
        self.counts.remove_region(pages);
    }

    /// It has claimed this page for a region that it knows, as its own page there.
    pub fn claimed(&mut self, program: &Program<'_>, key: Key, page: u32)
        requires count { self.old.counts.taken + 1 < 2 ^ 64 }
        ensures shows { (region : Region_) → region_of_key self.old.holding key ≡ Some region
            → BecomesIf program.now self.old self.new (λ T c. next_is_spread T c ≡ false)
            (λ T c. has_claimed T c page (slot_or_global T.sizes.regions region)) }
        ensures same { self.new ≡ record self.old { holding = self.new.holding; counts = self.new.counts } }
        ensures regions { SameRegions self.old.holding self.new.holding }
    {
        self.holding.claimed(key, page);
        self.counts.add_page();
    }
}
