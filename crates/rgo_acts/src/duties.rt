//! Duties: the steps with regions that a goroutine owes around its instructions. It attends to the first one.
//!
//! Each duty is a step of its own in the run, so other goroutines may act between any two of them. What keeps this safe is that a
//! stake for a new goroutine is taken before it starts, and that a goroutine's own stake ends after its last use of the region.
//! Why: docs/DECISIONS.md, "Counts and pages as words".
ghost use Rattle.std.specs.Prelude.{◌≡◌, ◌+◌, ◌<◌, [], ℕ, List, false, true};
ghost use Rattle.rgo_body.specs.Duties.{DoesLocal, LeavesIn, OwesFirst};
ghost use Rattle.rgo_body.specs.Queues.{duty_of};
ghost use Rattle.rgo_body.specs.Shows.{BodyIsPossible};
ghost use Rattle.rgo_body.specs.Steps.{StillShows};
ghost use Rattle.rgo_body.specs.declared.bodies.Side.TheVariants.{AtRest};
ghost use Rattle.rgo_sound.specs.RegionMachine.States as machine;
ghost use Rattle.rgo_sound.specs.RegionMachine.declared.regions.Region.{Region};
ghost use Rattle.rgo_acts.specs.Actors.{IsActorOf};
ghost use Rattle.rgo_acts.specs.Attending.{ActorAttends, HasAttended, HasAttendedLocally, IsAtDuty};
ghost use Rattle.rgo_acts.specs.DutyExamples.{DutyExamples};

use crate::actors::Actor;
use crate::runs::Run;
use rgo_body::pages::releasing;
use rgo_body::{Body, Duty, Program};
use rgo_core_steps::counting::Steps;
use rgo_counts::stakes::Left;
use rgo_counts::{creation, stakes};
use rgo_holding::Key;
use std::sync::ledger::Ledger;

/// What became of a duty.
#[derive(Clone, Copy, Debug, PartialEq, Eq)]
pub enum Attended {
    /// It is done.
    Done,
    /// It creates a region, and each slot was found in use. The goroutine owes it as before. The run continues, since others may free
    /// one: only the driver can show that none will.
    Short,
    /// Memory ran out. The goroutine owes it as before.
    NoMemory,
}

/// Attends to the first duty. The caller knows that it exists.
pub fn attend<L: Ledger>(actor: &mut Actor, run: &Run<'_, '_>, steps: &mut Steps<L>) -> Attended
    requires first { (d : machine.Duty) × IsAtDuty run.now actor.old d }
    ensures { ActorAttends run.now actor.old actor.new result }
{
    match actor.body.duty() {
        Some(Duty::Create(name)) => return create(actor, run, name, steps),
        Some(Duty::Protect(name)) => return protect(actor, run, name),
        Some(Duty::Share(name)) => share(actor, run, name, steps),
        Some(Duty::Unprotect(name)) => unprotect(actor, run, name),
        Some(Duty::Remove(name)) => remove(actor, run, name, steps),
        Some(Duty::EndBase(_)) => end_base(actor, run, steps),
        // The caller knows that there is one.
        None => unreachable!(),
    }
    Attended::Done
}

/// Attends to the first duties while they are local, and while `left` local steps more can be counted. Returns whether none are
/// left.
pub(crate) fn attend_local(actor: &mut Actor, run: &Run<'_, '_>, left: usize) -> bool
    requires stands { IsActorOf run.now actor.old }
    requires rests { actor.old.body.side ≡ AtRest }
    requires behind { actor.old.behind + left < 18446744073709551616 }
    ensures attended { HasAttendedLocally run.now actor.old actor.new }
    ensures behind { actor.new.behind + left < 18446744073709551616 }
    ensures empty { result ≡ true → actor.new.body.queue.duties ≡ [] }
{
    while let Some(duty) = actor.body.duty() {
        if actor.behind >= u64::MAX - left as u64 {
            return false;
        }
        if !do_locally(&mut actor.body, run.program, duty) {
            return false;
        }
        actor.behind += 1;
    }
    true
}

/// Does the first duty if it needs no access. Returns whether it is done; if it needs one, or memory runs out, the goroutine owes
/// it as before, and `attend` is for it.
fn do_locally(body: &mut Body, program: &Program<'_>, duty: Duty) -> bool
    requires possible { BodyIsPossible program.now body.old }
    requires first { OwesFirst body.old (duty_of duty) }
    requires rests { body.old.side ≡ AtRest }
    ensures done { result ≡ true → DoesLocal program.now body.old body.new }
    ensures stays { result ≡ false → StillShows program.now body.old body.new }
    ensures same { result ≡ false → body.new ≡ record body.old { holding = body.new.holding } }
{
    match duty {
        Duty::Protect(name) => body.protect(program, name).is_ok(),
        Duty::Unprotect(name) => {
            body.unprotect(program, name);
            true
        }
        Duty::Remove(name) => body.remove(program, name).is_none(),
        Duty::Create(_) | Duty::Share(_) | Duty::EndBase(_) => false,
    }
}

/// Creates a region. Memory for its name is taken first, since a slot that was taken cannot be returned without a removal.
fn create<L: Ledger>(
    actor: &mut Actor,
    run: &Run<'_, '_>,
    name: u32,
    steps: &mut Steps<L>,
) -> Attended
    requires first { IsAtDuty run.now actor.old (machine.Create name) }
    ensures { ActorAttends run.now actor.old actor.new result }
{
    match actor.body.room_to_create(run.program, name) {
        Ok(()) => {}
        Err(_) => return Attended::NoMemory,
    }
    if run.sizes.slots == 0 {
        return Attended::Short;
    }
    let slot = creation::create_from(
        run.table,
        &mut actor.seat,
        actor.behind,
        &run.sizes,
        actor.searches.slots.first_slot(run),
        steps,
    );
    actor.behind = 0;
    match slot {
        Ok(slot) => {
            actor.searches.slots.found(slot);
            actor.body.created(run.program, name, slot);
            Attended::Done
        }
        Err(_) => Attended::Short,
    }
}

/// Protects a region: a local step, since a protection only keeps this goroutine from ending its own stake.
fn protect(actor: &mut Actor, run: &Run<'_, '_>, name: u32) -> Attended
    requires first { IsAtDuty run.now actor.old (machine.Protect name) }
    ensures { ActorAttends run.now actor.old actor.new result }
{
    match actor.body.protect(run.program, name) {
        Ok(()) => {
            actor.behind += 1;
            Attended::Done
        }
        Err(_) => Attended::NoMemory,
    }
}

/// Ends a protection.
fn unprotect(actor: &mut Actor, run: &Run<'_, '_>, name: u32)
    requires first { IsAtDuty run.now actor.old (machine.Unprotect name) }
    ensures { HasAttended run.now actor.old actor.new }
{
    actor.body.unprotect(run.program, name);
    actor.behind += 1;
}

/// Takes a stake for a goroutine that is about to start, unless it has one. The parent does so while it has a stake of its own, so the
/// count cannot reach its end in between.
fn share<L: Ledger>(actor: &mut Actor, run: &Run<'_, '_>, name: u32, steps: &mut Steps<L>)
    requires first { IsAtDuty run.now actor.old (machine.Share name) }
    ensures { HasAttended run.now actor.old actor.new }
{
    match actor.body.share(run.program, name) {
        Some(key) => {
            let slot = actor.body.slot(key);
            stakes::share(
                run.table,
                &mut actor.seat,
                actor.behind,
                &run.sizes,
                slot,
                steps,
            );
            actor.behind = 0;
            actor.body.shared(run.program, key);
        }
        None => actor.behind += 1,
    }
}

/// Removes a region. Only the last stake returns its pages; otherwise this goroutine just forgets it.
fn remove<L: Ledger>(actor: &mut Actor, run: &Run<'_, '_>, name: u32, steps: &mut Steps<L>)
    requires first { IsAtDuty run.now actor.old (machine.Remove name) }
    ensures { HasAttended run.now actor.old actor.new }
{
    match actor.body.remove(run.program, name) {
        Some(key) => leave(actor, run, key, steps),
        None => actor.behind += 1,
    }
}

/// Ends a protection that a region has had since the goroutine started, and removes the region.
fn end_base<L: Ledger>(actor: &mut Actor, run: &Run<'_, '_>, steps: &mut Steps<L>)
    requires first { (region : Region) × IsAtDuty run.now actor.old (machine.EndBase region) }
    ensures { HasAttended run.now actor.old actor.new }
{
    match actor.body.end_base(run.program) {
        Some(key) => leave(actor, run, key, steps),
        None => actor.behind += 1,
    }
}

/// Ends the stake in this region. If it was the last one, returns the pages of the region, and then frees the slot: in the other
/// order a new region could have the slot while its chain is still the old one. Nobody else does this, and it takes no memory, so
/// it is done within the act.
fn leave<L: Ledger>(actor: &mut Actor, run: &Run<'_, '_>, key: Key, steps: &mut Steps<L>)
    requires first { (d : machine.Duty) × IsAtDuty run.now actor.old d }
    requires leaves { LeavesIn run.now.program actor.old.body key }
    ensures { HasAttended run.now actor.old actor.new }
{
    let slot = actor.body.slot(key);
    let own = actor.body.own_page(key);
    let left = stakes::leave(
        run.table,
        &mut actor.seat,
        actor.behind,
        &run.sizes,
        slot,
        steps,
    );
    actor.behind = 0;
    actor.body.left(run.program, key);
    match left {
        Left::Others => {}
        Left::Last => {
            let pages = releasing::release(run.table, &mut actor.seat, &run.sizes, slot, steps);
            stakes::free_slot(run.table, &mut actor.seat, &run.sizes, slot, steps);
            actor.body.gave_back(run.program, pages);
            actor.searches.freed(slot, own);
        }
    }
}

/// Duties and shortages that meet their definitions, and some that do not.
pub fn examples()
    ensures { DutyExamples }
{}
