//! Ends of the run: the return of `main`, a trap, and limits. Each sets the end mark, a bit that is never cleared, and returns
//! whether this has ended the run; it has not if another goroutine had set the mark before. Either result stays true, so at most
//! one goroutine ever gets `true`, and its mark says how the run ends.
ghost use Rattle.std.specs.Prelude.{◌≡◌, ◌^◌, ◌<◌, ◌+◌, ◌∷◌, [], ℕ, List, Option, length, true};
ghost use Rattle.rgo_body.specs.Bodies.{frames_of_body};
ghost use Rattle.rgo_body.specs.Nexts.{IsNextOf};
ghost use Rattle.rgo_body.specs.Steps.{HasRoomBack};
ghost use Rattle.rgo_core.specs.Rule.Views.{number_of};
ghost use Rattle.rgo_core_steps.specs.Ends.{GoroutineEndsRun, InstrTraps};
ghost use Rattle.rgo_sound.specs.Machine.Limits.{deepest};
ghost use Rattle.rgo_sound.specs.Machine.declared.picks.End.TheVariants as the_end;
ghost use Rattle.rgo_sound.specs.RegionMachine.States.{Ended, Stopped};
ghost use Rattle.rgo_sound.specs.Tac.Code.{Call, Go, Return};
ghost use Rattle.rgo_sound.specs.Tac.Ops.{operation_of};
ghost use Rattle.rgo_sound.specs.RegionMachine.declared.limits.Limit.TheVariants as limit;
ghost use Rattle.rgo_acts.specs.Actors.{IsActorOf, now};
ghost use Rattle.rgo_acts.specs.Endings.{ActorHasEnded, place_of_next};
ghost use Rattle.rgo_acts.specs.Ready.{ActorIsBefore};

use crate::actors::Actor;
use crate::runs::Run;
use rgo_body::Next;
use rgo_core_steps::clock::{Mark, finish};
use rgo_sound::machine::End;
use rgo_sound::memory::Trap;
use rgo_sound::region_machine::Limit;

/// A limit ends the run, for which the record of the goroutine shows the cause.
pub fn stop(actor: &mut Actor, run: &Run<'_, '_>, limit: Limit) -> bool
    requires stands { IsActorOf run.now actor.old }
    requires cause { GoroutineEndsRun run.now.setup (number_of actor.old.seat.me) (now run.now.setup actor.old) (Stopped limit) }
    ensures ended { ActorHasEnded run.now actor.old actor.new 0 (Stopped limit) result }
    ensures body { actor.new.body ≡ actor.old.body }
{
    let ends = finish(
        run.table,
        &mut actor.seat,
        actor.behind,
        Mark::Stopped(limit),
    );
    actor.behind = 0;
    ends
}

/// Memory ran out. The record shows no cause, as memory is outside the model; any goroutine may say so at any time.
pub fn out_of_memory(actor: &mut Actor, run: &Run<'_, '_>) -> bool
    requires stands { IsActorOf run.now actor.old }
    ensures ended { ActorHasEnded run.now actor.old actor.new 0 (Stopped limit.Memory) result }
    ensures body { actor.new.body ≡ actor.old.body }
{
    stop(actor, run, Limit::Memory)
}

/// The next instruction is a call, and the goroutine has as many frames as it may have.
pub fn too_deep(actor: &mut Actor, run: &Run<'_, '_>, next: &Next<'_>) -> bool
    requires before { ActorIsBefore run.now actor.old next.now }
    requires calls { (to : Option ℕ) × (n : ℕ) × (from : List ℕ) × (operation_of next.now.op ≡ Call to n from) }
    requires deep { length (frames_of_body actor.old.body) ≡ deepest }
    ensures ended { ActorHasEnded run.now actor.old actor.new 0 (Stopped limit.Calls) result }
    ensures body { actor.new.body ≡ actor.old.body }
{
    stop(actor, run, Limit::Calls)
}

/// The next instruction starts a goroutine, and a number was refused. The refusal is in the record, which is why this may end the run.
pub fn too_many(actor: &mut Actor, run: &Run<'_, '_>, next: &Next<'_>) -> bool
    requires before { ActorIsBefore run.now actor.old next.now }
    requires starts { (n : ℕ) × (from : List ℕ) × (operation_of next.now.op ≡ Go n from) }
    requires refused { actor.old.body.refused ≡ true }
    ensures ended { ActorHasEnded run.now actor.old actor.new 0 (Stopped limit.Goroutines) result }
    ensures body { actor.new.body ≡ actor.old.body }
{
    stop(actor, run, Limit::Goroutines)
}

/// The next instruction traps.
pub fn trap(actor: &mut Actor, run: &Run<'_, '_>, next: &Next<'_>, trap: Trap) -> bool
    requires stands { IsActorOf run.now actor.old }
    requires next { IsNextOf run.now.program.code (frames_of_body actor.old.body) next.now }
    requires traps { InstrTraps run.now.setup (now run.now.setup actor.old) trap }
    requires count { actor.old.body.counts.steps + 1 < 2 ^ 64 }
    ensures { ActorHasEnded run.now actor.old actor.new 1
        (Ended (the_end.Trap trap (place_of_next next.now))) result }
{
    let place = next.function.tac().place(next.at);
    let ends = finish(
        run.table,
        &mut actor.seat,
        actor.behind,
        Mark::Ended(End::Trap(trap, place)),
    );
    actor.behind = 0;
    actor.body.trapped(run.program);
    ends
}

/// `main` returns. Other goroutines may be in the middle of their turns; what they print after this is void.
pub fn exit(actor: &mut Actor, run: &Run<'_, '_>, next: &Next<'_>, value: Option<u32>) -> bool
    requires before { ActorIsBefore run.now actor.old next.now }
    requires returns { operation_of next.now.op ≡ Return value }
    requires main { number_of actor.old.seat.me ≡ 0 }
    requires last { length (frames_of_body actor.old.body) ≡ 1 }
    requires room { HasRoomBack run.now.program actor.old.body }
    ensures { ActorHasEnded run.now actor.old actor.new 1 (Ended the_end.Exit) result }
{
    let ends = finish(
        run.table,
        &mut actor.seat,
        actor.behind,
        Mark::Ended(End::Exit),
    );
    actor.behind = 0;
    actor.body.come_back(run.program, next, value);
    ends
}
