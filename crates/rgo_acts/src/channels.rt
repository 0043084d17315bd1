//! Operations on channels, and acknowledgements that an offer was taken. Each is tried once, and never waits: if the channel is not
//! ready, or another goroutine is at it, the goroutine stays before its instruction.
//!
//! What a goroutine has found out about a channel lasts as long as it is before an operation on it, and no longer; [`tries_again`]
//! keeps this. Why: docs/DECISIONS.md, "Goroutines over the table".
ghost use Rattle.std.specs.Prelude.{◌≡◌, ◌+◌, ◌<◌, ◌≤◌, ◌^◌, ◌∷◌, [], ℕ, Option, false, true};
ghost use Rattle.rgo_chan.specs.Before.{LiesIn, control_of_channel};
ghost use Rattle.rgo_core.specs.Core.{layout};
ghost use Rattle.rgo_core.specs.Channels.Standing.{IsOfChannel};
ghost use Rattle.rgo_core.specs.Memory.Words.{base as base_of};
ghost use Rattle.rgo_sound.specs.Tac.Code.{Do};
ghost use Rattle.rgo_sound.specs.Tac.Ops.{operation_of};
ghost use Rattle.rgo_sound.specs.Typed.declared.actions.Action.TheVariants as action;
ghost use Rattle.rgo_body.specs.Bodies.{HasRoomBehind, BodyIsReady, OffersNothing};
ghost use Rattle.rgo_body.specs.Nexts.{IsDo};
ghost use Rattle.rgo_body.specs.Shows.{BodyIsPossible};
ghost use Rattle.rgo_body.specs.declared.bodies.Side.TheVariants.{AtRest};
ghost use Rattle.rgo_acts.specs.Actors.{ActorActed, IsActorOf};
ghost use Rattle.rgo_acts.specs.Resting.{IsAtTalk, IsTalk, RestsElsewhere};
ghost use Rattle.rgo_acts.specs.Talks.{ActorCanAcknowledge, CanTry, TryConcludes, IsNumbered, OfAcknowledgement, OfClose, OfReceive, Says, Talks};
ghost use Rattle.rgo_acts.specs.WaitExamples.{WaitExamples};
ghost use Rattle.rgo_acts.specs.Waits.{LosesBlocked, WaitsBlocked};

use crate::actors::Actor;
use crate::runs::Run;
use rgo_body::{Body, Next, Program, Side};
use rgo_chan::{self, Tried};
use rgo_core_steps::counting::Steps;
use rgo_sound::memory::Trap;
use rgo_sound::tac::Op;
use rgo_sound::typed::Action;
use std::sync::ledger::Ledger;

/// What came of an operation on a channel. `at` is the word of the table that has the channel's control.
#[derive(Clone, Copy, Debug, PartialEq, Eq)]
pub enum Talked {
    /// It took effect, and the instruction is made.
    Done { at: usize },
    /// The value of a send is offered at a channel without a buffer. The goroutine stays at the send until it has acknowledged that
    /// the offer was taken.
    Offered { at: usize },
    /// The channel was not ready when its control was loaded; `None` for a nil channel, which never is. It may be waited for, until
    /// a word of the channel changes.
    Waits { at: Option<usize> },
    /// Another goroutine had locked the channel, or has changed its control meanwhile. The operation may be tried again at once; it
    /// is not tried again here, since other goroutines could keep such a loop going without end.
    Lost { at: usize },
    /// The operation traps.
    Trap(Trap),
}

/// Whether this action is an operation on a channel.
fn is_of_channel(action: Action) -> bool
    ensures yes { result ≡ true → IsOfChannel action }
    ensures no { result ≡ false → IsOfChannel action → ⊥ }
{
    match action {
        Action::Recv | Action::Send | Action::Close => true,
        Action::Int(_)
        | Action::Bool(_)
        | Action::Nil
        | Action::Copy
        | Action::Binary(_)
        | Action::Neg
        | Action::Not
        | Action::IsNil
        | Action::Len
        | Action::Load(_)
        | Action::Store(_)
        | Action::At
        | Action::Put
        | Action::New(_)
        | Action::Slice
        | Action::Chan
        | Action::Get(_)
        | Action::Set(_) => false,
    }
}

/// Whether this instruction is an operation on a channel.
fn talks(next: &Next<'_>) -> bool
    ensures yes { result ≡ true → IsTalk (operation_of next.now.op) }
    ensures no { result ≡ false → IsTalk (operation_of next.now.op) → ⊥ }
{
    match next.op {
        Op::Do { action, .. } => is_of_channel(action),
        Op::Call { .. }
        | Op::Go { .. }
        | Op::Print { .. }
        | Op::Jump(_)
        | Op::Branch { .. }
        | Op::Return(_) => false,
    }
}

/// Whether the goroutine owes no duty of its queue and its next instruction is an operation on a channel.
fn is_at_channel(body: &Body, program: &Program<'_>) -> bool
    ensures yes { result ≡ true → IsAtTalk program.now body.now }
    ensures no { result ≡ false → IsAtTalk program.now body.now → ⊥ }
{
    if body.duty().is_some() {
        return false;
    }
    match body.next(program) {
        Some(next) => talks(next),
        None => false,
    }
}

/// Whether the goroutine is to try an operation on a channel again. Otherwise it knows of no channel from here on: what it has
/// found out about a channel lasts as long as it is before an operation on it.
pub fn tries_again(actor: &mut Actor, run: &Run<'_, '_>) -> bool
    requires stands { IsActorOf run.now actor.old }
    requires none { OffersNothing actor.old.body }
    ensures acted { ActorActed run.now actor.old actor.new 0 [] [] }
    ensures yes { result ≡ true → IsAtTalk run.now.program actor.new.body × (actor.new ≡ actor.old) }
    ensures no { result ≡ false → actor.new ≡ record actor.old { body = record actor.old.body { side = AtRest } } }
{
    if actor.body.side() == Side::AtRest {
        return false;
    }
    if is_at_channel(&actor.body, run.program) {
        return true;
    }
    actor.body.rest(run.program);
    false
}

/// The trap of a number that a try has returned: 5, 6, or 7 for a close of nil.
fn trap_numbered(number: u8) -> Trap
    ensures { IsNumbered number result }
{
    match number {
        5 => Trap::SendClosed,
        6 => Trap::CloseClosed,
        _ => Trap::CloseNil,
    }
}

/// The body after a try at the channel with this control, and what came of it.
fn conclude(
    body: &mut Body,
    program: &Program<'_>,
    next: &Next<'_>,
    at: usize,
    tried: Tried,
) -> Talked
    requires possible { BodyIsPossible program.now body.old }
    requires ready { BodyIsReady program.now body.old next.now }
    requires does { IsDo (operation_of next.now.op) }
    requires none { OffersNothing body.old }
    requires room { HasRoomBehind body.old next.now }
    requires count { body.old.counts.steps + 1 < 2 ^ 64 }
    ensures body { TryConcludes program.now body.old body.new at tried }
    ensures says { Says at tried result }
{
    match tried {
        Tried::Done(word) => {
            body.committed(program, next, word);
            Talked::Done { at }
        }
        Tried::Offered => {
            body.offered(program, at);
            Talked::Offered { at }
        }
        Tried::NotReady => {
            body.tried(program);
            Talked::Waits { at: Some(at) }
        }
        Tried::Busy { .. } => {
            body.tried(program);
            Talked::Lost { at }
        }
        Tried::Trap(number) => {
            body.tried(program);
            Talked::Trap(trap_numbered(number))
        }
    }
}

/// The next instruction sends variable `value` on the channel in variable `channel`.
pub fn send<L: Ledger>(
    actor: &mut Actor,
    run: &Run<'_, '_>,
    next: &Next<'_>,
    channel: u32,
    value: u32,
    steps: &mut Steps<L>,
) -> Talked
    requires before { CanTry run.now actor.old next.now }
    requires is { (to : Option ℕ) × (operation_of next.now.op ≡ Do to action.Send (channel ∷ value ∷ [])) }
    ensures talks { Talks run.now actor.old actor.new 1 result }
    ensures steps { steps.new ≤ steps.old + 6 }
{
    let pointer = actor.body.word(channel);
    let word = actor.body.word(value);
    let base = run.base();
    let page_words = run.page_words();
    let tried = rgo_chan::send(
        run.table,
        &mut actor.seat,
        actor.behind,
        base,
        page_words,
        pointer,
        word,
        steps,
    );
    if pointer == 0 {
        return Talked::Waits { at: None };
    }
    actor.behind = 0;
    conclude(
        &mut actor.body,
        run.program,
        next,
        base + (pointer as usize - 1),
        tried,
    )
}

/// The next instruction receives from the channel in variable `channel`.
pub fn receive<L: Ledger>(
    actor: &mut Actor,
    run: &Run<'_, '_>,
    next: &Next<'_>,
    channel: u32,
    steps: &mut Steps<L>,
) -> Talked
    requires before { CanTry run.now actor.old next.now }
    requires is { (to : Option ℕ) × (operation_of next.now.op ≡ Do to action.Recv (channel ∷ [])) }
    ensures talks { Talks run.now actor.old actor.new 1 result }
    ensures only { OfReceive result }
    ensures steps { steps.new ≤ steps.old + 6 }
{
    let pointer = actor.body.word(channel);
    let base = run.base();
    let page_words = run.page_words();
    let tried = rgo_chan::receive(
        run.table,
        &mut actor.seat,
        actor.behind,
        base,
        page_words,
        pointer,
        steps,
    );
    if pointer == 0 {
        return Talked::Waits { at: None };
    }
    actor.behind = 0;
    conclude(
        &mut actor.body,
        run.program,
        next,
        base + (pointer as usize - 1),
        tried,
    )
}

/// The next instruction closes the channel in variable `channel`.
pub fn close<L: Ledger>(
    actor: &mut Actor,
    run: &Run<'_, '_>,
    next: &Next<'_>,
    channel: u32,
    steps: &mut Steps<L>,
) -> Talked
    requires before { CanTry run.now actor.old next.now }
    requires is { (to : Option ℕ) × (operation_of next.now.op ≡ Do to action.Close (channel ∷ [])) }
    ensures talks { Talks run.now actor.old actor.new 1 result }
    ensures only { OfClose result }
    ensures steps { steps.new ≤ steps.old + 3 }
{
    let pointer = actor.body.word(channel);
    let base = run.base();
    let tried = rgo_chan::close_channel(
        run.table,
        &mut actor.seat,
        actor.behind,
        base,
        pointer,
        steps,
    );
    if pointer == 0 {
        return Talked::Trap(Trap::CloseNil);
    }
    actor.behind = 0;
    conclude(
        &mut actor.body,
        run.program,
        next,
        base + (pointer as usize - 1),
        tried,
    )
}

/// Asks whether the goroutine's offer was taken, at the channel with this control. If so, the send is done, and the goroutine
/// counts no instruction for it: the meeting was one step of the run, which the receiver has counted.
pub fn acknowledge<L: Ledger>(
    actor: &mut Actor,
    run: &Run<'_, '_>,
    next: &Next<'_>,
    at: usize,
    steps: &mut Steps<L>,
) -> Talked
    requires before { ActorCanAcknowledge run.now actor.old next.now at }
    ensures talks { Talks run.now actor.old actor.new 0 result }
    ensures only { OfAcknowledgement result }
    ensures steps { steps.new ≤ steps.old + 3 }
{
    let tried = rgo_chan::acknowledge(run.table, &mut actor.seat, at, steps);
    actor.behind = 0;
    match tried {
        Tried::Done(_) => {
            actor.body.acknowledged(run.program, next);
            Talked::Done { at }
        }
        // `Offered` does not occur: an acknowledgement offers nothing.
        Tried::NotReady | Tried::Offered => Talked::Waits { at: Some(at) },
        Tried::Busy { .. } => Talked::Lost { at },
        Tried::Trap(_) => Talked::Trap(Trap::SendClosed),
    }
}

/// A goroutine that could not continue at a channel is blocked while the words of its accesses are what it found.
pub fn blocked_laws()
    ensures waits { WaitsBlocked }
    ensures loses { LosesBlocked }
{}

/// A goroutine that is not before an operation on a channel knows nothing of channels.
pub fn rests_law()
    ensures { RestsElsewhere }
{}

/// Goroutines that cannot continue at a channel, and some that can.
pub fn examples()
    ensures { WaitExamples }
{}
