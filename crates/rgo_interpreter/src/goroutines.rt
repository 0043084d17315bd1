//! What one goroutine does by its frames, whatever the other goroutines are. An error or a wait leaves the frames as they were, so
//! each function takes the memory that it needs before it changes anything.

ghost use Rattle.std.specs.Prelude.{◌≡◌, OnOk, OnErr, Some, false, reverse};
ghost use Rattle.std.specs.Vec.{vec_len, vec_capacity};
ghost use Rattle.rgo_interpreter.specs.Views.{memory_view};
ghost use Rattle.rgo_interpreter.specs.Acting.{newest_stand};
ghost use Rattle.rgo_interpreter.specs.Alone.{after_operation, after_effect, after_return, ended_by_return, happened_by};
ghost use Rattle.rgo_interpreter.specs.Alone.{EntersNewest, Calls, ChildBegins, Happens, ChangesAt, KeepsPrint, is_at_start};
ghost use Rattle.rgo_interpreter.specs.declared.machines.Stand.TheVariants as stand;

use crate::channels::{close, receive, send};
use crate::effects::Effect;
use crate::machines::{Did, Machine, Stand};
use crate::memory::Memory;
use crate::states::Goroutine;
use rgo_ast::Place;
use rgo_machine::End;
use rgo_memory::Value;
use std::alloc::{AllocError, Global};

/// What a goroutine did in one step.
#[derive(Clone, Copy, Debug, PartialEq, Eq)]
pub(crate) enum Happened {
    /// Nothing: it has returned, or waits at a channel.
    Waits,
    /// It continues, and none of the following happened.
    Moves,
    Prints,
    /// It operated on the channel of this number, so goroutines that wait there may continue.
    Operates(usize),
    /// It ended the run.
    Ends(End),
}

/// The newest frame continues after an operation on a channel that returned this value. Cannot fail: at a meeting the second of two
/// goroutines has to continue when the first has.
pub(crate) fn pass<M: Machine>(machine: &M, goroutine: &mut Goroutine<M::Frame>, value: Value)
    ensures { goroutine.new ≡ after_operation (M.machine machine.now) value goroutine.old }
{
    if let Some(frame) = goroutine.frames.last_mut() {
        machine.pass(frame, value);
    }
}

/// The newest frame continues after a call or a start. Returns the frame with which the function begins; `None` where
/// the newest frame is at neither.
fn enter<M: Machine>(
    alloc: Global,
    machine: &M,
    frames: &mut Vec<M::Frame>,
) -> Result<Option<M::Frame>, AllocError>
    ensures enters { EntersNewest (M.machine machine.now) result (reverse frames.old.items)
        (reverse frames.new.items) }
    ensures len { vec_len frames.new ≡ vec_len frames.old }
    ensures capacity { vec_capacity frames.new ≡ vec_capacity frames.old }
{
    match frames.last_mut() {
        Some(frame) => machine.enter(alloc, frame),
        None => Ok(None),
    }
}

/// The newest frame calls a function. Returns whether it was at a call or a start.
fn call<M: Machine>(
    alloc: Global,
    machine: &M,
    goroutine: &mut Goroutine<M::Frame>,
) -> Result<bool, AllocError>
    ensures { Calls (M.machine machine.now) result goroutine.old goroutine.new }
{
    // The room comes first: when the caller's frame has continued, nothing may fail any more.
    goroutine.frames.reserve(1)?;
    match enter(alloc, machine, &mut goroutine.frames)? {
        Some(callee) => {
            goroutine.frames.push_reserved(callee);
            Ok(true)
        }
        None => Ok(false),
    }
}

/// The newest frame starts a goroutine, which is returned; `None` where it is at no call and no start.
pub(crate) fn begin<M: Machine>(
    alloc: Global,
    machine: &M,
    goroutine: &mut Goroutine<M::Frame>,
) -> Result<Option<Goroutine<M::Frame>>, AllocError>
    ensures { ChildBegins (M.machine machine.now) result goroutine.old goroutine.new }
{
    // As in `call`: the room comes before the change.
    let mut frames = Vec::with_capacity(alloc, 1)?;
    match enter(alloc, machine, &mut goroutine.frames)? {
        Some(child) => {
            frames.push_reserved(child);
            Ok(Some(Goroutine { frames }))
        }
        None => Ok(None),
    }
}

/// The newest function returns to its caller, if there is one.
fn leave<M: Machine>(
    machine: &M,
    goroutine: &mut Goroutine<M::Frame>,
    value: Option<Value>,
) -> Result<(), AllocError>
    ensures leaves { OnOk result (goroutine.new ≡ after_return (M.machine machine.now) value goroutine.old) }
    ensures keeps { OnErr result (goroutine.new ≡ goroutine.old) }
{
    let depth = goroutine.frames.len();
    if depth >= 2 {
        // The caller first, since this can fail: then nothing has changed yet.
        machine.resume(&mut goroutine.frames[depth - 2], value)?;
    }
    goroutine.frames.pop();
    Ok(())
}

/// What a return did to the run. `g` is the number of the goroutine, which has these frames left.
fn returned<F>(goroutine: &Goroutine<F>, g: usize) -> Happened
    ensures { result ≡ ended_by_return g goroutine.now }
{
    // Only the return of `main` ends the run; a goroutine that has returned just has no frames left.
    if g == 0 && goroutine.frames.is_empty() {
        Happened::Ends(End::Exit)
    } else {
        Happened::Moves
    }
}

/// The newest frame acts by itself.
fn act<M: Machine>(
    alloc: Global,
    machine: &M,
    memory: &mut Memory,
    goroutine: &mut Goroutine<M::Frame>,
    printed: &mut Vec<u8>,
    g: usize,
) -> Result<Happened, AllocError>
    requires { newest_stand (M.machine machine.now) goroutine.old ≡ Some stand.Elsewhere }
    ensures happens { Happens (M.machine machine.now) g result (memory_view memory.old) (memory_view memory.new)
        goroutine.old goroutine.new printed.old.items printed.new.items }
    ensures channels { ChangesAt result (memory_view memory.old) (memory_view memory.new) }
    ensures print { KeepsPrint result printed.old.items printed.new.items }
{
    let Some(frame) = goroutine.frames.last_mut() else {
        return Ok(Happened::Waits);
    };
    match machine.act(alloc, memory, frame, printed)? {
        Did::Moves => Ok(Happened::Moves),
        Did::Prints => Ok(Happened::Prints),
        Did::Traps(trap, place) => Ok(Happened::Ends(End::Trap(trap, place))),
        Did::Returns(value) => {
            leave(machine, goroutine, value)?;
            Ok(returned(goroutine, g))
        }
    }
}

/// What an operation on a channel did.
fn operated(effect: Effect, channel: Value, place: Place) -> Happened
    ensures { result ≡ happened_by effect channel place }
{
    match (effect, channel) {
        (Effect::Traps(trap), _) => Happened::Ends(End::Trap(trap, place)),
        (Effect::Gives(_), Value::Object(number)) => Happened::Operates(number),
        (Effect::Gives(_), _) => Happened::Moves,
    }
}

/// A goroutine continues after an operation on a channel, which had this effect.
fn operate<M: Machine>(
    machine: &M,
    goroutine: &mut Goroutine<M::Frame>,
    effect: Effect,
    channel: Value,
    place: Place,
) -> Happened
    ensures happened { result ≡ happened_by effect channel place }
    ensures frames { goroutine.new ≡ after_effect (M.machine machine.now) effect goroutine.old }
{
    if let Effect::Gives(value) = effect {
        pass(machine, goroutine, value);
    }
    operated(effect, channel, place)
}

/// One step of a goroutine whose newest frame is at `stand`. It is not at the start of another goroutine.
pub(crate) fn go<M: Machine>(
    alloc: Global,
    machine: &M,
    memory: &mut Memory,
    goroutine: &mut Goroutine<M::Frame>,
    printed: &mut Vec<u8>,
    g: usize,
    stand: Stand,
) -> Result<Happened, AllocError>
    requires stands { newest_stand (M.machine machine.now) goroutine.old ≡ Some stand }
    requires starts_none { is_at_start stand ≡ false }
    ensures happens { Happens (M.machine machine.now) g result (memory_view memory.old) (memory_view memory.new)
        goroutine.old goroutine.new printed.old.items printed.new.items }
    ensures channels { ChangesAt result (memory_view memory.old) (memory_view memory.new) }
    ensures print { KeepsPrint result printed.old.items printed.new.items }
{
    match stand {
        Stand::Receive { channel, blank } => match receive(memory, channel, blank) {
            // A receive never traps, so any place does.
            Some(effect) => Ok(operate(machine, goroutine, effect, channel, 0)),
            None => Ok(Happened::Waits),
        },
        Stand::Send {
            channel,
            value,
            place,
        } => match send(memory, channel, value)? {
            Some(effect) => Ok(operate(machine, goroutine, effect, channel, place)),
            None => Ok(Happened::Waits),
        },
        Stand::Close { channel, place } => {
            let effect = close(memory, channel);
            Ok(operate(machine, goroutine, effect, channel, place))
        }
        Stand::Call => match call(alloc, machine, goroutine)? {
            true => Ok(Happened::Moves),
            // Does not happen: the newest frame is at a call, so `enter` returns a frame.
            false => Ok(Happened::Waits),
        },
        Stand::Elsewhere => act(alloc, machine, memory, goroutine, printed, g),
        // Does not happen (`starts_none`): a start adds to the list of goroutines, of which one is borrowed here. See `start`.
        Stand::Start => Ok(Happened::Waits),
    }
}
