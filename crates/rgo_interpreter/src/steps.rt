//! One step of a run.

ghost use Rattle.std.specs.Prelude.{◌≡◌, Some, None};
ghost use Rattle.rgo_interpreter.specs.Acting as acting;
ghost use Rattle.rgo_interpreter.specs.Acting.{MachineSteps};
ghost use Rattle.rgo_interpreter.specs.Alone as alone;
ghost use Rattle.rgo_interpreter.specs.Alone.{StepsAlone, ChangesAt, KeepsPrint, MeetsSo, goroutines_after_operation};
ghost use Rattle.rgo_machine.specs.Machines.{step_by, picked};
ghost use Rattle.rgo_interpreter.specs.declared.machines.Stand.TheVariants as stand;
ghost use Rattle.rgo_machine.specs.declared.picks.Pick.TheVariants.{One, Meet};

use crate::channels::meets_at;
use crate::goroutines::{Happened, begin, go, pass};
use crate::machines::{Machine, Stand};
use crate::states::{Goroutine, State, standing};
use rgo_machine::{End, Pick};
use rgo_memory::Value;
use std::alloc::{AllocError, Global};

/// What a step did.
#[derive(Clone, Copy, Debug, PartialEq, Eq)]
pub enum Stepped {
    /// The run continues.
    Advanced,
    /// The run ended by this step.
    Ended(End),
    /// The pick has no step in this state; nothing changed. A pick may name any numbers.
    NotEnabled,
}

fn is_start(stand: Stand) -> bool
    ensures { result ≡ alone.is_at_start stand }
{
    match stand {
        Stand::Start => true,
        Stand::Receive { .. }
        | Stand::Send { .. }
        | Stand::Close { .. }
        | Stand::Call
        | Stand::Elsewhere => false,
    }
}

/// A goroutine starts another. Apart from the other steps, which one goroutine takes alone: the list of goroutines grows here.
fn start<M: Machine>(
    alloc: Global,
    machine: &M,
    state: &mut State<M::Frame>,
    g: usize,
) -> Result<Happened, AllocError>
    requires running { state.old.ended ≡ None }
    requires stands { acting.standing (M.machine machine.now) state.old g ≡ Some stand.Start }
    ensures steps { StepsAlone result state.old state.new (picked (M.machine machine.now) state.old (One g)) }
    ensures channels { ChangesAt result state.old.memory state.new.memory }
    ensures print { KeepsPrint result state.old.printed state.new.printed }
{
    // The room comes first: when the goroutine has continued after its start, the new one must not be lost.
    state.goroutines.reserve(1)?;
    let Some(goroutine) = state.goroutines.get_mut(g) else {
        return Ok(Happened::Waits);
    };
    match begin(alloc, machine, goroutine)? {
        Some(child) => {
            state.goroutines.push_reserved(child);
            Ok(Happened::Moves)
        }
        None => Ok(Happened::Waits),
    }
}

/// One step of a goroutine alone, whose newest frame is at `stand`: callers have asked for it already, to test limits.
pub(crate) fn step_alone<M: Machine>(
    alloc: Global,
    machine: &M,
    state: &mut State<M::Frame>,
    g: usize,
    stand: Stand,
) -> Result<Happened, AllocError>
    requires running { state.old.ended ≡ None }
    requires stands { acting.standing (M.machine machine.now) state.old g ≡ Some stand }
    ensures steps { StepsAlone result state.old state.new (picked (M.machine machine.now) state.old (One g)) }
    ensures channels { ChangesAt result state.old.memory state.new.memory }
    ensures print { KeepsPrint result state.old.printed state.new.printed }
{
    if is_start(stand) {
        return start(alloc, machine, state, g);
    }
    let Some(goroutine) = state.goroutines.get_mut(g) else {
        return Ok(Happened::Waits);
    };
    let happened = go(
        alloc,
        machine,
        &mut state.memory,
        goroutine,
        &mut state.printed,
        g,
        stand,
    )?;
    if let Happened::Ends(end) = happened {
        state.ended = Some(end);
    }
    Ok(happened)
}

/// The channel of a goroutine that is before a receive.
pub(crate) fn receives_at(stand: Option<Stand>) -> Option<Value>
    ensures { result ≡ alone.receives_at stand }
{
    match stand {
        Some(Stand::Receive { channel, blank: _ }) => Some(channel),
        Some(
            Stand::Send { .. }
            | Stand::Close { .. }
            | Stand::Call
            | Stand::Start
            | Stand::Elsewhere,
        )
        | None => None,
    }
}

/// The channel and the value of a goroutine that is before a send.
pub(crate) fn sends_at(stand: Option<Stand>) -> Option<(Value, Value)>
    ensures { result ≡ alone.sends_at stand }
{
    match stand {
        Some(
            Stand::Send {
                channel,
                value,
                place: _,
            },
        ) => Some((channel, value)),
        Some(
            Stand::Receive { .. }
            | Stand::Close { .. }
            | Stand::Call
            | Stand::Start
            | Stand::Elsewhere,
        )
        | None => None,
    }
}

/// A goroutine continues with this value after an operation on a channel.
fn pass_at<M: Machine>(
    machine: &M,
    goroutines: &mut Vec<Goroutine<M::Frame>>,
    g: usize,
    value: Value,
)
    ensures { goroutines.new.items ≡ goroutines_after_operation (M.machine machine.now) value goroutines.old.items g }
{
    if let Some(goroutine) = goroutines.get_mut(g) {
        pass(machine, goroutine, value);
    }
}

/// A receiver and a sender continue together, if they meet. Returns whether they do.
fn meet<M: Machine>(
    machine: &M,
    state: &mut State<M::Frame>,
    receiver: usize,
    sender: usize,
) -> bool
    requires { state.old.ended ≡ None }
    ensures { MeetsSo result state.old state.new (picked (M.machine machine.now) state.old (Meet receiver sender)) }
{
    if receiver == sender {
        return false;
    }
    let Some(channel) = receives_at(standing(machine, state, receiver)) else {
        return false;
    };
    let Some((other, value)) = sends_at(standing(machine, state, sender)) else {
        return false;
    };
    if !meets_at(&state.memory, channel, other) {
        return false;
    }
    // Both continue here or neither: all tests come before, and `pass` cannot fail.
    pass_at(machine, &mut state.goroutines, receiver, value);
    pass_at(machine, &mut state.goroutines, sender, Value::Nil);
    true
}

/// One step of a goroutine alone, if it has one.
fn step_one<M: Machine>(
    alloc: Global,
    machine: &M,
    state: &mut State<M::Frame>,
    g: usize,
) -> Result<Stepped, AllocError>
    requires { state.old.ended ≡ None }
    ensures { MachineSteps result state.old state.new (picked (M.machine machine.now) state.old (One g)) }
{
    let Some(stand) = standing(machine, state, g) else {
        return Ok(Stepped::NotEnabled);
    };
    match step_alone(alloc, machine, state, g, stand)? {
        Happened::Waits => Ok(Stepped::NotEnabled),
        Happened::Ends(end) => Ok(Stepped::Ended(end)),
        Happened::Moves | Happened::Prints | Happened::Operates(_) => Ok(Stepped::Advanced),
    }
}

/// One step of the run.
///
/// # Errors
///
/// On allocation failure. Then nothing changed.
pub fn step<M: Machine>(
    alloc: Global,
    machine: &M,
    state: &mut State<M::Frame>,
    pick: Pick,
) -> Result<Stepped, AllocError>
    ensures { MachineSteps result state.old state.new (step_by (M.machine machine.now) state.old pick) }
{
    if state.ended.is_some() {
        return Ok(Stepped::NotEnabled);
    }
    match pick {
        Pick::One(g) => step_one(alloc, machine, state, g),
        Pick::Meet(receiver, sender) => match meet(machine, state, receiver, sender) {
            true => Ok(Stepped::Advanced),
            false => Ok(Stepped::NotEnabled),
        },
    }
}
