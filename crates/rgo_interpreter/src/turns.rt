//! Turns: steps of one goroutine in a row, which is how runs are driven. A turn reports why it is over, so that its driver asks only
//! when something may have changed for other goroutines.

ghost use Rattle.std.specs.Prelude.{◌≡◌, true, None};
ghost use Rattle.rgo_machine.specs.Limits.{is_within};
ghost use Rattle.rgo_interpreter.specs.Turning as turning;
ghost use Rattle.rgo_interpreter.specs.Turns.{Turns};

use crate::goroutines::Happened;
use crate::machines::{Machine, Stand};
use crate::states::{State, standing};
use crate::steps::step_alone;
use rgo_machine::{DEEPEST, End, Limits, Shortage};
use std::alloc::Global;

/// Why a turn was over.
#[derive(Clone, Copy, Debug, PartialEq, Eq)]
pub enum TurnEnd {
    /// It has had all its steps.
    Spent,
    /// The goroutine has no step alone: it has returned, or waits at a channel.
    Waits,
    /// It has printed.
    Printed,
    /// The object of this number may be a channel that changed, so goroutines that wait at it may have a step now.
    Operated(usize),
    /// The run ended by its last step.
    Ended(End),
    /// The goroutine has 100,000 frames, and is before a call.
    TooDeep,
    /// There are as many goroutines as there may be, and this one is before the start of another.
    Full,
    /// It is before a step for which its machine has no room. Only machines whose objects are in regions have such a limit.
    NoRoom(Shortage),
    /// Memory ran out.
    NoMemory,
}

/// What a turn did: how many steps were taken, and why it was over.
#[derive(Clone, Copy, Debug, PartialEq, Eq)]
pub struct Turned {
    pub steps: usize,
    pub stop: TurnEnd,
}

/// How many frames a goroutine has.
fn depth_of<F>(state: &State<F>, g: usize) -> usize
    ensures { result ≡ turning.depth_of state.now g }
{
    match state.goroutines.get(g) {
        Some(goroutine) => goroutine.frames.len(),
        None => 0,
    }
}

/// The limit that a goroutine at this point meets, if any. Tested before the step: a call or a start cannot be taken back, and the
/// state that ends the run is to be within the limits.
fn limit_at<F>(state: &State<F>, limits: Limits, g: usize, stand: Stand) -> Option<TurnEnd>
    ensures { result ≡ turning.limit_at limits state.now g stand }
{
    match stand {
        Stand::Call if depth_of(state, g) >= DEEPEST => Some(TurnEnd::TooDeep),
        Stand::Start if state.goroutines.len() >= limits.goroutines.max(1) => Some(TurnEnd::Full),
        Stand::Receive { .. }
        | Stand::Send { .. }
        | Stand::Close { .. }
        | Stand::Call
        | Stand::Start
        | Stand::Elsewhere => None,
    }
}

/// A turn of one step, in which the goroutine did this.
fn turn_of(happened: Happened) -> Turned
    ensures { result ≡ turning.turn_of happened }
{
    match happened {
        Happened::Waits => Turned {
            steps: 0,
            stop: TurnEnd::Waits,
        },
        Happened::Moves => Turned {
            steps: 1,
            stop: TurnEnd::Spent,
        },
        Happened::Prints => Turned {
            steps: 1,
            stop: TurnEnd::Printed,
        },
        Happened::Operates(channel) => Turned {
            steps: 1,
            stop: TurnEnd::Operated(channel),
        },
        Happened::Ends(end) => Turned {
            steps: 1,
            stop: TurnEnd::Ended(end),
        },
    }
}

/// A turn of at most one step: a goroutine steps alone, unless it has no step, meets a limit, or memory runs out. The
/// state is then as it was.
pub fn turn_once<M: Machine>(
    alloc: Global,
    machine: &M,
    state: &mut State<M::Frame>,
    limits: Limits,
    g: usize,
) -> Turned
    requires running { state.old.ended ≡ None }
    requires within { is_within limits state.old ≡ true }
    ensures { Turns (M.machine machine.now) limits state.old state.new g 1 result }
{
    let Some(stand) = standing(machine, state, g) else {
        return Turned {
            steps: 0,
            stop: TurnEnd::Waits,
        };
    };
    if let Some(stop) = limit_at(state, limits, g, stand) {
        return Turned { steps: 0, stop };
    }
    match step_alone(alloc, machine, state, g, stand) {
        Ok(happened) => turn_of(happened),
        Err(_) => Turned {
            steps: 0,
            stop: TurnEnd::NoMemory,
        },
    }
}
