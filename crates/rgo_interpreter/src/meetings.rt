//! Who meets: a receiver and a sender at one open channel without a buffer. The search asks each goroutine once, with a table of the
//! channels at which someone receives: a search without memory takes the square of the number of goroutines.

ghost use Rattle.std.specs.Prelude.{◌≡◌, None, length, nat_eq, IfOk};
ghost use Rattle.std.specs.HashMap.{get};
ghost use Rattle.rgo_interpreter.specs.Meetings as meetings;
ghost use Rattle.rgo_interpreter.specs.Meetings.{FindsReceivers, FindsPartner, FindsMeeting};

use crate::channels::meets_at;
use crate::machines::Machine;
use crate::states::{State, standing};
use crate::steps::{receives_at, sends_at};
use rgo_memory::Value;
use std::alloc::{AllocError, Global};
use std::collections::HashMap;

/// The number of a channel, unless it is nil.
fn number_of(channel: Value) -> Option<usize>
    ensures { result ≡ meetings.channel_number channel }
{
    match channel {
        Value::Object(number) => Some(number),
        _ => None,
    }
}

/// The channel from which a goroutine receives next.
fn receiver_at<M: Machine>(machine: &M, state: &State<M::Frame>, g: usize) -> Option<usize>
    ensures { result ≡ meetings.receiver_at (M.machine machine.now) state.now g }
{
    match receives_at(standing(machine, state, g)) {
        Some(channel) => number_of(channel),
        None => None,
    }
}

/// The channel to which a goroutine sends next.
fn sender_at<M: Machine>(machine: &M, state: &State<M::Frame>, g: usize) -> Option<usize>
    ensures { result ≡ meetings.sender_at (M.machine machine.now) state.now g }
{
    match sends_at(standing(machine, state, g)) {
        Some((channel, _)) => number_of(channel),
        None => None,
    }
}

/// A goroutine that receives, for each channel at which one does. One for each is enough: whether it meets a sender depends on the
/// channel alone.
fn receivers<M: Machine>(
    alloc: Global,
    machine: &M,
    state: &State<M::Frame>,
) -> Result<HashMap<usize, usize>, AllocError>
    ensures { IfOk result (λ found. FindsReceivers (M.machine machine.now) state.now (length state.now.goroutines)
        (get nat_eq found)) }
{
    let mut found = HashMap::new(alloc);
    for g in 0..state.goroutines() {
        if let Some(channel) = receiver_at(machine, state, g) {
            if found.insert(channel, g).is_err() {
                return Err(AllocError);
            }
        }
    }
    Ok(found)
}

/// The receiver that a sender meets, if there is one.
fn partner_of<M: Machine>(
    machine: &M,
    state: &State<M::Frame>,
    receivers: &HashMap<usize, usize>,
    sender: usize,
) -> Option<usize>
    requires running { state.now.ended ≡ None }
    requires found { FindsReceivers (M.machine machine.now) state.now (length state.now.goroutines)
        (get nat_eq receivers.now) }
    ensures { FindsPartner (M.machine machine.now) state.now sender result }
{
    let Some(channel) = sender_at(machine, state, sender) else {
        return None;
    };
    let Some(receiver) = receivers.get(&channel) else {
        return None;
    };
    // Both are at this channel; whether it is open and has no buffer is left to be asked.
    let place = Value::Object(channel);
    match meets_at(&state.memory, place, place) {
        true => Some(*receiver),
        false => None,
    }
}

/// A receiver and a sender that meet; `None` where no two do.
///
/// # Errors
///
/// On allocation failure.
pub fn find_meeting<M: Machine>(
    alloc: Global,
    machine: &M,
    state: &State<M::Frame>,
) -> Result<Option<(usize, usize)>, AllocError>
    requires { state.now.ended ≡ None }
    ensures { IfOk result (FindsMeeting (M.machine machine.now) state.now) }
{
    let receivers = receivers(alloc, machine, state)?;
    for sender in 0..state.goroutines() {
        if let Some(receiver) = partner_of(machine, state, &receivers, sender) {
            return Ok(Some((receiver, sender)));
        }
    }
    Ok(None)
}
