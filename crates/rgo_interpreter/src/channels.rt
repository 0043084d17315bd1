//! Channels (The Go Programming Language Specification, "Channel types", "Receive operator", "Send
//! statements", "Close"): first in, first out. A channel that is nil is never ready. Nothing here waits: an operation that is not
//! ready returns `None`, changes nothing, and is tried again in a later step.

ghost use Rattle.std.specs.Prelude.{◌≡◌};
ghost use Rattle.std.specs.Option.{is_some};
ghost use Rattle.rgo_memory.specs.Channels.{received, receive, sent, send, shut, close};
ghost use Rattle.rgo_memory.specs.Channels.{is_meeting_place, meets_at};
ghost use Rattle.rgo_interpreter.specs.Views.{LeavesOutcome, LeavesIfReady, PerformsIfReady, channel_of, object_view, memory_view};

use crate::effects::Effect;
use crate::memory::Memory;
use crate::objects::{Channel, Object};
use rgo_memory::{Trap, Value};
use std::alloc::AllocError;

fn receive_from(object: &mut Object, blank: Value) -> Option<Effect>
    ensures { LeavesIfReady result (object_view object.old) (object_view object.new)
        (received blank (object_view object.old)) }
{
    let Object::Channel(channel) = object else {
        return Some(Effect::Gives(Value::Nil));
    };
    match channel.queue.pop_front() {
        Some(value) => Some(Effect::Gives(value)),
        None if channel.closed => Some(Effect::Gives(blank)),
        None => None,
    }
}

/// A receive: `None` if the channel is open and empty, or nil, so that the receiver has to wait. A closed channel
/// returns what it still has, and then `blank`. A receiver takes from the buffer only: with a sender that waits at a channel
/// without a buffer it meets, see `meets_at`.
pub fn receive(memory: &mut Memory, channel: Value, blank: Value) -> Option<Effect>
    ensures { LeavesIfReady result (memory_view memory.old) (memory_view memory.new)
        (receive (memory_view memory.old) channel blank) }
{
    match channel {
        Value::Nil => None,
        Value::Object(n) => match memory.object_mut(n) {
            Some(object) => receive_from(object, blank),
            None => Some(Effect::Gives(Value::Nil)),
        },
        Value::Int(_) | Value::Bool(_) => Some(Effect::Gives(Value::Nil)),
    }
}

fn has_value(object: &Object) -> bool
    ensures { (blank : Value) → result ≡ is_some (received blank (object_view object.now)) }
{
    match object {
        Object::Channel(channel) => channel.closed || !channel.queue.is_empty(),
        Object::Struct(_) | Object::Slice(_) => true,
    }
}

/// Whether a receiver at this channel does not have to wait. It changes nothing, for the search for a deadlock.
#[tactic(auto, using(crate::proofs::Reading::ready_read))]
pub fn can_receive(memory: &Memory, channel: Value) -> bool
    ensures { (blank : Value) → result ≡ is_some (receive (memory_view memory.now) channel blank) }
{
    match channel {
        Value::Nil => false,
        Value::Object(n) => match memory.object(n) {
            Some(object) => has_value(object),
            None => true,
        },
        Value::Int(_) | Value::Bool(_) => true,
    }
}

fn send_in(channel: &mut Channel, value: Value) -> Result<Option<Effect>, AllocError>
    ensures { PerformsIfReady result (channel_of channel.old) (channel_of channel.new)
        (sent value (channel_of channel.old)) }
{
    if channel.closed {
        return Ok(Some(Effect::Traps(Trap::SendClosed)));
    }
    // Only after the test above: a send to a closed channel traps even if the buffer is full.
    if channel.queue.len() >= channel.capacity {
        return Ok(None);
    }
    channel.queue.push_back(value)?;
    Ok(Some(Effect::Gives(Value::Nil)))
}

fn send_to(object: &mut Object, value: Value) -> Result<Option<Effect>, AllocError>
    ensures { PerformsIfReady result (object_view object.old) (object_view object.new)
        (sent value (object_view object.old)) }
{
    match object {
        Object::Channel(channel) => send_in(channel, value),
        Object::Struct(_) | Object::Slice(_) => Ok(Some(Effect::Gives(Value::Nil))),
    }
}

/// A send to the buffer: `None` if it is full, or the channel is nil, so that the sender has to wait. A send to a
/// closed channel traps. A channel without a buffer is always full: its senders only meet receivers.
///
/// # Errors
///
/// If there is no memory for the value. Then nothing changed.
pub fn send(memory: &mut Memory, channel: Value, value: Value) -> Result<Option<Effect>, AllocError>
    ensures { PerformsIfReady result (memory_view memory.old) (memory_view memory.new)
        (send (memory_view memory.old) channel value) }
{
    match channel {
        Value::Nil => Ok(None),
        Value::Object(n) => match memory.object_mut(n) {
            Some(object) => send_to(object, value),
            None => Ok(Some(Effect::Gives(Value::Nil))),
        },
        Value::Int(_) | Value::Bool(_) => Ok(Some(Effect::Gives(Value::Nil))),
    }
}

fn has_room(object: &Object) -> bool
    ensures { (value : Value) → result ≡ is_some (sent value (object_view object.now)) }
{
    match object {
        Object::Channel(channel) => channel.closed || channel.queue.len() < channel.capacity,
        Object::Struct(_) | Object::Slice(_) => true,
    }
}

/// Whether a sender at this channel does not have to wait.
#[tactic(auto, using(crate::proofs::Reading::ready_read))]
pub fn can_send(memory: &Memory, channel: Value) -> bool
    ensures { (value : Value) → result ≡ is_some (send (memory_view memory.now) channel value) }
{
    match channel {
        Value::Nil => false,
        Value::Object(n) => match memory.object(n) {
            Some(object) => has_room(object),
            None => true,
        },
        Value::Int(_) | Value::Bool(_) => true,
    }
}

fn shut(object: &mut Object) -> Effect
    ensures { LeavesOutcome result (object_view object.old) (object_view object.new)
        (shut (object_view object.old)) }
{
    let Object::Channel(channel) = object else {
        return Effect::Gives(Value::Nil);
    };
    if channel.closed {
        return Effect::Traps(Trap::CloseClosed);
    }
    channel.closed = true;
    Effect::Gives(Value::Nil)
}

/// A close. A close of nil, or of a closed channel, traps; so it never waits. The queue stays: receivers still get its values.
pub fn close(memory: &mut Memory, channel: Value) -> Effect
    ensures { LeavesOutcome result (memory_view memory.old) (memory_view memory.new)
        (close (memory_view memory.old) channel) }
{
    match channel {
        Value::Nil => Effect::Traps(Trap::CloseNil),
        Value::Object(n) => match memory.object_mut(n) {
            Some(object) => shut(object),
            None => Effect::Gives(Value::Nil),
        },
        Value::Int(_) | Value::Bool(_) => Effect::Gives(Value::Nil),
    }
}

fn is_meeting_place(object: &Object) -> bool
    ensures { result ≡ is_meeting_place (object_view object.now) }
{
    match object {
        Object::Channel(channel) => !channel.closed && channel.capacity == 0,
        Object::Struct(_) | Object::Slice(_) => false,
    }
}

/// Whether a receiver at the first channel and a sender at the second meet: whether both are one
/// open channel without a buffer. A closed one is not a meeting place, since its senders trap.
pub fn meets_at(memory: &Memory, receiver: Value, sender: Value) -> bool
    ensures { result ≡ meets_at (memory_view memory.now) receiver sender }
{
    match (receiver, sender) {
        (Value::Object(m), Value::Object(n)) if m == n => match memory.object(m) {
            Some(object) => is_meeting_place(object),
            None => false,
        },
        _ => false,
    }
}
