//! What each action does. Every function here has the shape of its definition in rgo_memory, by the number of operands, so that each
//! is proved by its cases.

ghost use Rattle.std.specs.Prelude.{◌≡◌};
ghost use Rattle.rgo_memory.specs.Perform.{set_variable, on_none, on_one, on_two, on_three};
ghost use Rattle.rgo_memory.specs.Perform.{perform};
ghost use Rattle.rgo_memory.specs.Channels.{SameChannels};
ghost use Rattle.rgo_interpreter.specs.Views.{LeavesOutcome, Performs, memory_view};

use crate::effects::{Effect, answered};
use crate::elements::{element_at, length_of, put};
use crate::fields::{load, store};
use crate::making::{new_channel, new_slice, new_struct};
use crate::memory::Memory;
use rgo_memory::{Value, binary, inverted, is_nil, negated};
use rgo_typed::{Action, Struct, Type};
use std::alloc::{AllocError, Global};

fn set_variable(memory: &mut Memory, number: usize, value: Value) -> Effect
    ensures { LeavesOutcome result (memory_view memory.old) (memory_view memory.new)
        (set_variable number value (memory_view memory.old)) }
{
    // No variable of this number: nothing is done, and the step still counts. No typed program names one.
    if let Some(variable) = memory.variables.get_mut(number) {
        *variable = value;
    }
    Effect::Gives(Value::Nil)
}

fn on_none(
    alloc: Global,
    memory: &mut Memory,
    structs: &[Struct],
    action: Action,
) -> Result<Effect, AllocError>
    ensures { Performs result (memory_view memory.old) (memory_view memory.new)
        (on_none structs.now action (memory_view memory.old)) }
{
    let value = match action {
        Action::Int(n) => Value::Int(n),
        Action::Bool(b) => Value::Bool(b),
        Action::Nil => Value::Nil,
        Action::Get(n) => memory.variables.get(n).copied().unwrap_or(Value::Nil),
        Action::New(n) => return new_struct(alloc, memory, structs, n),
        Action::Copy
        | Action::Binary(_)
        | Action::Neg
        | Action::Not
        | Action::IsNil
        | Action::Len
        | Action::Load(_)
        | Action::Store(_)
        | Action::At
        | Action::Put
        | Action::Slice
        | Action::Chan
        | Action::Recv
        | Action::Send
        | Action::Close
        | Action::Set(_) => Value::Nil,
    };
    Ok(Effect::Gives(value))
}

fn on_one(
    alloc: Global,
    memory: &mut Memory,
    action: Action,
    ty: &Type,
    x: Value,
) -> Result<Effect, AllocError>
    ensures { Performs result (memory_view memory.old) (memory_view memory.new)
        (on_one action ty.now x (memory_view memory.old)) }
{
    match action {
        Action::Copy => Ok(Effect::Gives(x)),
        Action::Neg => Ok(Effect::Gives(negated(x))),
        Action::Not => Ok(Effect::Gives(inverted(x))),
        Action::IsNil => Ok(Effect::Gives(is_nil(x))),
        Action::Len => Ok(Effect::Gives(length_of(memory, x))),
        Action::Load(field) => Ok(answered(load(memory, x, field))),
        Action::Slice => new_slice(alloc, memory, ty, x),
        Action::Chan => new_channel(alloc, memory, x),
        Action::Set(n) => Ok(set_variable(memory, n, x)),
        Action::Int(_)
        | Action::Bool(_)
        | Action::Nil
        | Action::Binary(_)
        | Action::Store(_)
        | Action::At
        | Action::Put
        | Action::New(_)
        | Action::Recv
        | Action::Send
        | Action::Close
        | Action::Get(_) => Ok(Effect::Gives(Value::Nil)),
    }
}

fn on_two(memory: &mut Memory, action: Action, x: Value, y: Value) -> Effect
    ensures { LeavesOutcome result (memory_view memory.old) (memory_view memory.new)
        (on_two action x y (memory_view memory.old)) }
{
    match action {
        Action::Binary(op) => answered(binary(op, x, y)),
        Action::Store(field) => store(memory, x, field, y),
        Action::At => answered(element_at(memory, x, y)),
        Action::Int(_)
        | Action::Bool(_)
        | Action::Nil
        | Action::Copy
        | Action::Neg
        | Action::Not
        | Action::IsNil
        | Action::Len
        | Action::Load(_)
        | Action::Put
        | Action::New(_)
        | Action::Slice
        | Action::Chan
        | Action::Recv
        | Action::Send
        | Action::Close
        | Action::Get(_)
        | Action::Set(_) => Effect::Gives(Value::Nil),
    }
}

fn on_three(memory: &mut Memory, action: Action, x: Value, y: Value, z: Value) -> Effect
    ensures { LeavesOutcome result (memory_view memory.old) (memory_view memory.new)
        (on_three action x y z (memory_view memory.old)) }
{
    match action {
        Action::Put => put(memory, x, y, z),
        Action::Int(_)
        | Action::Bool(_)
        | Action::Nil
        | Action::Copy
        | Action::Binary(_)
        | Action::Neg
        | Action::Not
        | Action::IsNil
        | Action::Len
        | Action::Load(_)
        | Action::Store(_)
        | Action::At
        | Action::New(_)
        | Action::Slice
        | Action::Chan
        | Action::Recv
        | Action::Send
        | Action::Close
        | Action::Get(_)
        | Action::Set(_) => Effect::Gives(Value::Nil),
    }
}

/// What an action does with these operands; `ty` is the type of its value, and the structs are those
/// of the program. `nil` if the action takes another number of operands or other values, which no typed
/// program has: so a machine needs no proof that its code is well-formed.
///
/// Receive, send and close are not among them, since an action never waits: see `receive`, `send`, `close`.
///
/// # Errors
///
/// If there is no memory for a new object. Then nothing changed.
pub fn perform(
    alloc: Global,
    memory: &mut Memory,
    structs: &[Struct],
    action: Action,
    ty: &Type,
    operands: &[Value],
) -> Result<Effect, AllocError>
    ensures performs { Performs result (memory_view memory.old) (memory_view memory.new)
        (perform structs.now action ty.now operands.now (memory_view memory.old)) }
    ensures channels { SameChannels (memory_view memory.old) (memory_view memory.new) }
{
    match operands {
        [] => on_none(alloc, memory, structs, action),
        [x] => on_one(alloc, memory, action, ty, *x),
        [x, y] => Ok(on_two(memory, action, *x, *y)),
        [x, y, z] => Ok(on_three(memory, action, *x, *y, *z)),
        _ => Ok(Effect::Gives(Value::Nil)),
    }
}
