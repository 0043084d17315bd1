//! Elements of slices (The Go Programming Language Specification, "Index expressions", "Length and
//! capacity"): a slice that is nil has none.

ghost use Rattle.std.specs.Prelude.{◌≡◌};
ghost use Rattle.rgo_memory.specs.Elements.{element, element_at, length_of, put_in, put};
ghost use Rattle.rgo_interpreter.specs.Views.{LeavesOutcome, object_view, memory_view};

use crate::effects::Effect;
use crate::memory::Memory;
use crate::objects::Object;
use rgo_memory::{Trap, Value};

#[inline(always)]
fn element(cells: &[Value], index: i64) -> Result<Value, Trap>
    ensures { result ≡ element cells.now index }
{
    if index < 0 {
        return Err(Trap::IndexRange);
    }
    match cells.get(index as usize) {
        Some(value) => Ok(*value),
        None => Err(Trap::IndexRange),
    }
}

/// An element's value.
///
/// # Errors
///
/// If the index is out of range.
#[inline(always)]
pub fn element_at(memory: &Memory, slice: Value, index: Value) -> Result<Value, Trap>
    ensures { result ≡ element_at (memory_view memory.now) slice index }
{
    match (slice, index) {
        (Value::Nil, Value::Int(_)) => Err(Trap::IndexRange),
        (Value::Object(n), Value::Int(index)) => match memory.object(n) {
            // Only a slice is indexed in a typed program; any other object reads as nil.
            Some(Object::Slice(cells)) => element(cells, index),
            _ => Ok(Value::Nil),
        },
        _ => Ok(Value::Nil),
    }
}

/// How many elements a slice has.
#[inline(always)]
pub fn length_of(memory: &Memory, slice: Value) -> Value
    ensures { result ≡ length_of (memory_view memory.now) slice }
{
    match slice {
        Value::Nil => Value::Int(0),
        Value::Object(n) => match memory.object(n) {
            Some(Object::Slice(cells)) => Value::Int(cells.len() as i64),
            _ => Value::Nil,
        },
        _ => Value::Nil,
    }
}

#[inline(always)]
fn put_in(object: &mut Object, index: i64, value: Value) -> Effect
    ensures { LeavesOutcome result (object_view object.old) (object_view object.new)
        (put_in index value (object_view object.old)) }
{
    let Object::Slice(cells) = object else {
        return Effect::Gives(Value::Nil);
    };
    if index < 0 {
        return Effect::Traps(Trap::IndexRange);
    }
    match cells.get_mut(index as usize) {
        Some(cell) => {
            *cell = value;
            Effect::Gives(Value::Nil)
        }
        None => Effect::Traps(Trap::IndexRange),
    }
}

/// An element becomes the value.
#[inline(always)]
pub fn put(memory: &mut Memory, slice: Value, index: Value, value: Value) -> Effect
    ensures { LeavesOutcome result (memory_view memory.old) (memory_view memory.new)
        (put (memory_view memory.old) slice index value) }
{
    match (slice, index) {
        (Value::Nil, Value::Int(_)) => Effect::Traps(Trap::IndexRange),
        (Value::Object(n), Value::Int(index)) => match memory.object_mut(n) {
            Some(object) => put_in(object, index, value),
            None => Effect::Gives(Value::Nil),
        },
        _ => Effect::Gives(Value::Nil),
    }
}
