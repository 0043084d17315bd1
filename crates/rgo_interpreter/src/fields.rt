//! Fields of structs (The Go Programming Language Specification, "Selectors"): a field of nil traps.

ghost use Rattle.std.specs.Prelude.{◌≡◌};
ghost use Rattle.rgo_memory.specs.Fields.{load, store_outcome, store};
ghost use Rattle.rgo_interpreter.specs.Views.{LeavesOutcome, object_view, memory_view};

use crate::effects::Effect;
use crate::memory::Memory;
use crate::objects::Object;
use rgo_memory::{Trap, Value};

/// A field's value.
///
/// # Errors
///
/// If the pointer is nil.
#[inline(always)]
pub fn load(memory: &Memory, pointer: Value, field: usize) -> Result<Value, Trap>
    ensures { result ≡ load (memory_view memory.now) pointer field }
{
    match pointer {
        Value::Nil => Err(Trap::NilPointer),
        Value::Object(n) => match memory.object(n) {
            // Other objects, and fields that the struct does not have, read as nil: no typed program selects them.
            Some(Object::Struct(cells)) => Ok(cells.get(field).copied().unwrap_or(Value::Nil)),
            _ => Ok(Value::Nil),
        },
        _ => Ok(Value::Nil),
    }
}

#[inline(always)]
fn store_in(object: &mut Object, field: usize, value: Value) -> Effect
    ensures { LeavesOutcome result (object_view object.old) (object_view object.new)
        (store_outcome field value (object_view object.old)) }
{
    // A field that the struct does not have is not written, as in the definition.
    if let Object::Struct(cells) = object {
        if let Some(cell) = cells.get_mut(field) {
            *cell = value;
        }
    }
    Effect::Gives(Value::Nil)
}

/// A field becomes the value.
#[inline(always)]
pub fn store(memory: &mut Memory, pointer: Value, field: usize, value: Value) -> Effect
    ensures { LeavesOutcome result (memory_view memory.old) (memory_view memory.new)
        (store (memory_view memory.old) pointer field value) }
{
    match pointer {
        Value::Nil => Effect::Traps(Trap::NilPointer),
        Value::Object(n) => match memory.object_mut(n) {
            Some(object) => store_in(object, field, value),
            None => Effect::Gives(Value::Nil),
        },
        _ => Effect::Gives(Value::Nil),
    }
}
