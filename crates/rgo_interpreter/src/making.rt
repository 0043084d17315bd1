//! New objects (The Go Programming Language Specification, "Composite literals", "Making slices,
//! maps and channels").

ghost use Rattle.std.specs.Prelude.{◌≡◌, ◌<◌, ℕ, map, IfOk, OnOk};
ghost use Rattle.rgo_memory.specs.Values.{zero_of};
ghost use Rattle.rgo_memory.specs.Making.{made, new_struct, new_slice, new_channel};
ghost use Rattle.rgo_interpreter.specs.Views.{Performs, object_view, object_view_at, memory_view};

use crate::blocks::{Block, SLOTS};
use crate::effects::Effect;
use crate::memory::Memory;
use crate::objects::{Channel, FIELDS, Object};
use rgo_memory::{Trap, Value, element_zero, zero};
use rgo_typed::{Struct, Type};
use smallvec::SmallVec;
use std::alloc::{AllocError, Global};
use std::collections::VecDeque;

/// An object in the slot of the next number.
fn put(alloc: Global, memory: &mut Memory, object: Object) -> Result<(), AllocError>
    ensures put { OnOk result (object_view_at memory.new memory.old.made ≡ object_view object) }
    ensures kept { (n : ℕ) → n < memory.old.made → object_view_at memory.new n ≡ object_view_at memory.old n }
    ensures made { memory.new.made ≡ memory.old.made }
    ensures variables { memory.new.variables ≡ memory.old.variables }
{
    let number = memory.made / SLOTS;
    let slot = memory.made % SLOTS;
    match memory.block_mut(number) {
        Some(block) => block.put(slot, object),
        None => {
            // The block before is no longer the newest one, which is kept even if it is empty.
            memory.drop_if_empty(number.saturating_sub(1));
            let mut block = Block::new(alloc)?;
            block.put(slot, object)?;
            match memory.blocks.insert(number, block) {
                Ok(_) => Ok(()),
                Err(_) => Err(AllocError),
            }
        }
    }
}

fn make(alloc: Global, memory: &mut Memory, object: Object) -> Result<Effect, AllocError>
    ensures { Performs result (memory_view memory.old) (memory_view memory.new)
        (made (memory_view memory.old) (object_view object)) }
{
    let number = memory.made;
    // Memory runs out long before 2^64 objects; the test is here since no clause bounds how many are made.
    let Some(more) = number.checked_add(1) else {
        return Err(AllocError);
    };
    put(alloc, memory, object)?;
    // Only when the object is there: after a failure it does not count.
    memory.made = more;
    Ok(Effect::Gives(Value::Object(number)))
}

fn zero_fields(alloc: Global, types: &[Type]) -> Result<SmallVec<Value, FIELDS>, AllocError>
    ensures { IfOk result (λ values. values.items ≡ map zero_of types.now) }
{
    types.iter().map(|ty| zero(ty)).collect(alloc)
}

/// A struct of this number, each field at the zero of its type.
pub(crate) fn new_struct(
    alloc: Global,
    memory: &mut Memory,
    structs: &[Struct],
    number: usize,
) -> Result<Effect, AllocError>
    ensures { Performs result (memory_view memory.old) (memory_view memory.new)
        (new_struct structs.now number (memory_view memory.old)) }
{
    let Some(of) = structs.get(number) else {
        return Ok(Effect::Gives(Value::Nil));
    };
    let cells = zero_fields(alloc, of.fields.items())?;
    make(alloc, memory, Object::Struct(cells))
}

/// A slice of this length, each element at its zero.
pub(crate) fn new_slice(
    alloc: Global,
    memory: &mut Memory,
    ty: &Type,
    len: Value,
) -> Result<Effect, AllocError>
    ensures { Performs result (memory_view memory.old) (memory_view memory.new)
        (new_slice ty.now len (memory_view memory.old)) }
{
    let Value::Int(len) = len else {
        return Ok(Effect::Gives(Value::Nil));
    };
    if len < 0 {
        return Ok(Effect::Traps(Trap::BadSize));
    }
    let cells = vec![in alloc; element_zero(ty); len as usize]?;
    make(alloc, memory, Object::Slice(cells))
}

/// A channel of this capacity. Memory for what is sent is taken as it is sent, since a capacity may be larger than the memory.
pub(crate) fn new_channel(
    alloc: Global,
    memory: &mut Memory,
    capacity: Value,
) -> Result<Effect, AllocError>
    ensures { Performs result (memory_view memory.old) (memory_view memory.new)
        (new_channel capacity (memory_view memory.old)) }
{
    let Value::Int(capacity) = capacity else {
        return Ok(Effect::Gives(Value::Nil));
    };
    if capacity < 0 {
        return Ok(Effect::Traps(Trap::BadSize));
    }
    let channel = Channel {
        capacity: capacity as usize,
        queue: VecDeque::new(alloc),
        closed: false,
    };
    make(alloc, memory, Object::Channel(Box::new(alloc, channel)?))
}
