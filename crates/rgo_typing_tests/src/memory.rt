//! Sequences of actions on one memory, each with the effect that the language assigns to it.

use crate::checks::same;
use crate::typed_trees::{name_of, two, ty};
use rgo_ast::BinaryOp;
use rgo_interpreter::{Effect, Memory, close, meets_at, perform, receive, send};
use rgo_memory::{Trap, Value, zero};
use rgo_typed::{Action, Base, Layer, Row, Struct, Type, Variable};
use std::alloc::Global;
use std::process::Abort;
use std::test::Fail;

type Step<'a> = (Action, &'a [Value], Option<Effect>);

/// The effect of an action without a value.
const DONE: Option<Effect> = Some(Effect::Gives(Value::Nil));

/// The result of an operation on a channel that is not ready.
const WAITS: Option<Effect> = None;

const NIL: Value = Value::Nil;

/// The object that is made first.
const FIRST: Value = Value::Object(0);

/// What an action does, the operations on channels among them.
fn done(
    alloc: Global,
    memory: &mut Memory,
    ty: &Type,
    action: Action,
    operands: &[Value],
) -> Result<Option<Effect>, Fail> {
    match (action, operands) {
        (Action::Recv, [channel]) => Ok(receive(memory, *channel, zero(ty))),
        (Action::Send, [channel, value]) => Ok(send(memory, *channel, *value)?),
        (Action::Close, [channel]) => Ok(Some(close(memory, *channel))),
        _ => Ok(Some(perform(alloc, memory, &[], action, ty, operands)?)),
    }
}

/// Performs the actions one after another, and compares their effects. `layers` and `base` are the
/// type of each result.
fn steps_hold<R: Abort + AllocGlobal>(
    rt: &R,
    memory: &mut Memory,
    layers: &[Layer],
    base: Base,
    steps: &[Step<'_>],
) -> Result<(), Fail> {
    let ty = ty(rt.alloc(), layers, base)?;
    for (action, operands, expected) in steps {
        let effect = done(rt.alloc(), memory, &ty, *action, *operands)?;
        same(rt, "an action", &effect, expected);
    }
    Ok(())
}

static FIRST_IN_FIRST_OUT: [Step<'static>; 16] = [
    (
        Action::Chan,
        &[Value::Int(-1)],
        Some(Effect::Traps(Trap::BadSize)),
    ),
    (Action::Chan, &[Value::Int(2)], Some(Effect::Gives(FIRST))),
    (Action::Recv, &[FIRST], WAITS),
    (Action::Send, &[FIRST, Value::Int(7)], DONE),
    (Action::Send, &[FIRST, Value::Int(8)], DONE),
    (Action::Send, &[FIRST, Value::Int(9)], WAITS),
    (Action::Recv, &[FIRST], Some(Effect::Gives(Value::Int(7)))),
    (Action::Send, &[FIRST, Value::Int(9)], DONE),
    (Action::Close, &[FIRST], DONE),
    (
        Action::Close,
        &[FIRST],
        Some(Effect::Traps(Trap::CloseClosed)),
    ),
    (
        Action::Send,
        &[FIRST, Value::Int(6)],
        Some(Effect::Traps(Trap::SendClosed)),
    ),
    (Action::Recv, &[FIRST], Some(Effect::Gives(Value::Int(8)))),
    (Action::Recv, &[FIRST], Some(Effect::Gives(Value::Int(9)))),
    (Action::Recv, &[FIRST], Some(Effect::Gives(Value::Int(0)))),
    (Action::Recv, &[FIRST], Some(Effect::Gives(Value::Int(0)))),
    (
        Action::IsNil,
        &[FIRST],
        Some(Effect::Gives(Value::Bool(false))),
    ),
];

static CHANNELS_THAT_ARE_NIL: [Step<'static>; 3] = [
    (Action::Recv, &[NIL], WAITS),
    (Action::Send, &[NIL, Value::Int(1)], WAITS),
    (Action::Close, &[NIL], Some(Effect::Traps(Trap::CloseNil))),
];

#[test]
fn channels_are_first_in_first_out(rt: HostRuntime) -> Result<(), Fail> {
    let mut memory = Memory::new(rt.alloc(), &[])?;
    steps_hold(&rt, &mut memory, &[], Base::Int, &FIRST_IN_FIRST_OUT)?;
    steps_hold(&rt, &mut memory, &[], Base::Int, &CHANNELS_THAT_ARE_NIL)
}

const SECOND: Value = Value::Object(1);

/// A channel without a buffer, and one with.
static MADE: [Step<'static>; 3] = [
    (Action::Chan, &[Value::Int(0)], Some(Effect::Gives(FIRST))),
    (Action::Send, &[FIRST, Value::Int(1)], WAITS),
    (Action::Chan, &[Value::Int(1)], Some(Effect::Gives(SECOND))),
];

static CLOSED: [Step<'static>; 1] = [(Action::Close, &[FIRST], DONE)];

static PAIRS: [(Value, Value, bool); 4] = [
    (FIRST, FIRST, true),
    (FIRST, SECOND, false),
    (SECOND, SECOND, false),
    (NIL, NIL, false),
];

#[test]
fn channels_without_buffer_are_met_at(rt: HostRuntime) -> Result<(), Fail> {
    let mut memory = Memory::new(rt.alloc(), &[])?;
    steps_hold(&rt, &mut memory, &[], Base::Int, &MADE)?;
    for (left, right, wanted) in &PAIRS {
        same(
            &rt,
            "two channels",
            &meets_at(&memory, *left, *right),
            wanted,
        );
    }
    steps_hold(&rt, &mut memory, &[], Base::Int, &CLOSED)?;
    same(
        &rt,
        "a closed channel",
        &meets_at(&memory, FIRST, FIRST),
        &false,
    );
    Ok(())
}

static ELEMENTS: [Step<'static>; 12] = [
    (
        Action::Slice,
        &[Value::Int(-1)],
        Some(Effect::Traps(Trap::BadSize)),
    ),
    (Action::Slice, &[Value::Int(3)], Some(Effect::Gives(FIRST))),
    (Action::Len, &[FIRST], Some(Effect::Gives(Value::Int(3)))),
    (
        Action::At,
        &[FIRST, Value::Int(2)],
        Some(Effect::Gives(Value::Bool(false))),
    ),
    (
        Action::Put,
        &[FIRST, Value::Int(2), Value::Bool(true)],
        DONE,
    ),
    (
        Action::At,
        &[FIRST, Value::Int(2)],
        Some(Effect::Gives(Value::Bool(true))),
    ),
    (
        Action::At,
        &[FIRST, Value::Int(1)],
        Some(Effect::Gives(Value::Bool(false))),
    ),
    (
        Action::At,
        &[FIRST, Value::Int(3)],
        Some(Effect::Traps(Trap::IndexRange)),
    ),
    (
        Action::At,
        &[FIRST, Value::Int(-1)],
        Some(Effect::Traps(Trap::IndexRange)),
    ),
    (
        Action::Put,
        &[FIRST, Value::Int(3), NIL],
        Some(Effect::Traps(Trap::IndexRange)),
    ),
    (Action::Len, &[NIL], Some(Effect::Gives(Value::Int(0)))),
    (
        Action::At,
        &[NIL, Value::Int(0)],
        Some(Effect::Traps(Trap::IndexRange)),
    ),
];

#[test]
fn slices_are_read_and_written(rt: HostRuntime) -> Result<(), Fail> {
    let mut memory = Memory::new(rt.alloc(), &[])?;
    steps_hold(&rt, &mut memory, &[Layer::Slice], Base::Bool, &ELEMENTS)
}

#[test]
fn a_slice_needs_memory_for_its_elements(rt: HostRuntime) -> Result<(), Fail> {
    let mut memory = Memory::new(rt.alloc(), &[])?;
    let slice = ty(rt.alloc(), &[Layer::Slice], Base::Bool)?;
    let size = [Value::Int(i64::MAX)];
    let made = perform(rt.alloc(), &mut memory, &[], Action::Slice, &slice, &size);
    same(&rt, "a slice", &made.is_err(), &true);
    Ok(())
}

static FIELDS: [Step<'static>; 6] = [
    (
        Action::Load(0),
        &[FIRST],
        Some(Effect::Gives(Value::Int(0))),
    ),
    (Action::Store(1), &[FIRST, FIRST], DONE),
    (
        Action::Load(0),
        &[FIRST],
        Some(Effect::Gives(Value::Int(0))),
    ),
    (Action::Load(1), &[FIRST], Some(Effect::Gives(FIRST))),
    (
        Action::Load(0),
        &[NIL],
        Some(Effect::Traps(Trap::NilPointer)),
    ),
    (
        Action::Store(0),
        &[NIL, Value::Int(1)],
        Some(Effect::Traps(Trap::NilPointer)),
    ),
];

/// `struct { value int; next *Node }`
fn node(alloc: Global) -> Result<Struct, Fail> {
    let value = ty(alloc, &[], Base::Int)?;
    let next = ty(alloc, &[], Base::Pointer(0))?;
    Ok(Struct {
        name: name_of(alloc, "Node")?,
        fields: Row::new(two(alloc, value, next)?),
    })
}

#[test]
fn fields_are_read_and_written(rt: HostRuntime) -> Result<(), Fail> {
    let alloc = rt.alloc();
    let mut memory = Memory::new(alloc, &[])?;
    let structs = [node(alloc)?];
    let pointer = ty(alloc, &[], Base::Pointer(0))?;
    let new = perform(alloc, &mut memory, &structs, Action::New(0), &pointer, &[])?;
    same(&rt, "new", &new, &Effect::Gives(FIRST));
    steps_hold(&rt, &mut memory, &[], Base::Int, &FIELDS)
}

/// Actions after the first of two objects was taken away: on it they return `nil` or do nothing, and its number is not used again.
static TAKEN_AWAY: [Step<'static>; 7] = [
    (Action::Load(0), &[FIRST], Some(Effect::Gives(NIL))),
    (Action::Store(0), &[FIRST, Value::Int(1)], DONE),
    (Action::Load(0), &[FIRST], Some(Effect::Gives(NIL))),
    (Action::Len, &[FIRST], Some(Effect::Gives(NIL))),
    (Action::Close, &[FIRST], DONE),
    (Action::Len, &[SECOND], Some(Effect::Gives(Value::Int(3)))),
    (
        Action::Slice,
        &[Value::Int(1)],
        Some(Effect::Gives(Value::Object(2))),
    ),
];

#[test]
fn an_object_is_taken_away(rt: HostRuntime) -> Result<(), Fail> {
    let alloc = rt.alloc();
    let mut memory = Memory::new(alloc, &[])?;
    let structs = [node(alloc)?];
    let pointer = ty(alloc, &[], Base::Pointer(0))?;
    let new = perform(alloc, &mut memory, &structs, Action::New(0), &pointer, &[])?;
    same(&rt, "the first object", &new, &Effect::Gives(FIRST));
    let slice = ty(alloc, &[Layer::Slice], Base::Int)?;
    let size = [Value::Int(3)];
    let new = perform(alloc, &mut memory, &[], Action::Slice, &slice, &size)?;
    same(&rt, "the second object", &new, &Effect::Gives(SECOND));
    memory.take_away(0);
    memory.take_away(0);
    memory.take_away(5);
    same(&rt, "how many were made", &memory.len(), &2);
    steps_hold(&rt, &mut memory, &[Layer::Slice], Base::Int, &TAKEN_AWAY)?;
    same(&rt, "how many were made", &memory.len(), &3);
    Ok(())
}

static VARIABLES: [Step<'static>; 9] = [
    (Action::Get(0), &[], Some(Effect::Gives(Value::Int(0)))),
    (Action::Set(0), &[Value::Int(5)], DONE),
    (Action::Get(0), &[], Some(Effect::Gives(Value::Int(5)))),
    (Action::Int(-3), &[], Some(Effect::Gives(Value::Int(-3)))),
    (
        Action::Copy,
        &[Value::Int(4)],
        Some(Effect::Gives(Value::Int(4))),
    ),
    (
        Action::Neg,
        &[Value::Int(4)],
        Some(Effect::Gives(Value::Int(-4))),
    ),
    (
        Action::Binary(BinaryOp::Sub),
        &[Value::Int(4), Value::Int(6)],
        Some(Effect::Gives(Value::Int(-2))),
    ),
    (
        Action::Binary(BinaryOp::Rem),
        &[Value::Int(4), Value::Int(0)],
        Some(Effect::Traps(Trap::DivideZero)),
    ),
    // Too few operands.
    (Action::Neg, &[], DONE),
];

#[test]
fn variables_and_plain_values(rt: HostRuntime) -> Result<(), Fail> {
    let alloc = rt.alloc();
    let variable = Variable {
        name: name_of(alloc, "total")?,
        ty: ty(alloc, &[], Base::Int)?,
    };
    let mut memory = Memory::new(alloc, &[variable])?;
    steps_hold(&rt, &mut memory, &[], Base::Int, &VARIABLES)
}
