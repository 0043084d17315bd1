//! Where frames stand, and how they continue from there.

ghost use Rattle.std.specs.Prelude.{◌≡◌, drop, slice_get};
ghost use Rattle.rgo_typed.specs.Tree as tree;
ghost use Rattle.rgo_typed.specs.Views.{typed_of};
ghost use Rattle.rgo_interpreter.specs.Acting.{stand_of, frame_after_operation, FrameEnters};
ghost use Rattle.rgo_machine.specs.Machines.{AtCall, AtStart};
ghost use Rattle.rgo_meaning.specs.Stands as spec;
ghost use Rattle.rgo_source_interpreter.specs.Views.{todo_of};

use crate::calls::called;
use crate::frames::{Frame, Todo};
use rgo_interpreter::{Stand, at_channel, given};
use rgo_memory::{Value, zero};
use rgo_typed::Typed;
use std::alloc::{AllocError, Global};

fn stand_before(program: &Typed, frame: &Frame<'_>, todo: Todo<'_>) -> Stand
    ensures { result ≡ stand_of
        (spec.stand_before_todo (typed_of program.now) (todo_of todo.entry) (drop 1 frame.now.todo) frame.now) }
{
    match todo {
        Todo::Perform(action, count, ty, at) => {
            at_channel::<Frame<'_>>(action, zero(ty), at, frame.last(count))
        }
        Todo::Affect(action, count, at) => {
            at_channel::<Frame<'_>>(action, Value::Int(0), at, frame.last(count))
        }
        Todo::Enter(function, _) if function < program.functions.len() => Stand::Call,
        Todo::Start(function, _) if function < program.functions.len() => Stand::Start,
        _ => Stand::Elsewhere,
    }
}

/// Where a frame is.
pub fn stand(program: &Typed, frame: &Frame<'_>) -> Stand
    ensures { result ≡ stand_of (spec.source_stand (typed_of program.now) frame.now) }
{
    match frame.first() {
        Some(todo) => stand_before(program, frame, todo),
        None => Stand::Elsewhere,
    }
}

fn pass_before(frame: &mut Frame<'_>, todo: Todo<'_>, value: Value)
    ensures { (program : tree.Typed) → frame.new ≡ frame_after_operation frame.old value
        (spec.stand_before_todo program (todo_of todo.entry) (drop 1 frame.old.todo) frame.old) }
{
    match todo {
        Todo::Perform(action, count, _, _) => {
            if let Some(given) = given::<Frame<'_>>(action, frame.last(count), value) {
                frame.replace(count.saturating_sub(1), given);
                frame.advance(0);
            }
        }
        Todo::Affect(action, count, _) => {
            if let Some(_) = given::<Frame<'_>>(action, frame.last(count), value) {
                frame.advance(count);
            }
        }
        _ => {}
    }
}

/// A frame continues after an operation on a channel that returned this value. It replaces the operands, so no memory is needed: a
/// meeting cannot fail.
pub fn pass(frame: &mut Frame<'_>, value: Value)
    ensures { (program : tree.Typed) → frame.new ≡ frame_after_operation frame.old value (spec.source_stand program frame.old) }
{
    if let Some(todo) = frame.first() {
        pass_before(frame, todo, value);
    }
}

/// Calls or starts the function of this number, if it exists.
fn enter_function<'a>(
    alloc: Global,
    program: &'a Typed,
    frame: &mut Frame<'a>,
    function: usize,
    count: usize,
) -> Result<Option<Frame<'a>>, AllocError>
    ensures calls { FrameEnters result frame.old frame.new (spec.at_source_function AtCall
        (slice_get (typed_of program.now).functions function) count (drop 1 frame.old.todo) frame.old) }
    ensures starts { FrameEnters result frame.old frame.new (spec.at_source_function AtStart
        (slice_get (typed_of program.now).functions function) count (drop 1 frame.old.todo) frame.old) }
{
    let Some(callee) = program.functions.get(function) else {
        return Ok(None);
    };
    let begun = called(alloc, callee, frame.last(count))?;
    frame.advance(count);
    Ok(Some(begun))
}

fn enter_before<'a>(
    alloc: Global,
    program: &'a Typed,
    frame: &mut Frame<'a>,
    todo: Todo<'a>,
) -> Result<Option<Frame<'a>>, AllocError>
    ensures { FrameEnters result frame.old frame.new
        (spec.stand_before_todo (typed_of program.now) (todo_of todo.entry) (drop 1 frame.old.todo) frame.old) }
{
    match todo {
        Todo::Enter(function, count) => enter_function(alloc, program, frame, function, count),
        Todo::Start(function, count) => enter_function(alloc, program, frame, function, count),
        _ => Ok(None),
    }
}

/// A frame continues after the call or the start of a function. Returns the function's frame; `None` if the frame is
/// before neither.
pub fn enter<'a>(
    alloc: Global,
    program: &'a Typed,
    frame: &mut Frame<'a>,
) -> Result<Option<Frame<'a>>, AllocError>
    ensures { FrameEnters result frame.old frame.new (spec.source_stand (typed_of program.now) frame.old) }
{
    match frame.first() {
        Some(todo) => enter_before(alloc, program, frame, todo),
        None => Ok(None),
    }
}
