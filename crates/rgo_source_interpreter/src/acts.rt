//! What a frame does by itself: the first thing that it has to do. What can fail comes before what changes, in each function.

ghost use Rattle.std.specs.Prelude.{◌≡◌, ◌<◌, ℕ, List, [], ◌∷◌, drop, length};
ghost use Rattle.rgo_typed.specs.Views.{typed_of};
ghost use Rattle.rgo_memory.specs.Channels.{SameChannels};
ghost use Rattle.rgo_memory.specs.Memory as the_memory;
ghost use Rattle.rgo_memory.specs.Perform.{perform};
ghost use Rattle.rgo_interpreter.specs.Views.{memory_view};
ghost use Rattle.rgo_interpreter.specs.Acting.{FrameActs};
ghost use Rattle.rgo_machine.specs.Actions as actions;
ghost use Rattle.rgo_machine.specs.Lines.{printed_line};
ghost use Rattle.rgo_machine.specs.Machines.{Prints};
ghost use Rattle.rgo_source_interpreter.specs.Changes.{Changes};
ghost use Rattle.rgo_meaning.specs.Frames.{frame_with_todo, last_values, newest_value};
ghost use Rattle.rgo_meaning.specs.Steps as spec;
ghost use Rattle.rgo_source_interpreter.specs.Views.{todo_of};

use crate::frames::{Frame, Todo};
use crate::statements::{again, choose, execute, sequence, test_loop, turn, when};
use crate::terms::{decide, each, evaluate};
use rgo_ast::Place;
use rgo_interpreter::{Did, Effect, Memory, no_type, perform};
use rgo_machine::write_line;
use rgo_memory::{Value, zero};
use rgo_typed::{Action, Piece, Struct, Type, Typed};
use std::alloc::{AllocError, Global};

/// An action with a result. Its place is made first, so that nothing can fail after the memory has changed.
fn give_value(
    alloc: Global,
    structs: &[Struct],
    memory: &mut Memory,
    frame: &mut Frame<'_>,
    action: Action,
    count: usize,
    ty: &Type,
    at: Place,
) -> Result<Did, AllocError>
    ensures acts { (out : List ℕ) → FrameActs result (memory_view memory.old) (memory_view memory.new)
        frame.old frame.new out out
        (actions.effected (spec.with_action_result frame.old count (drop 1 frame.old.todo)) at
        (perform structs.now action ty.now (last_values count frame.old.values) (memory_view memory.old))) }
    ensures channels { SameChannels (memory_view memory.old) (memory_view memory.new) }
{
    frame.push(Value::Nil)?;
    match perform(alloc, memory, structs, action, ty, frame.below_first(count)) {
        Ok(Effect::Gives(value)) => {
            frame.replace(count, value);
            frame.advance(0);
            Ok(Did::Moves)
        }
        Ok(Effect::Traps(trap)) => {
            frame.pop();
            Ok(Did::Traps(trap, at))
        }
        Err(error) => {
            frame.pop();
            Err(error)
        }
    }
}

/// An action without a result.
fn affect(
    alloc: Global,
    structs: &[Struct],
    memory: &mut Memory,
    frame: &mut Frame<'_>,
    action: Action,
    count: usize,
    at: Place,
) -> Result<Did, AllocError>
    ensures acts { (out : List ℕ) → FrameActs result (memory_view memory.old) (memory_view memory.new)
        frame.old frame.new out out
        (actions.effected (spec.without_action_result frame.old count (drop 1 frame.old.todo)) at
        (perform structs.now action actions.no_type (last_values count frame.old.values) (memory_view memory.old))) }
    ensures channels { SameChannels (memory_view memory.old) (memory_view memory.new) }
{
    let ty = no_type(alloc);
    match perform(alloc, memory, structs, action, &ty, frame.last(count))? {
        Effect::Gives(_) => {
            frame.advance(count);
            Ok(Did::Moves)
        }
        Effect::Traps(trap) => Ok(Did::Traps(trap, at)),
    }
}

/// Writes the first of these fields of a new object; if there is none, the object replaces the values. One field is one step, since
/// a step writes at most one cell.
fn fill<'a>(
    alloc: Global,
    structs: &[Struct],
    memory: &mut Memory,
    frame: &mut Frame<'a>,
    count: usize,
    fields: &'a [usize],
    at: Place,
) -> Result<Did, AllocError>
    requires { 0 < length frame.old.todo }
    ensures acts { (out : List ℕ) → FrameActs result (memory_view memory.old) (memory_view memory.new)
        frame.old frame.new out out
        (spec.act_of_fill structs.now (memory_view memory.old) count fields.now at (drop 1 frame.old.todo) frame.old) }
    ensures channels { SameChannels (memory_view memory.old) (memory_view memory.new) }
{
    let target = frame.value(0);
    let Some((field, rest)) = fields.split_first() else {
        frame.replace(count, target);
        frame.advance(0);
        return Ok(Did::Moves);
    };
    let ty = no_type(alloc);
    let operands = [target, frame.value(fields.len())];
    match perform(
        alloc,
        memory,
        structs,
        Action::Store(*field),
        &ty,
        &operands,
    )? {
        Effect::Gives(_) => {
            frame.set_first(Todo::Fill(count, rest, at));
            Ok(Did::Moves)
        }
        Effect::Traps(trap) => Ok(Did::Traps(trap, at)),
    }
}

/// Prints a line.
fn write(
    frame: &mut Frame<'_>,
    pieces: &[Piece],
    count: usize,
    out: &mut Vec<u8>,
) -> Result<Did, AllocError>
    ensures { (m : the_memory.Memory) → FrameActs result m m frame.old frame.new out.old.items out.new.items
        (Prints (frame_with_todo frame.old count [] (drop 1 frame.old.todo))
        (printed_line pieces.now (last_values count frame.old.values))) }
{
    write_line(out, pieces, frame.last(count))?;
    frame.advance(count);
    Ok(Did::Prints)
}

/// What changes the frame alone.
fn move_on<'a>(frame: &mut Frame<'a>, todo: Todo<'a>) -> Result<(), AllocError>
    ensures { Changes result frame.old frame.new
        (spec.moved (todo_of todo.entry) (drop 1 frame.old.todo) frame.old) }
{
    match todo {
        Todo::Evaluate(term) => evaluate(frame, term),
        Todo::Each(terms) => each(frame, terms),
        Todo::Decide(op, right) => decide(frame, op, right),
        Todo::Repeat(count) => {
            frame.repeat(count)?;
            frame.advance(0);
            Ok(())
        }
        Todo::Give(n) => {
            frame.set_local(n, frame.value(0))?;
            frame.advance(1);
            Ok(())
        }
        Todo::Clear(n, ty) => {
            frame.set_local(n, zero(ty))?;
            frame.advance(0);
            Ok(())
        }
        Todo::Execute(stmt) => execute(frame, stmt),
        Todo::Sequence(stmts) => sequence(frame, stmts),
        Todo::When(body) => when(frame, body),
        Todo::Choose(body, other) => choose(frame, body, other),
        Todo::Turn(test, body, post) => turn(frame, test, body, post),
        Todo::Test(test, body, post) => test_loop(frame, test, body, post),
        Todo::Again(test, body, post) => again(frame, test, body, post),
        Todo::Forget => {
            frame.advance(1);
            Ok(())
        }
        Todo::Enter(_, count) | Todo::Start(_, count) => {
            frame.advance(count);
            Ok(())
        }
        Todo::Perform(_, _, _, _)
        | Todo::Affect(_, _, _)
        | Todo::Settle
        | Todo::Create(_)
        | Todo::Fill(_, _, _)
        | Todo::Write(_, _)
        | Todo::Close
        | Todo::Onward
        | Todo::Leave
        | Todo::Stay => {
            frame.advance(0);
            Ok(())
        }
    }
}

/// One thing to do.
fn do_one<'a>(
    alloc: Global,
    program: &'a Typed,
    memory: &mut Memory,
    frame: &mut Frame<'a>,
    todo: Todo<'a>,
    out: &mut Vec<u8>,
) -> Result<Did, AllocError>
    requires { 0 < length frame.old.todo }
    ensures acts { FrameActs result (memory_view memory.old) (memory_view memory.new) frame.old frame.new
        out.old.items out.new.items
        (spec.act_of_todo (typed_of program.now) (memory_view memory.old) (todo_of todo.entry)
        (drop 1 frame.old.todo) frame.old) }
    ensures channels { SameChannels (memory_view memory.old) (memory_view memory.new) }
{
    let structs = program.structs.items();
    match todo {
        Todo::Perform(action, count, ty, at) => {
            give_value(alloc, structs, memory, frame, action, count, ty, at)
        }
        Todo::Affect(action, count, at) => affect(alloc, structs, memory, frame, action, count, at),
        Todo::Create(number) => {
            let ty = no_type(alloc);
            give_value(
                alloc,
                structs,
                memory,
                frame,
                Action::New(number),
                0,
                &ty,
                0,
            )
        }
        Todo::Fill(count, fields, at) => fill(alloc, structs, memory, frame, count, fields, at),
        Todo::Write(pieces, count) => write(frame, pieces, count, out),
        Todo::Leave => Ok(Did::Returns(Some(frame.value(0)))),
        Todo::Stay => Ok(Did::Moves),
        _ => {
            move_on(frame, todo)?;
            Ok(Did::Moves)
        }
    }
}

/// The first thing that the frame has to do; if there is none, its function returns.
pub fn act<'a>(
    alloc: Global,
    program: &'a Typed,
    memory: &mut Memory,
    frame: &mut Frame<'a>,
    out: &mut Vec<u8>,
) -> Result<Did, AllocError>
    ensures acts { FrameActs result (memory_view memory.old) (memory_view memory.new) frame.old frame.new
        out.old.items out.new.items (spec.source_act (typed_of program.now) (memory_view memory.old) frame.old) }
    ensures channels { SameChannels (memory_view memory.old) (memory_view memory.new) }
{
    match frame.first() {
        Some(todo) => do_one(alloc, program, memory, frame, todo, out),
        None => Ok(Did::Returns(None)),
    }
}
