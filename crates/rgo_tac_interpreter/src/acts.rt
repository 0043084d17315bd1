//! What a frame does by itself, and how a caller continues.

ghost use Rattle.std.specs.Prelude.{◌≡◌, ◌<◌, ◌^◌, ◌+◌, ℕ, List, IfOk, OnOk};
ghost use Rattle.rgo_typed.specs.declared.statements.Piece.{Piece};
ghost use Rattle.rgo_memory.specs.Channels.{SameChannels};
ghost use Rattle.rgo_memory.specs.Memory as the_memory;
ghost use Rattle.rgo_memory.specs.Perform.{perform};
ghost use Rattle.rgo_interpreter.specs.Views.{memory_view};
ghost use Rattle.rgo_interpreter.specs.Acting.{FrameActs};
ghost use Rattle.rgo_machine.specs.Actions as actions;
ghost use Rattle.rgo_machine.specs.Lines.{printed_line};
ghost use Rattle.rgo_machine.specs.Machines.{Prints};
ghost use Rattle.rgo_tac.specs.Frames.{frame_after_instr, moved_to, operand_values};
ghost use Rattle.rgo_tac.specs.Ops.{numbers_of, operation_of};
ghost use Rattle.rgo_tac.specs.Steps as spec;
ghost use Rattle.rgo_tac.specs.Views.{op_of};

use crate::frames::{Frame, push_values};
use crate::stands::{coded_next, next_of};
use rgo_ast::Place;
use rgo_interpreter::{Did, Effect, Memory, is_true, no_type, perform};
use rgo_machine::write_line;
use rgo_memory::Value;
use rgo_tac::{Instr, Op, Operands, Tac};
use rgo_typed::{Action, Piece, Type};
use std::alloc::{AllocError, Global};

/// The type of the variable to which a value goes; `none` if there is no such variable. `none` is passed in, since the result is
/// borrowed.
fn type_of<'a>(code: &'a Tac, frame: &Frame, to: Option<u32>, none: &'a Type) -> &'a Type
    requires { none.now ≡ actions.no_type }
    ensures { result.now ≡ spec.destination_type code.now frame.now to }
{
    let Some(d) = to else {
        return none;
    };
    let Some(function) = code.functions().get(frame.function) else {
        return none;
    };
    match function.variables().get(d as usize) {
        Some(ty) => ty,
        None => none,
    }
}

/// An action on variables, at a place of the text. The frame changes last: a trap, or an allocation failure, leaves it as it was.
pub(crate) fn operate(
    alloc: Global,
    code: &Tac,
    memory: &mut Memory,
    frame: &mut Frame,
    to: Option<u32>,
    action: Action,
    from: Operands,
    at: Place,
) -> Result<Did, AllocError>
    requires { frame.old.next < 2 ^ 63 }
    ensures acts { (out : List ℕ) → FrameActs result (memory_view memory.old) (memory_view memory.new)
        frame.old frame.new out out
        (actions.effected (frame_after_instr frame.old to) at (perform code.now.structs action (spec.destination_type code.now frame.old to)
        (operand_values frame.old (numbers_of from)) (memory_view memory.old))) }
    ensures channels { SameChannels (memory_view memory.old) (memory_view memory.new) }
{
    let none = no_type(alloc);
    let ty = type_of(code, frame, to, &none);
    let values = frame.operands(from);
    match perform(alloc, memory, code.structs(), action, ty, values.items())? {
        Effect::Gives(value) => {
            frame.go_on(to, value);
            Ok(Did::Moves)
        }
        Effect::Traps(trap) => Ok(Did::Traps(trap, at)),
    }
}

/// Prints a line.
fn write(
    alloc: Global,
    frame: &mut Frame,
    pieces: &[Piece],
    from: &[u32],
    out: &mut Vec<u8>,
) -> Result<Did, AllocError>
    requires { frame.old.next < 2 ^ 63 }
    ensures { (m : the_memory.Memory) → FrameActs result m m frame.old frame.new out.old.items out.new.items
        (Prints (moved_to frame.old (frame.old.next + 1)) (printed_line pieces.now (operand_values frame.old from.now))) }
{
    let mut values = Vec::new(alloc);
    push_values(&mut values, frame, from)?;
    // The line before the frame: if there is no memory for it, the frame is still before the print.
    write_line(out, pieces, &values)?;
    frame.advance();
    Ok(Did::Prints)
}

fn act_before(
    alloc: Global,
    code: &Tac,
    memory: &mut Memory,
    frame: &mut Frame,
    op: Op<'_>,
    at: Place,
    out: &mut Vec<u8>,
) -> Result<Did, AllocError>
    requires { frame.old.next < 2 ^ 63 }
    ensures acts { FrameActs result (memory_view memory.old) (memory_view memory.new) frame.old frame.new
        out.old.items out.new.items (spec.act_of_op code.now (memory_view memory.old) frame.old (operation_of op.entry) at) }
    ensures channels { SameChannels (memory_view memory.old) (memory_view memory.new) }
{
    match op {
        Op::Do { to, action, from } => operate(alloc, code, memory, frame, to, action, from, at),
        // Only if the function does not exist: the frame is else at a call or a start, which the machine does. Lowered code has
        // no such call.
        Op::Call { .. } | Op::Go { .. } => {
            frame.advance();
            Ok(Did::Moves)
        }
        Op::Print { pieces, from } => write(alloc, frame, pieces, from, out),
        Op::Jump(target) => {
            frame.move_to(target);
            Ok(Did::Moves)
        }
        Op::Branch {
            test,
            target,
            other,
        } => {
            let next = if is_true(frame.value(test)) {
                target
            } else {
                other
            };
            frame.move_to(next);
            Ok(Did::Moves)
        }
        Op::Return(None) => Ok(Did::Returns(None)),
        Op::Return(Some(a)) => Ok(Did::Returns(Some(frame.value(a)))),
    }
}

/// The next instruction of a frame; without one it stays as it is, which never happens in lowered code.
pub(crate) fn act(
    alloc: Global,
    code: &Tac,
    memory: &mut Memory,
    frame: &mut Frame,
    out: &mut Vec<u8>,
) -> Result<Did, AllocError>
    ensures acts { FrameActs result (memory_view memory.old) (memory_view memory.new) frame.old frame.new
        out.old.items out.new.items (spec.tac_act code.now (memory_view memory.old) frame.old) }
    ensures channels { SameChannels (memory_view memory.old) (memory_view memory.new) }
{
    match next_of(code, frame) {
        Some(next) => act_before(alloc, code, memory, frame, next.op, next.place, out),
        None => Ok(Did::Moves),
    }
}

/// The variable to which a call assigns its result.
fn target_of(instr: Instr) -> Option<u32>
    ensures { (lists : List (List ℕ)) (pieces : List (List Piece))
        → result ≡ spec.target_of (op_of lists pieces instr) }
{
    match instr {
        Instr::Call(d, _, _) => Some(d),
        _ => None,
    }
}

/// A caller continues after its call, with the result or without one. Where the result goes is read from the call again, so a
/// frame keeps nothing for it. This happens at each return, so the instruction is not decoded.
pub(crate) fn resume(code: &Tac, frame: &mut Frame, value: Option<Value>)
    ensures { frame.new ≡ spec.tac_resumed code.now frame.old value }
{
    let Some(next) = coded_next(code, frame) else {
        return;
    };
    match value {
        Some(value) => frame.go_on(target_of(next.instr), value),
        None => frame.advance(),
    }
}
