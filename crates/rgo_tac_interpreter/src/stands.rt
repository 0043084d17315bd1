//! Where frames are, and how they continue from there.

ghost use Rattle.std.specs.Prelude.{◌≡◌, ◌<◌, ◌^◌, ℕ, Some, None, slice_get, IfSome, IfOk, MatchOption};
ghost use Rattle.std.specs.Option.{option_map};
ghost use Rattle.rgo_memory.specs.Values.{zero_of};
ghost use Rattle.rgo_interpreter.specs.Acting.{stand_of, frame_after_operation, FrameEnters};
ghost use Rattle.rgo_tac.specs.Code as the_code;
ghost use Rattle.rgo_tac.specs.Frames as frames;
ghost use Rattle.rgo_tac.specs.Ops.{operation_of, op_in};
ghost use Rattle.rgo_tac.specs.Steps as spec;
ghost use Rattle.rgo_tac.specs.Views.{op_of};

use crate::frames::{Frame, called, push_values};
use rgo_ast::Place;
use rgo_interpreter::{Stand, at_channel, given};
use rgo_memory::{Value, zero};
use rgo_tac::{Body, Instr, Op, Tac, instr_at};
use std::alloc::{AllocError, Global};

/// An instruction as it is coded, and the body in which it is.
#[derive(Clone, Copy)]
pub(crate) struct Coded<'a> {
    pub(crate) body: &'a Body,
    pub(crate) instr: Instr,
}

/// The next instruction of a frame as it is coded: what is done at each call and return decodes none.
pub(crate) fn coded_next<'a>(code: &'a Tac, frame: &Frame) -> Option<Coded<'a>>
    ensures next { MatchOption result (spec.instr_of code.now frame.now ≡ None)
        (λ c. op_in (spec.instr_of code.now frame.now) ≡ Some (op_of c.body.now.lists c.body.now.pieces c.instr)) }
    ensures below { IfSome result (λ c. frame.now.next < 2 ^ 63) }
{
    let body = code.body(frame.function)?;
    match instr_at(body.instrs.items(), frame.next) {
        Some(instr) => Some(Coded { body, instr }),
        None => None,
    }
}

/// What an instruction does, and its place.
#[derive(Clone, Copy)]
pub(crate) struct Next<'a> {
    pub(crate) op: Op<'a>,
    pub(crate) place: Place,
}

/// The next instruction of a frame.
pub(crate) fn next_of<'a>(code: &'a Tac, frame: &Frame) -> Option<Next<'a>>
    ensures next { MatchOption result (spec.instr_of code.now frame.now ≡ None)
        (λ next. spec.instr_of code.now frame.now ≡ Some (record { op = operation_of next.op; place = next.place })) }
    ensures below { IfSome result (λ next. frame.now.next < 2 ^ 63) }
{
    let function = code.functions().get(frame.function)?;
    let op = function.op(frame.next)?;
    Some(Next {
        op,
        place: function.place(frame.next),
    })
}

/// The zero of the type of the variable to which a value goes: what a receive from a closed channel returns.
fn blank(code: &Tac, frame: &Frame, to: Option<u32>) -> Value
    ensures { result ≡ zero_of (spec.destination_type code.now frame.now to) }
{
    let Some(d) = to else {
        return Value::Int(0);
    };
    let Some(function) = code.functions().get(frame.function) else {
        return Value::Int(0);
    };
    match function.variables().get(d as usize) {
        Some(ty) => zero(ty),
        None => Value::Int(0),
    }
}

fn stand_before(code: &Tac, frame: &Frame, op: Op<'_>, at: Place) -> Stand
    ensures { result ≡ stand_of (spec.stand_before_op code.now frame.now (operation_of op.entry) at) }
{
    let functions = code.functions().len();
    match op {
        Op::Do { to, action, from } => {
            let values = frame.operands(from);
            at_channel::<Frame>(action, blank(code, frame, to), at, values.items())
        }
        Op::Call { function, .. } if (function as usize) < functions => Stand::Call,
        Op::Go { function, .. } if (function as usize) < functions => Stand::Start,
        Op::Call { .. }
        | Op::Go { .. }
        | Op::Print { .. }
        | Op::Jump(_)
        | Op::Branch { .. }
        | Op::Return(_) => Stand::Elsewhere,
    }
}

/// Where a frame is.
pub(crate) fn stand(code: &Tac, frame: &Frame) -> Stand
    ensures { result ≡ stand_of (spec.tac_stand code.now frame.now) }
{
    match next_of(code, frame) {
        Some(next) => stand_before(code, frame, next.op, next.place),
        None => Stand::Elsewhere,
    }
}

fn pass_before(frame: &mut Frame, op: Op<'_>, value: Value)
    requires { frame.old.next < 2 ^ 63 }
    ensures { (code : the_code.Tac) (at : ℕ)
        → frame.new ≡ frame_after_operation frame.old value (spec.stand_before_op code frame.old (operation_of op.entry) at) }
{
    if let Op::Do { to, action, from } = op {
        let values = frame.operands(from);
        if let Some(given) = given::<Frame>(action, values.items(), value) {
            frame.go_on(to, given);
        }
    }
}

/// A frame continues after an operation on a channel that gave this value.
pub(crate) fn pass(code: &Tac, frame: &mut Frame, value: Value)
    ensures { frame.new ≡ frame_after_operation frame.old value (spec.tac_stand code.now frame.old) }
{
    if let Some(next) = next_of(code, frame) {
        pass_before(frame, next.op, value);
    }
}

/// The frame of the function of this number, if it exists, called with the values of these variables.
fn begin(
    alloc: Global,
    code: &Tac,
    frame: &Frame,
    function: u32,
    from: &[u32],
) -> Result<Option<Frame>, AllocError>
    ensures { IfOk result (λ begun. begun
        ≡ option_map (λ callee. frames.new_tac_frame callee function (frames.operand_values frame.now from.now))
        (slice_get code.now.functions function)) }
{
    let Some(callee) = code.functions().get(function as usize) else {
        return Ok(None);
    };
    let mut arguments = Vec::new(alloc);
    push_values(&mut arguments, frame, from)?;
    Ok(Some(called(arguments, callee, function as usize)?))
}

fn enter_before(
    alloc: Global,
    code: &Tac,
    frame: &mut Frame,
    op: Op<'_>,
) -> Result<Option<Frame>, AllocError>
    requires { frame.old.next < 2 ^ 63 }
    ensures { (at : ℕ) → FrameEnters result frame.old frame.new
        (spec.stand_before_op code.now frame.old (operation_of op.entry) at) }
{
    match op {
        // The caller stays at its call: `resume` moves it when the callee has returned. A start moves at once, below.
        Op::Call { function, from, .. } => begin(alloc, code, frame, function, from),
        Op::Go { function, from } => {
            let begun = begin(alloc, code, frame, function, from)?;
            if begun.is_some() {
                frame.advance();
            }
            Ok(begun)
        }
        Op::Do { .. } | Op::Print { .. } | Op::Jump(_) | Op::Branch { .. } | Op::Return(_) => {
            Ok(None)
        }
    }
}

/// A frame continues after the call or the start of a function. Returns the function's frame; `None` if the frame is
/// before neither.
pub(crate) fn enter(
    alloc: Global,
    code: &Tac,
    frame: &mut Frame,
) -> Result<Option<Frame>, AllocError>
    ensures { FrameEnters result frame.old frame.new (spec.tac_stand code.now frame.old) }
{
    match next_of(code, frame) {
        Some(next) => enter_before(alloc, code, frame, next.op),
        None => Ok(None),
    }
}
