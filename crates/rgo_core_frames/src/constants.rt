//! That the constants of code have 64 bits: the type of `Action` guarantees it for each one, and a walk over the code collects it. No law
//! can know it without such a walk, since contracts see a constant as an integer of any size.

ghost use Rattle.std.specs.Prelude.{IfSome, slice_get};
ghost use Rattle.rgo_core_frames.specs.shown.Constants.{ActionFits, ConstantsFit, FnFits, InstrFits, OpFits};
ghost use Rattle.rgo_sound.specs.Tac.Ops.{operation_of};

use rgo_sound::code::Code;
use rgo_sound::tac::{Op, TacFn};
use rgo_sound::typed::Action;

fn action_fits(action: Action)
    ensures { ActionFits action }
{
    match action {
        Action::Int(_)
        | Action::Bool(_)
        | Action::Nil
        | Action::Copy
        | Action::Binary(_)
        | Action::Neg
        | Action::Not
        | Action::IsNil
        | Action::Len
        | Action::Load(_)
        | Action::Store(_)
        | Action::At
        | Action::Put
        | Action::New(_)
        | Action::Slice
        | Action::Chan
        | Action::Recv
        | Action::Send
        | Action::Close
        | Action::Get(_)
        | Action::Set(_) => {}
    }
}

fn op_fits(op: Op<'_>)
    ensures { OpFits (operation_of op.entry) }
{
    match op {
        Op::Do { action, .. } => action_fits(action),
        Op::Call { .. }
        | Op::Go { .. }
        | Op::Print { .. }
        | Op::Jump(_)
        | Op::Branch { .. }
        | Op::Return(_) => {}
    }
}

fn instr_fits(f: &TacFn, n: usize)
    ensures { IfSome (slice_get f.now.body n) InstrFits }
{
    if let Some(op) = f.op(n) {
        op_fits(op);
    }
}

fn function_fits(f: &TacFn)
    ensures { FnFits f.now }
{
    for n in 0..f.len() {
        instr_fits(f, n);
    }
}

/// Each constant of the code has 64 bits. It walks over the instructions and changes nothing, so it is called once, before a run.
pub fn constants_fit(code: &Code)
    ensures { ConstantsFit code.now }
{
    let functions = code.tac().functions();
    for n in 0..functions.len() {
        function_fits(&functions[n]);
    }
}
