//! A bound that the numbers of variables are below, for the instructions that stay in their frame. Only these are executed without
//! tests; calls, starts, prints and returns read variables by the general way.

ghost use Rattle.std.specs.Prelude.{◌≤◌};
ghost use Rattle.rgo_tac.specs.Ops.{numbers_of, operation_of};
ghost use Rattle.rgo_tac.specs.Widths.{IsBelow, AreBelow, OpFitsWidth, OpsFitWidth};

use crate::code::Body;
use crate::ops::{Op, Operands, decode};

fn width_of_target(to: Option<u32>) -> usize
    ensures { IsBelow result to }
{
    match to {
        Some(d) => d as usize + 1,
        None => 0,
    }
}

fn width_of_operands(from: Operands) -> usize
    ensures { AreBelow result (numbers_of from) }
{
    match from {
        Operands::Zero => 0,
        Operands::One(a) => a as usize + 1,
        Operands::Two(a, b) => a.max(b) as usize + 1,
        Operands::Three(a, b, c) => a.max(b).max(c) as usize + 1,
    }
}

fn width_of(op: Op<'_>) -> usize
    ensures { OpFitsWidth result (operation_of op.entry) }
{
    match op {
        Op::Do { to, from, .. } => width_of_target(to).max(width_of_operands(from)),
        Op::Branch { test, .. } => test as usize + 1,
        Op::Call { .. } | Op::Go { .. } | Op::Print { .. } | Op::Jump(_) | Op::Return(_) => 0,
    }
}

#[tactic(auto, using(crate::proofs::Fitting::wider))]
/// The width of an instruction, or the width that there was, if it is greater.
fn widened(width: usize, op: Op<'_>) -> usize
    ensures fits { OpFitsWidth result (operation_of op.entry) }
    ensures grows { width ≤ result }
{
    width.max(width_of(op))
}

/// The width of all instructions.
pub fn width_of_all(body: &Body) -> usize
    ensures { OpsFitWidth body.now.lists body.now.pieces result body.now.instrs }
{
    let mut width = 0;
    for instr in body.instrs.items() {
        width = widened(width, decode(body, *instr));
    }
    width
}
