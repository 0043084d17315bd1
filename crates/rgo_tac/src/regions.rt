//! Which variables instructions force into one region. A region is removed as a whole, so what an object refers to has to be in the
//! region of the object, or one of the two would be gone while the other is still used.

ghost use Rattle.std.specs.Prelude.{◌≡◌, Some};
ghost use Rattle.rgo_tac.specs.Joins as spec;
ghost use Rattle.rgo_tac.specs.Ops.{numbers_of, operation_of};

use crate::functions::TacFn;
use crate::ops::{Op, Operands};
use rgo_typed::Action;

/// What regions are found for: a variable of a function, its result, or the package variables.
#[derive(Clone, Copy, Debug, PartialEq, Eq)]
pub enum Member {
    Variable(u32),
    Result,
    Global,
}

/// The class of a member: those of one class are in one region.
#[derive(Clone, Copy, Debug, PartialEq, Eq)]
pub enum Class {
    /// It is not a pointer, slice or channel, so it needs no region.
    NoClass,
    /// The class of the package variables. Its region is never removed: any function may still read them.
    Global,
    /// The class of this number in its function.
    Name(u32),
}

/// Two variables.
fn pair(a: u32, b: u32) -> Option<(Member, Member)>
    ensures { result ≡ spec.joined_variables a b }
{
    Some((Member::Variable(a), Member::Variable(b)))
}

fn action_joins(action: Action, to: Option<u32>, from: Operands) -> Option<(Member, Member)>
    ensures { result ≡ spec.action_joins action to (numbers_of from) }
{
    match (action, to, from) {
        (Action::Copy, Some(d), Operands::One(a)) => pair(d, a),
        (Action::Load(_), Some(d), Operands::One(a)) => pair(d, a),
        (Action::Store(_), _, Operands::Two(a, b)) => pair(a, b),
        (Action::At, Some(d), Operands::Two(a, _)) => pair(d, a),
        (Action::Put, _, Operands::Three(a, _, b)) => pair(a, b),
        (Action::Recv, Some(d), Operands::One(c)) => pair(d, c),
        (Action::Send, _, Operands::Two(c, a)) => pair(c, a),
        (Action::Get(_), Some(d), Operands::Zero) => Some((Member::Variable(d), Member::Global)),
        (Action::Set(_), _, Operands::One(a)) => Some((Member::Variable(a), Member::Global)),
        (
            Action::Int(_)
            | Action::Bool(_)
            | Action::Nil
            | Action::Copy
            | Action::Binary(_)
            | Action::Neg
            | Action::Not
            | Action::IsNil
            | Action::Len
            | Action::Load(_)
            | Action::Store(_)
            | Action::At
            | Action::Put
            | Action::New(_)
            | Action::Slice
            | Action::Chan
            | Action::Recv
            | Action::Send
            | Action::Close
            | Action::Get(_)
            | Action::Set(_),
            _,
            _,
        ) => None,
    }
}

fn op_joins(op: Op<'_>) -> Option<(Member, Member)>
    ensures { result ≡ spec.op_joins (operation_of op.entry) }
{
    match op {
        Op::Do { to, action, from } => action_joins(action, to, from),
        Op::Return(Some(a)) => Some((Member::Variable(a), Member::Result)),
        Op::Call { .. }
        | Op::Go { .. }
        | Op::Print { .. }
        | Op::Jump(_)
        | Op::Branch { .. }
        | Op::Return(None) => None,
    }
}

/// Whether a member is a pointer, a slice or a channel, or the package variables. Those count whatever their types are, since they
/// are one member together.
pub fn is_pointer_like(function: &TacFn, member: Member) -> bool
    ensures { result ≡ spec.is_pointer_like_member function.now member }
{
    match member {
        Member::Variable(n) => match function.variables().get(n as usize) {
            Some(ty) => ty.is_pointer_like(),
            None => false,
        },
        Member::Result => match function.result_type() {
            Some(ty) => ty.is_pointer_like(),
            None => false,
        },
        Member::Global => true,
    }
}

/// The two that an instruction of this function joins. A call joins what the summary of its callee says, and none by
/// itself: this function knows no other function. Two that are not both pointer-like are not joined, so that copies of integers
/// join nothing.
pub fn joins(function: &TacFn, op: Op<'_>) -> Option<(Member, Member)>
    ensures { result ≡ spec.joins function.now (operation_of op.entry) }
{
    match op_joins(op) {
        Some((a, b)) if is_pointer_like(function, a) && is_pointer_like(function, b) => Some((
            a, b,
        )),
        _ => None,
    }
}
