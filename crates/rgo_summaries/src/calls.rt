//! Calls, and which of the caller's members are passed for those of the callee. A member is identified by its number:
//! 0 for the package variables, 1 for the result, and 2 and up for the variables.

ghost use Rattle.std.specs.Prelude.{◌≡◌, slice_get};
ghost use Rattle.std.specs.Option.{option_map};
ghost use Rattle.rgo_tac.specs.Ops.{operation_of};
ghost use Rattle.rgo_tac.specs.Joins.{is_pointer_like_member};
ghost use Rattle.rgo_classes.specs.Labels as labels;
ghost use Rattle.rgo_summaries.specs.Calls as spec;
ghost use Rattle.rgo_summaries.specs.Calls.{call_in, member};
ghost use Rattle.rgo_summaries.specs.Kinds as kinds;
ghost use Rattle.rgo_summaries.specs.Views.{parts_of_call, called_with};

use rgo_tac::{Member, Op, Tac, TacFn};

/// A call, or the start of a goroutine.
#[derive(Clone, Copy)]
pub(crate) struct Call<'a> {
    pub to: Option<u32>,
    pub function: u32,
    pub from: &'a [u32],
}

fn call_of<'a>(op: Op<'a>) -> Option<Call<'a>>
    ensures { option_map parts_of_call result ≡ spec.call_of_op (operation_of op.entry) }
{
    match op {
        Op::Call { to, function, from } => Some(Call { to, function, from }),
        Op::Go { function, from } => Some(Call {
            to: None,
            function,
            from,
        }),
        Op::Do { .. } | Op::Print { .. } | Op::Jump(_) | Op::Branch { .. } | Op::Return(_) => None,
    }
}

fn call_at(function: &TacFn, at: usize) -> Option<Call<'_>>
    ensures { option_map parts_of_call result ≡ call_in (slice_get function.now.body at) }
{
    match function.op(at) {
        Some(op) => call_of(op),
        None => None,
    }
}

/// The call of this instruction, and the function that is called. A call of a function that does not exist joins nothing.
pub(crate) fn callee_at<'a>(
    code: &'a Tac,
    function: &'a TacFn,
    at: usize,
) -> Option<(Call<'a>, &'a TacFn)>
    ensures { option_map called_with result ≡ spec.call_and_callee_at code.now function.now at }
{
    let call = call_at(function, at)?;
    match code.functions().get(call.function as usize) {
        Some(callee) => Some((call, callee)),
        None => None,
    }
}

fn variable_number(variable: u32) -> usize
    ensures { result ≡ labels.member_index (Member.Variable variable) }
{
    variable as usize + 2
}

pub(crate) fn number_of(member: Member) -> usize
    ensures { result ≡ labels.member_index member }
{
    match member {
        Member::Global => 0,
        Member::Result => 1,
        Member::Variable(v) => variable_number(v),
    }
}

/// The number of the caller's member that is passed for this member of the callee, or that receives it.
pub(crate) fn passed(call: Call<'_>, number: usize) -> Option<usize>
    ensures { result ≡ option_map labels.member_index (spec.passed_member (parts_of_call call.entry) number) }
{
    match number {
        0 => Some(0),
        1 => match call.to {
            Some(variable) => Some(variable_number(variable)),
            None => None,
        },
        _ => match call.from.get(number - 2) {
            Some(variable) => Some(variable_number(*variable)),
            None => None,
        },
    }
}

/// Whether the member of this number is a pointer, a slice or a channel.
pub(crate) fn is_pointer_like(function: &TacFn, number: usize) -> bool
    ensures { result ≡ is_pointer_like_member function.now (member number) }
{
    match number {
        0 => true,
        1 => match function.result_type() {
            Some(ty) => ty.is_pointer_like(),
            None => false,
        },
        _ => match function.variables().get(number - 2) {
            Some(ty) => ty.is_pointer_like(),
            None => false,
        },
    }
}

/// Callers see the members with smaller numbers than this: the package variables, the result and the parameters come first.
pub(crate) fn width_of(function: &TacFn) -> usize
    ensures { result ≡ kinds.width_of function.now }
{
    let variables = function.variables().len();
    let params = function.params();
    if params < variables {
        params + 2
    } else {
        variables + 2
    }
}
