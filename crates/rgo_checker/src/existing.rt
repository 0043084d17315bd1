//! The first rule: whether what instructions and declarations name exists.

ghost use Rattle.std.specs.Prelude.{◌≡◌, ◌<◌, ◌^◌, length, slice_get};
ghost use Rattle.rgo_tac.specs.Ops.{numbers_of, operation_of};
ghost use Rattle.rgo_tac.specs.Flow.{variables_of};
ghost use Rattle.rgo_code.specs.Exists as exists;
ghost use Rattle.rgo_checker.specs.Tests as tests;

use crate::types::pointed;
use rgo_tac::{Op, Operands, ReadVariables, Tac, TacFn, reads, writes};
use rgo_typed::{Action, Base, Type};

/// Whether the struct that a type names is declared.
pub(crate) fn type_exists(code: &Tac, ty: &Type) -> bool
    ensures { result ≡ tests.type_exists code.now ty.now }
{
    match ty.base {
        Base::Pointer(n) => n < code.structs().len(),
        _ => true,
    }
}

pub(crate) fn types_exist(code: &Tac, types: &[Type]) -> bool
    ensures { result ≡ tests.types_exist code.now types.now }
{
    types.iter().all(|ty| type_exists(code, ty))
}

fn result_exists(code: &Tac, ty: &Option<Type>) -> bool
    ensures { result ≡ tests.result_exists code.now ty.now }
{
    match ty {
        Some(ty) => type_exists(code, ty),
        None => true,
    }
}

/// Whether a function has its parameters, and its result's type exists.
pub(crate) fn head_exists(code: &Tac, f: &TacFn) -> bool
    ensures { result ≡ tests.head_exists code.now f.now }
{
    f.params() <= f.variables().len() && result_exists(code, f.result_type())
}

fn action_exists(code: &Tac, action: Action) -> bool
    ensures { result ≡ tests.action_exists code.now action }
{
    match action {
        Action::New(n) => n < code.structs().len(),
        Action::Get(n) => n < code.variables().len(),
        Action::Set(n) => n < code.variables().len(),
        Action::Int(_)
        | Action::Bool(_)
        | Action::Nil
        | Action::Copy
        | Action::Binary(_)
        | Action::Neg
        | Action::Not
        | Action::IsNil
        | Action::Len
        | Action::Load(_)
        | Action::Store(_)
        | Action::At
        | Action::Put
        | Action::Slice
        | Action::Chan
        | Action::Recv
        | Action::Send
        | Action::Close => true,
    }
}

/// Whether a struct has a field of this number. A struct that is not declared is refused at the line of the variable.
fn has_fields(code: &Tac, n: usize, k: usize) -> bool
    ensures { result ≡ tests.has_fields k (slice_get code.now.structs n) }
{
    match code.structs().get(n) {
        Some(s) => k < s.fields.items().len(),
        None => true,
    }
}

fn pointed_by(f: &TacFn, a: u32) -> Option<usize>
    ensures { result ≡ tests.pointed_by (slice_get f.now.variables a) }
{
    match f.variables().get(a as usize) {
        Some(ty) => pointed(ty),
        None => None,
    }
}

/// The same by a pointer. What is not a pointer breaks the second rule instead.
fn variable_has_field(code: &Tac, f: &TacFn, k: usize, a: Option<u32>) -> bool
    ensures { result ≡ tests.variable_has_field code.now f.now k a }
{
    match a {
        Some(a) => match pointed_by(f, a) {
            Some(n) => has_fields(code, n, k),
            None => true,
        },
        None => true,
    }
}

fn field_exists(code: &Tac, f: &TacFn, action: Action, from: Operands) -> bool
    ensures { result ≡ tests.field_exists code.now f.now action (numbers_of from) }
{
    match action {
        Action::Load(k) => variable_has_field(code, f, k, from.get(0)),
        Action::Store(k) => variable_has_field(code, f, k, from.get(0)),
        Action::Int(_)
        | Action::Bool(_)
        | Action::Nil
        | Action::Copy
        | Action::Binary(_)
        | Action::Neg
        | Action::Not
        | Action::IsNil
        | Action::Len
        | Action::At
        | Action::Put
        | Action::New(_)
        | Action::Slice
        | Action::Chan
        | Action::Recv
        | Action::Send
        | Action::Close
        | Action::Get(_)
        | Action::Set(_) => true,
    }
}

/// A call has a target exactly if the function has a result.
fn both_or_neither(to: Option<u32>, ty: &Option<Type>) -> bool
    ensures { result ≡ tests.both_or_neither to ty.now }
{
    match ty {
        Some(_) => to.is_some(),
        None => to.is_none(),
    }
}

fn call_exists(code: &Tac, to: Option<u32>, n: u32, from: &[u32]) -> bool
    ensures { result ≡ tests.call_exists (slice_get code.now.functions n) to from.now }
{
    match code.functions().get(n as usize) {
        Some(g) => from.len() == g.params() && both_or_neither(to, g.result_type()),
        None => false,
    }
}

/// A start may name a function with a result here: rule 7 refuses that, with the number of its own.
fn start_exists(code: &Tac, n: u32, from: &[u32]) -> bool
    ensures { result ≡ tests.start_exists (slice_get code.now.functions n) from.now }
{
    match code.functions().get(n as usize) {
        Some(g) => from.len() == g.params(),
        None => false,
    }
}

fn act_exists(code: &Tac, f: &TacFn, action: Action, from: Operands) -> bool
    ensures { result ≡ tests.act_exists code.now f.now action (numbers_of from) }
{
    action_exists(code, action) && field_exists(code, f, action, from)
}

/// Whether what an instruction names exists.
fn op_exists(code: &Tac, f: &TacFn, op: Op<'_>) -> bool
    ensures { result ≡ tests.op_exists code.now f.now (operation_of op.entry) }
{
    match op {
        Op::Do { action, from, .. } => act_exists(code, f, action, from),
        Op::Call { to, function, from } => call_exists(code, to, function, from),
        Op::Go { function, from } => start_exists(code, function, from),
        Op::Print { .. } => true,
        Op::Jump(target) => (target as usize) < f.len(),
        Op::Branch { target, other, .. } => {
            let count = f.len();
            (target as usize) < count && (other as usize) < count
        }
        Op::Return(_) => true,
    }
}

fn are_below(count: usize, variables: &[u32]) -> bool
    ensures { result ≡ tests.are_below count variables.now }
{
    variables.iter().all(|v| (*v as usize) < count)
}

fn few_are_below(count: usize, variables: Operands) -> bool
    ensures { result ≡ tests.are_below count (numbers_of variables) }
{
    match variables {
        Operands::Zero => true,
        Operands::One(a) => (a as usize) < count,
        Operands::Two(a, b) => (a as usize) < count && (b as usize) < count,
        Operands::Three(a, b, c) => {
            (a as usize) < count && (b as usize) < count && (c as usize) < count
        }
    }
}

fn reads_below(count: usize, variables: ReadVariables<'_>) -> bool
    ensures { result ≡ tests.are_below count (variables_of variables.entry) }
{
    match variables {
        ReadVariables::Few(variables) => few_are_below(count, variables),
        ReadVariables::Many(variables) => are_below(count, variables),
    }
}

fn is_below(count: usize, variable: Option<u32>) -> bool
    ensures { result ≡ tests.is_below count variable }
{
    match variable {
        Some(v) => (v as usize) < count,
        None => true,
    }
}

fn variables_exist(op: Op<'_>, count: usize) -> bool
    ensures { result ≡ tests.variables_exist (operation_of op.entry) count }
{
    reads_below(count, reads(op)) && is_below(count, writes(op))
}

fn leaves(op: Op<'_>) -> bool
    ensures { result ≡ exists.leaves (operation_of op.entry) }
{
    match op {
        Op::Jump(_) | Op::Branch { .. } | Op::Return(_) => true,
        Op::Do { .. } | Op::Call { .. } | Op::Go { .. } | Op::Print { .. } => false,
    }
}

/// The last instruction does not lead past the end of the function.
fn ends_right(at: usize, count: usize, op: Op<'_>) -> bool
    requires { at < 2 ^ 63 }
    ensures { result ≡ tests.ends_right at count (operation_of op.entry) }
{
    at + 1 != count || leaves(op)
}

/// Whether the first rule is kept by an instruction.
pub(crate) fn instr_exists(code: &Tac, f: &TacFn, at: usize, op: Op<'_>) -> bool
    requires { at < 2 ^ 63 }
    ensures { result ≡ tests.instr_exists code.now f.now at (operation_of op.entry) }
{
    variables_exist(op, f.variables().len())
        && op_exists(code, f, op)
        && ends_right(at, f.len(), op)
}
