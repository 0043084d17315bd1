//! The second rule: whether the variables of instructions have the types that these need.

ghost use Rattle.std.specs.Prelude.{◌≡◌, slice_get, take};
ghost use Rattle.std.specs.Option.{option_map};
ghost use Rattle.rgo_tac.specs.Ops.{numbers_of, operation_of};
ghost use Rattle.rgo_checker.specs.Tests as tests;
ghost use Rattle.rgo_checker.specs.Tests.{types_in};
ghost use Rattle.rgo_checker.specs.TypeTests.{equals_type};

use crate::actions::{Types, returns, takes};
use crate::types::{is_bool, same};
use rgo_tac::{Op, Operands, Tac, TacFn};
use rgo_typed::{Action, Type};

fn type_at(types: &[Type], v: u32) -> Option<&Type>
    ensures { option_map (λ ty. ty.now) result ≡ slice_get types.now v }
{
    match types.get(v as usize) {
        Some(ty) => Some(ty),
        None => None,
    }
}

/// The types of an action's operands, if these exist: the first rule has been checked before, so they do.
fn types_at(types: &[Type], from: Operands) -> Option<Types<'_>>
    ensures { option_map types_in result ≡ tests.types_at types.now (numbers_of from) }
{
    match from {
        Operands::Zero => Some(Types::Zero),
        Operands::One(a) => Some(Types::One(type_at(types, a)?)),
        Operands::Two(a, b) => Some(Types::Two(type_at(types, a)?, type_at(types, b)?)),
        Operands::Three(a, b, c) => Some(Types::Three(
            type_at(types, a)?,
            type_at(types, b)?,
            type_at(types, c)?,
        )),
    }
}

fn returns_to(code: &Tac, f: &TacFn, action: Action, operands: Types<'_>, to: u32) -> bool
    ensures { result ≡ tests.returns_to code.now action (types_in operands.entry) (slice_get f.now.variables to) }
{
    match f.variables().get(to as usize) {
        Some(ty) => returns(code, action, operands, ty),
        None => false,
    }
}

fn acts_on(code: &Tac, f: &TacFn, to: Option<u32>, action: Action, operands: Types<'_>) -> bool
    ensures { result ≡ tests.acts_on code.now f.now to action (types_in operands.entry) }
{
    match to {
        Some(d) => returns_to(code, f, action, operands, d),
        None => takes(code, action, operands),
    }
}

fn act_fits(code: &Tac, f: &TacFn, to: Option<u32>, action: Action, from: Operands) -> bool
    ensures { result
        ≡ tests.acts_on_found code.now f.now to action (tests.types_at f.now.variables (numbers_of from)) }
{
    match types_at(f.variables(), from) {
        Some(operands) => acts_on(code, f, to, action, operands),
        None => false,
    }
}

fn is_of_type(types: &[Type], v: u32, ty: &Type) -> bool
    ensures { result ≡ equals_type (slice_get types.now v) ty.now }
{
    match types.get(v as usize) {
        Some(found) => same(found, ty),
        None => false,
    }
}

fn have_types(types: &[Type], variables: &[u32], wanted: &[Type]) -> bool
    ensures { result ≡ tests.have_types types.now variables.now wanted.now }
{
    if variables.len() != wanted.len() {
        return false;
    }
    for i in 0..variables.len() {
        if !is_of_type(types, variables[i], &wanted[i]) {
            return false;
        }
    }
    true
}

/// The types of the parameters, which are the first variables. A function with fewer variables breaks the first rule instead.
fn parameters(f: &TacFn) -> &[Type]
    ensures { result.now ≡ take f.now.params f.now.variables }
{
    let variables = f.variables();
    let params = f.params();
    if params < variables.len() {
        &variables[..params]
    } else {
        variables
    }
}

/// A function that does not exist breaks the first rule instead, here and below.
fn arguments_fit(code: &Tac, f: &TacFn, n: u32, from: &[u32]) -> bool
    ensures { result ≡ tests.arguments_fit f.now (slice_get code.now.functions n) from.now }
{
    match code.functions().get(n as usize) {
        Some(g) => have_types(f.variables(), from, parameters(g)),
        None => true,
    }
}

fn has_type(f: &TacFn, to: Option<u32>, ty: &Type) -> bool
    ensures { result ≡ tests.has_type f.now to ty.now }
{
    match to {
        Some(d) => is_of_type(f.variables(), d, ty),
        None => true,
    }
}

fn target_has(f: &TacFn, ty: &Option<Type>, to: Option<u32>) -> bool
    ensures { result ≡ tests.target_has f.now ty.now to }
{
    match ty {
        Some(ty) => has_type(f, to, ty),
        None => true,
    }
}

fn target_fits(code: &Tac, f: &TacFn, n: u32, to: Option<u32>) -> bool
    ensures { result ≡ tests.target_fits f.now (slice_get code.now.functions n) to }
{
    match code.functions().get(n as usize) {
        Some(g) => target_has(f, g.result_type(), to),
        None => true,
    }
}

fn call_fits(code: &Tac, f: &TacFn, to: Option<u32>, n: u32, from: &[u32]) -> bool
    ensures { result ≡ tests.call_fits code.now f.now to n from.now }
{
    arguments_fit(code, f, n, from) && target_fits(code, f, n, to)
}

/// Whether a variable may be printed: integers and truth values have a text, and nothing else has.
fn is_printed(types: &[Type], v: u32) -> bool
    ensures { result ≡ tests.is_printable_type (slice_get types.now v) }
{
    match types.get(v as usize) {
        Some(ty) => !ty.is_pointer_like(),
        None => false,
    }
}

fn are_printed(types: &[Type], variables: &[u32]) -> bool
    ensures { result ≡ tests.are_printed types.now variables.now }
{
    variables.iter().all(|v| is_printed(types, *v))
}

fn is_test(types: &[Type], v: u32) -> bool
    ensures { result ≡ tests.is_test (slice_get types.now v) }
{
    match types.get(v as usize) {
        Some(ty) => is_bool(ty),
        None => false,
    }
}

fn has_result(f: &TacFn, v: u32) -> bool
    ensures { result ≡ tests.has_result f.now v f.now.result_type }
{
    match f.result_type() {
        Some(ty) => is_of_type(f.variables(), v, ty),
        None => false,
    }
}

fn return_fits(f: &TacFn, value: Option<u32>) -> bool
    ensures { result ≡ tests.return_fits f.now value }
{
    match value {
        Some(v) => has_result(f, v),
        None => f.result_type().is_none(),
    }
}

/// Whether the second rule is kept by an instruction.
pub(crate) fn op_fits(code: &Tac, f: &TacFn, op: Op<'_>) -> bool
    ensures { result ≡ tests.op_fits code.now f.now (operation_of op.entry) }
{
    match op {
        Op::Do { to, action, from } => act_fits(code, f, to, action, from),
        Op::Call { to, function, from } => call_fits(code, f, to, function, from),
        Op::Go { function, from } => arguments_fit(code, f, function, from),
        Op::Print { from, .. } => are_printed(f.variables(), from),
        Op::Jump(_) => true,
        Op::Branch { test, .. } => is_test(f.variables(), test),
        Op::Return(value) => return_fits(f, value),
    }
}
