//! The rules on what calls and starts of goroutines pass.

ghost use Rattle.std.specs.Prelude.{◌≡◌, not, length, is_some, slice_get, nat_eq, IfOk};
ghost use Rattle.std.specs.HashMap.{get};
ghost use Rattle.std.specs.Bool.{Decides};
ghost use Rattle.std.specs.Option.{option_map};
ghost use Rattle.rgo_tac.specs.Ops.{operation_of};
ghost use Rattle.rgo_code.specs.ClassRules as rules;
ghost use Rattle.rgo_code.specs.Erasure.{erased_fn};
ghost use Rattle.rgo_checker.specs.ClassTests as tests;
ghost use Rattle.rgo_checker.specs.ClassTests.{ArgumentPasses, ArgumentsPass, TargetPasses, CallPassesBy, StartPassesBy};

use crate::bools::{all_three, both};
use crate::classes::{class_at, same_class};
use crate::parameters::{Parameters, parameters_of};
use rgo_code::{Class, Code, CodeFn};
use rgo_tac::Op;
use std::alloc::{AllocError, Global};
use std::collections::HashMap;

fn is_class_at(classes: &[Class], p: usize, class: Class) -> bool
    ensures { result ≡ tests.is_class (slice_get classes.now p) class }
{
    match classes.get(p) {
        Some(found) => same_class(*found, class),
        None => false,
    }
}

fn is_passed_at(p: Option<usize>, passes: &[Class], class: Class) -> bool
    ensures { result ≡ tests.is_passed_at p passes.now class }
{
    match p {
        Some(p) => is_class_at(passes, p, class),
        // Each name of a parameter or of the result is among the region parameters.
        None => true,
    }
}

fn place_of(places: &HashMap<u32, usize>, k: u32) -> Option<usize>
    ensures { result ≡ get nat_eq places.now k }
{
    places.get(&k).copied()
}

fn is_passed_by(
    places: &HashMap<u32, usize>,
    passes: &[Class],
    parameter: Class,
    argument: Class,
) -> bool
    ensures { result ≡ tests.is_passed_for places.now passes.now parameter argument }
{
    match parameter {
        Class::NoClass => true,
        Class::Global => same_class(argument, Class::Global),
        Class::Name(k) => is_passed_at(place_of(places, k), passes, argument),
    }
}

/// Whether an argument's class is what is passed for the class of its parameter.
fn is_passed_for(
    parameters: &Parameters,
    passes: &[Class],
    parameter: Class,
    argument: Class,
) -> bool
    ensures { Decides result (rules.IsPassedFor parameters.now.classes.items passes.now parameter argument) }
{
    is_passed_by(&parameters.places, passes, parameter, argument)
}

/// The same for the argument of this number. More arguments than parameters break the first rule instead.
fn argument_passes(
    f: &CodeFn<'_>,
    callee: &CodeFn<'_>,
    parameters: &Parameters,
    passes: &[Class],
    i: usize,
    v: u32,
) -> bool
    ensures { Decides result
        (ArgumentPasses f.now callee.now parameters.now.classes.items passes.now i v) }
{
    let params = callee.tac().params();
    if i >= params {
        return true;
    }
    let parameter = class_at(callee, i);
    let argument = f.class_of(v);
    is_passed_for(parameters, passes, parameter, argument)
}

fn arguments_pass(
    f: &CodeFn<'_>,
    callee: &CodeFn<'_>,
    parameters: &Parameters,
    passes: &[Class],
    from: &[u32],
) -> bool
    ensures { Decides result
        (ArgumentsPass f.now callee.now parameters.now.classes.items passes.now from.now) }
{
    for i in 0..from.len() {
        let passed = argument_passes(f, callee, parameters, passes, i, from[i]);
        if !passed {
            return false;
        }
    }
    true
}

fn target_passes(
    f: &CodeFn<'_>,
    callee: &CodeFn<'_>,
    parameters: &Parameters,
    passes: &[Class],
    to: Option<u32>,
) -> bool
    ensures { Decides result (TargetPasses f.now callee.now parameters.now.classes.items passes.now to) }
{
    match to {
        Some(d) => is_passed_for(parameters, passes, callee.result_class(), f.class_of(d)),
        None => true,
    }
}

fn same_len(a: &[Class], b: &[Class]) -> bool
    ensures { result ≡ nat_eq (length a.now) (length b.now) }
{
    a.len() == b.len()
}

/// Whether the classes of the arguments and of the target are what is passed.
fn passes_right(
    alloc: Global,
    f: &CodeFn<'_>,
    callee: &CodeFn<'_>,
    to: Option<u32>,
    from: &[u32],
    passes: &[Class],
) -> Result<bool, AllocError>
    ensures { IfOk result (λ b. Decides b (rules.PassesClasses f.now callee.now to from.now passes.now)) }
{
    let parameters = parameters_of(alloc, callee)?;
    let arguments = arguments_pass(f, callee, &parameters, passes, from);
    let target = target_passes(f, callee, &parameters, passes, to);
    Ok(all_three(same_len(passes, &parameters.classes), arguments, target))
}

fn has_no_result(f: &CodeFn<'_>) -> bool
    ensures { result ≡ not (is_some (erased_fn f.now).result_type) }
{
    f.tac().result_type().is_none()
}

/// A call, or the start of a goroutine.
#[derive(Clone, Copy)]
struct Called<'a> {
    to: Option<u32>,
    function: u32,
    from: &'a [u32],
}

fn call_of(op: Op<'_>) -> Option<Called<'_>>
    ensures { option_map tests.called_operands result ≡ tests.call_operands (operation_of op.entry) }
{
    match op {
        Op::Call { to, function, from } => Some(Called { to, function, from }),
        Op::Do { .. }
        | Op::Go { .. }
        | Op::Print { .. }
        | Op::Jump(_)
        | Op::Branch { .. }
        | Op::Return(_) => None,
    }
}

fn start_of(op: Op<'_>) -> Option<Called<'_>>
    ensures { option_map tests.called_operands result ≡ tests.start_operands (operation_of op.entry) }
{
    match op {
        Op::Go { function, from } => Some(Called {
            to: None,
            function,
            from,
        }),
        Op::Do { .. }
        | Op::Call { .. }
        | Op::Print { .. }
        | Op::Jump(_)
        | Op::Branch { .. }
        | Op::Return(_) => None,
    }
}

/// A function that does not exist breaks the first rule instead, here and below.
fn call_passes(
    alloc: Global,
    code: &Code,
    f: &CodeFn<'_>,
    call: Called<'_>,
    passes: &[Class],
) -> Result<bool, AllocError>
    ensures { IfOk result (λ b. Decides b (tests.CalledPasses code.now f.now passes.now (tests.called_operands call.entry))) }
{
    match code.function(call.function as usize) {
        Some(callee) => passes_right(alloc, f, &callee, call.to, call.from, passes),
        None => Ok(true),
    }
}

fn start_passes(
    alloc: Global,
    code: &Code,
    f: &CodeFn<'_>,
    call: Called<'_>,
    passes: &[Class],
) -> Result<bool, AllocError>
    ensures { IfOk result (λ b. Decides b (tests.StartedPasses code.now f.now passes.now (tests.called_operands call.entry))) }
{
    match code.function(call.function as usize) {
        Some(callee) => {
            let passed = passes_right(alloc, f, &callee, None, call.from, passes)?;
            Ok(both(has_no_result(&callee), passed))
        }
        None => Ok(true),
    }
}

/// Whether a call passes the classes of its arguments.
pub(crate) fn calls_pass(
    alloc: Global,
    code: &Code,
    f: &CodeFn<'_>,
    op: Op<'_>,
    passes: &[Class],
) -> Result<bool, AllocError>
    ensures { IfOk result (λ b. Decides b (CallPassesBy code.now f.now passes.now (operation_of op.entry))) }
{
    match call_of(op) {
        Some(call) => call_passes(alloc, code, f, call, passes),
        None => Ok(true),
    }
}

/// Whether the start of a goroutine passes the classes of its arguments, to a function without result.
pub(crate) fn starts_pass(
    alloc: Global,
    code: &Code,
    f: &CodeFn<'_>,
    op: Op<'_>,
    passes: &[Class],
) -> Result<bool, AllocError>
    ensures { IfOk result (λ b. Decides b (StartPassesBy code.now f.now passes.now (operation_of op.entry))) }
{
    match start_of(op) {
        Some(call) => start_passes(alloc, code, f, call, passes),
        None => Ok(true),
    }
}
