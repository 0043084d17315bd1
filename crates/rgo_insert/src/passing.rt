//! What calls and starts pass for the region parameters of their callees.

ghost use Rattle.std.specs.Prelude.{◌≡◌, Some, length, get_or, slice_get, IfOk, OnOk};
ghost use Rattle.rgo_tac.specs.declared.regions.Class.TheVariants.{NoClass};
ghost use Rattle.rgo_tac.specs.Ops.{operation_of};
ghost use Rattle.rgo_insert.specs.Passing as spec;
ghost use Rattle.rgo_insert.specs.Passing.{AddsActual, AreActuals, AreClassesPassed, ArePassedTo, PassesFor};

use crate::bare::Bare;
use rgo_code::{Class, CodeFn};
use rgo_region_sets::{parameter_classes, region_parameters};
use rgo_tac::Op;
use std::alloc::{AllocError, Global};
use std::collections::HashMap;

/// The classes of the parameters, then that of the result.
fn formal_classes(alloc: Global, callee: &CodeFn<'_>) -> Result<Vec<Class>, AllocError>
    ensures { IfOk result (λ classes. classes.items ≡ spec.formal_classes callee.now) }
{
    let mut classes = parameter_classes(alloc, callee)?;
    classes.push(callee.result_class())?;
    Ok(classes)
}

/// The class of a call's target. In typed code a call has none exactly if its callee has no result.
fn target_class(f: &CodeFn<'_>, to: Option<u32>) -> Class
    ensures { result ≡ spec.class_of_target f.now to }
{
    match to {
        Some(variable) => f.class_of(variable),
        None => Class::NoClass,
    }
}

/// The classes of the arguments, then that of the target.
fn actual_classes(
    alloc: Global,
    f: &CodeFn<'_>,
    to: Option<u32>,
    from: &[u32],
) -> Result<Vec<Class>, AllocError>
    ensures { IfOk result (λ classes. classes.items ≡ spec.actual_classes f.now to from.now) }
{
    let mut classes = Vec::new(alloc);
    for variable in from {
        classes.push(f.class_of(*variable))?;
    }
    classes.push(target_class(f, to))?;
    Ok(classes)
}

fn class_at(classes: &[Class], n: usize) -> Class
    ensures { result ≡ get_or classes.now n NoClass }
{
    classes.get(n).copied().unwrap_or(Class::NoClass)
}

fn add_actual(
    actuals: &mut HashMap<u32, Class>,
    formal: Class,
    actual: Class,
) -> Result<(), AllocError>
    ensures { OnOk result (AddsActual actuals.old actuals.new formal actual) }
{
    match formal {
        Class::Name(name) => match actuals.insert(name, actual) {
            Ok(_) => Ok(()),
            Err(_) => Err(AllocError),
        },
        Class::NoClass | Class::Global => Ok(()),
    }
}

/// For each name among the formals, the class of its last actual. All its actuals have one class, since classes join what is
/// passed for one class of the callee.
fn actuals_by_name(
    alloc: Global,
    formals: &[Class],
    actuals: &[Class],
) -> Result<HashMap<u32, Class>, AllocError>
    ensures { IfOk result (λ found. AreActuals found formals.now actuals.now (length formals.now)) }
{
    let mut found = HashMap::new(alloc);
    for (at, formal) in formals.iter().enumerate() {
        add_actual(&mut found, *formal, class_at(actuals, at))?;
    }
    Ok(found)
}

fn passed_by(actuals: &HashMap<u32, Class>, region: Class) -> Class
    ensures { result ≡ spec.passed_by actuals.now region }
{
    match region {
        Class::Name(name) => actuals.get(&name).copied().unwrap_or(Class::NoClass),
        Class::NoClass | Class::Global => Class::NoClass,
    }
}

fn passes_for(
    alloc: Global,
    formals: &[Class],
    actuals: &[Class],
    regions: &[Class],
) -> Result<Vec<Class>, AllocError>
    ensures { IfOk result (λ passes. AreClassesPassed formals.now actuals.now regions.now passes.items) }
{
    let found = actuals_by_name(alloc, formals, actuals)?;
    let mut passes = Vec::new(alloc);
    for region in regions {
        passes.push(passed_by(&found, *region))?;
    }
    Ok(passes)
}

/// What is passed to a callee.
fn passed_to(
    alloc: Global,
    f: &CodeFn<'_>,
    callee: &CodeFn<'_>,
    to: Option<u32>,
    from: &[u32],
) -> Result<Vec<Class>, AllocError>
    ensures { IfOk result (λ passes. ArePassedTo f.now (Some callee.now) to from.now passes.items) }
{
    let formals = formal_classes(alloc, callee)?;
    let actuals = actual_classes(alloc, f, to, from)?;
    let regions = region_parameters(alloc, callee)?;
    passes_for(alloc, &formals, &actuals, &regions)
}

/// What is passed to the function of this number.
fn passed_by_number(
    alloc: Global,
    functions: &Bare<'_>,
    f: &CodeFn<'_>,
    function: u32,
    to: Option<u32>,
    from: &[u32],
) -> Result<Vec<Class>, AllocError>
    ensures { IfOk result (λ passes.
        ArePassedTo f.now (slice_get functions.now function) to from.now passes.items) }
{
    match functions.function(function as usize) {
        Some(callee) => passed_to(alloc, f, &callee, to, from),
        None => Ok(Vec::new(alloc)),
    }
}

/// What an instruction passes.
pub(crate) fn passes_of(
    alloc: Global,
    functions: &Bare<'_>,
    f: &CodeFn<'_>,
    op: Op<'_>,
) -> Result<Vec<Class>, AllocError>
    ensures { IfOk result (λ passes. PassesFor functions.now f.now (operation_of op.entry) passes.items) }
{
    match op {
        Op::Call { to, function, from } => {
            passed_by_number(alloc, functions, f, function, to, from)
        }
        Op::Go { function, from } => { passed_by_number(alloc, functions, f, function, None, from) }
        Op::Do { .. } | Op::Print { .. } | Op::Jump(_) | Op::Branch { .. } | Op::Return(_) => Ok(
            Vec::new(alloc),
        ),
    }
}
