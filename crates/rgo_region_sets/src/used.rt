//! The names that an instruction uses.

ghost use Rattle.std.specs.Prelude.{option_to_list, OnOk, IfOk, slice_get};
ghost use Rattle.rgo_tac.specs.Flow.{variables_of};
ghost use Rattle.rgo_region_sets.specs.Sets.{IsSet};
ghost use Rattle.rgo_region_sets.specs.Used.{AddsName, AddsNames, UsesName, AddsUsed};
ghost use Rattle.rgo_tac.specs.Ops.{operation_of};

use crate::names::name_of;
use crate::sets::set_of;
use rgo_code::CodeFn;
use rgo_tac::{Op, ReadVariables, reads, writes};
use std::alloc::{AllocError, Global};

/// The name of a variable.
fn add_name(names: &mut Vec<u32>, f: &CodeFn<'_>, variable: u32) -> Result<(), AllocError>
    ensures { OnOk result (AddsName f.now names.old.items names.new.items variable) }
{
    if let Some(name) = name_of(f.class_of(variable)) {
        names.push(name)?;
    }
    Ok(())
}

fn add_read(
    names: &mut Vec<u32>,
    f: &CodeFn<'_>,
    variables: ReadVariables<'_>,
) -> Result<(), AllocError>
    ensures { OnOk result (AddsNames f.now names.old.items names.new.items (variables_of variables.entry)) }
{
    for n in 0..variables.len() {
        if let Some(variable) = variables.get(n) {
            add_name(names, f, variable)?;
        }
    }
    Ok(())
}

fn add_written(
    names: &mut Vec<u32>,
    f: &CodeFn<'_>,
    variable: Option<u32>,
) -> Result<(), AllocError>
    ensures { OnOk result (AddsNames f.now names.old.items names.new.items (option_to_list variable)) }
{
    match variable {
        Some(variable) => add_name(names, f, variable),
        None => Ok(()),
    }
}

fn add_used(names: &mut Vec<u32>, f: &CodeFn<'_>, op: Op<'_>) -> Result<(), AllocError>
    ensures { OnOk result (AddsUsed f.now names.old.items names.new.items (operation_of op.entry)) }
{
    add_read(names, f, reads(op))?;
    add_written(names, f, writes(op))
}

/// The names that the instruction of this number uses; none if the function does not have it.
pub(crate) fn used_names(alloc: Global, f: &CodeFn<'_>, at: usize) -> Result<Vec<u32>, AllocError>
    ensures { IfOk result (λ names. IsSet names.items (UsesName f.now (slice_get f.now.body at))) }
{
    let mut names = Vec::new(alloc);
    match f.tac().op(at) {
        Some(op) => {
            // A variable may be read and written, or two may have one class: hence the set.
            add_used(&mut names, f, op)?;
            Ok(set_of(names))
        }
        None => Ok(names),
    }
}
