//! What calls join, by the summaries of the functions that they call.

ghost use Rattle.std.specs.Prelude.{◌≡◌, ℕ, List, [], length, slice_get, Some, OnOk};
ghost use Rattle.rgo_tac.specs.declared.regions.Class.TheVariants as class;
ghost use Rattle.rgo_tac.specs.declared.regions.Member.TheVariants.{Variable};
ghost use Rattle.rgo_classes.specs.Holding.{Among, AreHolders, Holding, HoldsArguments, HoldsMore};
ghost use Rattle.rgo_classes.specs.Joins.{CallJoins, IsPointerLike};
ghost use Rattle.rgo_classes.specs.Labels.{AreFor, JoinsAlso};

use crate::classes::Summary;
use crate::labels::Labels;
use rgo_tac::{Class, Member, TacFn, is_pointer_like};
use std::alloc::{AllocError, Global};
use std::collections::HashMap;

/// Joins a variable of a named class with the first one of that class: one join for each variable joins all of them.
fn hold_name(
    alloc: Global,
    function: &TacFn,
    labels: &mut Labels,
    holders: &mut HashMap<u32, u32>,
    name: u32,
    variable: u32,
) -> Result<(), AllocError>
    requires fits { AreFor function.now labels.old }
    requires holders { AreHolders function.now holders.old }
    requires like { IsPointerLike function.now (Variable variable) }
    ensures len { length labels.new ≡ length labels.old }
    ensures holders { OnOk result (AreHolders function.now holders.new) }
    ensures joined { OnOk result
        (HoldsMore function.now labels.old holders.old (class.Name name) variable labels.new holders.new) }
{
    match holders.get(&name).copied() {
        Some(first) => labels.join(alloc, Member::Variable(variable), Member::Variable(first)),
        None => match holders.insert(name, variable) {
            Ok(_) => Ok(()),
            Err(_) => Err(AllocError),
        },
    }
}

/// Joins a variable with the others of its class. Only pointers, slices and channels have one.
fn hold(
    alloc: Global,
    function: &TacFn,
    labels: &mut Labels,
    holders: &mut HashMap<u32, u32>,
    class: Class,
    variable: u32,
) -> Result<(), AllocError>
    requires fits { AreFor function.now labels.old }
    requires holders { AreHolders function.now holders.old }
    ensures len { length labels.new ≡ length labels.old }
    ensures holders { OnOk result (AreHolders function.now holders.new) }
    ensures joined { OnOk result
        (HoldsMore function.now labels.old holders.old class variable labels.new holders.new) }
{
    if !is_pointer_like(function, Member::Variable(variable)) {
        return Ok(());
    }
    match class {
        Class::NoClass => Ok(()),
        Class::Global => labels.join(alloc, Member::Variable(variable), Member::Global),
        Class::Name(name) => hold_name(alloc, function, labels, holders, name, variable),
    }
}

fn class_at(classes: &[Class], n: usize) -> Option<Class>
    ensures { result ≡ slice_get classes.now n }
{
    classes.get(n).copied()
}

/// Joins the arguments of each class.
fn hold_arguments(
    alloc: Global,
    function: &TacFn,
    labels: &mut Labels,
    holders: &mut HashMap<u32, u32>,
    params: &[Class],
    from: &[u32],
) -> Result<(), AllocError>
    requires fits { AreFor function.now labels.old }
    requires holders { AreHolders function.now holders.old }
    ensures len { length labels.new ≡ length labels.old }
    ensures holders { OnOk result (AreHolders function.now holders.new) }
    ensures joined { OnOk result ((old : List ℕ) → Holding function.now old [] labels.old holders.old
        → HoldsArguments function.now old params.now from.now (length from.now) labels.new holders.new) }
{
    for (i, variable) in from.iter().enumerate() {
        match class_at(params, i) {
            Some(class) => hold(alloc, function, labels, holders, class, *variable)?,
            // More arguments than parameters: no typed code has such a call.
            None => {}
        }
    }
    Ok(())
}

/// Joins the arguments and the target of a call.
pub(crate) fn join_call(
    alloc: Global,
    function: &TacFn,
    labels: &mut Labels,
    summary: &Summary,
    to: Option<u32>,
    from: &[u32],
) -> Result<(), AllocError>
    requires fits { AreFor function.now labels.old }
    ensures len { length labels.new ≡ length labels.old }
    ensures joined { OnOk result (JoinsAlso labels.old
        (Among function.now (CallJoins (Some summary.now) to from.now)) labels.new) }
{
    let mut holders = HashMap::new(alloc);
    hold_arguments(
        alloc,
        function,
        labels,
        &mut holders,
        summary.params.items(),
        from,
    )?;
    match to {
        Some(variable) => hold(
            alloc,
            function,
            labels,
            &mut holders,
            summary.result,
            variable,
        ),
        None => Ok(()),
    }
}
