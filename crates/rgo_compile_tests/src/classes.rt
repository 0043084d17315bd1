//! The summaries of a program's functions, and the classes of their variables.

use crate::analyses::PROGRAMS;
use crate::checks::same;
use crate::codes::code_of;
use rgo_classes::{Classes, Summaries, classes_of};
use rgo_summaries::summaries;
use rgo_tac::{Class, Tac, TacFn};
use std::alloc::Global;
use std::test::Fail;

/// A class as docs/REGION_INFERENCE.md writes it.
fn push_class(alloc: Global, text: &mut String, class: Class) -> Result<(), Fail> {
    match class {
        Class::NoClass => text.push_str("-")?,
        Class::Global => text.push_str("G")?,
        Class::Name(name) => {
            let word = format!(in alloc; "r{name}")?;
            text.push_str(word.as_str())?;
        }
    }
    Ok(())
}

/// The classes of parameters or variables, and of the result after an arrow.
fn push_classes(
    alloc: Global,
    text: &mut String,
    classes: &[Class],
    last: Class,
) -> Result<(), Fail> {
    for class in classes {
        push_class(alloc, text, *class)?;
        text.push_str(" ")?;
    }
    text.push_str("> ")?;
    push_class(alloc, text, last)?;
    text.push_str("\n")?;
    Ok(())
}

/// A line for each summary.
fn listing_of_summaries(alloc: Global, family: &Summaries) -> Result<String, Fail> {
    let mut text = String::new(alloc);
    for summary in family.functions.items() {
        push_classes(alloc, &mut text, summary.params.items(), summary.result)?;
    }
    Ok(text)
}

fn push_variables(
    alloc: Global,
    text: &mut String,
    function: &TacFn,
    classes: &Classes,
) -> Result<(), Fail> {
    let mut found = Vec::new(alloc);
    let mut variable: u32 = 0;
    for ty in function.variables() {
        found.push(classes.of(variable))?;
        variable = variable.wrapping_add(1);
    }
    push_classes(alloc, text, &found, classes.of_result())
}

/// A line for each function.
fn listing_of_classes(alloc: Global, code: &Tac, family: &Summaries) -> Result<String, Fail> {
    let mut text = String::new(alloc);
    for function in code.functions() {
        let classes = classes_of(alloc, function, family)?;
        push_variables(alloc, &mut text, function, &classes)?;
    }
    Ok(text)
}

#[test]
fn programs_have_these_summaries_and_classes(rt: HostRuntime) -> Result<(), Fail> {
    for (lines, of_functions, of_variables) in &PROGRAMS {
        let code = code_of(&rt, lines)?;
        let family = summaries(rt.alloc(), &code)?;
        let found = listing_of_summaries(rt.alloc(), &family)?;
        same(&rt, lines, &found.as_str(), of_functions);
        let found = listing_of_classes(rt.alloc(), &code, &family)?;
        same(&rt, lines, &found.as_str(), of_variables);
    }
    Ok(())
}
