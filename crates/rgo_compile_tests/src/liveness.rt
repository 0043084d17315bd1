//! Where variables are live.

use crate::analyses::{LIVE, LOOP};
use crate::checks::same;
use crate::codes::code_of;
use rgo_flow::{Liveness, live};
use rgo_tac::TacFn;
use std::alloc::Global;
use std::process::Abort;
use std::test::Fail;

/// The functions of the tables have fewer instructions, and fewer variables.
const MOST: u32 = 20;

/// The variables that are live into an instruction, with a blank after each.
fn push_point(alloc: Global, text: &mut String, table: &Liveness, point: u32) -> Result<(), Fail> {
    for variable in 0..MOST {
        if table.is_live(point, variable) {
            let word = format!(in alloc; "v{variable} ")?;
            text.push_str(word.as_str())?;
        }
    }
    Ok(())
}

/// The variables that are live into each instruction of a function, with a bar after each instruction.
fn push_function(alloc: Global, text: &mut String, function: &TacFn) -> Result<(), Fail> {
    let table = live(alloc, function)?;
    for point in 0..MOST {
        if function.op(point as usize).is_some() {
            push_point(alloc, text, &table, point)?;
            text.push_str("|")?;
        }
    }
    text.push_str("\n")?;
    Ok(())
}

#[test]
fn variables_are_live_here(rt: HostRuntime) -> Result<(), Fail> {
    for (lines, wanted) in &LIVE {
        let code = code_of(&rt, lines)?;
        let mut found = String::new(rt.alloc());
        for function in code.functions() {
            push_function(rt.alloc(), &mut found, function)?;
        }
        same(&rt, lines, &found.as_str(), wanted);
    }
    Ok(())
}

/// A point or a variable, and whether it is inside.
fn is_live_there<R: Abort>(rt: &R, table: &Liveness, point: u32, variable: u32, wanted: bool) {
    same(rt, "a point", &table.is_live(point, variable), &wanted);
}

/// The function has the instructions 0 to 4 and the variables 0 and 1, and prints the latter at 2 forever.
#[test]
fn nothing_is_live_outside(rt: HostRuntime) -> Result<(), Fail> {
    let code = code_of(&rt, LOOP)?;
    for function in code.functions() {
        let table = live(rt.alloc(), function)?;
        is_live_there(&rt, &table, 2, 1, true);
        is_live_there(&rt, &table, 5, 1, false);
        is_live_there(&rt, &table, u32::MAX, 1, false);
        is_live_there(&rt, &table, 2, 2, false);
        is_live_there(&rt, &table, 2, u32::MAX, false);
    }
    Ok(())
}
