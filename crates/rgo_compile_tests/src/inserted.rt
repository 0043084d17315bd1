//! The regions of programs: the printed code of a program is the code text that another producer makes for it.

mod codes;
mod programs;

use rgo_code_printing::print_code;
use rgo_run::compile;
use std::alloc::Global;
use std::process::Abort;
use std::test::Fail;

/// The code text of a program.
fn code_text(alloc: Global, text: &str) -> Result<Vec<u8>, Fail> {
    match compile(alloc, text.as_bytes()) {
        Ok(code) => Ok(print_code(alloc, code.code())?),
        Err(_) => Err(Fail::from("no program")),
    }
}

/// The program's code is printed as this text.
fn has_text<R: Abort + AllocGlobal>(rt: &R, program: &str, wanted: &str) -> Result<(), Fail> {
    let bytes = code_text(rt.alloc(), program)?;
    let found = std::str::from_utf8(&bytes).unwrap_or("?");
    assert_eq!(rt; found, wanted, "{program}");
    Ok(())
}

/// Programs with their code texts.
static PROGRAMS: [(&str, &str); 11] = [
    (programs::ALL, codes::ALL),
    (programs::CALLS, codes::CALLS),
    (programs::CHILD, codes::CHILD),
    (programs::FIELD, codes::FIELD),
    (programs::GLOBALS, codes::GLOBALS),
    (programs::GOROUTINES, codes::GOROUTINES),
    (programs::LISTS, codes::LISTS),
    (programs::LOOP, codes::LOOP),
    (programs::RENEWED, codes::RENEWED),
    (programs::SHARED, codes::SHARED),
    (programs::STARTED, codes::STARTED),
];

#[test]
fn programs_have_these_code_texts(rt: HostRuntime) -> Result<(), Fail> {
    for (program, wanted) in &PROGRAMS {
        has_text(&rt, program, wanted)?;
    }
    Ok(())
}
