//! Whole calls of `rgo`: what is written to `out`, what is reported on `err`, and the status.

mod broken_texts;
mod calls;
mod codes;
mod emitting;
mod ends;
mod examples;
mod faults;
mod journals;
mod refusals;
mod regions;
mod rows;
mod rule_texts;
mod rules;
mod running;
mod spread;
mod usage;
mod workers;

use crate::checks::same;
use calls::{HEAD, SOUND, called, expect, with_head};
use rgo_outside::NoGate;
use rows::are_called;
use std::alloc::{AllocError, Global};
use std::process::Abort;
use std::thread::Threads;

/// Calls with lines after the head.
fn are_called_after_head<R: Threads + Abort + AllocGlobal + Sync>(rt: &R, table: &str) {
    are_called(rt, HEAD, table, "\n", SOUND);
}

#[test]
fn lines_are_refused_or_run(rt: HostRuntime) {
    are_called_after_head(&rt, refusals::LINES);
    are_called_after_head(&rt, refusals::BY_ALL);
    are_called_after_head(&rt, running::VALUES);
    are_called_after_head(&rt, running::ORDER);
    are_called_after_head(&rt, running::STATEMENTS);
    are_called_after_head(&rt, running::GOROUTINES);
    are_called_after_head(&rt, regions::ROWS);
    are_called_after_head(&rt, spread::ROWS);
    are_called_after_head(&rt, ends::TRAPS);
    are_called_after_head(&rt, ends::ENDS);
    are_called_after_head(&rt, emitting::CODES);
    are_called(&rt, running::LISTS, running::OVER_LISTS, "\n", SOUND);
    are_called(&rt, running::LISTS, regions::OVER_LISTS, "\n", SOUND);
}

/// Calls with whole texts.
fn are_called_with<R: Threads + Abort + AllocGlobal + Sync>(rt: &R, table: &str) {
    are_called(rt, "", table, "", SOUND);
}

#[test]
fn large_objects_serve_programs(rt: HostRuntime) {
    are_called_after_head(&rt, spread::PROGRAMS);
}

#[test]
fn whole_texts_are_refused_or_run(rt: HostRuntime) {
    are_called_with(&rt, refusals::WHOLE);
    are_called_with(&rt, refusals::CODES);
    are_called_with(&rt, examples::A_TO_M);
    are_called_with(&rt, examples::N_TO_Z);
    are_called_with(&rt, emitting::CHECKED);
    are_called_with(&rt, codes::OBJECTS);
    are_called_with(&rt, codes::PLACES);
    are_called_with(&rt, codes::OTHERS);
    are_called_with(&rt, journals::RECORDED);
    are_called_with(&rt, journals::REPLAYED);
    are_called_with(&rt, journals::REFUSED);
}

/// A text whose `main` has a number in `depth` parentheses.
fn nested(alloc: Global, depth: usize) -> Result<String, AllocError> {
    let open = "(".repeat(alloc, depth)?;
    let close = ")".repeat(alloc, depth)?;
    let line = format!(in alloc; "func main() {{ x := {open}1{close} }}")?;
    with_head(alloc, &line)
}

// The place is that of the 199th `(`, 217 bytes after the beginning of its line. No mark in a program says it, since the text is
// made by repetition.
#[test]
fn nesting_has_a_limit(rt: HostRuntime) -> Result<(), AllocError> {
    for (depth, report, status) in [(198, "", 0), (199, "rgo: 4:218: nesting\n", 1)] {
        let text = nested(rt.alloc(), depth)?;
        expect(&rt, "rgo run", text.as_bytes(), SOUND, ("", report, status))?;
    }
    Ok(())
}

// The text of a mebibyte is one line of spaces, and is refused at its end.
#[test]
fn a_text_has_at_most_one_mebibyte(rt: HostRuntime) -> Result<(), AllocError> {
    let longer = vec![in rt.alloc(); b' '; 1_048_577]?;
    let most = longer.as_slice().get(1..).unwrap_or(&[]);
    let report = "rgo: 1:1048577: syntax\n";
    expect(&rt, "rgo run", most, SOUND, ("", report, 1))?;
    let report = "rgo: text longer than 1048576 bytes\n";
    expect(&rt, "rgo run", &longer, SOUND, ("", report, 1))
}

/// Calls `rgo` with the first `k` bytes of a text, and compares the status, and how much was printed.
fn is_cut<R: Threads + Abort + AllocGlobal + Sync>(
    rt: &R,
    words: &str,
    text: &str,
    k: usize,
    wanted: (u8, usize),
) -> Result<(), AllocError> {
    let cut = text.as_bytes().get(..k).unwrap_or(&[]);
    let found = called(rt, words, cut, SOUND, &NoGate)?;
    let found = (found.status, found.out.bytes().len());
    same(rt, str::from_utf8(cut).unwrap_or("?"), &found, &wanted);
    Ok(())
}

#[test]
fn a_text_is_refused_wherever_it_is_cut(rt: HostRuntime) -> Result<(), AllocError> {
    let text = with_head(rt.alloc(), "func main() { fmt.Println(\"hi\", 1, true) }")?;
    same(&rt, "the length", &text.len(), &99);
    for words in [
        "rgo run --workers 1",
        "rgo run --workers 2",
        "rgo run --workers 7",
    ] {
        for k in 0..100 {
            let wanted = if k < 98 { (1, 0) } else { (0, 10) };
            is_cut(&rt, words, &text, k, wanted)?;
        }
    }
    Ok(())
}

#[test]
fn a_code_text_is_refused_wherever_it_is_cut(rt: HostRuntime) -> Result<(), AllocError> {
    same(&rt, "the length", &codes::FIELD.len(), &209);
    for k in 0..210 {
        let wanted = if k < 209 { (1, 0) } else { (0, 0) };
        is_cut(&rt, "rgo code", codes::FIELD, k, wanted)?;
    }
    Ok(())
}
