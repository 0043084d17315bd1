//! Runs of compact code in two parts: the second has to continue exactly where the first stopped.

use crate::programs::{CALLS, COLLATZ, FIBONACCI, SUM, TRAP};
use rgo_compact::{Caller, decode, run, start};
use rgo_run::compile;
use std::alloc::Global;
use std::process::Abort;
use std::test::Fail;

/// How many instructions are done at most, and then how many more: the second part continues where the first one stopped.
#[derive(Clone, Copy)]
struct Parts {
    first: usize,
    then: usize,
}

/// What a run left: how many instructions were done, how many frames the second part has never left, the words of the newest
/// frame, and how many callers wait.
#[derive(Drop)]
struct Left {
    done: usize,
    kept: usize,
    words: Vec<u64>,
    depth: usize,
}

/// Runs function `main` of a text in two parts, on a stack of this many words with room for this many callers.
fn run_text(
    alloc: Global,
    text: &str,
    main: usize,
    parts: &Parts,
    words: usize,
    callers: usize,
) -> Result<Left, Fail> {
    let Ok(code) = compile(alloc, text.as_bytes()) else {
        return Err(Fail::from("no program"));
    };
    let code = decode(alloc, &code)?;
    let mut words = vec![in alloc; 9; words]?;
    let mut callers = vec![in alloc; Caller {
        function: 0,
        next: 0,
        base: 0
    }; callers]?;
    let Some(at) = start(&code, main, &mut words) else {
        return Err(Fail::from("no start"));
    };
    let first = run(&code, &mut words, &mut callers, at, parts.first);
    let then = run(&code, &mut words, &mut callers, first.at, parts.then);
    let mut frame = Vec::new(alloc);
    frame.extend_from_slice(words.get(then.at.base..then.at.top).unwrap_or(&[]))?;
    Ok(Left {
        done: first.done.wrapping_add(then.done),
        kept: then.kept,
        words: frame,
        depth: then.at.depth,
    })
}

/// A text, the number of its `main`, how many instructions are done until the loop stops, and a variable with its word.
static ROWS: [(&str, usize, usize, u32, u64); 7] = [
    (FIBONACCI, 2, 23948, 1, 987),
    (COLLATZ, 2, 140842, 1, 171),
    (COLLATZ, 2, 140842, 3, 124),
    (SUM, 0, 9007, 1, 499500),
    (TRAP, 0, 4, 1, 7),
    (CALLS, 1, 29, 1, 5),
    (CALLS, 1, 29, 0, 5),
];

/// The loop stops at the first print or trap, after that many instructions, wherever it stopped in between.
#[test]
fn programs_run_to_their_first_print(rt: HostRuntime) -> Result<(), Fail> {
    let alloc = rt.alloc();
    for (text, main, steps, variable, word) in &ROWS {
        for first in [0, 1, 2, 3, 4, 5, 6, 7, 8, 1001, 10000000] {
            let left = run_text(
                alloc,
                text,
                *main,
                &Parts {
                    first,
                    then: 10000000,
                },
                1000,
                100,
            )?;
            assert_eq!(&rt;
                left.done,
                *steps,
                "{text} in two parts, the first of {first}"
            );
            let found = left.words.get(*variable as usize).copied();
            assert_eq!(&rt;
                found,
                Some(*word),
                "{text} in two parts, the first of {first}"
            );
            assert_eq!(&rt; left.depth, 0, "{text}");
        }
    }
    Ok(())
}

/// A call for which the stack has no room is not done: what it needs is left as it was, and the caller is still at it.
#[test]
fn calls_without_room_are_not_done(rt: HostRuntime) -> Result<(), Fail> {
    let alloc = rt.alloc();
    let parts = Parts {
        first: 0,
        then: 10000000,
    };
    // `main` has two variables, `size` one, and `fibonacci` ten
    let callers = run_text(alloc, FIBONACCI, 2, &parts, 1000, 0)?;
    assert_eq!(&rt; (callers.done, callers.depth), (0, 0));
    let words = run_text(alloc, FIBONACCI, 2, &parts, 11, 100)?;
    assert_eq!(&rt; (words.done, words.depth), (3, 0));
    let deeper = run_text(alloc, FIBONACCI, 2, &parts, 12, 100)?;
    assert_eq!(&rt; (deeper.done, deeper.depth), (9, 1));
    Ok(())
}

/// The frames that a run has never left are as many as there were after the instruction that left the fewest.
#[test]
fn frames_that_were_never_left_are_counted(rt: HostRuntime) -> Result<(), Fail> {
    let alloc = rt.alloc();
    let mut fewest = usize::MAX;
    for then in 0..150 {
        let left = run_text(alloc, FIBONACCI, 2, &Parts { first: 400, then }, 1000, 100)?;
        fewest = fewest.min(left.depth.wrapping_add(1));
        assert_eq!(&rt; left.kept, fewest, "400 instructions, and {then}");
    }
    Ok(())
}
