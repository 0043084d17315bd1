//! Stretches: runs of instructions that the fast loop executes in one go, since nothing has to be done with regions between them.

use crate::checks::same;
use crate::codes::code_of;
use rgo_interpreter::Memory;
use rgo_memory::{Value, zero};
use rgo_tac::Tac;
use rgo_tac_interpreter::{Frame, Mark, stretch};
use std::alloc::Global;
use std::process::Abort;
use std::test::Fail;

/// The instructions of `main` are: int, copy, int, bin, branch, int, bin, copy, return. The branch leaves by its first way.
const HALVED: &str = "func main() { x := 3; if x > 2 { x = x / 2 } }\n";

/// The same, but the branch leaves by the other way, to the return.
const KEPT: &str = "func main() { x := 2; if x > 2 { x = x / 2 } }\n";

/// A text, how many instructions have marks, which of them has this one, and a limit; then how many instructions follow one
/// another from the first on, and which is next. All other marks are `Neither`.
static ROWS: [(&str, usize, usize, Mark, usize, (usize, usize)); 16] = [
    (HALVED, 9, 0, Mark::Neither, 100, (8, 8)),
    (HALVED, 9, 0, Mark::Neither, 8, (8, 8)),
    (HALVED, 9, 0, Mark::Neither, 3, (3, 3)),
    (HALVED, 9, 0, Mark::Neither, 0, (0, 0)),
    (HALVED, 9, 0, Mark::First, 100, (0, 0)),
    (HALVED, 9, 6, Mark::First, 100, (6, 6)),
    (HALVED, 9, 6, Mark::Both, 100, (6, 6)),
    (HALVED, 9, 6, Mark::Other, 100, (8, 8)),
    (HALVED, 4, 0, Mark::Neither, 100, (4, 4)),
    (HALVED, 0, 0, Mark::Neither, 100, (0, 0)),
    (HALVED, 9, 4, Mark::First, 100, (4, 4)),
    (HALVED, 9, 4, Mark::Other, 100, (8, 8)),
    (HALVED, 9, 4, Mark::Both, 100, (4, 4)),
    (KEPT, 9, 4, Mark::First, 100, (5, 8)),
    (KEPT, 9, 4, Mark::Other, 100, (4, 4)),
    (KEPT, 9, 4, Mark::Both, 100, (4, 4)),
];

/// The marks of `len` instructions: `mark` for the one numbered `at`, and `Neither` for the others.
fn marks_of(alloc: Global, len: usize, at: usize, mark: Mark) -> Result<Vec<Mark>, Fail> {
    let mut marks = Vec::new(alloc);
    for i in 0..len {
        marks.push(if i == at { mark } else { Mark::Neither })?;
    }
    Ok(marks)
}

/// A frame of the first function, with its variables at zero.
fn frame_of(alloc: Global, code: &Tac) -> Result<Frame, Fail> {
    let mut variables = Vec::new(alloc);
    if let Some(function) = code.functions().first() {
        for ty in function.variables() {
            variables.push(zero(ty))?;
        }
    }
    Ok(Frame {
        function: 0,
        next: 0,
        variables,
    })
}

/// A stretch ends at its limit, and before an instruction that has a mark on the way it takes, has no entry in the marks, or leaves
/// the frame.
#[test]
fn a_stretch_ends_before_a_marked_way(rt: HostRuntime) -> Result<(), Fail> {
    let alloc = rt.alloc();
    for (text, len, at, mark, at_most, wanted) in &ROWS {
        let code = code_of(&rt, text)?;
        let marks = marks_of(alloc, *len, *at, *mark)?;
        let mut memory = Memory::new(alloc, code.variables())?;
        let mut frame = frame_of(alloc, &code)?;
        let count = stretch(&code, &marks, &mut frame, &mut memory, *at_most);
        same(&rt, "count and next", &(count, frame.next), wanted);
    }
    Ok(())
}

/// Two stretches do what one does: 3 is halved.
#[test]
fn a_stretch_continues_where_the_last_one_ended(rt: HostRuntime) -> Result<(), Fail> {
    let alloc = rt.alloc();
    let code = code_of(&rt, HALVED)?;
    let mut memory = Memory::new(alloc, code.variables())?;
    let mut frame = frame_of(alloc, &code)?;
    let marks = [Mark::Neither; 9];
    let first = stretch(&code, &marks, &mut frame, &mut memory, 5);
    let second = stretch(&code, &marks, &mut frame, &mut memory, 5);
    same(&rt, "the instructions", &(first, second), &(5, 3));
    same(
        &rt,
        "x",
        &frame.variables.get(1).copied(),
        &Some(Value::Int(1)),
    );
    Ok(())
}
