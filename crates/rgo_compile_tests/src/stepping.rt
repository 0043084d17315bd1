//! Code that is run step by step.

use crate::checks::same_in_row;
use crate::codes::code_of;
use rgo_interpreter::Stepped;
use rgo_machine::{End, Pick};
use rgo_memory::Trap;
use rgo_tac_interpreter::{TacState, tac_printed, tac_start, tac_step, tac_stuck};
use std::process::Abort;
use std::test::Fail;

/// What is done with a run, or what it has to return.
#[derive(Clone, Copy)]
enum Move {
    /// A goroutine steps alone this many times; each step advances.
    Advances(usize, usize),
    /// What the step of a pick does.
    Steps(Pick, Stepped),
    /// Whether the run is in a deadlock.
    IsStuck(bool),
    /// What was printed so far.
    Prints(&'static str),
}

const LARGEST: &str = "func larger(a, b int) int { if a > b { return a }; return b }
func main() { m := 0; for i := 0; i < 3; i++ { m = larger(m, i*i-i) }; fmt.Println(\"largest\", m) }\n";

/// A step is an instruction: 4 up to the loop, 14 for each turn, 3 for the last test, the print and the return.
static OF_LARGEST: [Move; 5] = [
    Move::Advances(0, 50),
    Move::Prints("largest 2\n"),
    Move::Steps(Pick::One(0), Stepped::Ended(End::Exit)),
    Move::Steps(Pick::One(0), Stepped::NotEnabled),
    Move::IsStuck(false),
];

const ECHO: &str = "func f(c chan int) { c <- 7 }
func main() { c := make(chan int); go f(c); fmt.Println(<-c); <-c }\n";

/// `main` starts the other with its fourth step and waits; the other sends with its second; they meet, and the print
/// follows. Then `main` waits for good, and the other returns.
static OF_ECHO: [Move; 15] = [
    Move::Advances(0, 4),
    Move::Steps(Pick::One(0), Stepped::NotEnabled),
    Move::Steps(Pick::Meet(0, 1), Stepped::NotEnabled),
    Move::Advances(1, 1),
    Move::Steps(Pick::One(1), Stepped::NotEnabled),
    Move::IsStuck(false),
    Move::Steps(Pick::Meet(1, 0), Stepped::NotEnabled),
    Move::Steps(Pick::Meet(0, 1), Stepped::Advanced),
    Move::Advances(0, 1),
    Move::Prints("7\n"),
    Move::IsStuck(false),
    Move::Advances(1, 1),
    Move::Steps(Pick::One(1), Stepped::NotEnabled),
    Move::Steps(Pick::One(2), Stepped::NotEnabled),
    Move::IsStuck(true),
];

const DIVIDED: &str = "func main() { x := 0; x = 1 / x }\n";

/// A trap ends the run at the place of its instruction, and nothing follows it.
static OF_DIVIDED: [Move; 4] = [
    Move::Advances(0, 3),
    Move::Steps(
        Pick::One(0),
        Stepped::Ended(End::Trap(Trap::DivideZero, 84)),
    ),
    Move::Steps(Pick::One(0), Stepped::NotEnabled),
    Move::IsStuck(false),
];

fn steps_so<R: Abort + AllocGlobal>(
    rt: &R,
    state: &mut TacState<'_>,
    number: usize,
    pick: Pick,
    wanted: Stepped,
) -> Result<(), Fail> {
    let stepped = tac_step(rt.alloc(), state, pick)?;
    same_in_row(rt, "a pick", number, &stepped, &wanted);
    Ok(())
}

fn advances<R: Abort + AllocGlobal>(
    rt: &R,
    state: &mut TacState<'_>,
    number: usize,
    g: usize,
    times: usize,
) -> Result<(), Fail> {
    for _ in 0..times {
        steps_so(rt, state, number, Pick::One(g), Stepped::Advanced)?;
    }
    Ok(())
}

fn is_stuck<R: Abort + AllocGlobal>(
    rt: &R,
    state: &TacState<'_>,
    number: usize,
    wanted: bool,
) -> Result<(), Fail> {
    let stuck = tac_stuck(rt.alloc(), state)?;
    same_in_row(rt, "a deadlock", number, &stuck, &wanted);
    Ok(())
}

fn makes<R: Abort + AllocGlobal>(
    rt: &R,
    state: &mut TacState<'_>,
    number: usize,
    wanted: Move,
) -> Result<(), Fail> {
    match wanted {
        Move::Advances(g, times) => advances(rt, state, number, g, times),
        Move::Steps(pick, stepped) => steps_so(rt, state, number, pick, stepped),
        Move::IsStuck(stuck) => is_stuck(rt, state, number, stuck),
        Move::Prints(print) => {
            same_in_row(
                rt,
                "a print",
                number,
                &tac_printed(state),
                &print.as_bytes(),
            );
            Ok(())
        }
    }
}

/// Runs the code of a text by these moves, which are counted from 1.
fn makes_all<R: Abort + AllocGlobal>(rt: &R, text: &str, moves: &[Move]) -> Result<(), Fail> {
    let code = code_of(rt, text)?;
    let mut state = tac_start(rt.alloc(), &code)?;
    for (number, wanted) in (1..).zip(moves) {
        makes(rt, &mut state, number, *wanted)?;
    }
    Ok(())
}

#[test]
fn a_run_takes_as_many_steps_as_instructions(rt: HostRuntime) -> Result<(), Fail> {
    makes_all(&rt, LARGEST, &OF_LARGEST)
}

#[test]
fn two_meet_and_one_is_left(rt: HostRuntime) -> Result<(), Fail> {
    makes_all(&rt, ECHO, &OF_ECHO)
}

#[test]
fn a_trap_ends_the_run(rt: HostRuntime) -> Result<(), Fail> {
    makes_all(&rt, DIVIDED, &OF_DIVIDED)
}
