//! Programs that are run step by step on the source machine.

use crate::checks::same;
use crate::texts::typed;
use rgo_interpreter::{Stand, State, Stepped, standing, step};
use rgo_machine::{End, Pick};
use rgo_memory::{Trap, Value};
use rgo_source_interpreter::{Frame, SourceMachine, start};
use rgo_typed::Typed;
use std::alloc::Global;
use std::process::Abort;
use std::test::Fail;

/// Steps one goroutine as long as it advances, and returns what the last step reported.
fn run_alone<'a>(
    alloc: Global,
    machine: &SourceMachine<'a>,
    state: &mut State<Frame<'a>>,
    g: usize,
) -> Result<Stepped, Fail> {
    for _ in 0..1000 {
        let stepped = step(alloc, machine, state, Pick::One(g))?;
        if stepped != Stepped::Advanced {
            return Ok(stepped);
        }
    }
    Ok(Stepped::Advanced)
}

fn is_not_enabled<'a, R: Abort + AllocGlobal>(
    rt: &R,
    machine: &SourceMachine<'a>,
    state: &mut State<Frame<'a>>,
    pick: Pick,
) -> Result<(), Fail> {
    let stepped = step(rt.alloc(), machine, state, pick)?;
    same(rt, "a pick", &stepped, &Stepped::NotEnabled);
    Ok(())
}

/// Operands of a division, with what is printed and how the program ends.
static DIVISIONS: [(i64, i64, &str, End); 3] = [
    (-7, 2, "a b -3\n", End::Exit),
    (6, 3, "a b 2\n", End::Exit),
    (1, 0, "", End::Trap(Trap::DivideZero, 79)),
];

fn division(alloc: Global, a: i64, b: i64) -> Result<Typed, Fail> {
    let text = format!(in alloc;
        "package main; import \"fmt\"; func main() {{ a := {a}; b := {b}; fmt.Println(\"a b\", a / b) }}"
    )?;
    typed(alloc, text.as_str())
}

#[test]
fn no_step_follows_the_end(rt: HostRuntime) -> Result<(), Fail> {
    let alloc = rt.alloc();
    for (a, b, print, end) in &DIVISIONS {
        let program = division(alloc, *a, *b)?;
        let machine = SourceMachine::new(&program);
        let mut state = start(alloc, &program)?;
        let last = run_alone(alloc, &machine, &mut state, 0)?;
        same(&rt, print, &last, &Stepped::Ended(*end));
        same(&rt, print, &state.printed(), &print.as_bytes());
        is_not_enabled(&rt, &machine, &mut state, Pick::One(0))?;
        is_not_enabled(&rt, &machine, &mut state, Pick::Meet(0, 1))?;
    }
    Ok(())
}

const MEETING: &str = "\
package main
import \"fmt\"
func f(c chan int) { c <- 7 }
func main() { c := make(chan int); go f(c); fmt.Println(\"a b\", <-c) }
";

/// The place of `<-` in its send.
const SENT_AT: usize = 49;

/// The point at which goroutine 0 waits.
const RECEIVES: Stand = Stand::Receive {
    channel: Value::Object(0),
    blank: Value::Int(0),
};

/// The point at which goroutine 1 waits.
const SENDS: Stand = Stand::Send {
    channel: Value::Object(0),
    value: Value::Int(7),
    place: SENT_AT,
};

/// Goroutine 0 waits to receive, and goroutine 1 to send.
fn both_wait<'a, R: Abort + AllocGlobal>(
    rt: &R,
    machine: &SourceMachine<'a>,
    state: &mut State<Frame<'a>>,
) -> Result<(), Fail> {
    is_not_enabled(rt, machine, state, Pick::One(1))?;
    let last = run_alone(rt.alloc(), machine, state, 0)?;
    same(rt, "a receiver", &last, &Stepped::NotEnabled);
    same(
        rt,
        "a receiver",
        &standing(machine, state, 0),
        &Some(RECEIVES),
    );
    let elsewhere = Some(Stand::Elsewhere);
    same(
        rt,
        "not yet a sender",
        &standing(machine, state, 1),
        &elsewhere,
    );
    is_not_enabled(rt, machine, state, Pick::Meet(0, 1))?;
    let last = run_alone(rt.alloc(), machine, state, 1)?;
    same(rt, "a sender", &last, &Stepped::NotEnabled);
    same(rt, "a sender", &standing(machine, state, 1), &Some(SENDS));
    same(rt, "nobody", &standing(machine, state, 2), &None);
    Ok(())
}

/// Pairs of a receiver and a sender that do not meet.
static NO_PAIRS: [(usize, usize); 4] = [(1, 0), (0, 0), (1, 1), (0, 2)];

#[test]
fn only_a_receiver_and_a_sender_meet(rt: HostRuntime) -> Result<(), Fail> {
    let alloc = rt.alloc();
    let program = typed(alloc, MEETING)?;
    let machine = SourceMachine::new(&program);
    let mut state = start(alloc, &program)?;
    both_wait(&rt, &machine, &mut state)?;
    for (receiver, sender) in &NO_PAIRS {
        is_not_enabled(&rt, &machine, &mut state, Pick::Meet(*receiver, *sender))?;
    }
    let met = step(alloc, &machine, &mut state, Pick::Meet(0, 1))?;
    same(&rt, "both", &met, &Stepped::Advanced);
    let last = run_alone(alloc, &machine, &mut state, 0)?;
    same(&rt, "the end", &last, &Stepped::Ended(End::Exit));
    same(&rt, "the end", &state.printed(), &b"a b 7\n".as_slice());
    Ok(())
}
