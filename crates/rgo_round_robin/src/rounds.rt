//! Rounds: each goroutine that is ready has its turn, and what it printed goes out, until the run ends.

ghost use Rattle.std.specs.Prelude.{◌≡◌, ◌<◌, ◌-◌, ◌^◌, ℕ, List, [], MatchResult, IsErrOf, OnOk};
ghost use Rattle.rgo_machine.specs.Machines as spec;
ghost use Rattle.rgo_round_robin.specs.Lines.{Writes};
ghost use Rattle.rgo_round_robin.specs.Playing.{IsBetweenRounds, RoundEndsRun, Finishes, StandsBetween};
ghost use Rattle.rgo_round_robin.specs.Playing.{PlaysTo, PlaysAllTo, PlaysRoundTo};
ghost use Rattle.rgo_round_robin.specs.Points.{point_of};
ghost use Rattle.rgo_round_robin.specs.Running.{IsRunAt};
ghost use Rattle.rgo_round_robin.specs.Runs.{IsReadyForTurn, CanBegin, RunsTo};

use crate::drivers::Driver;
use crate::lines::write_lines;
use crate::meetings::meet_any;
use crate::running::Running;
use crate::turns::take_turn;
use rgo_machine::{Limits, RunEnd};
use rgo_outside::Sink;
use std::alloc::Global;
use std::mem;

/// A goroutine has its turn, and what it printed goes out.
fn play<R: Running, K: Sink>(
    alloc: Global,
    run: &mut R,
    driver: &mut Driver,
    limits: Limits,
    g: usize,
    out: &mut K,
) -> Result<(), RunEnd>
    requires { CanBegin limits (R.view run.old) }
    ensures plays { (machine : spec.Machine R.Frame) (given : List ℕ) (s : spec.State R.Frame)
        → IsRunAt (R.view run.old) machine given s → IsReadyForTurn limits s → MatchResult result
        (λ _. PlaysTo (R.view run.new) machine limits given s driver.old driver.new g
        (K.contents out.old) (K.contents out.new))
        (λ end. RoundEndsRun machine limits (R.view run.new) given s end (K.contents out.old) (K.contents out.new)) }
    ensures fixed { (R.view run.new).fixed ≡ (R.view run.old).fixed }
    ensures sink { Writes (IsErrOf result RunEnd.WriteFault) (K.faults out.old) (K.faults out.new) (K.broken out.new)
        (K.pieces out.old) (K.pieces out.new) }
{
    let ended = take_turn(alloc, run, driver, limits, g);
    // The print goes out before the end of the run is looked at: what was printed before a trap is written, too.
    match write_lines(run.printed(), out) {
        Ok(()) => {}
        Err(_) => return Err(RunEnd::WriteFault),
    }
    run.clear_printed();
    ended
}

/// Each goroutine that is ready has its turn.
fn round<R: Running, K: Sink>(
    alloc: Global,
    run: &mut R,
    driver: &mut Driver,
    limits: Limits,
    out: &mut K,
) -> Result<(), RunEnd>
    requires { CanBegin limits (R.view run.old) }
    ensures plays { (machine : spec.Machine R.Frame) (given : List ℕ) (s : spec.State R.Frame)
        → IsRunAt (R.view run.old) machine given s → IsReadyForTurn limits s → MatchResult result
        (λ _. PlaysAllTo (R.view run.new) machine limits given s driver.old driver.new driver.old.ready.items []
        (K.contents out.old) (K.contents out.new))
        (λ end. RoundEndsRun machine limits (R.view run.new) given s end (K.contents out.old) (K.contents out.new)) }
    ensures fixed { (R.view run.new).fixed ≡ (R.view run.old).fixed }
    ensures sink { Writes (IsErrOf result RunEnd.WriteFault) (K.faults out.old) (K.faults out.new) (K.broken out.new)
        (K.pieces out.old) (K.pieces out.new) }
{
    // Goroutines that become ready in this round have their turns in the next, so every round ends.
    let order = mem::replace(&mut driver.ready, Vec::new(alloc));
    for i in 0..order.len() {
        match play(alloc, run, driver, limits, order[i], out) {
            Ok(()) => {}
            Err(end) => return Err(end),
        }
    }
    Ok(())
}

/// One round that makes progress: if no goroutine can step alone, a sender and a receiver meet.
fn whole_round<R: Running, K: Sink>(
    alloc: Global,
    run: &mut R,
    driver: &mut Driver,
    limits: Limits,
    out: &mut K,
) -> Result<(), RunEnd>
    requires { StandsBetween (R.view run.old) limits driver.old }
    ensures plays { (machine : spec.Machine R.Frame) (given : List ℕ) (s : spec.State R.Frame)
        → IsRunAt (R.view run.old) machine given s → IsBetweenRounds machine limits (point_of s driver.old) → MatchResult result
        (λ _. PlaysRoundTo (R.view run.new) machine limits given s driver.old driver.new
        (K.contents out.old) (K.contents out.new))
        (λ end. RoundEndsRun machine limits (R.view run.new) given s end (K.contents out.old) (K.contents out.new)) }
    ensures fixed { (R.view run.new).fixed ≡ (R.view run.old).fixed }
    ensures on { OnOk result (driver.old.steps < driver.new.steps) }
    ensures sink { Writes (IsErrOf result RunEnd.WriteFault) (K.faults out.old) (K.faults out.new) (K.broken out.new)
        (K.pieces out.old) (K.pieces out.new) }
{
    let before = driver.steps;
    match round(alloc, run, driver, limits, out) {
        Ok(()) => {}
        Err(end) => return Err(end),
    }
    // A round with a step is progress, and the search, which asks all goroutines, is not needed.
    if driver.steps > before {
        return Ok(());
    }
    meet_any(alloc, run, driver)
}

/// A round, and whether the run continues after it. The limit of steps is tested here only: a test in every step costs more than the
/// step.
fn round_and_test<R: Running, K: Sink>(
    alloc: Global,
    run: &mut R,
    driver: &mut Driver,
    limits: Limits,
    out: &mut K,
) -> Result<(), RunEnd>
    requires { StandsBetween (R.view run.old) limits driver.old }
    ensures plays { (machine : spec.Machine R.Frame) (given : List ℕ) (s : spec.State R.Frame)
        → IsRunAt (R.view run.old) machine given s → IsBetweenRounds machine limits (point_of s driver.old) → MatchResult result
        (λ _. PlaysRoundTo (R.view run.new) machine limits given s driver.old driver.new
        (K.contents out.old) (K.contents out.new))
        (λ end. Finishes machine limits (R.view run.new) given s driver.old.steps end
        (K.contents out.old) (K.contents out.new)) }
    ensures fixed { (R.view run.new).fixed ≡ (R.view run.old).fixed }
    ensures on { OnOk result (driver.old.steps < driver.new.steps) }
    ensures below { OnOk result (driver.new.steps < limits.steps) }
    ensures counting { OnOk result (driver.new.steps < 2 ^ 64 - 1) }
    ensures sink { Writes (IsErrOf result RunEnd.WriteFault) (K.faults out.old) (K.faults out.new) (K.broken out.new)
        (K.pieces out.old) (K.pieces out.new) }
{
    match whole_round(alloc, run, driver, limits, out) {
        Ok(()) => {}
        Err(end) => return Err(end),
    }
    if driver.steps >= limits.steps {
        return Err(RunEnd::StepsSpent);
    }
    Ok(())
}

/// Rounds until the run ends. Each takes a step, and the steps stay below the limit, so the loop ends.
pub(crate) fn drive<R: Running, K: Sink>(
    alloc: Global,
    run: &mut R,
    driver: &mut Driver,
    limits: Limits,
    out: &mut K,
) -> RunEnd
    requires between { StandsBetween (R.view run.old) limits driver.old }
    requires begins { driver.old.steps ≡ 0 }
    ensures runs { (machine : spec.Machine R.Frame) (given : List ℕ) (s : spec.State R.Frame)
        → IsRunAt (R.view run.old) machine given s → IsBetweenRounds machine limits (point_of s driver.old)
        → RunsTo (R.view run.new) machine limits given s result (K.contents out.old) (K.contents out.new) }
    ensures fixed { (R.view run.new).fixed ≡ (R.view run.old).fixed }
    ensures sink { Writes (result ≡ RunEnd.WriteFault) (K.faults out.old) (K.faults out.new) (K.broken out.new)
        (K.pieces out.old) (K.pieces out.new) }
{
    loop {
        match round_and_test(alloc, run, driver, limits, out) {
            Ok(()) => {}
            Err(end) => return end,
        }
    }
}
