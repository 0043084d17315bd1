//! Runs, round by round.

ghost use Rattle.std.specs.Prelude.{◌≡◌, ℕ, List, true, Option, IfOk, IfErr};
ghost use Rattle.rgo_outside.specs.Causes.{Rose};
ghost use Rattle.rgo_outside.specs.Pieces.{AddsOnly};
ghost use Rattle.rgo_machine.specs.declared.limits.Limits as declared;
ghost use Rattle.rgo_machine.specs.Machines as spec;
ghost use Rattle.rgo_round_robin.specs.Lines.{IsLineEnd};
ghost use Rattle.rgo_round_robin.specs.Playing.{IsBetweenRounds};
ghost use Rattle.rgo_round_robin.specs.Points.{point_of};
ghost use Rattle.rgo_round_robin.specs.Runs.{IsReadyForTurn, CanBegin, RunsTo};

use crate::drivers::Driver;
use crate::rounds::drive;
use crate::running::Running;
use crate::waiting::admit;
use rgo_machine::{Limits, RunEnd};
use rgo_outside::Sink;
use std::alloc::Global;
use std::collections::HashMap;

/// The driver of a run that begins: every goroutine is ready, those too that have returned. Their first turn has no step, and they
/// have no other.
///
/// # Errors
///
/// The end of the run, if there is no memory to begin.
fn first_driver<R: Running>(alloc: Global, run: &R) -> Result<Driver, RunEnd>
    ensures begins { IfOk result (λ driver. (driver.steps ≡ 0)
        × ((limits : declared.Limits) (given : List ℕ) (s : spec.State R.Frame) → (R.view run.now).shows given s
        → IsReadyForTurn limits s → IsBetweenRounds (R.view run.now).machine limits (point_of s driver))) }
    ensures ends { IfErr result (λ end. (end ≡ RunEnd.NoMemory)
        × ((limits : declared.Limits) (given : List ℕ) (s : spec.State R.Frame) (out : Option (List ℕ))
        → (R.view run.now).shows given s → IsReadyForTurn limits s
        → RunsTo (R.view run.now) (R.view run.now).machine limits given s end out out)) }
{
    let mut ready = Vec::new(alloc);
    let count = run.goroutines();
    match admit(&mut ready, 0, count) {
        Ok(()) => {}
        Err(_) => return Err(RunEnd::NoMemory),
    }
    Ok(Driver {
        steps: 0,
        ready,
        waiting: HashMap::new(alloc),
    })
}

/// Drives a run from the state that it is at, in rounds: in each, every goroutine that can step has a turn of up to
/// 1,000 steps. What a goroutine printed goes out after its turn, each line in one piece. After a failed write nothing
/// more is written.
///
/// Returns how the run ended. Whether the limit of steps is reached is tested at the end of a round; the other limits
/// are tested before each step. When memory runs out, what went out is the whole print of a shorter run.
pub fn run<R: Running, K: Sink>(alloc: Global, run: &mut R, limits: Limits, out: &mut K) -> RunEnd
    requires { CanBegin limits (R.view run.old) }
    ensures runs { (given : List ℕ) (s : spec.State R.Frame) → (R.view run.old).shows given s → IsReadyForTurn limits s
        → RunsTo (R.view run.new) (R.view run.old).machine limits given s result
        (K.contents out.old) (K.contents out.new) }
    ensures fixed { (R.view run.new).fixed ≡ (R.view run.old).fixed }
    ensures fault { result ≡ RunEnd.WriteFault → Rose (K.faults out.old) (K.faults out.new) }
    ensures broken { result ≡ RunEnd.WriteFault → K.broken out.new ≡ true }
    ensures kept { (result ≡ RunEnd.WriteFault → ⊥) → K.faults out.new ≡ K.faults out.old }
    ensures lines { AddsOnly IsLineEnd (K.pieces out.old) (K.pieces out.new) }
{
    let mut driver = match first_driver(alloc, run) {
        Ok(driver) => driver,
        Err(end) => return end,
    };
    drive(alloc, run, &mut driver, limits, out)
}
