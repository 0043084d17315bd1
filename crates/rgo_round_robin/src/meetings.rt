//! After a round without a step, a search for two goroutines that meet. A deadlock is reported only if there are none: by a search
//! of all, since a wrong count of those that wait would be a wrong report.

ghost use Rattle.std.specs.Prelude.{◌≡◌, ℕ, List, ◌++◌, ◌∷◌, [], None, OnOk};
ghost use Rattle.rgo_machine.specs.Machines as spec;
ghost use Rattle.rgo_interpreter.specs.Meetings.{CanMeet};
ghost use Rattle.rgo_round_robin.specs.Probing.{MeetsFound, MeetsAny};
ghost use Rattle.rgo_round_robin.specs.Running.{IsRunAt, IsNotEnded};

use crate::drivers::Driver;
use crate::running::Running;
use crate::turns::meet;
use rgo_machine::RunEnd;
use std::alloc::{AllocError, Global};

/// Two goroutines are ready.
fn admit_both(ready: &mut Vec<usize>, first: usize, second: usize) -> Result<(), AllocError>
    ensures { OnOk result (ready.new.items ≡ ready.old.items ++ first ∷ second ∷ []) }
{
    ready.push(first)?;
    ready.push(second)?;
    Ok(())
}

/// Two goroutines meet that were found to be able to: only a lack of memory is left to go wrong.
fn meet_found<R: Running>(
    alloc: Global,
    run: &mut R,
    steps: &mut u64,
    found: (usize, usize),
) -> Result<(), AllocError>
    requires { IsNotEnded (R.view run.old) }
    ensures meets { (machine : spec.Machine R.Frame) (given : List ℕ) (s : spec.State R.Frame)
        → IsRunAt (R.view run.old) machine given s → s.ended ≡ None → CanMeet machine s found.0 found.1
        → MeetsFound (R.view run.new) machine given s found steps.old steps.new result }
    ensures fixed { (R.view run.new).fixed ≡ (R.view run.old).fixed }
{
    match meet(alloc, run, steps, found) {
        Ok(_) => Ok(()),
        Err(_) => Err(AllocError),
    }
}

/// Two goroutines meet, where no goroutine has a step alone. Since goroutines meet as soon as they can, none are found
/// here: what counts is that this is known before the run ends with a deadlock.
pub(crate) fn meet_any<R: Running>(
    alloc: Global,
    run: &mut R,
    driver: &mut Driver,
) -> Result<(), RunEnd>
    requires { IsNotEnded (R.view run.old) }
    ensures meets { (machine : spec.Machine R.Frame) (given : List ℕ) (s : spec.State R.Frame)
        → IsRunAt (R.view run.old) machine given s → s.ended ≡ None
        → MeetsAny (R.view run.new) machine given s result driver.old driver.new }
    ensures fixed { (R.view run.new).fixed ≡ (R.view run.old).fixed }
{
    let Ok(found) = run.find_meeting(alloc) else {
        return Err(RunEnd::NoMemory);
    };
    let Some(met) = found else {
        return Err(RunEnd::Deadlock);
    };
    match meet_found(alloc, run, &mut driver.steps, met) {
        Ok(()) => {}
        Err(_) => return Err(RunEnd::NoMemory),
    }
    match admit_both(&mut driver.ready, met.0, met.1) {
        Ok(()) => Ok(()),
        Err(_) => Err(RunEnd::NoMemory),
    }
}
