//! Deadlocks: the run has not ended, no goroutine has a step alone, and no two meet. All goroutines are searched, since a wrong count
//! of those that wait would be a wrong report.

ghost use Rattle.std.specs.Prelude.{◌≡◌, None, IfOk};
ghost use Rattle.std.specs.Option.{is_some};
ghost use Rattle.rgo_interpreter.specs.Views.{memory_view};
ghost use Rattle.rgo_interpreter.specs.Reports as deadlocks;
ghost use Rattle.rgo_interpreter.specs.Reports.{ReportsWaiting, ReportsDeadlock};
ghost use Rattle.rgo_machine.specs.Machines.{step_by};
ghost use Rattle.rgo_machine.specs.declared.picks.Pick.TheVariants.{One};

use crate::channels::{can_receive, can_send};
use crate::machines::{Machine, Stand};
use crate::meetings::find_meeting;
use crate::memory::Memory;
use crate::states::{State, standing};
use std::alloc::{AllocError, Global};

/// Whether a goroutine that is there has a step alone. Only a receive and a send can wait; a close succeeds or traps.
fn is_ready(memory: &Memory, stand: Stand) -> bool
    ensures { result ≡ deadlocks.has_step_alone (memory_view memory.now) stand }
{
    match stand {
        Stand::Receive { channel, .. } => can_receive(memory, channel),
        Stand::Send { channel, .. } => can_send(memory, channel),
        Stand::Close { .. } | Stand::Call | Stand::Start | Stand::Elsewhere => true,
    }
}

/// Whether a goroutine has a step alone.
fn steps_alone<M: Machine>(machine: &M, state: &State<M::Frame>, g: usize) -> bool
    requires { state.now.ended ≡ None }
    ensures { result ≡ is_some (step_by (M.machine machine.now) state.now (One g)) }
{
    match standing(machine, state, g) {
        Some(stand) => is_ready(&state.memory, stand),
        None => false,
    }
}

/// Whether no goroutine has a step alone.
fn all_wait<M: Machine>(machine: &M, state: &State<M::Frame>) -> bool
    requires { state.now.ended ≡ None }
    ensures { ReportsWaiting (M.machine machine.now) state.now result }
{
    for g in 0..state.goroutines() {
        if steps_alone(machine, state, g) {
            return false;
        }
    }
    true
}

/// Whether a run is in a deadlock.
///
/// # Errors
///
/// On allocation failure.
pub fn is_deadlock<M: Machine>(
    alloc: Global,
    machine: &M,
    state: &State<M::Frame>,
) -> Result<bool, AllocError>
    ensures { IfOk result (ReportsDeadlock (M.machine machine.now) state.now) }
{
    if state.ended.is_some() {
        return Ok(false);
    }
    if !all_wait(machine, state) {
        return Ok(false);
    }
    // Last, since it takes memory and time for all goroutines.
    match find_meeting(alloc, machine, state)? {
        Some(_) => Ok(false),
        None => Ok(true),
    }
}
