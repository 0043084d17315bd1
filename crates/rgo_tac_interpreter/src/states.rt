//! Runs of three-address code, step by step, by picks from outside: a replay takes those of a journal.

ghost use Rattle.std.specs.Prelude.{◌≡◌, IfOk};
ghost use Rattle.rgo_interpreter.specs.Acting.{MachineSteps};
ghost use Rattle.rgo_interpreter.specs.Reports.{ReportsDeadlock};
ghost use Rattle.rgo_tac.specs.Tac as spec;

use crate::frames::Frame;
use crate::machine::{TacMachine, start};
use rgo_interpreter::{State, Stepped, is_deadlock, step};
use rgo_machine::Pick;
use rgo_tac::Tac;
use std::alloc::{AllocError, Global};

/// A run of three-address code.
#[derive(Drop)]
pub struct TacState<'a> {
    pub code: &'a Tac,
    pub state: State<Frame>,
}

/// The state in which a run of the code begins.
///
/// # Errors
///
/// On allocation failure.
pub fn tac_start(alloc: Global, code: &Tac) -> Result<TacState<'_>, AllocError>
    ensures code { IfOk result (λ s. s.code.now ≡ code.now) }
    ensures state { IfOk result (λ s. s.state ≡ spec.tac_start code.now) }
{
    let state = start(alloc, code)?;
    Ok(TacState { code, state })
}

/// One step.
///
/// # Errors
///
/// On allocation failure. Then nothing changed.
pub fn tac_step(alloc: Global, state: &mut TacState<'_>, pick: Pick) -> Result<Stepped, AllocError>
    ensures steps { MachineSteps result state.old.state state.new.state
        (spec.tac_step state.old.code.now state.old.state pick) }
    ensures code { state.new.code.now ≡ state.old.code.now }
{
    let machine = TacMachine::new(state.code);
    step(alloc, &machine, &mut state.state, pick)
}

/// What was printed.
pub fn tac_printed<'s>(state: &'s TacState<'_>) -> &'s [u8]
    ensures { result.now ≡ state.now.state.printed }
{
    state.state.printed()
}

/// Whether the run is in a deadlock: it has not ended, and no pick has a step.
///
/// # Errors
///
/// On allocation failure: the search keeps the channels at which goroutines receive.
pub fn tac_stuck(alloc: Global, state: &TacState<'_>) -> Result<bool, AllocError>
    ensures { IfOk result (ReportsDeadlock (spec.tac state.now.code.now) state.now.state) }
{
    let machine = TacMachine::new(state.code);
    is_deadlock(alloc, &machine, &state.state)
}
