//! Replays: the picks of a journal, taken again on the three-address machine, without regions. Why: docs/DECISIONS.md, "Errors
//! and statuses".

ghost use Rattle.std.specs.Prelude.{◌≡◌, true};
ghost use Rattle.rgo_outside.specs.Causes.{Rose};
ghost use Rattle.rgo_tac.specs.Tac as tac;
ghost use Rattle.rgo_journal.specs.declared.replays.ReplayEnd.TheVariants.{WriteFault};
ghost use Rattle.rgo_journal.specs.Picks as spec;
ghost use Rattle.rgo_journal.specs.Replays.{ReplayEndsAs, Replays, TakesPicks, Takes1};

use crate::picks::{TacPick, machine_pick};
use rgo_interpreter::Stepped;
use rgo_machine::End;
use rgo_outside::{Sink, write_all};
use rgo_tac::Tac;
use rgo_tac_interpreter::{TacState, tac_printed, tac_start, tac_step, tac_stuck};
use std::alloc::{AllocError, Global};

/// How a replay ended.
#[derive(Clone, Copy, Debug, PartialEq, Eq)]
pub enum ReplayEnd {
    /// All picks were taken, and the last ended the run: `main` returned, or a goroutine trapped.
    Ended(End),
    /// All picks were taken, and then no pick has a step.
    Deadlock,
    /// All picks were taken, none ended the run, and some pick has a step.
    Unfinished,
    /// The pick of this number, from 0, has no step, or the one before it ended the run.
    Foreign { index: usize },
    /// A write failed.
    WriteFault,
    /// Memory ran out.
    NoMemory,
}

/// Takes a pick. Returns whether it has a step; if not, nothing changed.
fn take_pick(alloc: Global, state: &mut TacState<'_>, pick: TacPick) -> Result<bool, AllocError>
    ensures taken { Takes1 result state.old.state state.new.state (spec.taken state.old.code.now state.old.state pick) }
    ensures code { state.new.code.now ≡ state.old.code.now }
{
    let Some(pick) = machine_pick(pick) else {
        return Ok(false);
    };
    match tac_step(alloc, state, pick)? {
        Stepped::Advanced | Stepped::Ended(_) => Ok(true),
        Stepped::NotEnabled => Ok(false),
    }
}

/// How a replay ended whose picks were all taken, by its last state. Asked once, after the last pick: earlier states have a step, the
/// next pick.
fn end_of(alloc: Global, state: &TacState<'_>, picks: &[TacPick]) -> ReplayEnd
    requires { TakesPicks state.now.code.now picks.now state.now.state }
    ensures ends { ReplayEndsAs state.now.code.now picks.now state.now.state result }
    ensures whole { result ≡ WriteFault → ⊥ }
{
    if let Some(end) = state.state.ended {
        return ReplayEnd::Ended(end);
    }
    match tac_stuck(alloc, state) {
        Ok(true) => ReplayEnd::Deadlock,
        Ok(false) => ReplayEnd::Unfinished,
        Err(_) => ReplayEnd::NoMemory,
    }
}

/// Takes the picks one after the other.
fn take_picks(alloc: Global, state: &mut TacState<'_>, picks: &[TacPick]) -> ReplayEnd
    requires { state.old.state ≡ tac.tac_start state.old.code.now }
    ensures ends { ReplayEndsAs state.old.code.now picks.now state.new.state result }
    ensures whole { result ≡ WriteFault → ⊥ }
{
    for index in 0..picks.len() {
        match take_pick(alloc, state, picks[index]) {
            Ok(true) => {}
            Ok(false) => return ReplayEnd::Foreign { index },
            Err(_) => return ReplayEnd::NoMemory,
        }
    }
    end_of(alloc, state, picks)
}

/// Runs code by these picks: takes them one after the other, up to the first that has no step, and writes what they print
/// to `out`, after the last, in one write. Nothing is written if the run cannot begin for want of memory.
pub fn replay<K: Sink>(alloc: Global, code: &Tac, picks: &[TacPick], out: &mut K) -> ReplayEnd
    ensures replays { Replays code.now picks.now result (K.contents out.old) (K.contents out.new) }
    ensures fault { result ≡ WriteFault → Rose (K.faults out.old) (K.faults out.new) }
    ensures broken { result ≡ WriteFault → K.broken out.new ≡ true }
    ensures held { (result ≡ WriteFault → ⊥) → K.faults out.new ≡ K.faults out.old }
{
    let Ok(mut state) = tac_start(alloc, code) else {
        return ReplayEnd::NoMemory;
    };
    let end = take_picks(alloc, &mut state, picks);
    match write_all(out, tac_printed(&state)) {
        Ok(()) => end,
        Err(_) => ReplayEnd::WriteFault,
    }
}
