//! The recorded run of code with its regions.

ghost use Rattle.std.specs.Prelude.{◌≡◌, true, IfOk, OnErr};
ghost use Rattle.rgo_outside.specs.Causes.{Rose};
ghost use Rattle.rgo_outside.specs.Pieces.{AddsOnly};
ghost use Rattle.rgo_round_robin.specs.Lines.{IsLineEnd};
ghost use Rattle.rgo_recording.specs.Recordings.{Records};

use crate::notes::Notes;
use crate::recorders::Recorder;
use rgo_code::Checked;
use rgo_machine::{Limits, RunEnd, Sizes};
use rgo_outside::Sink;
use rgo_region_interpreter::World;
use rgo_round_robin::run;
use std::alloc::{AllocError, Global};

/// A run that has ended, and what was noted of it.
#[derive(Drop)]
pub struct Recorded<'a> {
    pub world: World<'a>,
    pub notes: Notes,
    pub end: RunEnd,
}

/// Runs code from its start on the caller's thread, in rounds as [`run`] does, and notes each of its steps. The room for
/// what is noted of a turn or a meeting is taken before it, so that no step is taken that could not be noted.
///
/// # Errors
///
/// On allocation failure before the first step. When memory runs out later, that is how the run ends, and what was noted
/// is the shorter run.
pub fn run_recorded<'a, K: Sink>(
    alloc: Global,
    code: &'a Checked,
    sizes: Sizes,
    limits: Limits,
    out: &mut K,
) -> Result<Recorded<'a>, AllocError>
    ensures records { IfOk result (Records code.now sizes limits (K.contents out.old) (K.contents out.new)) }
    ensures fault { IfOk result (λ r. r.end ≡ RunEnd.WriteFault → Rose (K.faults out.old) (K.faults out.new)) }
    ensures broken { IfOk result (λ r. r.end ≡ RunEnd.WriteFault → K.broken out.new ≡ true) }
    ensures kept { IfOk result (λ r. (r.end ≡ RunEnd.WriteFault → ⊥) → K.faults out.new ≡ K.faults out.old) }
    ensures lines { AddsOnly IsLineEnd (K.pieces out.old) (K.pieces out.new) }
    ensures none { OnErr result (out.new ≡ out.old) }
{
    let world = World::new(alloc, code, sizes)?;
    let mut recorder = Recorder {
        world,
        notes: Notes::new(alloc),
    };
    let end = run(alloc, &mut recorder, limits, out);
    let Recorder { world, notes } = recorder;
    Ok(Recorded { world, notes, end })
}
