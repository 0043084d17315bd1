//! A run with its regions whose steps are noted, as a driver takes it on. To the driver it is a run like any other: notes are taken
//! inside its turns and meetings.

ghost use Rattle.std.specs.Prelude.{◌≡◌, IfSome};
ghost use Rattle.rgo_journal.specs.declared.picks.TacPick.TheVariants.{One, Meet};
ghost use Rattle.rgo_journal.specs.Text.{PickFits};

use crate::notes::Notes;
use rgo_code::Code;
use rgo_interpreter::{Stand, TurnEnd, Turned};
use rgo_journal::TacPick;
use rgo_machine::{Limits, Sizes};
use rgo_region_interpreter::World;
use rgo_round_robin::Running;
use rgo_tac_interpreter::Frame;
use std::alloc::{AllocError, Global};

/// A run with its regions, and what is noted of it: all its steps, from its start.
#[derive(Drop)]
pub struct Recorder<'a> {
    pub world: World<'a>,
    pub notes: Notes,
}

/// The pick of a goroutine that steps alone. `None` if its number has more than 32 bits, which does not occur: far fewer goroutines
/// can be started.
fn one(g: usize) -> Option<TacPick>
    ensures { IfSome result (λ pick. (pick ≡ One g) × PickFits pick) }
{
    match u32::try_from(g) {
        Ok(g) => Some(TacPick::One(g)),
        Err(_) => None,
    }
}

/// The pick of a receiver and a sender that meet, in the same way.
fn meeting(receiver: usize, sender: usize) -> Option<TacPick>
    ensures { IfSome result (λ pick. (pick ≡ Meet receiver sender) × PickFits pick) }
{
    let Ok(receiver) = u32::try_from(receiver) else {
        return None;
    };
    let Ok(sender) = u32::try_from(sender) else {
        return None;
    };
    Some(TacPick::Meet(receiver, sender))
}

impl<'a> Running for Recorder<'a> {
    ghost use Rattle.rgo_recording.specs.Recorders.{recorder_view};

    type Frame = Frame;

    type Fixed = (Code, Sizes);

    ghost view = { recorder_view };

    ghost use Rattle.std.proofs.Common.{ap};

    ghost shown_prints = { λ run given s at. ap (λ v. v.printed) at.stands.reaches.is };

    ghost shown_leaves = { λ run given s at. record { reaches = at.stands.reaches; lead = at.lead } };

    fn goroutines(&self) -> usize {
        self.world.goroutines()
    }

    fn standing(&self, g: usize) -> Option<Stand> {
        self.world.standing(g)
    }

    fn printed(&self) -> &[u8] {
        self.world.printed()
    }

    fn clear_printed(&mut self) {
        self.world.clear_printed();
    }

    fn turn(&mut self, alloc: Global, limits: Limits, g: usize, at_most: usize) -> Turned {
        // The room for what is noted of the turn comes first, so that no step is lost.
        let Some(pick) = self.notes.prepare(one(g)) else {
            return Turned {
                steps: 0,
                stop: TurnEnd::NoMemory,
            };
        };
        let turned = self.world.turn(alloc, limits, g, at_most);
        self.notes.note(pick, turned.steps);
        turned
    }

    fn meet(&mut self, alloc: Global, receiver: usize, sender: usize) -> Result<bool, AllocError> {
        let Some(pick) = self.notes.prepare(meeting(receiver, sender)) else {
            return Err(AllocError);
        };
        match self.world.meet(alloc, receiver, sender) {
            Ok(true) => {
                // A meeting that was refused is not noted: it was no step.
                self.notes.note(pick, 1);
                Ok(true)
            }
            Ok(false) => Ok(false),
            Err(_) => Err(AllocError),
        }
    }

    fn find_meeting(&self, alloc: Global) -> Result<Option<(usize, usize)>, AllocError> {
        self.world.find_meeting(alloc)
    }
}
