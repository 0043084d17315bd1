//! What is noted of a run: its picks, in the order in which they were taken.

ghost use Rattle.std.specs.Prelude.{◌≡◌, ◌++◌, [], Some, replicate, IfSome};
ghost use Rattle.rgo_recording.specs.Notes.{NotesHaveRoom, picks_in, noted_picks};

use rgo_journal::TacPick;
use std::alloc::Global;

/// A pick that was taken `times` times in a row.
#[derive(Clone, Copy, Debug, PartialEq, Eq)]
pub struct Note {
    pub pick: TacPick,
    pub times: usize,
}

/// The picks of a run so far. Those of one turn take the room of one: a note for each step would take 1,000 times the memory when
/// one goroutine runs alone.
#[derive(Drop)]
pub struct Notes {
    pub(crate) list: Vec<Note>,
}

impl Notes {
    /// No picks.
    pub fn new(alloc: Global) -> Notes
        ensures { noted_picks result ≡ [] }
    {
        Notes {
            list: Vec::new(alloc),
        }
    }

    /// The notes, in order.
    pub fn list(&self) -> &[Note]
        ensures { picks_in result.now ≡ noted_picks self.now }
    {
        &self.list
    }

    /// Takes the room for one more note, of this pick if there is one, and returns the pick; `None` without a pick or without
    /// memory. Called before the steps, so that none of them goes unnoted.
    pub(crate) fn prepare(&mut self, pick: Option<TacPick>) -> Option<TacPick>
        ensures same { IfSome result (λ p. pick ≡ Some p) }
        ensures room { IfSome result (λ p. NotesHaveRoom self.new) }
        ensures picks { noted_picks self.new ≡ noted_picks self.old }
    {
        let pick = pick?;
        match self.list.reserve(1) {
            Ok(()) => Some(pick),
            Err(_) => None,
        }
    }

    /// The pick was taken `times` times, one after the other. `prepare` has taken the room for a note.
    pub(crate) fn note(&mut self, pick: TacPick, times: usize)
        requires { NotesHaveRoom self.old }
        ensures { noted_picks self.new ≡ noted_picks self.old ++ replicate times pick }
    {
        // A turn without a step leaves no note; the room stays for the next.
        if times == 0 {
            return;
        }
        self.list.push_reserved(Note { pick, times });
    }
}
