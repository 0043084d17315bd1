//! Who can continue after a round. What its turns have done at the words of the table makes operations possible, for which goroutines wait:
//! the chances of the round. A chance goes to the goroutine that waits longest. Whoever continues changes the word in turn, which gives a
//! chance to the next.
//!
//! No clause speaks of it, and no result rests on it: a goroutine that nobody has woken has a turn in the next check for a deadlock. One
//! that has a chance for nothing costs a turn, and there are no more such turns than operations. So the time of a run does not grow with
//! the number of those that wait.
//!
//! Why nobody is forgotten: a goroutine waits only if it found its operation impossible, and each chance is given away after all turns of
//! its round, so that those have it, too, which looked before. Whoever has one tries again, and finds its operation impossible only if
//! another goroutine came first; what that one has done is a chance again, or has used the chance up.

use rgo_table_runs::goroutine::turning::Turned;
use rgo_table_runs::goroutine::waking::{Change, OperationKind};
use std::alloc::{AllocError, Global};

/// An operation that has become possible at a word, for up to so many goroutines.
#[derive(Clone, Copy)]
pub(crate) struct Chance {
    pub(crate) at: u32,
    pub(crate) operation: OperationKind,
    pub(crate) times: u32,
}

/// A chance for all that wait.
const ALL: u32 = u32::MAX;

/// The chances of a round, and which of the turns has one.
///
/// Invariant: a chance to acknowledge that comes from a receive is followed by one to send at the same word.
#[derive(Drop)]
pub struct Chances {
    chances: Vec<Chance>,
    /// For each turn of the round, whether its goroutine waits and has a chance.
    has_chance: Vec<bool>,
}

/// Which operations an operation makes possible. A receive takes an offer or makes room in a buffer: a channel has only one of the two.
fn made_possible_by(operation: OperationKind) -> &'static [OperationKind] {
    match operation {
        OperationKind::Send => &[OperationKind::Receive],
        OperationKind::Receive => &[OperationKind::Acknowledge, OperationKind::Send],
        OperationKind::Acknowledge => &[OperationKind::Send],
        // Receivers get zero, and senders trap.
        OperationKind::Close => &[
            OperationKind::Receive,
            OperationKind::Acknowledge,
            OperationKind::Send,
        ],
    }
}

/// How many goroutines have a chance by this change.
fn times_of(change: &Change) -> u32 {
    match change.operation {
        OperationKind::Receive | OperationKind::Acknowledge | OperationKind::Send
            if change.times < Change::MANY => u32::from(change.times),
        OperationKind::Receive
        | OperationKind::Acknowledge
        | OperationKind::Send
        | OperationKind::Close => ALL,
    }
}

impl Chances {
    pub fn new(alloc: Global) -> Chances {
        Chances {
            chances: Vec::new(alloc),
            has_chance: Vec::new(alloc),
        }
    }

    /// Removes all of the round before, for one of this many turns. The lists keep their memory, so that most rounds need no other.
    ///
    /// # Errors
    ///
    /// On allocation failure.
    pub fn clear(&mut self, turns: usize) -> Result<(), AllocError> {
        self.chances.clear();
        self.has_chance.clear();
        self.has_chance.reserve(turns)?;
        Ok(())
    }

    /// Adds the chances that a turn has made.
    ///
    /// # Errors
    ///
    /// On allocation failure.
    pub fn add(&mut self, turned: &Turned) -> Result<(), AllocError> {
        for change in turned.changed.changes() {
            for operation in made_possible_by(change.operation) {
                self.chances.push(Chance {
                    at: change.at,
                    operation: *operation,
                    times: times_of(change),
                })?;
            }
        }
        Ok(())
    }

    /// How many chances there are, also used ones.
    pub(crate) fn len(&self) -> usize {
        self.chances.len()
    }

    /// A chance, whether or not it is used up.
    pub(crate) fn get(&self, place: usize) -> Option<Chance> {
        self.chances.get(place).copied()
    }

    /// Where there is a chance to do this operation at this word that is not used up. It walks over all of them: only for rounds of few.
    fn position(&self, at: u32, operation: OperationKind) -> Option<usize> {
        for place in 0..self.chances.len() {
            let chance = self.chances[place];
            if chance.at == at && chance.operation == operation && chance.times > 0 {
                return Some(place);
            }
        }
        None
    }

    /// Takes this many times off a chance. A receive that lets the sender of an offer continue has not made room for another one.
    pub(crate) fn use_up(&mut self, place: usize, times: usize) {
        // More than fit are all that wait.
        let times = u32::try_from(times).unwrap_or(ALL);
        let Some(used) = self.chances.get(place).copied() else {
            return;
        };
        self.lower(place, times);
        if used.operation != OperationKind::Acknowledge {
            return;
        }
        let next = place.wrapping_add(1);
        match self.chances.get(next).copied() {
            Some(send) if send.at == used.at && send.operation == OperationKind::Send => {
                self.lower(next, times);
            }
            Some(_) | None => {}
        }
    }

    fn lower(&mut self, place: usize, times: u32) {
        if let Some(chance) = self.chances.get_mut(place) {
            if chance.times < ALL {
                chance.times = chance.times.saturating_sub(times);
            }
        }
    }

    /// Takes a chance to do this operation at this word, if there is one.
    pub(crate) fn claim(&mut self, at: usize, operation: OperationKind) -> bool {
        let Ok(at) = u32::try_from(at) else {
            // Cannot be for a word of the table, of which there are at most 2^32. Nobody changes a nil channel.
            return false;
        };
        match self.position(at, operation) {
            Some(place) => {
                self.use_up(place, 1);
                true
            }
            None => false,
        }
    }

    /// Notes whether the goroutine of the next turn waits and has a chance.
    pub(crate) fn note(&mut self, has_chance: bool) {
        // There is room: `clear` has reserved it. Where it is missing, nobody has one, which costs time and nothing else.
        let _ = self.has_chance.push(has_chance);
    }

    /// Whether the goroutine of this turn waits and has a chance.
    pub fn has_chance(&self, turn: usize) -> bool {
        self.has_chance.get(turn).copied().unwrap_or(false)
    }
}
