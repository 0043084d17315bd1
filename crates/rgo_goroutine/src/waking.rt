//! What a turn reports of the words at which goroutines wait for each other: which operation it waits to do, and which ones it has done.
//! The driver parks and wakes goroutines by it.
//!
//! All of it is a hint. No clause says what it contains, and no result rests on it: a goroutine that nobody wakes has a turn in the next
//! check for a deadlock. What is missing here costs time, and never an answer.
ghost use Rattle.std.specs.Prelude.{◌≡◌, ◌+◌, ◌<◌, ◌≤◌, IfSome};

use rgo_sound::typed::Action;

/// An operation at a word of the table that may have to wait for another goroutine, or for which others wait.
#[derive(Clone, Copy, Debug, PartialEq, Eq)]
pub enum OperationKind {
    /// A value is received. It waits for a value, or for an offer.
    Receive,
    /// The sender of an offer has seen that it was taken. It waits until a receiver takes it.
    Acknowledge,
    /// A value is sent into a buffer, or offered at a channel without one. It waits for room, or until no other offer is there.
    Send,
    /// A channel is closed. It waits for nobody.
    Close,
}

impl OperationKind {
    /// The operation of an action on a channel.
    pub(crate) fn of(action: Action) -> OperationKind {
        match action {
            Action::Send => OperationKind::Send,
            Action::Recv => OperationKind::Receive,
            Action::Close => OperationKind::Close,
            // Cannot be: it is asked of actions on channels alone. Whoever waits is woken by a close.
            Action::Int(_)
            | Action::Bool(_)
            | Action::Nil
            | Action::Copy
            | Action::Binary(_)
            | Action::Neg
            | Action::Not
            | Action::IsNil
            | Action::Len
            | Action::Load(_)
            | Action::Store(_)
            | Action::At
            | Action::Put
            | Action::New(_)
            | Action::Slice
            | Action::Chan
            | Action::Get(_)
            | Action::Set(_) => OperationKind::Close,
        }
    }
}

/// What a turn has done at one word.
#[derive(Clone, Copy, Debug, PartialEq, Eq)]
pub struct Change {
    /// The word, of which a table has at most 2^32.
    pub at: u32,
    pub operation: OperationKind,
    /// How many times, at most `MANY`, which may stand for more. Each time may let one more goroutine continue.
    pub times: u16,
}

impl Change {
    /// How many times a change counts that was made more often.
    pub const MANY: u16 = u16::MAX;

    fn is_of(&self, at: u32, operation: OperationKind) -> bool {
        self.at == at && self.operation == operation
    }
}

/// How many changes a turn lists. A turn is over when its list is full. It is short, since what a turn has done moves with its goroutine
/// each time that this is parked or woken.
const MOST: usize = 6;

/// What a turn has done at the words of the table, so that goroutines that wait there can be woken.
#[derive(Clone, Copy)]
pub struct Changed {
    pub(crate) changes: [Change; 6],
    pub(crate) count: usize,
}

/// A word as a list has it. A table has at most 2^32 words, so each of them has a number of its own.
fn listed(at: usize) -> u32 {
    u32::try_from(at).unwrap_or(u32::MAX)
}

impl Changed {
    pub(crate) fn new() -> Changed
        ensures { result.count ≡ 0 }
    {
        Changed {
            changes: [Change {
                at: 0,
                operation: OperationKind::Close,
                times: 0,
            }; 6],
            count: 0,
        }
    }

    /// Where this operation at this word is listed.
    fn position(&self, at: u32, operation: OperationKind) -> Option<usize>
        ensures { IfSome result (λ place. place < 6) }
    {
        for place in 0..MOST {
            if place < self.count && self.changes[place].is_of(at, operation) {
                return Some(place);
            }
        }
        None
    }

    /// Counts one more operation at a word. One that was made without an instruction has an entry of its own, so that a turn of such
    /// operations is over when the list is full.
    pub(crate) fn note(&mut self, at: usize, operation: OperationKind, made: u32)
        requires { self.old.count < 6 }
        ensures within { (self.old.count ≤ self.new.count) × (self.new.count ≤ self.old.count + 1) }
        ensures more { self.old.count < self.new.count + made }
    {
        let at = listed(at);
        if made > 0 {
            if let Some(place) = self.position(at, operation) {
                let times = self.changes[place].times;
                self.changes[place].times = times.saturating_add(1);
                return;
            }
        }
        self.changes[self.count] = Change {
            at,
            operation,
            times: 1,
        };
        self.count += 1;
    }

    /// What was done, at most six changes.
    pub fn changes(&self) -> &[Change] {
        self.changes.get(..self.count).unwrap_or(&[])
    }
}
