//! The body of a goroutine, and what is read of it. No other goroutine ever reads or changes it, so all its fields are plain.

ghost use Rattle.std.specs.Prelude.{◌≡◌, ◌<◌, ◌∷◌, [], ℕ, List, MatchOption, Some, length};
ghost use Rattle.rgo_core.specs.Frames.shown.WordFrames.{WordFrame, frame_word};
ghost use Rattle.rgo_sound.specs.RegionMachine.States as machine;
ghost use Rattle.rgo_body.specs.Bodies as spec;
ghost use Rattle.rgo_body.specs.Nexts.{FrameHasNoNext, IsNextOf};
ghost use Rattle.rgo_body.specs.Queues.{duty_of};
ghost use Rattle.rgo_body.specs.Programs.{CompactProgram as Program_};
ghost use Rattle.rgo_body.specs.Shows.{BodyIsPossible};
ghost use Rattle.rgo_holding.specs.Holds.{region_of_key};
ghost use Rattle.rgo_sound.specs.RegionMachine.declared.regions.Region.TheVariants.{Numbered};

use crate::counts::Counts;
use crate::nexts::Next;
use crate::programs::Program;
use crate::queues::{Duty, Queue};
use crate::reserves::Reserved;
use rgo_holding::{Holding, Key};
use rgo_stack::Stack;

/// What a goroutine knows of a channel. It is kept only while the goroutine is before an operation on that channel.
#[derive(Clone, Copy, Debug, PartialEq, Eq)]
pub enum Side {
    /// Nothing.
    AtRest,
    /// The operation at which it is was not ready when it was tried. The record then knows the control that was found, which the
    /// law of deadlocks asks for.
    Tried,
    /// Its offer is at the channel whose control is this word of the table: not taken, or taken and not acknowledged.
    Offering(usize),
}

/// What a goroutine is made of, but for its seat at the table.
#[derive(Drop)]
pub struct Body {
    pub(crate) stack: Stack,
    /// What it has of regions.
    pub(crate) holding: Holding,
    pub(crate) queue: Queue,
    /// Whether what it owes before its next instruction is in the queue. An empty queue alone does not say that nothing is owed.
    pub(crate) is_expanded: bool,
    pub(crate) side: Side,
    pub(crate) counts: Counts,
    /// The pages for the spread object that its next instruction makes. They last over turns: if no page is free for the next one,
    /// those that were claimed stay claimed.
    pub(crate) reserved: Reserved,
    /// How many prints it has made.
    pub(crate) prints: u64,
    /// Whether a number was refused to it when it was about to start a goroutine. It does not ask again: the run ends with that limit.
    pub(crate) refused: bool,
}

impl Body {
    /// What its next step is, if it owes no duty; `None` if it has returned from its first function.
    #[inline(always)]
    pub fn next<'p, 'c>(&self, program: &'p Program<'c>) -> Option<&'p Next<'c>>
        ensures { MatchOption result (FrameHasNoNext program.now.code (spec.frames_of_body self.now))
            (λ n. IsNextOf program.now.code (spec.frames_of_body self.now) n.now) }
    {
        match self.stack.newest() {
            Some(place) => program.next_at(place),
            None => None,
        }
    }

    /// The first duty in its queue.
    pub fn duty(&self) -> Option<Duty>
        ensures { MatchOption result (self.now.queue.duties ≡ [])
            (λ d. (ds : List machine.Duty) × (self.now.queue.duties ≡ duty_of d ∷ ds)) }
    {
        self.queue.first()
    }

    /// Whether what it owes before its next instruction is in its queue.
    pub fn is_expanded(&self) -> bool
        ensures { result ≡ self.now.is_expanded }
    {
        self.is_expanded
    }

    pub fn side(&self) -> Side
        ensures { result ≡ self.now.side }
    {
        self.side
    }

    pub fn counts(&self) -> &Counts
        ensures { result.now ≡ self.now.counts }
    {
        &self.counts
    }

    /// The pages that were claimed so far for the spread object that its next instruction makes, the lead page first.
    pub fn reserved(&self) -> &[u32]
        ensures { result.now ≡ self.now.reserved.pages }
    {
        self.reserved.pages()
    }

    /// Whether a number was refused to it.
    pub fn is_refused(&self) -> bool
        ensures { result ≡ self.now.refused }
    {
        self.refused
    }

    /// The slot of a region that it knows; the slot after all others for Global.
    #[inline(always)]
    pub fn slot(&self, key: Key) -> u32
        requires possible { (p : Program_) × BodyIsPossible p self.now }
        ensures { (slot : ℕ) → region_of_key self.now.holding key ≡ Some (Numbered slot) → result ≡ slot }
    {
        self.holding.slot(key)
    }

    /// How many frames it has.
    pub fn depth(&self) -> usize
        requires { (p : Program_) × BodyIsPossible p self.now }
        ensures { result ≡ length (spec.frames_of_body self.now) }
    {
        self.stack.depth()
    }

    /// The word of a variable of the newest frame.
    #[inline(always)]
    pub fn word(&self, variable: u32) -> u64
        requires { (w : WordFrame) × (ws : List WordFrame) × (spec.frames_of_body self.now ≡ w ∷ ws) × (variable < length w.variables) }
        ensures { (w : WordFrame) (ws : List WordFrame) → spec.frames_of_body self.now ≡ w ∷ ws → result ≡ frame_word w variable }
    {
        self.stack.word(variable)
    }
}
