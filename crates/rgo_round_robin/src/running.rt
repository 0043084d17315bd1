//! What a driver asks of a run under way.

use rgo_interpreter::{Stand, Turned};
use rgo_machine::Limits;
use std::alloc::{AllocError, Global};

/// A run under way, as a driver takes it on: the goroutines of a machine take turns and meet. Contracts speak of each
/// state that the run is at, and of what was printed before its print was last cleared. The run need hold neither in
/// full: a world with regions drops the contents of removed regions, and a driver drops what it has written.
pub trait Running {
    ghost use Rattle.std.specs.Prelude.{◌≡◌, ℕ, List, length, IfOk};
    ghost use Rattle.rgo_interpreter.specs.Acting.{standing};
    ghost use Rattle.rgo_machine.specs.Machines as spec;
    ghost use Rattle.rgo_interpreter.specs.Meetings.{FindsMeeting};
    ghost use Rattle.rgo_round_robin.specs.Running.{View, RunContinues, IsNotEnded, IsOn, RunTakesTurn, TriesMeeting, Clears};

    /// A function that was called, as the definition of the machine knows it.
    type Frame;

    /// What no call changes, as the definitions know it.
    type Fixed;

    ghost view: { Self → View Self.Frame Self.Fixed };

    /// How many goroutines there are, those that have returned included.
    fn goroutines(&self) -> usize
        ensures { (given : List ℕ) (s : spec.State Self.Frame) → (view self.now).shows given s
            → result ≡ length s.goroutines };

    /// What a goroutine is before: an operation on a channel, a call, or another instruction; `None` if it has returned or does not
    /// exist.
    fn standing(&self, g: usize) -> Option<Stand>
        ensures { (given : List ℕ) (s : spec.State Self.Frame) → (view self.now).shows given s
            → result ≡ standing (view self.now).machine s g };

    /// What was printed since the print was last cleared.
    fn printed(&self) -> &[u8]
        ensures { result.now ≡ (view self.now).print };

    /// Forgets what was printed.
    fn clear_printed(&mut self)
        ensures { Clears (view self.old) (view self.new) };

    /// A goroutine steps alone, up to `at_most` times. The turn is over early if it has no step, prints, operates on a channel,
    /// ends the run, meets a limit, or lacks room or memory for its next step.
    fn turn(&mut self, alloc: Global, limits: Limits, g: usize, at_most: usize) -> Turned
        requires { IsOn limits (view self.old) }
        ensures machine { (view self.new).machine ≡ (view self.old).machine }
        ensures fixed { (view self.new).fixed ≡ (view self.old).fixed }
        ensures turns { (given : List ℕ) (s : spec.State Self.Frame) → (view self.old).shows given s
            → RunContinues limits s
            → RunTakesTurn (view self.new) (view self.old).machine limits given s g at_most result };

    /// A receiver and a sender continue together, if they meet. Returns whether they do.
    ///
    /// # Errors
    ///
    /// On allocation failure.
    fn meet(&mut self, alloc: Global, receiver: usize, sender: usize) -> Result<bool, AllocError>
        requires { IsNotEnded (view self.old) }
        ensures machine { (view self.new).machine ≡ (view self.old).machine }
        ensures fixed { (view self.new).fixed ≡ (view self.old).fixed }
        ensures meets { (given : List ℕ) (s : spec.State Self.Frame) → (view self.old).shows given s
            → s.ended ≡ None
            → TriesMeeting (view self.new) (view self.old).machine given s receiver sender result };

    /// A receiver and a sender that meet; `None` if no two do.
    ///
    /// # Errors
    ///
    /// On allocation failure.
    fn find_meeting(&self, alloc: Global) -> Result<Option<(usize, usize)>, AllocError>
        requires { IsNotEnded (view self.now) }
        ensures { (given : List ℕ) (s : spec.State Self.Frame) → (view self.now).shows given s
            → s.ended ≡ None → IfOk result (FindsMeeting (view self.now).machine s) };

    /// A state that the run is at has its print.
    ghost shown_prints: { (run : Self) (given : List ℕ) (s : spec.State Self.Frame) → (view run).shows given s
        → s.printed ≡ (view run).print };

    /// Once memory has run out, less holds of the run than before.
    ghost shown_leaves: { (run : Self) (given : List ℕ) (s : spec.State Self.Frame) → (view run).shows given s
        → (view run).leaves given s };
}
