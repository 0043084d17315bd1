//! Operations on channels: what the body is after one was done, was not ready, or has offered a value.

ghost use Rattle.std.specs.Prelude.{◌≡◌, ◌^◌, ◌+◌, ◌<◌};
ghost use Rattle.rgo_core.specs.moves.Commits.{offers};
ghost use Rattle.rgo_core.specs.Channels.Records.{at_rest};
ghost use Rattle.rgo_core_steps.specs.After.{acknowledging, committing};
ghost use Rattle.rgo_sound.specs.Tac.Ops.{operation_of};
ghost use Rattle.rgo_body.specs.Bodies.{HasRoomBehind, BodyIsReady, OffersNothing};
ghost use Rattle.rgo_body.specs.Nexts.{IsDo};
ghost use Rattle.rgo_body.specs.Shows.{BodyIsPossible};
ghost use Rattle.rgo_body.specs.Steps.{Becomes, BecomesIf, TriesOperation};
ghost use Rattle.rgo_body.specs.declared.bodies.Side.TheVariants.{AtRest};

use crate::bodies::{Body, Side};
use crate::nexts::Next;
use crate::programs::Program;
use crate::queues::Kind;

impl Body {
    /// Its operation has taken effect, and has written this word to its target variable, if it has one.
    pub fn committed(&mut self, program: &Program<'_>, next: &Next<'_>, word: u64)
        requires possible { BodyIsPossible program.now self.old }
        requires ready { BodyIsReady program.now self.old next.now }
        requires does { IsDo (operation_of next.now.op) }
        requires side { OffersNothing self.old }
        requires room { HasRoomBehind self.old next.now }
        requires count { self.old.counts.steps + 1 < 2 ^ 64 }
        ensures { Becomes program.now self.old self.new (λ T c. committing T.code c word) }
    {
        self.go_on(program, next, word);
        self.counts.add_step();
        self.side = Side::AtRest;
    }

    /// It has acknowledged that its offer was taken. The receiver has counted the instruction, so this one does not.
    pub fn acknowledged(&mut self, program: &Program<'_>, next: &Next<'_>)
        requires possible { BodyIsPossible program.now self.old }
        requires ready { BodyIsReady program.now self.old next.now }
        requires does { IsDo (operation_of next.now.op) }
        requires room { HasRoomBehind self.old next.now }
        ensures { Becomes program.now self.old self.new (λ T c. acknowledging T.code c) }
    {
        self.go_on(program, next, 0);
        self.side = Side::AtRest;
    }

    /// Its offer is now at the channel with this control; it stays at its send.
    pub fn offered(&mut self, program: &Program<'_>, at: usize)
        ensures { Becomes program.now self.old self.new (λ T c. offers c at) }
    {
        self.side = Side::Offering(at);
    }

    /// Its operation was tried, and was not ready.
    pub fn tried(&mut self, program: &Program<'_>)
        requires side { OffersNothing self.old }
        ensures { TriesOperation program.now self.old self.new }
    {
        self.side = Side::Tried;
    }

    /// It is not at an operation on a channel, so from here on it knows nothing of channels.
    pub fn rest(&mut self, program: &Program<'_>)
        requires side { OffersNothing self.old }
        ensures rests { BecomesIf program.now self.old self.new (λ T c. c.side ≡ at_rest) (λ T c. c) }
        ensures same { self.new ≡ record self.old { side = AtRest } }
    {
        self.side = Side::AtRest;
    }
}
