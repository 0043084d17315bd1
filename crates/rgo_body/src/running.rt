//! Instructions that need at most an access to a word.

ghost use Rattle.std.specs.Prelude.{◌≡◌, ◌^◌, ◌+◌, ◌<◌, ◌≤◌, ◌∷◌, [], ℕ, List, Option, Some, OnErr, OnOk, false, length};
ghost use Rattle.rgo_core.specs.Core as core;
ghost use Rattle.rgo_core.specs.Frames.shown.Operators.{computed};
ghost use Rattle.rgo_core.specs.Frames.shown.WordFrames.{WordFrame, words_of};
ghost use Rattle.rgo_core.specs.Rule.Views.{number_of};
ghost use Rattle.rgo_core_steps.specs.Seats.{HasOne, Settles, settled};
ghost use Rattle.rgo_stack.specs.Loop.Comes.{SeatComes};
ghost use Rattle.rgo_stack.specs.Runs.{HasHalted};
ghost use Rattle.rgo_stack.specs.Stacks.{newest_words, words_from};
ghost use Rattle.rgo_sound.specs.Tac.Code as tac;
ghost use Rattle.rgo_sound.specs.Tac.Ops.{numbers_of, operation_of};
ghost use Rattle.rgo_sound.specs.Typed.declared.actions.Action.{Action};
ghost use Rattle.rgo_compact.specs.Bounds.{VariablesFit};
ghost use Rattle.rgo_body.specs.Bodies.{HasRoomBehind, BodyIsReady, frames_of_body};
ghost use Rattle.rgo_body.specs.Shows.{BodyIsPossible, BodyShows};
ghost use Rattle.rgo_body.specs.Steps.{TakesLocal};
ghost use Rattle.rgo_body.specs.declared.bodies.Side.TheVariants.{AtRest};

use crate::bodies::Body;
use crate::nexts::Next;
use crate::programs::Program;
use rgo_core::frames::words::{binary, negated};
use rgo_core::table::RunSeat;
use rgo_sound::tac::Operands;
use rgo_sound::typed::Action;
use rgo_stack::Ran;
use rgo_stack::looping::Heap;

impl Body {
    /// Makes instructions that need at most an access to a word, at most `at_most`. It stops earlier only if the goroutine has no
    /// frame, or if the next instruction needs more, traps, or is a call for which the stack has no room. `holding` is settled
    /// afterwards, once for the whole run: names of frames that have returned meanwhile go.
    pub fn run(
        &mut self,
        program: &Program<'_>,
        heap: &Heap<'_>,
        seat: &mut RunSeat,
        behind: u64,
        at_most: usize,
    ) -> Ran
        requires own { seat.old.table_id ≡ heap.now.table }
        requires alone { HasOne heap.now.setup seat.old.me }
        requires settles { Settles heap.now.setup behind seat.old.me }
        requires possible { core.IsPossible heap.now.setup (number_of seat.old.me) (settled heap.now.setup behind seat.old.me) }
        requires shows { BodyShows heap.now.setup program.now self.old (settled heap.now.setup behind seat.old.me) }
        requires empty { self.old.queue.duties ≡ [] }
        requires not_yet { self.old.is_expanded ≡ false }
        requires rests { self.old.side ≡ AtRest }
        requires count { self.old.counts.steps + at_most < 2 ^ 64 }
        requires behind { behind + at_most < 18446744073709551616 }
        ensures own { seat.new.table_id ≡ seat.old.table_id }
        ensures comes { SeatComes heap.now.setup seat.old.me behind seat.new.me result.behind (frames_of_body self.new) result.done result.kept }
        ensures shows { BodyShows heap.now.setup program.now self.new (settled heap.now.setup result.behind seat.new.me) }
        ensures same { self.new ≡ record self.old {
          stack = self.new.stack;
          holding = self.new.holding;
          counts = record self.old.counts { steps = self.old.counts.steps + result.done };
        } }
        ensures within { result.done ≤ at_most }
        ensures behind { result.behind ≤ behind + result.done }
        ensures halts { result.done < at_most → HasHalted program.now.code program.now.compact self.new.stack }
    {
        let ran = self
            .stack
            .run(heap, seat, behind, program.compact(), at_most);
        self.holding.settle(ran.kept, self.stack.depth());
        self.counts.add_steps(ran.done as u64);
        ran
    }

    /// The value of an action that touches nothing but words; `None` if it traps, touches anything else, or has another number of
    /// operands.
    pub fn computed(&self, action: Action, from: Operands) -> Option<u64>
        requires { VariablesFit (length (newest_words (frames_of_body self.now))) (numbers_of from) }
        ensures { result ≡ computed action (words_from (frames_of_body self.now) (numbers_of from)) }
    {
        match (action, from) {
            (Action::Int(k), Operands::Zero) => Some(k.cast_unsigned()),
            (Action::Bool(b), Operands::Zero) => Some(u64::from(b)),
            (Action::Nil, Operands::Zero) => Some(0),
            (Action::Copy, Operands::One(a)) => Some(self.stack.word(a)),
            (Action::Neg, Operands::One(a)) => Some(negated(self.stack.word(a))),
            (Action::Not | Action::IsNil, Operands::One(a)) => Some(u64::from(
                self.stack.word(a) == 0,
            )),
            (Action::Binary(op), Operands::Two(a, b)) => binary(
                op,
                self.stack.word(a),
                self.stack.word(b),
            ),
            // Another number of operands, which no checked code has.
            (
                Action::Int(_)
                | Action::Bool(_)
                | Action::Nil
                | Action::Copy
                | Action::Neg
                | Action::Not
                | Action::IsNil
                | Action::Binary(_),
                _,
            ) => None,
            // They touch the table, so they are accesses, which other workers see.
            (
                Action::Len
                | Action::Load(_)
                | Action::Store(_)
                | Action::At
                | Action::Put
                | Action::New(_)
                | Action::Slice
                | Action::Chan
                | Action::Recv
                | Action::Send
                | Action::Close
                | Action::Get(_)
                | Action::Set(_),
                _,
            ) => None,
        }
    }

    /// Its next instruction is an action that touches nothing but words, and its value is this word.
    pub fn computes(&mut self, program: &Program<'_>, next: &Next<'_>, word: u64)
        requires possible { BodyIsPossible program.now self.old }
        requires ready { BodyIsReady program.now self.old next.now }
        requires does { (to : Option ℕ) × (action : Action) × (from : List ℕ) × (operation_of next.now.op ≡ tac.Do to action from)
            × (computed action (words_from (frames_of_body self.old) from) ≡ Some word) }
        requires rests { self.old.side ≡ AtRest }
        requires room { HasRoomBehind self.old next.now }
        requires count { self.old.counts.steps + 1 < 2 ^ 64 }
        ensures { TakesLocal program.now 1 self.old self.new }
    {
        self.acted(program, next, word);
    }
}
