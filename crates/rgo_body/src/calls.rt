//! Local steps of control: jumps and branches after which names are removed, and calls and returns that pass or protect regions.

ghost use Rattle.std.specs.Prelude.{◌≡◌, ◌^◌, ◌+◌, ◌<◌, ◌≤◌, ◌++◌, ℕ, Err, List, MatchOption, None, OnErr, OnOk, Option, drop, false, length, map};
ghost use Rattle.rgo_sound.specs.Machine.Limits.{deepest};
ghost use Rattle.rgo_core.specs.Memory.Records.{Fill};
ghost use Rattle.rgo_holding.specs.Holds.{IsHoldingOf};
ghost use Rattle.rgo_sound.specs.RegionMachine.States.{EndBase, Holder};
ghost use Rattle.rgo_stack.specs.Places.{CanJump};
ghost use Rattle.rgo_stack.specs.Stacks.{caller_place};
ghost use Rattle.rgo_stack.specs.declared.calls.NoCall.TheVariants.{TooDeep};
ghost use Rattle.rgo_sound.specs.Tac.Code as tac;
ghost use Rattle.rgo_sound.specs.Tac.Ops.{operation_of};
ghost use Rattle.rgo_body.specs.Bodies.{BodyIsReady, frames_of_body};
ghost use Rattle.rgo_body.specs.Nexts.{IsNextOf};
ghost use Rattle.rgo_body.specs.Shows.{BodyIsPossible};
ghost use Rattle.rgo_body.specs.Steps.{ExitsSo, GoesTo, HasBaseRoom, HasRoomBack, IsRoomier, StillShows, TakesLocal, TakesReturn};
ghost use Rattle.rgo_body.specs.declared.bodies.Side.TheVariants.{AtRest};

use crate::bodies::Body;
use crate::nexts::Next;
use crate::programs::Program;
use crate::queues::{Duty, Kind, Queue};
use rgo_holding::Holding;
use rgo_stack::NoCall;
use std::alloc::AllocError;

/// The ends of the protections since a goroutine started come before all other duties. They are put from the last to the first, since
/// each comes before those that were put before it.
fn put_base(queue: &mut Queue, holding: &Holding)
    requires room { HasBaseRoom holding.now queue.old.room }
    ensures { (h : Holder) (fills : List Fill) (slots : ℕ) → IsHoldingOf slots holding.now h fills
        → queue.new.duties ≡ map EndBase h.base ++ queue.old.duties }
{
    let mut i = holding.base_len();
    while i > 0 {
        i -= 1;
        match holding.base_region(i) {
            Some(region) => queue.put(Duty::EndBase(region)),
            // `i` is less than the length of the base.
            None => unreachable!(),
        }
    }
}

impl Body {
    /// It continues with another instruction of its function, and removes these names. Room is taken first: after the jump, a refusal
    /// would leave the instruction half made.
    ///
    /// # Errors
    ///
    /// On allocation failure. Then nothing has changed.
    fn go_to(
        &mut self,
        program: &Program<'_>,
        target: u32,
        removes: &[u32],
    ) -> Result<(), AllocError>
        requires possible { BodyIsPossible program.now self.old }
        requires can { CanJump program.now.compact target (frames_of_body self.old) }
        requires count { self.old.counts.steps + 1 < 2 ^ 64 }
        ensures went { OnOk result (GoesTo program.now self.old self.new target removes.now) }
        ensures refused { OnErr result (IsRoomier self.old self.new) }
        ensures side { self.new.side ≡ self.old.side }
        ensures not_yet { OnOk result (self.new.is_expanded ≡ false) }
    {
        self.queue.reserve(removes.len())?;
        self.stack.jump(program.compact(), target as usize);
        self.queue.put_all(Kind::Remove, removes);
        self.is_expanded = false;
        self.counts.add_step();
        Ok(())
    }

    /// Its next instruction is a jump.
    ///
    /// # Errors
    ///
    /// On allocation failure. Then nothing has changed.
    pub fn jump(
        &mut self,
        program: &Program<'_>,
        next: &Next<'_>,
        target: u32,
    ) -> Result<(), AllocError>
        requires possible { BodyIsPossible program.now self.old }
        requires ready { BodyIsReady program.now self.old next.now }
        requires jumps { operation_of next.now.op ≡ tac.Jump target }
        requires rests { self.old.side ≡ AtRest }
        requires count { self.old.counts.steps + 1 < 2 ^ 64 }
        ensures done { OnOk result (TakesLocal program.now 1 self.old self.new) }
        ensures stays { OnErr result (StillShows program.now self.old self.new) }
        ensures side { self.new.side ≡ self.old.side }
        ensures not_yet { OnOk result (self.new.is_expanded ≡ false) }
    {
        program.fits();
        self.go_to(program, target, next.removes())
    }

    /// Its next instruction is a branch.
    ///
    /// # Errors
    ///
    /// On allocation failure. Then nothing has changed.
    pub fn branch(
        &mut self,
        program: &Program<'_>,
        next: &Next<'_>,
        test: u32,
        target: u32,
        other: u32,
    ) -> Result<(), AllocError>
        requires possible { BodyIsPossible program.now self.old }
        requires ready { BodyIsReady program.now self.old next.now }
        requires branches { operation_of next.now.op ≡ tac.Branch test target other }
        requires rests { self.old.side ≡ AtRest }
        requires count { self.old.counts.steps + 1 < 2 ^ 64 }
        ensures done { OnOk result (TakesLocal program.now 1 self.old self.new) }
        ensures stays { OnErr result (StillShows program.now self.old self.new) }
        ensures side { self.new.side ≡ self.old.side }
        ensures not_yet { OnOk result (self.new.is_expanded ≡ false) }
    {
        program.fits();
        if self.stack.word(test) == 0 {
            self.go_to(program, other, next.otherwise())
        } else {
            self.go_to(program, target, next.removes())
        }
    }

    /// Its next instruction calls this function with these variables. All room is taken before the frame is made. The stack comes last
    /// of the three, since its change is the first that shows.
    ///
    /// # Errors
    ///
    /// [`NoCall::TooDeep`] only if it has as many frames as it may have, [`NoCall::NoMemory`] on allocation failure. Then
    /// nothing has changed.
    pub fn call(
        &mut self,
        program: &Program<'_>,
        next: &Next<'_>,
        function: u32,
        from: &[u32],
    ) -> Result<(), NoCall>
        requires possible { BodyIsPossible program.now self.old }
        requires ready { BodyIsReady program.now self.old next.now }
        requires calls { (to : Option ℕ) × (operation_of next.now.op ≡ tac.Call to function from.now) }
        requires rests { self.old.side ≡ AtRest }
        requires count { self.old.counts.steps + 1 < 2 ^ 64 }
        ensures done { OnOk result (TakesLocal program.now 1 self.old self.new) }
        ensures deep { result ≡ Err TooDeep → length (frames_of_body self.old) ≡ deepest }
        ensures stays { OnErr result (StillShows program.now self.old self.new) }
        ensures side { self.new.side ≡ self.old.side }
        ensures not_yet { OnOk result (self.new.is_expanded ≡ false) }
    {
        program.fits();
        program.code().ascends();
        let callee = function as usize;
        let entry = program.entry(callee);
        let formals = program.formals(callee);
        let passes = next.passes();
        match self.queue.reserve(entry.len()) {
            Ok(()) => {}
            Err(_) => return Err(NoCall::NoMemory),
        }
        match self.holding.prepare_call(formals, passes) {
            Ok(()) => {}
            Err(_) => return Err(NoCall::NoMemory),
        }
        match self.stack.call(program.compact(), function, from) {
            Ok(()) => {}
            Err(e) => return Err(e),
        }
        let protects = next.protects();
        self.holding
            .enter(formals, passes, protects, program.result_class(callee));
        self.queue.put_all(Kind::Remove, entry);
        self.is_expanded = false;
        self.counts.add_step();
        Ok(())
    }

    /// The call at which the caller of its newest frame is; `None` if it has one frame.
    fn call_below<'p, 'c>(&self, program: &'p Program<'c>) -> Option<&'p Next<'c>>
        requires possible { BodyIsPossible program.now self.now }
        ensures { MatchOption result (caller_place (frames_of_body self.now) ≡ None)
            (λ n. IsNextOf program.now.code (drop 1 (frames_of_body self.now)) n.now) }
    {
        let place = self.stack.caller()?;
        match program.next_at(place) {
            Some(next) => Some(next),
            // A caller is at a call, which is an instruction of the program.
            None => unreachable!(),
        }
    }

    /// Room for what is owed after its newest function has returned. Taken apart from the return, so that the return cannot fail.
    ///
    /// # Errors
    ///
    /// On allocation failure.
    pub fn room_to_return(&mut self, program: &Program<'_>) -> Result<(), AllocError>
        requires possible { BodyIsPossible program.now self.old }
        ensures room { OnOk result (HasRoomBack program.now self.new) }
        ensures same { IsRoomier self.old self.new }
    {
        match self.call_below(program) {
            Some(call) => self
                .queue
                .reserve_both(call.protects().len(), call.removes().len()),
            None => self.queue.reserve(self.holding.base_len()),
        }
    }

    /// Its next instruction returns from its newest function, with the word of this variable or with none.
    pub fn come_back(&mut self, program: &Program<'_>, next: &Next<'_>, value: Option<u32>)
        requires possible { BodyIsPossible program.now self.old }
        requires ready { BodyIsReady program.now self.old next.now }
        requires returns { operation_of next.now.op ≡ tac.Return value }
        requires rests { self.old.side ≡ AtRest }
        requires room { HasRoomBack program.now self.old }
        requires count { self.old.counts.steps + 1 < 2 ^ 64 }
        ensures local { TakesReturn program.now self.old self.new }
        ensures exit { ExitsSo program.now self.old self.new }
        ensures side { self.new.side ≡ self.old.side }
        ensures not_yet { self.new.is_expanded ≡ false }
    {
        match self.call_below(program) {
            Some(call) => self.come_back_to(program, next, call, value),
            None => self.come_to_end(program, next, value),
        }
    }

    /// It returns to the caller that is at this call.
    fn come_back_to(
        &mut self,
        program: &Program<'_>,
        next: &Next<'_>,
        call: &Next<'_>,
        value: Option<u32>,
    )
        requires possible { BodyIsPossible program.now self.old }
        requires ready { BodyIsReady program.now self.old next.now }
        requires returns { operation_of next.now.op ≡ tac.Return value }
        requires rests { self.old.side ≡ AtRest }
        requires room { HasRoomBack program.now self.old }
        requires count { self.old.counts.steps + 1 < 2 ^ 64 }
        requires call { IsNextOf program.now.code (drop 1 (frames_of_body self.old)) call.now }
        ensures local { TakesReturn program.now self.old self.new }
        ensures exit { ExitsSo program.now self.old self.new }
        ensures side { self.new.side ≡ self.old.side }
        ensures not_yet { self.new.is_expanded ≡ false }
    {
        program.fits();
        self.stack
            .come_back(program.compact(), value, call.result_target());
        self.holding.come_back();
        self.queue.put_all(Kind::Remove, call.removes());
        self.queue.put_all(Kind::Unprotect, call.protects());
        self.is_expanded = false;
        self.counts.add_step();
    }

    /// It returns from its first function.
    fn come_to_end(&mut self, program: &Program<'_>, next: &Next<'_>, value: Option<u32>)
        requires possible { BodyIsPossible program.now self.old }
        requires ready { BodyIsReady program.now self.old next.now }
        requires returns { operation_of next.now.op ≡ tac.Return value }
        requires rests { self.old.side ≡ AtRest }
        requires room { HasRoomBack program.now self.old }
        requires count { self.old.counts.steps + 1 < 2 ^ 64 }
        requires last { caller_place (frames_of_body self.old) ≡ None }
        ensures local { TakesReturn program.now self.old self.new }
        ensures exit { ExitsSo program.now self.old self.new }
        ensures side { self.new.side ≡ self.old.side }
        ensures not_yet { self.new.is_expanded ≡ false }
    {
        program.fits();
        self.stack.come_back(program.compact(), value, None);
        self.holding.come_back();
        put_base(&mut self.queue, &self.holding);
        self.is_expanded = false;
        self.counts.add_step();
    }
}
