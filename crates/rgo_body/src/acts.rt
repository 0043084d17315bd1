//! Instructions that are done by accesses: what the body is after the last one. These operations cannot fail: what they need was
//! reserved before the access, which could not be undone.

ghost use Rattle.std.specs.Prelude.{◌≡◌, ◌^◌, ◌+◌, ◌*◌, ◌<◌, ◌≤◌, ℕ, Some, false, suc, true, OnOk};
ghost use Rattle.rgo_core.specs.Core.{Setup};
ghost use Rattle.rgo_core.specs.Records.{Record};
ghost use Rattle.rgo_core.specs.Memory.Records.{Fill};
ghost use Rattle.rgo_core.specs.moves.NewObjects.{reserved_address};
ghost use Rattle.rgo_core_steps.specs.After.{acting, making, making_apart, printing, starting};
ghost use Rattle.rgo_core_steps.specs.Ends.{ending};
ghost use Rattle.rgo_core_steps.specs.Starts.{refusing};
ghost use Rattle.rgo_sound.specs.Machine.declared.picks.End.TheVariants.{Trap};
ghost use Rattle.rgo_sound.specs.Memory.Memory.{Object};
ghost use Rattle.rgo_holding.specs.Holds.{region_of_key};
ghost use Rattle.rgo_holding.specs.Known.{slot_or_global};
ghost use Rattle.rgo_sound.specs.RegionMachine.Objects.{object_words as words_in};
ghost use Rattle.rgo_sound.specs.RegionMachine.declared.regions.Region.{Region};
ghost use Rattle.rgo_stack.specs.Steps.{after_word};
ghost use Rattle.rgo_sound.specs.RegionMachine.States.{Ended, Stopped};
ghost use Rattle.rgo_sound.specs.Tac.Ops.{operation_of};
ghost use Rattle.rgo_body.specs.Bodies.{HasRoomBehind, BodyIsReady};
ghost use Rattle.rgo_body.specs.Nexts.{FollowsOn, IsDo, IsGoOp, IsPrint, removes_at, action_target};
ghost use Rattle.rgo_body.specs.Reserves.{none_reserved};
ghost use Rattle.rgo_body.specs.Shows.{BodyIsPossible, BodyShows};
ghost use Rattle.rgo_body.specs.Steps.{Becomes, BecomesIf, BodyContinues, IsRoomier};

use crate::bodies::Body;
use crate::nexts::Next;
use crate::programs::Program;
use crate::queues::Kind;
use rgo_holding::Key;
use std::alloc::AllocError;

impl Body {
    /// Room for what is owed after its next instruction, which an access does. Taken before the access, since that cannot be
    /// undone.
    ///
    /// # Errors
    ///
    /// On allocation failure.
    pub fn room_behind(&mut self, next: &Next<'_>) -> Result<(), AllocError>
        ensures room { OnOk result (HasRoomBehind self.new next.now) }
        ensures same { IsRoomier self.old self.new }
    {
        self.queue.reserve(next.removes().len())
    }

    /// It continues after its next instruction, which has written this word to its target variable, if it has one. The names that the
    /// instruction removes become duties; what it owes before the instruction after it is not looked up yet.
    pub(crate) fn go_on(&mut self, program: &Program<'_>, next: &Next<'_>, word: u64)
        requires possible { BodyIsPossible program.now self.old }
        requires ready { BodyIsReady program.now self.old next.now }
        requires follows { FollowsOn (operation_of next.now.op) }
        requires room { HasRoomBehind self.old next.now }
        ensures { BodyContinues program.now self.old self.new (after_word (action_target (operation_of next.now.op)) word) (removes_at next.now) }
    {
        self.stack.advance(program.compact(), next.target(), word);
        self.queue.put_all(Kind::Remove, next.removes());
        self.is_expanded = false;
    }

    /// Its next instruction was an action, which has written this word to its target variable, if it has one.
    pub fn acted(&mut self, program: &Program<'_>, next: &Next<'_>, word: u64)
        requires possible { BodyIsPossible program.now self.old }
        requires ready { BodyIsReady program.now self.old next.now }
        requires does { IsDo (operation_of next.now.op) }
        requires room { HasRoomBehind self.old next.now }
        requires count { self.old.counts.steps + 1 < 2 ^ 64 }
        ensures { Becomes program.now self.old self.new (λ T c. acting T.code c word) }
    {
        self.go_on(program, next, word);
        self.counts.add_step();
    }

    /// Its next instruction has made an object at the end of what was filled of its own page in this region. The page is now filled
    /// up to `end`, and `word` is the pointer.
    pub fn made(&mut self, program: &Program<'_>, next: &Next<'_>, key: Key, end: u32, word: u64)
        requires possible { BodyIsPossible program.now self.old }
        requires ready { BodyIsReady program.now self.old next.now }
        requires does { IsDo (operation_of next.now.op) }
        requires room { HasRoomBehind self.old next.now }
        requires count { (self.old.counts.steps + 1 < 2 ^ 64) × (self.old.counts.objects + 1 < 2 ^ 64) }
        ensures shows { (T : Setup) (c : Record) (f : Fill) (object : Object) (region : Region) → BodyShows T program.now self.old c
            → region_of_key self.old.holding key ≡ Some region → f.slot ≡ slot_or_global T.sizes.regions region → f.fill + words_in object ≡ end → suc (f.page * T.sizes.page_words + f.fill) ≡ word
            → BodyShows T program.now self.new (making T c f object) }
        ensures side { self.new.side ≡ self.old.side }
        ensures not_yet { self.new.is_expanded ≡ false }
    {
        self.go_on(program, next, word);
        self.holding.fill(key, end);
        self.counts.add_object();
    }

    /// Its next instruction has made a spread object in the pages that were reserved for it. `word` is the pointer.
    pub fn made_apart(&mut self, program: &Program<'_>, next: &Next<'_>, word: u64)
        requires possible { BodyIsPossible program.now self.old }
        requires ready { BodyIsReady program.now self.old next.now }
        requires does { IsDo (operation_of next.now.op) }
        requires room { HasRoomBehind self.old next.now }
        requires count { (self.old.counts.steps + 1 < 2 ^ 64) × (self.old.counts.objects + 1 < 2 ^ 64) }
        ensures shows { BecomesIf program.now self.old self.new (λ T c. suc (reserved_address T c) ≡ word) (λ T c. making_apart T c) }
        ensures none { self.new.reserved ≡ none_reserved }
        ensures side { self.new.side ≡ self.old.side }
        ensures not_yet { self.new.is_expanded ≡ false }
    {
        self.go_on(program, next, word);
        self.reserved.clear();
        self.counts.add_object();
    }

    /// It has printed. The line is not kept here: the goroutine hands it to its driver with its ticket.
    pub fn printed(&mut self, program: &Program<'_>, next: &Next<'_>)
        requires possible { BodyIsPossible program.now self.old }
        requires ready { BodyIsReady program.now self.old next.now }
        requires prints { IsPrint (operation_of next.now.op) }
        requires room { HasRoomBehind self.old next.now }
        requires count { (self.old.counts.steps + 1 < 2 ^ 64) × (self.old.prints + 1 < 2 ^ 64) }
        ensures { (clock : ℕ) → Becomes program.now self.old self.new (λ T c. printing T.code c clock) }
    {
        self.go_on(program, next, 0);
        self.counts.add_step();
        self.prints += 1;
    }

    /// It has started a goroutine.
    pub fn started(&mut self, program: &Program<'_>, next: &Next<'_>)
        requires possible { BodyIsPossible program.now self.old }
        requires ready { BodyIsReady program.now self.old next.now }
        requires starts { IsGoOp (operation_of next.now.op) }
        requires room { HasRoomBehind self.old next.now }
        requires count { (self.old.counts.steps + 1 < 2 ^ 64) × (self.old.counts.goroutines + 1 < 2 ^ 64) }
        ensures { (number : ℕ) → Becomes program.now self.old self.new (λ T c. starting T.code c number) }
    {
        self.go_on(program, next, 0);
        self.holding.clear_pending();
        self.counts.add_goroutine();
    }

    /// A number was refused to it, since the run has as many goroutines as it may have.
    pub fn refuse(&mut self, program: &Program<'_>)
        ensures { Becomes program.now self.old self.new (λ T c. refusing c) }
    {
        self.refused = true;
    }

    /// Its next instruction has trapped. The frames stay before that instruction, as the end of a run shows them there.
    pub fn trapped(&mut self, program: &Program<'_>)
        requires count { self.old.counts.steps + 1 < 2 ^ 64 }
        ensures becomes { (clock : ℕ) (trap : _) (place : ℕ)
            → Becomes program.now self.old self.new (λ T c. ending T.code c clock (Ended (Trap trap place))) }
        ensures same { self.new ≡ record self.old { counts = self.new.counts } }
    {
        self.counts.add_step();
    }
}
