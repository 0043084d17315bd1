//! The turn of a goroutine: a chain of acts, up to as many instructions as it was given. It ends with a load of the clock, so that
//! after a turn the record has all local steps. The reason of the last act is the reason of the turn, and it was true at the
//! accesses of that act; a caller that needs it of one moment makes a pass.
ghost use Rattle.std.specs.Prelude.{◌≡◌, ◌+◌, ◌-◌, ◌∷◌, ◌<◌, ◌≤◌, [], ℕ, List, OnOk, Some, None, false, true, ◌↔◌};
ghost use Rattle.rgo_core.specs.Records.{steps_of};
ghost use Rattle.rgo_acts.specs.Body.Bodies.{HasRoomBehind, OffersNothing, frames_of_body};
ghost use Rattle.rgo_acts.specs.Body.Nexts.{IsNextOf};
ghost use Rattle.rgo_acts.specs.Body.Steps.{StillShows};
ghost use Rattle.rgo_acts.specs.Body.declared.bodies.Side.TheVariants as side;
ghost use Rattle.rgo_sound.specs.Machine.declared.limits.Shortage.TheVariants as shortage;
ghost use Rattle.rgo_sound.specs.RegionMachine.States.{Duty};
ghost use Rattle.rgo_acts.specs.Actors.{IsActorOf};
ghost use Rattle.rgo_goroutine.specs.Acting.{GoroutineActs, MayMakeInstructions, Proceeds, HasCaughtUp};
ghost use Rattle.rgo_goroutine.specs.Instructions.{CanCountMore, HasAttendedAll, HasAttendedOne, TableHasPages, MakesInstruction, IsNear, IsReadyToExpand, OwesNothing};
ghost use Rattle.rgo_goroutine.specs.Examples.{ChildExamples, TurnExamples};
ghost use Rattle.rgo_goroutine.specs.Goroutines.{IsOf, record_of_goroutine};
ghost use Rattle.rgo_goroutine.specs.Turns.{HasTurned, IsTidy};

use crate::goroutine::Goroutine;
use crate::waking::{Changed, OperationKind};
use rgo_acts::body::{Body, Next, Program, Side};
use rgo_acts::duties::{self, Attended};
use rgo_acts::runs::Run;
use rgo_acts::{channels, locals};
use rgo_core_steps::clock::{Mark, look};
use rgo_core_steps::counting::Steps;
use rgo_sound::machine::Shortage;
use std::alloc::{AllocError, Global};
use std::sync::ledger::Ledger;

/// Why a turn was over.
#[derive(Clone, Copy, Debug, PartialEq, Eq)]
pub enum TableTurnEnd {
    /// It has made as many instructions as it was given, has listed as many changes or printed as many bytes as a turn may,
    /// or would have ended the run, which had ended before.
    Went,
    /// The operation on a channel at which it is was not ready. `at` is the word of the channel's control; `None` for a nil
    /// channel.
    Blocked {
        at: Option<usize>,
        operation: OperationKind,
    },
    /// Another goroutine had locked the channel, or changed its control meanwhile. It may be tried again at once.
    Lost {
        at: usize,
    },
    /// Its first function has returned, and it owes nothing.
    Ended,
    /// It has ended the run.
    Stopped(Mark),
    /// Each page, or each slot, was found in use. Nothing has ended: the driver decides, since another goroutine may free one.
    Short(Shortage),
    /// Memory ran out before its next step. Nothing has ended.
    NoMemory,
}

/// What a turn has done.
#[derive(Clone, Copy)]
pub struct Turned {
    /// How many instructions it has made.
    pub steps: u32,
    /// Whether it may have changed a word of the table or its own frames.
    pub moved: bool,
    pub stop: TableTurnEnd,
    pub changed: Changed,
}

/// What a turn has left to do, and has done.
#[derive(Drop)]
pub(crate) struct Turning {
    /// How many instructions more it may make.
    pub(crate) left: u32,
    pub(crate) moved: bool,
    pub(crate) changed: Changed,
    /// How many bytes it has printed.
    pub(crate) printed: usize,
}

impl Turning {
    /// It has made this many instructions more.
    pub(crate) fn count(&mut self, done: u32)
        requires { done ≤ self.old.left }
        ensures { self.new ≡ record self.old { left = self.old.left - done; moved = true } }
    {
        self.left -= done;
        self.moved = true;
    }

    /// It has made an instruction more, which has printed this many bytes.
    pub(crate) fn count_print(&mut self, bytes: usize)
        requires { 0 < self.old.left }
        ensures { self.new ≡ record self.old { left = self.old.left - 1; moved = true; printed = self.new.printed } }
    {
        self.count(1);
        self.printed = self.printed.saturating_add(bytes);
    }

    /// It may have changed something. Said too often, it only costs the driver another round before it looks for a deadlock.
    pub(crate) fn move_on(&mut self)
        ensures { self.new ≡ record self.old { moved = true } }
    {
        self.moved = true;
    }

    /// It has done this operation at a word, by an act of `made` instructions.
    pub(crate) fn note(&mut self, at: usize, operation: OperationKind, made: u32)
        requires { self.old.changed.count < 6 }
        ensures count { (self.old.changed.count ≤ self.new.changed.count) × (self.new.changed.count ≤ self.old.changed.count + 1) }
        ensures less { self.old.changed.count < self.new.changed.count + made }
        ensures same { (self.new.left ≡ self.old.left) × (self.new.moved ≡ true) }
    {
        self.changed.note(at, operation, made);
        self.moved = true;
    }
}

impl Goroutine {
    /// A turn: up to `slice` instructions. Called by the worker that has this goroutine, at any time between its turns; it waits
    /// for nobody. After the end of the run a turn may still take steps, which are late and whose prints are void.
    pub fn turn<L: Ledger>(
        &mut self,
        alloc: Global,
        run: &Run<'_, '_>,
        slice: u32,
        steps: &mut Steps<L>,
    ) -> Turned
        requires of { IsOf run.now self.old }
        requires pages { TableHasPages run.now }
        requires count { steps_of (record_of_goroutine run.now.setup self.old) + slice < 8796093022208 }
        ensures of { IsOf run.now self.new }
        ensures turned { HasTurned run.now self.old self.new slice result }
        ensures tidy { IsTidy (record_of_goroutine run.now.setup self.new) }
    {
        let mut turning = Turning {
            left: slice,
            moved: false,
            changed: Changed::new(),
            printed: 0,
        };
        let stop = self.proceed(alloc, run, &mut turning, steps);
        self.catch_up(run);
        Turned {
            steps: slice - turning.left,
            moved: turning.moved,
            stop,
            changed: turning.changed,
        }
    }

    /// Puts its local steps into the run, by a load of the clock. Without it two goroutines could not be compared between turns,
    /// and one that only computes would never see that the run has ended.
    fn catch_up(&mut self, run: &Run<'_, '_>)
        requires stands { IsActorOf run.now self.old.actor }
        ensures { (left : ℕ) → MayMakeInstructions run.now self.old left → HasCaughtUp run.now self.old self.new left }
    {
        run.fits();
        look(run.table(), &mut self.actor.seat, self.actor.behind);
        self.actor.behind = 0;
    }

    /// Puts its local steps into the run if they are many, so that their count fits a word.
    pub(crate) fn come_near(&mut self, run: &Run<'_, '_>)
        requires stands { IsActorOf run.now self.old.actor }
        ensures { (left : ℕ) → MayMakeInstructions run.now self.old left → IsNear run.now self.old self.new left }
    {
        if self.actor.behind >= 1 << 62 {
            self.catch_up(run);
        }
    }

    /// Acts until it may do no more in this turn, or cannot continue.
    fn proceed<L: Ledger>(
        &mut self,
        alloc: Global,
        run: &Run<'_, '_>,
        turning: &mut Turning,
        steps: &mut Steps<L>,
    ) -> TableTurnEnd
        requires goes { MayMakeInstructions run.now self.old turning.old.left }
        requires pages { TableHasPages run.now }
        requires noted { turning.old.changed.count ≤ 6 }
        ensures { Proceeds run.now self.old self.new turning.old turning.new result }
    {
        while turning.left > 0 && turning.changed.count < 6 {
            if let Some(stop) = self.advance(alloc, run, turning, steps) {
                return stop;
            }
        }
        TableTurnEnd::Went
    }

    /// Makes some instructions, or an offer at a channel; before that it attends to what it owes. Returns why the turn is over, if
    /// it is.
    fn advance<L: Ledger>(
        &mut self,
        alloc: Global,
        run: &Run<'_, '_>,
        turning: &mut Turning,
        steps: &mut Steps<L>,
    ) -> Option<TableTurnEnd>
        requires goes { MayMakeInstructions run.now self.old turning.old.left }
        requires pages { TableHasPages run.now }
        requires some { (0 < turning.old.left) × (turning.old.changed.count < 6) }
        ensures { MakesInstruction run.now self.old self.new turning.old turning.new result }
    {
        if let Side::Offering(at) = self.actor.body.side() {
            return self.acknowledge(run, at, turning, steps);
        }
        if let Some(stop) = self.attend_all(run, turning, steps) {
            return Some(stop);
        }
        if self.actor.body.is_expanded() {
            return self.instruct(alloc, run, turning, steps);
        }
        self.execute(run, turning);
        if turning.left == 0 {
            return None;
        }
        if let Some(stop) = self.prepare(run, turning, steps) {
            return Some(stop);
        }
        self.instruct(alloc, run, turning, steps)
    }

    /// Attends to all that it owes before its next instruction. If it is to try an operation on a channel again, it owes nothing.
    fn prepare<L: Ledger>(
        &mut self,
        run: &Run<'_, '_>,
        turning: &mut Turning,
        steps: &mut Steps<L>,
    ) -> Option<TableTurnEnd>
        requires goes { MayMakeInstructions run.now self.old turning.old.left }
        requires noted { turning.old.changed.count < 6 }
        requires none { OffersNothing self.old.actor.body }
        ensures acts { GoroutineActs run.now self.old self.new turning.old turning.new result }
        ensures same { turning.new ≡ record turning.old { moved = turning.new.moved } }
        ensures ready { result ≡ None → OwesNothing self.new.actor.body }
    {
        if let Some(stop) = self.attend_all(run, turning, steps) {
            return Some(stop);
        }
        if self.actor.body.is_expanded() {
            return None;
        }
        if let Some(stop) = self.expand(run, turning) {
            return Some(stop);
        }
        self.attend_all(run, turning, steps)
    }

    /// Whether one more of each thing can be counted. Asked before each act, since the counts of an act cannot be refused after it.
    pub(crate) fn can_count(&self, run: &Run<'_, '_>) -> bool
        ensures { (result ≡ true) ↔ CanCountMore run.now self.now }
    {
        let counts = self.actor.body.counts();
        counts.has_room() && counts.returned <= u64::MAX - run.pages() as u64
    }

    /// Attends to all duties in its queue. If it is to try an operation on a channel again, it has none.
    fn attend_all<L: Ledger>(
        &mut self,
        run: &Run<'_, '_>,
        turning: &mut Turning,
        steps: &mut Steps<L>,
    ) -> Option<TableTurnEnd>
        requires goes { MayMakeInstructions run.now self.old turning.old.left }
        requires noted { turning.old.changed.count < 6 }
        requires none { OffersNothing self.old.actor.body }
        ensures acts { GoroutineActs run.now self.old self.new turning.old turning.new result }
        ensures same { turning.new ≡ record turning.old { moved = turning.new.moved } }
        ensures done { result ≡ None → HasAttendedAll self.old.actor.body self.new.actor.body }
    {
        if channels::tries_again(&mut self.actor, run) {
            return None;
        }
        self.attend_each(run, turning, steps)
    }

    /// Attends to one duty after another. It may stop between any two: each duty is a step of its own, and what is left stays owed.
    fn attend_each<L: Ledger>(
        &mut self,
        run: &Run<'_, '_>,
        turning: &mut Turning,
        steps: &mut Steps<L>,
    ) -> Option<TableTurnEnd>
        requires goes { MayMakeInstructions run.now self.old turning.old.left }
        requires noted { turning.old.changed.count < 6 }
        requires rests { self.old.actor.body.side ≡ side.AtRest }
        ensures acts { GoroutineActs run.now self.old self.new turning.old turning.new result }
        ensures same { turning.new ≡ record turning.old { moved = turning.new.moved } }
        ensures done { result ≡ None → HasAttendedAll self.old.actor.body self.new.actor.body }
    {
        while self.actor.body.duty().is_some() {
            if let Some(stop) = self.attend(run, turning, steps) {
                return Some(stop);
            }
        }
        None
    }

    /// Attends to the first duty. If each slot was found in use, nothing has moved.
    fn attend<L: Ledger>(
        &mut self,
        run: &Run<'_, '_>,
        turning: &mut Turning,
        steps: &mut Steps<L>,
    ) -> Option<TableTurnEnd>
        requires goes { MayMakeInstructions run.now self.old turning.old.left }
        requires noted { turning.old.changed.count < 6 }
        requires rests { self.old.actor.body.side ≡ side.AtRest }
        requires first { (d : Duty) × (ds : List Duty) × (self.old.actor.body.queue.duties ≡ d ∷ ds) }
        ensures acts { GoroutineActs run.now self.old self.new turning.old turning.new result }
        ensures same { turning.new ≡ record turning.old { moved = turning.new.moved } }
        ensures done { result ≡ None → HasAttendedOne self.old.actor.body self.new.actor.body }
    {
        self.come_near(run);
        if !self.can_count(run) {
            return Some(TableTurnEnd::NoMemory);
        }
        match duties::attend(&mut self.actor, run, steps) {
            Attended::Done => {
                turning.move_on();
                None
            }
            Attended::Short => Some(TableTurnEnd::Short(Shortage::Regions)),
            Attended::NoMemory => {
                turning.move_on();
                Some(TableTurnEnd::NoMemory)
            }
        }
    }

    /// Asks whether its offer was taken.
    fn acknowledge<L: Ledger>(
        &mut self,
        run: &Run<'_, '_>,
        at: usize,
        turning: &mut Turning,
        steps: &mut Steps<L>,
    ) -> Option<TableTurnEnd>
        requires goes { MayMakeInstructions run.now self.old turning.old.left }
        requires some { (0 < turning.old.left) × (turning.old.changed.count < 6) }
        requires offers { self.old.actor.body.side ≡ side.Offering at }
        ensures { MakesInstruction run.now self.old self.new turning.old turning.new result }
    {
        // Its offer keeps it at its send, so it has a next instruction.
        let Some(next) = self.actor.body.next(run.program()) else {
            unreachable!()
        };
        if room_behind_offer(&mut self.actor.body, run.program(), next).is_err() {
            return Some(TableTurnEnd::NoMemory);
        }
        let talked = channels::acknowledge(&mut self.actor, run, next, at, steps);
        self.after_talk(run, talked, OperationKind::Acknowledge, 0, turning)
    }

    /// Executes instructions up to the next one that the loop cannot make. A goroutine that tries a channel again, or has an offer
    /// there, is left where it is: its next instruction is that operation, which the loop cannot make.
    fn execute(&mut self, run: &Run<'_, '_>, turning: &mut Turning)
        requires goes { MayMakeInstructions run.now self.old turning.old.left }
        requires noted { turning.old.changed.count < 6 }
        requires none { OffersNothing self.old.actor.body }
        requires empty { self.old.actor.body.queue.duties ≡ [] }
        requires not_yet { self.old.actor.body.is_expanded ≡ false }
        ensures acts { GoroutineActs run.now self.old self.new turning.old turning.new None }
        ensures none { OffersNothing self.new.actor.body }
        ensures noted { turning.new.changed ≡ turning.old.changed }
        ensures fewer { turning.new.left ≤ turning.old.left }
    {
        turning.move_on();
        match self.actor.body.side() {
            Side::AtRest => {}
            Side::Tried | Side::Offering(_) => return,
        }
        self.come_near(run);
        let done = locals::execute(&mut self.actor, run, turning.left as usize);
        turning.count(done as u32);
    }

    /// Puts what is owed before the next instruction into the queue of duties.
    fn expand(&mut self, run: &Run<'_, '_>, turning: &mut Turning) -> Option<TableTurnEnd>
        requires goes { MayMakeInstructions run.now self.old turning.old.left }
        requires noted { turning.old.changed.count < 6 }
        requires still { IsReadyToExpand self.old.actor.body }
        ensures acts { GoroutineActs run.now self.old self.new turning.old turning.new result }
        ensures same { turning.new ≡ record turning.old { moved = true } }
        ensures expanded { result ≡ None → (self.new.actor.body.is_expanded ≡ true) × (self.new.actor.body.side ≡ self.old.actor.body.side) }
    {
        turning.move_on();
        let Some(next) = self.actor.body.next(run.program()) else {
            return Some(TableTurnEnd::Ended);
        };
        match locals::expand(&mut self.actor, run, next) {
            Ok(()) => None,
            Err(_) => Some(TableTurnEnd::NoMemory),
        }
    }
}

/// Room for what is owed after the send at which a body has an offer. It owes nothing before the send; if that is not in its queue
/// yet, it is put there now.
///
/// # Errors
///
/// On allocation failure. Then it owes what it owed before.
fn room_behind_offer(
    body: &mut Body,
    program: &Program<'_>,
    next: &Next<'_>,
) -> Result<(), AllocError>
    requires next { IsNextOf program.now.code (frames_of_body body.old) next.now }
    requires empty { body.old.queue.duties ≡ [] }
    ensures expanded { OnOk result (body.new.is_expanded ≡ true) }
    ensures room { OnOk result (HasRoomBehind body.new next.now) }
    ensures stays { StillShows program.now body.old body.new }
    ensures same { body.new ≡ record body.old { queue = body.new.queue; is_expanded = body.new.is_expanded } }
{
    if body.is_expanded() {
        return body.room_behind(next);
    }
    match body.expand(program, next) {
        Ok(()) => body.room_behind(next),
        Err(error) => Err(error),
    }
}

/// Goroutines and turns that meet their definitions, and some that do not.
pub fn examples()
    ensures turns { TurnExamples }
    ensures passing { ChildExamples }
{}
