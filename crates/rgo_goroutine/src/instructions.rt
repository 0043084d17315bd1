//! The next instruction of a goroutine, before which it owes nothing. An instruction that is refused memory, a page or a slot is
//! not made and can be made in a later turn; one that traps or meets a limit sets the end mark.
//!
//! The arms that are `unreachable` are of actions and operands that checked code does not have there: each function requires its
//! action, and the table of actions says how many operands that has.
ghost use Rattle.std.specs.Prelude.{◌≡◌, ◌+◌, ◌-◌, ◌∷◌, ◌<◌, ◌≤◌, ◌^◌, ℕ, ⊤, IsErr, IsOk, List, MatchOption, MatchResult, None, Option, Some, [], if◌then◌else◌, is_some, length, true};
ghost use Rattle.rgo_core.specs.Channels.Standing.{IsOfChannel};
ghost use Rattle.rgo_acts.specs.Facts.ControlShapes.{IsShaped, action_arity};
ghost use Rattle.rgo_core.specs.Rule.Views.{number_of};
ghost use Rattle.rgo_core_steps.specs.Ends.{GoroutineEndsRun, InstrTraps};
ghost use Rattle.rgo_sound.specs.RegionMachine.Objects.{makes_object};
ghost use Rattle.rgo_sound.specs.RegionMachine.States.{Stopped};
ghost use Rattle.rgo_sound.specs.Tac.Code.{Call, Do, Go, Print, Return};
ghost use Rattle.rgo_sound.specs.Tac.Ops.{numbers_of, operation_of};
ghost use Rattle.rgo_acts.specs.Body.Bodies.{CanCount, OffersNothing, frames_of_body};
ghost use Rattle.rgo_acts.specs.Body.declared.bodies.Side.TheVariants as side;
ghost use Rattle.rgo_acts.specs.Actors.{ActorActed, IsActorOf, now};
ghost use Rattle.rgo_acts.specs.Objects.{ActorMakes};
ghost use Rattle.rgo_acts.specs.Ready.{ActorIsBefore};
ghost use Rattle.rgo_acts.specs.Talks.{CanTry, Talks};
ghost use Rattle.rgo_acts.specs.Traps.{IsAtTrap};
ghost use Rattle.rgo_goroutine.specs.Acting.{EndsIn, MayMakeInstructions};
ghost use Rattle.rgo_goroutine.specs.Goroutines.{HoldsMuch};
ghost use Rattle.rgo_goroutine.specs.Instructions.{CanAct, HasComeTo, TableHasPages, HasTalked, MakesInstruction, GoroutineIsAt, IsElsewhere, IsOfWord};
ghost use Rattle.rgo_goroutine.specs.declared.goroutine.Goroutine.{Goroutine as Goroutine_};
ghost use Rattle.rgo_goroutine.specs.declared.turning.TableTurnEnd.TheVariants as stop;

use crate::goroutine::{Child, Goroutine, MOST_PRINTED, hold_much};
use crate::turning::{TableTurnEnd, Turning};
use crate::waking::OperationKind;
use rgo_acts::actors::Actor;
use rgo_acts::body::{Next, NoCall};
use rgo_acts::channels::{self, Talked};
use rgo_acts::objects::{self, Made};
use rgo_acts::runs::Run;
use rgo_acts::starts::{self, Outcome};
use rgo_acts::{cells, ends, locals, prints};
use rgo_core_steps::clock::Mark;
use rgo_core_steps::counting::Steps;
use rgo_sound::machine::{End, Shortage};
use rgo_sound::memory::Trap;
use rgo_sound::region_machine::Limit;
use rgo_sound::tac::{Op, Operands};
use rgo_sound::typed::{Action, Piece};
use std::alloc::{AllocError, Global};
use std::sync::ledger::Ledger;

impl Goroutine {
    /// Makes the next instruction, if it can. Returns why the turn is over, if it is.
    pub(crate) fn instruct<L: Ledger>(
        &mut self,
        alloc: Global,
        run: &Run<'_, '_>,
        turning: &mut Turning,
        steps: &mut Steps<L>,
    ) -> Option<TableTurnEnd>
        requires goes { MayMakeInstructions run.now self.old turning.old.left }
        requires pages { TableHasPages run.now }
        requires some { (0 < turning.old.left) × (turning.old.changed.count < 6) }
        requires empty { self.old.actor.body.queue.duties ≡ [] }
        requires expanded { self.old.actor.body.is_expanded ≡ true }
        requires none { OffersNothing self.old.actor.body }
        ensures { MakesInstruction run.now self.old self.new turning.old turning.new result }
    {
        // It knows of no channel unless it tries again.
        let _ = channels::tries_again(&mut self.actor, run);
        let Some(next) = self.actor.body.next(run.program()) else {
            return Some(TableTurnEnd::Ended);
        };
        if self.actor.body.room_behind(next).is_err() {
            return Some(TableTurnEnd::NoMemory);
        }
        if let Op::Do { action, from, .. } = next.op {
            match action {
                Action::Send | Action::Recv | Action::Close => {
                    return self.talk(run, next, action, from, turning, steps);
                }
                Action::Int(_)
                | Action::Bool(_)
                | Action::Nil
                | Action::Copy
                | Action::Binary(_)
                | Action::Neg
                | Action::Not
                | Action::IsNil
                | Action::Len
                | Action::Load(_)
                | Action::Store(_)
                | Action::At
                | Action::Put
                | Action::New(_)
                | Action::Slice
                | Action::Chan
                | Action::Get(_)
                | Action::Set(_) => {}
            }
        }
        self.dispatch(alloc, run, next, turning, steps)
    }

    /// An instruction other than an operation on a channel. A count that is about to overflow its 64 bits is reported as want of
    /// memory.
    fn dispatch<L: Ledger>(
        &mut self,
        alloc: Global,
        run: &Run<'_, '_>,
        next: &Next<'_>,
        turning: &mut Turning,
        steps: &mut Steps<L>,
    ) -> Option<TableTurnEnd>
        requires at { GoroutineIsAt run.now self.old next.now turning.old.left }
        requires pages { TableHasPages run.now }
        requires noted { turning.old.changed.count < 6 }
        requires rests { self.old.actor.body.side ≡ side.AtRest }
        requires elsewhere { IsElsewhere (operation_of next.now.op) }
        ensures { MakesInstruction run.now self.old self.new turning.old turning.new result }
    {
        self.come_near(run);
        if !self.can_count(run) {
            return Some(TableTurnEnd::NoMemory);
        }
        self.perform(alloc, run, next, turning, steps)
    }

    /// The instruction itself. Each kind is a function of its own, whose contract names its operation.
    fn perform<L: Ledger>(
        &mut self,
        alloc: Global,
        run: &Run<'_, '_>,
        next: &Next<'_>,
        turning: &mut Turning,
        steps: &mut Steps<L>,
    ) -> Option<TableTurnEnd>
        requires can { CanAct run.now self.old next.now turning.old }
        requires pages { TableHasPages run.now }
        requires elsewhere { IsElsewhere (operation_of next.now.op) }
        ensures { MakesInstruction run.now self.old self.new turning.old turning.new result }
    {
        match next.op {
            Op::Do { to, action, from } => self.act(run, next, to, action, from, turning, steps),
            Op::Call { function, from, .. } => self.call(run, next, function, from, turning),
            Op::Go { function, from } => self.start(alloc, run, next, function, from, turning),
            Op::Print { pieces, from } => self.print(alloc, run, next, pieces, from, turning),
            Op::Jump(target) => unless_refused(
                locals::jump(&mut self.actor, run, next, target),
                turning,
            ),
            Op::Branch {
                test,
                target,
                other,
            } => unless_refused(
                locals::branch(&mut self.actor, run, next, test, target, other),
                turning,
            ),
            Op::Return(value) => self.come_back(run, next, value, turning),
        }
    }

    /// Performs an action.
    fn act<L: Ledger>(
        &mut self,
        run: &Run<'_, '_>,
        next: &Next<'_>,
        to: Option<u32>,
        action: Action,
        from: Operands,
        turning: &mut Turning,
        steps: &mut Steps<L>,
    ) -> Option<TableTurnEnd>
        requires can { CanAct run.now self.old next.now turning.old }
        requires pages { TableHasPages run.now }
        requires is { operation_of next.now.op ≡ Do to action (numbers_of from) }
        requires elsewhere { IsOfChannel action → ⊥ }
        ensures { MakesInstruction run.now self.old self.new turning.old turning.new result }
    {
        match action {
            Action::Int(_)
            | Action::Bool(_)
            | Action::Nil
            | Action::Copy
            | Action::Binary(_)
            | Action::Neg
            | Action::Not
            | Action::IsNil => {
                let done = locals::compute(&mut self.actor, run, next, action, from);
                self.unless_trapped(run, done, turning)
            }
            Action::Len
            | Action::Load(_)
            | Action::Store(_)
            | Action::At
            | Action::Put
            | Action::Get(_)
            | Action::Set(_) => self.access(run, next, to, action, from, turning, steps),
            Action::New(_) | Action::Slice | Action::Chan => {
                self.make(run, next, to, action, from, turning, steps)
            }
            // `instruct` has left these to `talk`.
            Action::Recv | Action::Send | Action::Close => unreachable!(),
        }
    }

    /// Loads or stores a word.
    fn access<L: Ledger>(
        &mut self,
        run: &Run<'_, '_>,
        next: &Next<'_>,
        to: Option<u32>,
        action: Action,
        from: Operands,
        turning: &mut Turning,
        steps: &mut Steps<L>,
    ) -> Option<TableTurnEnd>
        requires can { CanAct run.now self.old next.now turning.old }
        requires is { operation_of next.now.op ≡ Do to action (numbers_of from) }
        requires shape { IsShaped to action (numbers_of from) }
        requires accesses { IsOfWord action }
        ensures { MakesInstruction run.now self.old self.new turning.old turning.new result }
    {
        let done = access_word(&mut self.actor, run, next, to, action, from, steps);
        self.unless_trapped(run, done, turning)
    }

    /// Makes an object. If a page is needed and each was found in use, nothing has moved, unless others were claimed for it before.
    /// The run does not end here: another goroutine may return a page, so the driver decides.
    fn make<L: Ledger>(
        &mut self,
        run: &Run<'_, '_>,
        next: &Next<'_>,
        to: Option<u32>,
        action: Action,
        from: Operands,
        turning: &mut Turning,
        steps: &mut Steps<L>,
    ) -> Option<TableTurnEnd>
        requires can { CanAct run.now self.old next.now turning.old }
        requires pages { TableHasPages run.now }
        requires is { operation_of next.now.op ≡ Do to action (numbers_of from) }
        requires shape { IsShaped to action (numbers_of from) }
        requires makes { makes_object action ≡ true }
        ensures { MakesInstruction run.now self.old self.new turning.old turning.new result }
    {
        let made = make_object(&mut self.actor, run, next, to, action, from, steps);
        match made {
            Made::Done => {
                turning.count(1);
                None
            }
            Made::Trap(trap) => {
                turning.count(1);
                Some(self.trap(run, trap))
            }
            Made::TooLarge => {
                turning.move_on();
                Some(self.stop(run, Limit::ObjectSize))
            }
            Made::Short => Some(TableTurnEnd::Short(Shortage::Pages)),
            Made::Partly => {
                turning.move_on();
                Some(TableTurnEnd::Short(Shortage::Pages))
            }
            Made::NoMemory => {
                turning.move_on();
                Some(TableTurnEnd::NoMemory)
            }
        }
    }

    /// Operates on a channel. It is tried once: whether to try again in this turn is decided by what came of it.
    fn talk<L: Ledger>(
        &mut self,
        run: &Run<'_, '_>,
        next: &Next<'_>,
        action: Action,
        from: Operands,
        turning: &mut Turning,
        steps: &mut Steps<L>,
    ) -> Option<TableTurnEnd>
        requires at { GoroutineIsAt run.now self.old next.now turning.old.left }
        requires noted { turning.old.changed.count < 6 }
        requires is { (to : Option ℕ) × (operation_of next.now.op ≡ Do to action (numbers_of from)) }
        requires shape { length (numbers_of from) ≡ action_arity action }
        requires of_channel { IsOfChannel action }
        ensures { MakesInstruction run.now self.old self.new turning.old turning.new result }
    {
        let talked = operate(&mut self.actor, run, next, action, from, steps);
        self.after_talk(run, talked, OperationKind::of(action), 1, turning)
    }

    /// What follows an operation on a channel, which has made `done` instructions if it took effect.
    pub(crate) fn after_talk(
        &mut self,
        run: &Run<'_, '_>,
        talked: Talked,
        operation: OperationKind,
        done: u32,
        turning: &mut Turning,
    ) -> Option<TableTurnEnd>
        requires talked { (first : Goroutine_) × HasTalked run.now first self.old turning.old done talked }
        ensures { (first : Goroutine_) → HasTalked run.now first self.old turning.old done talked
            → MakesInstruction run.now first self.new turning.old turning.new result }
    {
        match talked {
            Talked::Done { at } => {
                turning.count(done);
                turning.note(at, operation, done);
                None
            }
            Talked::Offered { at } => {
                turning.note(at, operation, 0);
                None
            }
            Talked::Waits { at } => Some(TableTurnEnd::Blocked { at, operation }),
            Talked::Lost { at } => Some(TableTurnEnd::Lost { at }),
            Talked::Trap(trap) => {
                turning.count(1);
                Some(self.trap(run, trap))
            }
        }
    }

    /// Calls a function. Only the depth of calls is a limit of the run; want of memory is not, and the call can be made later.
    fn call(
        &mut self,
        run: &Run<'_, '_>,
        next: &Next<'_>,
        function: u32,
        from: &[u32],
        turning: &mut Turning,
    ) -> Option<TableTurnEnd>
        requires can { CanAct run.now self.old next.now turning.old }
        requires is { (to : Option ℕ) × (operation_of next.now.op ≡ Call to function from.now) }
        ensures { MakesInstruction run.now self.old self.new turning.old turning.new result }
    {
        match locals::call(&mut self.actor, run, next, function, from) {
            Ok(()) => {
                turning.count(1);
                None
            }
            Err(NoCall::TooDeep) => {
                turning.move_on();
                Some(self.stop(run, Limit::Calls))
            }
            Err(NoCall::NoMemory) => {
                turning.move_on();
                Some(TableTurnEnd::NoMemory)
            }
        }
    }

    /// Starts a goroutine. Memory for its place in the list is taken first: a child that no list holds would be lost to the driver.
    fn start(
        &mut self,
        alloc: Global,
        run: &Run<'_, '_>,
        next: &Next<'_>,
        function: u32,
        from: &[u32],
        turning: &mut Turning,
    ) -> Option<TableTurnEnd>
        requires can { CanAct run.now self.old next.now turning.old }
        requires is { operation_of next.now.op ≡ Go function from.now }
        ensures { MakesInstruction run.now self.old self.new turning.old turning.new result }
    {
        if self.actor.body.is_refused() {
            turning.move_on();
            return Some(self.too_many(run, next));
        }
        if self.children.reserve(1).is_err() {
            turning.move_on();
            return Some(TableTurnEnd::NoMemory);
        }
        match starts::start(alloc, &mut self.actor, run, next, function, from) {
            Ok(Outcome::Started(number, actor)) => {
                self.children.push_reserved(Child { actor, number });
                turning.count(1);
                None
            }
            Ok(Outcome::Refused) => {
                turning.move_on();
                Some(self.stop(run, Limit::Goroutines))
            }
            Err(_) => {
                turning.move_on();
                Some(TableTurnEnd::NoMemory)
            }
        }
    }

    /// A number was refused before: the run ends. The refusal was remembered, so a turn that was interrupted there does not draw again.
    fn too_many(&mut self, run: &Run<'_, '_>, next: &Next<'_>) -> TableTurnEnd
        requires before { ActorIsBefore run.now self.old.actor next.now }
        requires starts { (n : ℕ) × (from : List ℕ) × (operation_of next.now.op ≡ Go n from) }
        requires refused { self.old.actor.body.refused ≡ true }
        ensures { EndsIn run.now self.old self.new 0 result }
    {
        let ended = ends::too_many(&mut self.actor, run, next);
        self.over(Mark::Stopped(Limit::Goroutines), ended)
    }

    /// Prints a line.
    fn print(
        &mut self,
        alloc: Global,
        run: &Run<'_, '_>,
        next: &Next<'_>,
        pieces: &[Piece],
        from: &[u32],
        turning: &mut Turning,
    ) -> Option<TableTurnEnd>
        requires can { CanAct run.now self.old next.now turning.old }
        requires is { operation_of next.now.op ≡ Print pieces.now from.now }
        ensures { MakesInstruction run.now self.old self.new turning.old turning.new result }
    {
        if self.prints.reserve(1).is_err() {
            turning.move_on();
            return Some(TableTurnEnd::NoMemory);
        }
        match prints::print_line(alloc, &mut self.actor, run, next, pieces, from) {
            Ok(print) => {
                turning.count_print(print.bytes.len());
                self.prints.push_reserved(print);
                self.unless_much(turning)
            }
            Err(_) => {
                turning.move_on();
                Some(TableTurnEnd::NoMemory)
            }
        }
    }

    /// The turn is over after a print if it has printed much, so that no round holds too much of it. Prints of earlier turns are
    /// mostly gathered, so all of them are looked at only once this turn has printed as much.
    fn unless_much(&self, turning: &Turning) -> Option<TableTurnEnd>
        ensures { MatchOption result ⊤ (λ why. (why ≡ stop.Went) × HoldsMuch self.now) }
    {
        if turning.printed >= MOST_PRINTED && hold_much(self.prints.as_slice()) {
            Some(TableTurnEnd::Went)
        } else {
            None
        }
    }

    /// Returns from a function. The return from the first function of `main` ends the run.
    fn come_back(
        &mut self,
        run: &Run<'_, '_>,
        next: &Next<'_>,
        value: Option<u32>,
        turning: &mut Turning,
    ) -> Option<TableTurnEnd>
        requires can { CanAct run.now self.old next.now turning.old }
        requires is { operation_of next.now.op ≡ Return value }
        ensures { MakesInstruction run.now self.old self.new turning.old turning.new result }
    {
        if self.number == 0 && self.actor.body.depth() == 1 {
            return self.exit(run, next, value, turning);
        }
        unless_refused(
            locals::come_back(&mut self.actor, run, next, value),
            turning,
        )
    }

    /// `main` returns from its first function, which ends the run, even while others have work.
    fn exit(
        &mut self,
        run: &Run<'_, '_>,
        next: &Next<'_>,
        value: Option<u32>,
        turning: &mut Turning,
    ) -> Option<TableTurnEnd>
        requires can { CanAct run.now self.old next.now turning.old }
        requires is { operation_of next.now.op ≡ Return value }
        requires main { self.old.number ≡ 0 }
        requires last { length (frames_of_body self.old.actor.body) ≡ 1 }
        ensures { MakesInstruction run.now self.old self.new turning.old turning.new result }
    {
        if self.actor.body.room_to_return(run.program()).is_err() {
            turning.move_on();
            return Some(TableTurnEnd::NoMemory);
        }
        let ended = ends::exit(&mut self.actor, run, next, value);
        turning.count(1);
        Some(self.over(Mark::Ended(End::Exit), ended))
    }

    /// An instruction that may trap was made, or traps. A trap ends the whole run, so nothing of the turn comes after it.
    fn unless_trapped(
        &mut self,
        run: &Run<'_, '_>,
        done: Result<(), Trap>,
        turning: &mut Turning,
    ) -> Option<TableTurnEnd>
        requires come { (first : Goroutine_) × HasComeTo run.now first self.old turning.old done }
        ensures { (first : Goroutine_) → HasComeTo run.now first self.old turning.old done
            → MakesInstruction run.now first self.new turning.old turning.new result }
    {
        turning.count(1);
        match done {
            Ok(()) => None,
            Err(trap) => Some(self.trap(run, trap)),
        }
    }

    /// The next instruction traps: the run ends.
    fn trap(&mut self, run: &Run<'_, '_>, trap: Trap) -> TableTurnEnd
        requires stands { IsActorOf run.now self.old.actor }
        requires traps { InstrTraps run.now.setup (now run.now.setup self.old.actor) trap }
        requires count { self.old.actor.body.counts.steps + 1 < 2 ^ 64 }
        ensures { EndsIn run.now self.old self.new 1 result }
    {
        // The end mark makes the instruction that traps. Until it is set, the goroutine is at that instruction.
        let Some(next) = self.actor.body.next(run.program()) else {
            unreachable!()
        };
        let place = next.function.tac().place(next.at);
        let ended = ends::trap(&mut self.actor, run, next, trap);
        self.over(Mark::Ended(End::Trap(trap, place)), ended)
    }

    /// A limit ends the run.
    fn stop(&mut self, run: &Run<'_, '_>, limit: Limit) -> TableTurnEnd
        requires stands { IsActorOf run.now self.old.actor }
        requires cause { GoroutineEndsRun run.now.setup (number_of self.old.actor.seat.me) (now run.now.setup self.old.actor) (Stopped limit) }
        ensures { EndsIn run.now self.old self.new 0 result }
    {
        let ended = ends::stop(&mut self.actor, run, limit);
        self.over(Mark::Stopped(limit), ended)
    }

    /// It has set the end mark, and has ended the run by this unless another goroutine had set it before. In that case its turn is
    /// over like any other, since why the run ended is reported by the goroutine that was first.
    fn over(&mut self, mark: Mark, ended: bool) -> TableTurnEnd
        ensures is { result ≡ (if ended then stop.Stopped mark else stop.Went) }
        ensures same { self.new ≡ record self.old { first = if ended then Some mark else self.old.first } }
    {
        if !ended {
            return TableTurnEnd::Went;
        }
        self.first = Some(mark);
        TableTurnEnd::Stopped(mark)
    }
}

/// An instruction was made, or memory refused it.
fn unless_refused(done: Result<(), AllocError>, turning: &mut Turning) -> Option<TableTurnEnd>
    requires { 0 < turning.old.left }
    ensures made { IsOk done → (result ≡ None) × (turning.new ≡ record turning.old { left = turning.old.left - 1; moved = true }) }
    ensures refused { IsErr done → (result ≡ Some stop.NoMemory) × (turning.new ≡ record turning.old { moved = true }) }
{
    match done {
        Ok(()) => {
            turning.count(1);
            None
        }
        Err(_) => {
            turning.move_on();
            Some(TableTurnEnd::NoMemory)
        }
    }
}

/// The only operand.
fn only(from: Operands) -> u32
    requires { length (numbers_of from) ≡ 1 }
    ensures { numbers_of from ≡ result ∷ [] }
{
    match from {
        Operands::One(a) => a,
        Operands::Zero | Operands::Two(_, _) | Operands::Three(_, _, _) => unreachable!(),
    }
}

/// Both operands.
fn both(from: Operands) -> (u32, u32)
    requires { length (numbers_of from) ≡ 2 }
    ensures { numbers_of from ≡ result.0 ∷ result.1 ∷ [] }
{
    match from {
        Operands::Two(a, b) => (a, b),
        Operands::Zero | Operands::One(_) | Operands::Three(_, _, _) => unreachable!(),
    }
}

/// All three operands.
fn all_three(from: Operands) -> (u32, u32, u32)
    requires { length (numbers_of from) ≡ 3 }
    ensures { numbers_of from ≡ result.0 ∷ result.1 ∷ result.2 ∷ [] }
{
    match from {
        Operands::Three(a, b, c) => (a, b, c),
        Operands::Zero | Operands::One(_) | Operands::Two(_, _) => unreachable!(),
    }
}

/// The variable to which the value of an action is written.
fn target(to: Option<u32>) -> u32
    requires { is_some to ≡ true }
    ensures { to ≡ Some result }
{
    match to {
        Some(to) => to,
        None => unreachable!(),
    }
}

/// Loads or stores a word.
fn access_word<L: Ledger>(
    actor: &mut Actor,
    run: &Run<'_, '_>,
    next: &Next<'_>,
    to: Option<u32>,
    action: Action,
    from: Operands,
    steps: &mut Steps<L>,
) -> Result<(), Trap>
    requires before { ActorIsBefore run.now actor.old next.now }
    requires is { operation_of next.now.op ≡ Do to action (numbers_of from) }
    requires shape { IsShaped to action (numbers_of from) }
    requires accesses { IsOfWord action }
    ensures { MatchResult result (λ _. ActorActed run.now actor.old actor.new 1 [] []) (λ trap. IsAtTrap run.now actor.old actor.new trap) }
{
    match action {
        Action::Load(field) => {
            return cells::load_field(actor, run, next, target(to), field, only(from), steps);
        }
        Action::Store(field) => {
            let (to, value) = both(from);
            return cells::store_field(actor, run, next, field, to, value, steps);
        }
        Action::At => {
            let (slice, index) = both(from);
            return cells::load_element(actor, run, next, target(to), slice, index, steps);
        }
        Action::Put => {
            let (slice, index, value) = all_three(from);
            return cells::store_element(actor, run, next, slice, index, value, steps);
        }
        Action::Len => cells::length(actor, run, next, target(to), only(from), steps),
        Action::Get(variable) => cells::load_variable(
            actor,
            run,
            next,
            target(to),
            variable,
            steps,
        ),
        Action::Set(variable) => cells::store_variable(
            actor,
            run,
            next,
            variable,
            only(from),
            steps,
        ),
        Action::Int(_)
        | Action::Bool(_)
        | Action::Nil
        | Action::Copy
        | Action::Binary(_)
        | Action::Neg
        | Action::Not
        | Action::IsNil
        | Action::New(_)
        | Action::Slice
        | Action::Chan
        | Action::Recv
        | Action::Send
        | Action::Close => unreachable!(),
    }
    Ok(())
}

/// Makes an object.
fn make_object<L: Ledger>(
    actor: &mut Actor,
    run: &Run<'_, '_>,
    next: &Next<'_>,
    to: Option<u32>,
    action: Action,
    from: Operands,
    steps: &mut Steps<L>,
) -> Made
    requires before { ActorIsBefore run.now actor.old next.now }
    requires pages { TableHasPages run.now }
    requires is { operation_of next.now.op ≡ Do to action (numbers_of from) }
    requires shape { IsShaped to action (numbers_of from) }
    requires makes { makes_object action ≡ true }
    requires count { CanCount actor.old.body.counts }
    ensures { ActorMakes run.now actor.old actor.new result }
{
    match action {
        Action::New(kind) => objects::new_struct(actor, run, next, target(to), kind, steps),
        Action::Slice => objects::new_slice(actor, run, next, target(to), only(from), steps),
        Action::Chan => objects::new_channel(actor, run, next, target(to), only(from), steps),
        Action::Int(_)
        | Action::Bool(_)
        | Action::Nil
        | Action::Copy
        | Action::Binary(_)
        | Action::Neg
        | Action::Not
        | Action::IsNil
        | Action::Len
        | Action::Load(_)
        | Action::Store(_)
        | Action::At
        | Action::Put
        | Action::Recv
        | Action::Send
        | Action::Close
        | Action::Get(_)
        | Action::Set(_) => unreachable!(),
    }
}

/// Operates on a channel.
fn operate<L: Ledger>(
    actor: &mut Actor,
    run: &Run<'_, '_>,
    next: &Next<'_>,
    action: Action,
    from: Operands,
    steps: &mut Steps<L>,
) -> Talked
    requires can { CanTry run.now actor.old next.now }
    requires is { (to : Option ℕ) × (operation_of next.now.op ≡ Do to action (numbers_of from)) }
    requires shape { length (numbers_of from) ≡ action_arity action }
    requires of_channel { IsOfChannel action }
    ensures { Talks run.now actor.old actor.new 1 result }
{
    match action {
        Action::Send => {
            let (channel, value) = both(from);
            channels::send(actor, run, next, channel, value, steps)
        }
        Action::Recv => channels::receive(actor, run, next, only(from), steps),
        Action::Close => channels::close(actor, run, next, only(from), steps),
        Action::Int(_)
        | Action::Bool(_)
        | Action::Nil
        | Action::Copy
        | Action::Binary(_)
        | Action::Neg
        | Action::Not
        | Action::IsNil
        | Action::Len
        | Action::Load(_)
        | Action::Store(_)
        | Action::At
        | Action::Put
        | Action::New(_)
        | Action::Slice
        | Action::Chan
        | Action::Get(_)
        | Action::Set(_) => unreachable!(),
    }
}
