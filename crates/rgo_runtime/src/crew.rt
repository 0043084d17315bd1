//! The goroutines of a run, as their driver keeps them: the run queue, those that are parked, and those that were just started.
//!
//! Invariant: a goroutine is in one of four places: in the run queue (`ready`), parked at a word of the table (`parked`), just started
//! (`born`), or retired, and then its record is at the driver's seat. It is never in none: each step below says so by its clause `kept`.
//! Whoever is in the run queue or parked has a place in `shares`, and a goroutine retires only after all was taken from it.
//!
//! Only the driver's thread calls these functions, between rounds. Worker threads run inside `turn_all` alone, with one goroutine each,
//! so what a function returns is true until the next round begins.
ghost use Rattle.std.specs.Prelude.{◌≡◌, ◌≤◌, ◌<◌, ◌+◌, ◌∷◌, ◌++◌, [], ℕ, IfErr, IfOk, MatchOption, MatchResult, OnErr, OnOk, length, map, replicate, reverse, slice_index_or, true, vec_capacity};
ghost use Rattle.rgo_runtime.specs.Crew as spec;
ghost use Rattle.std.specs.List.{All, AllZip};
ghost use Rattle.rgo_core.specs.Core.{IsPossible};
ghost use Rattle.rgo_core.specs.runs.Opening.{first_of};
ghost use Rattle.rgo_core.specs.Memory.Words.{clock_at};
ghost use Rattle.rgo_core.specs.Rule.Views.{view};
ghost use Rattle.rgo_core_steps.specs.Seats.{IsSeatOf};
ghost use Rattle.rgo_table_runs.specs.Goroutine.Goroutines.{IsOf};
ghost use Rattle.rgo_table_runs.specs.Goroutine.Instructions.{TableHasPages};
ghost use Rattle.rgo_table_runs.specs.Goroutine.declared.turning.TableTurnEnd.TheVariants.{Ended};
ghost use Rattle.rgo_outside.specs.Causes.{HasCause};
ghost use Rattle.rgo_outside.specs.Pieces.{AddsOnly};
ghost use Rattle.rgo_runtime.specs.Boxes.{in_boxes};
ghost use Rattle.rgo_runtime.specs.Crew.{HasPassedAll, KeepsAll, WholeCrewExamples, crew_members};
ghost use Rattle.rgo_runtime.specs.Crews.{HaveTurned, IsGivenSlice, IsOfCrew, MayTurn, its_goroutine, AreRetired, end_mark};
ghost use Rattle.rgo_runtime.specs.Leaving.{HaveAllLeft, turn_row};
ghost use Rattle.rgo_runtime.specs.Printing.{GivesOut, GivesSome, IsPieceOf};
ghost use Rattle.rgo_runtime.specs.Turns as turns;
ghost use Rattle.rgo_runtime.specs.Turns.{TurnIsTaken};
ghost use Rattle.rgo_runtime.specs.declared.crew.Status.TheVariants.{Retired};
ghost use Rattle.rgo_sched.specs.Rounds.{RoundOf};
ghost use Rattle.rgo_sound.specs.Tally.{no_share};
ghost use Rattle.rgo_table_runs.specs.closing.Members.{NoneIsLost};

use crate::deadlock::{Passed, check_uncounted};
use crate::parking::Parked;
use crate::printing::PrintQueue;
use crate::retiring::{
    Left, Snapshot, retire, retire_newborns, retire_parked, retire_turns, save_counts,
};
use crate::shares::Shares;
use crate::time_slices::{FEW, is_early};
use crate::turns::Turn;
use crate::waking::Chances;
use rgo_core::table::RunSeat;
use rgo_core_steps::clock::Mark;
use rgo_outside::{Gate, Sink, WriteFault};
use rgo_sched::round;
use rgo_table_runs::goroutine::acts::runs::Run;
use rgo_table_runs::goroutine::goroutine::Goroutine;
use rgo_table_runs::goroutine::turning::{TableTurnEnd, Turned};
use rgo_table_runs::goroutine::waking::OperationKind;
use std::alloc::{AllocError, AllocFailed, Global};
use std::marker::Model;
use std::thread::Threads;

/// Goroutines that wait at a nil channel are parked here. No word has this address, so `wake` never finds them: only `wake_all` does.
const NOWHERE: usize = usize::MAX;

/// The goroutines of a run, and the seat of their driver. `born` is empty between rounds, unless memory was refused.
#[derive(Drop)]
pub struct Crew<'r, 'c> {
    run: &'r Run<'r, 'c>,
    alloc: Global,
    seat: RunSeat,
    ready: Vec<Turn<'r, 'c>>,
    parked: Parked<Turn<'r, 'c>>,
    born: Vec<Goroutine>,
    prints: PrintQueue,
    shares: Shares,
    first: Option<Mark>,
}

impl<'r, 'c> Model for Crew<'r, 'c> {
    ghost use Rattle.rgo_runtime.specs.Crew as spec;

    ghost Value = { spec.Crew };

    ghost use Rattle.rgo_runtime.specs.CrewView.{crew_view};

    ghost view = { crew_view };

    ghost invariant = { λ c. spec.IsRunCrew (crew_view c) };
}

/// What a round has come to. No clause speaks of it: it decides what is worth doing next, and no result may rest on it.
#[derive(Clone, Copy)]
pub struct RoundSummary {
    /// Whether anything may have changed.
    pub moved: bool,
    /// Whether each turn executed all that it was given, and none printed.
    pub all_used: bool,
    /// How many instructions were executed.
    pub steps: u64,
    /// Whether a goroutine has ended the run.
    pub is_over: bool,
    /// Whether a goroutine found no memory.
    pub lacks_memory: bool,
}

/// Where a goroutine is after its turn: in the run queue, parked until it can do an operation at an address, or retired.
enum Status {
    Ready,
    Parked { at: usize, operation: OperationKind },
    Retired,
}

/// Whether a goroutine that has moved has one more turn, although its last one ended at a channel that was not ready. It has one in the first
/// rounds, so that small programs show their goroutines beside each other; and in a round of few, since a turn costs less than to park the
/// goroutine and to wake it, and those that talk to each other then do so in every round.
fn has_another_turn(turned: &Turned, number: u64, turns: usize) -> bool {
    turned.moved && (is_early(number) || turns <= FEW)
}

/// Where a goroutine is after its turn in the round of this number, in which this many had turns. True once all of them are over.
fn status_after(turn: &Turn<'_, '_>, number: u64, turns: usize) -> Status
    ensures taken { result ≡ Retired → (turn.now.goroutine.prints.items ≡ []) × (turn.now.goroutine.children.items ≡ []) }
    ensures ended { result ≡ Retired → MatchOption turn.now.turned ⊥ (λ turned. turned.stop ≡ Ended) }
{
    let Some(turned) = turn.turned() else {
        // Cannot be: each of those that are asked for had a turn in this round.
        return Status::Ready;
    };
    match turned.stop {
        TableTurnEnd::Ended
            if turn.goroutine().new_prints() == 0 && turn.goroutine().new_children() == 0 => {
            Status::Retired
        }
        TableTurnEnd::Blocked { at, operation } if !has_another_turn(turned, number, turns) => {
            Status::Parked {
                at: at.unwrap_or(NOWHERE),
                operation,
            }
        }
        // `Ended` with prints or children that were not taken cannot be here: `collect_all` has taken them.
        TableTurnEnd::Went
        | TableTurnEnd::Blocked { .. }
        | TableTurnEnd::Lost { .. }
        | TableTurnEnd::Ended
        | TableTurnEnd::Stopped(_)
        | TableTurnEnd::Short(_)
        | TableTurnEnd::NoMemory => Status::Ready,
    }
}

/// Takes all goroutines out of the run queue for a check for a deadlock, the last first: a check gives turns of its own, without time
/// slices. The queue keeps its room, so that `refill_ready` needs no memory.
///
/// # Errors
///
/// On allocation failure. Then nothing has changed.
fn drain_ready<'r, 'c>(
    alloc: Global,
    run: &'r Run<'r, 'c>,
    ready: &mut Vec<Turn<'r, 'c>>,
) -> Result<Vec<Box<Goroutine>>, AllocError>
    requires crew { (n : ℕ) × All (IsOfCrew run.now n) ready.old.items }
    ensures taken { IfOk result (λ goroutines. in_boxes goroutines.items ≡ reverse (map its_goroutine ready.old.items)) }
    ensures rest { IfOk result (λ goroutines. All (MayTurn run.now) (in_boxes goroutines.items)) }
    ensures none { OnOk result (ready.new.items ≡ []) }
    ensures capacity { vec_capacity ready.new ≡ vec_capacity ready.old }
    ensures same { OnErr result (ready.new.items ≡ ready.old.items) }
{
    let mut goroutines: Vec<Box<Goroutine>> = Vec::new(alloc);
    goroutines.reserve(ready.len())?;
    while let Some(turn) = ready.pop() {
        goroutines.push_reserved(turn.into_box());
    }
    Ok(goroutines)
}

/// Puts the goroutines of `drain_ready` back into the run queue, which is empty and has room for them, the last first.
fn refill_ready<'r, 'c>(
    alloc: Global,
    run: &'r Run<'r, 'c>,
    mut goroutines: Vec<Box<Goroutine>>,
    ready: &mut Vec<Turn<'r, 'c>>,
)
    requires rest { All (MayTurn run.now) (in_boxes goroutines.items) }
    requires pages { TableHasPages run.now }
    requires none { ready.old.items ≡ [] }
    requires room { length goroutines.items ≤ vec_capacity ready.old }
    ensures back { ready.new.items ≡ map (turns.first_turn run.now) (reverse (in_boxes goroutines.items)) }
{
    while let Some(goroutine) = goroutines.pop() {
        ready.push_reserved(Turn::new(alloc, run, goroutine));
    }
}

/// A goroutine that was started, in a box. It has a place for what it will count, so that it can retire when there is no memory.
///
/// # Errors
///
/// On allocation failure. Then there is no new place, and the error returns the goroutine.
fn box_newborn(
    alloc: Global,
    goroutine: Goroutine,
    shares: &mut Shares,
) -> Result<Box<Goroutine>, AllocFailed<Goroutine>>
    ensures boxed { IfOk result (λ boxed. boxed.value ≡ goroutine) }
    ensures room { OnOk result (goroutine.number < length shares.new) }
    ensures more { OnOk result ((n : ℕ) × (shares.new ≡ shares.old ++ replicate n no_share)) }
    ensures back { IfErr result (λ failed. failed.value ≡ goroutine) }
    ensures same { OnErr result (shares.new ≡ shares.old) }
{
    match Box::new(alloc, goroutine) {
        Ok(boxed) => match shares.make_room(boxed.as_ref().number()) {
            Ok(()) => Ok(boxed),
            Err(_) => Err(AllocFailed {
                value: Box::into_inner(boxed),
            }),
        },
        Err(failed) => Err(failed),
    }
}

/// Starts `main` at a new table, before any round. The record of `main` goes from the driver's seat to a seat of the goroutine.
///
/// # Errors
///
/// On allocation failure. Then the driver's seat has it.
fn spawn_main(
    alloc: Global,
    run: &Run<'_, '_>,
    seat: &mut RunSeat,
) -> Result<Box<Goroutine>, AllocError>
    requires own { IsSeatOf seat.old.table_id run.now.table clock_at }
    requires first { seat.old.me ≡ (view ((0, first_of run.now.setup.code) ∷ []) [], []) }
    requires possible { IsPossible run.now.setup 0 (first_of run.now.setup.code) }
    ensures own { seat.new.table_id ≡ seat.old.table_id }
    ensures seat { MatchResult result (λ _. seat.new.me ≡ (view [] [], [])) (λ _. seat.new.me ≡ seat.old.me) }
    ensures main { IfOk result (λ main. IsOf run.now main.value × (main.value.number ≡ 0) × (main.value.actor.seat.me ≡ seat.old.me)) }
{
    match Goroutine::main_goroutine(alloc, run, seat) {
        Ok(main) => match Box::new(alloc, main) {
            Ok(boxed) => Ok(boxed),
            Err(failed) => {
                // Its record goes back to the driver's seat, so that no goroutine of the run is lost.
                failed.value.retire(run, seat);
                Err(AllocError)
            }
        },
        Err(error) => Err(error),
    }
}

impl<'r, 'c> Crew<'r, 'c> {
    /// The length of the run queue. True until the next round.
    pub fn ready(&self) -> usize
        ensures { result ≡ length self.now.ready }
    {
        self.ready.len()
    }

    /// Gives each goroutine of the run queue a time slice: its next turn may execute up to this many instructions.
    fn set_time_slices(&mut self, slice: u32)
        ensures kept { KeepsAll self.old self.new }
        ensures given { AllZip (IsGivenSlice slice) self.old.ready self.new.ready }
        ensures run { self.new.run ≡ self.old.run }
        ensures next { self.new.next ≡ self.old.next }
    {
        for i in 0..self.ready.len() {
            self.ready[i].set_slice(slice);
        }
    }

    /// Each goroutine of the run queue has a turn, on the caller's thread or on workers. Returns whether any may have moved.
    ///
    /// # Errors
    ///
    /// On allocation failure. Then none had a turn.
    fn turn_all<H: Threads + Sync, G: Gate + Sync>(
        &mut self,
        rt: &H,
        workers: u32,
        number: u64,
        gate: &G,
    ) -> Result<bool, AllocError>
        requires workers { (1 ≤ workers) × (workers ≤ 64) }
        ensures kept { KeepsAll self.old self.new }
        ensures turned { IfOk result (λ went. RoundOf TurnIsTaken self.old.ready self.new.ready went) }
        ensures same { OnErr result (self.new ≡ self.old) }
        ensures run { self.new.run ≡ self.old.run }
        ensures next { self.new.next ≡ self.old.next }
    {
        round(rt, &mut self.ready, workers, number, gate)
    }

    /// Takes from the goroutines of the run queue what they have printed, and the goroutines that they have started. After their turns:
    /// in a turn only its worker has the goroutine.
    ///
    /// # Errors
    ///
    /// On allocation failure. Then they have what was not taken.
    fn collect_all(&mut self) -> Result<(), AllocError>
        ensures kept { KeepsAll self.old self.new }
        ensures run { self.new.run ≡ self.old.run }
        ensures next { self.new.next ≡ self.old.next }
    {
        for i in 0..self.ready.len() {
            self.ready[i].collect(&mut self.prints, &mut self.born)?;
        }
        Ok(())
    }

    /// Parks the goroutine at this place of the run queue. Without memory for that it stays ready, which costs time and nothing else.
    fn park(&mut self, place: usize, at: usize, operation: OperationKind)
        requires { place < length self.old.ready }
        ensures kept { KeepsAll self.old self.new }
        ensures run { self.new.run ≡ self.old.run }
        ensures next { self.new.next ≡ self.old.next }
        ensures left { length self.old.ready ≤ length self.new.ready + 1 }
    {
        let mut turn = self.ready.swap_remove(place);
        let is_oldest = turn.begin_waiting();
        match self.parked.park(at, operation, turn, is_oldest) {
            Ok(()) => {}
            // There is room: one was taken out just now.
            Err(failed) => self.ready.push_reserved(failed.value),
        }
    }

    /// Retires the goroutine at this place of the run queue. It has ended, has no prints that were not gathered, and no children that were
    /// not adopted.
    fn retire(&mut self, place: usize)
        requires place { place < length self.old.ready }
        requires empty { (t : turns.Turn) → t ≡ slice_index_or self.old.ready place t
            → (t.goroutine.prints.items ≡ []) × (t.goroutine.children.items ≡ []) }
        requires ended { (t : turns.Turn) → t ≡ slice_index_or self.old.ready place t
            → MatchOption t.turned ⊥ (λ turned. turned.stop ≡ Ended) }
        ensures kept { KeepsAll self.old self.new }
        ensures run { self.new.run ≡ self.old.run }
        ensures next { self.new.next ≡ self.old.next }
        ensures left { length self.old.ready ≤ length self.new.ready + 1 }
    {
        let turn = self.ready.swap_remove(place);
        let goroutine = turn.into_goroutine();
        retire(
            self.run,
            goroutine,
            &mut self.seat,
            &mut self.shares,
            &mut self.first,
        );
    }

    /// Turns the run queue around.
    fn reverse_queue(&mut self)
        ensures kept { KeepsAll self.old self.new }
        ensures run { self.new.run ≡ self.old.run }
        ensures next { self.new.next ≡ self.old.next }
    {
        self.ready.reverse();
    }

    /// Gives chances to those that wait and were not parked yet, in the order of their turns, so that they stay in the run queue. Only in a
    /// round of few; in a larger one they are parked, and woken after it. Returns whether one of the run queue leaves it.
    fn give_chances(&self, number: u64, chances: &mut Chances) -> bool {
        let turns = self.ready.len();
        let mut leaves = false;
        for turn in &self.ready {
            match status_after(turn, number, turns) {
                Status::Ready => chances.note(false),
                Status::Parked { at, operation } => {
                    // Those that are parked there have waited longer.
                    let has_chance = turns <= FEW
                        && !self.parked.is_waited_at(at, operation)
                        && chances.claim(at, operation);
                    chances.note(has_chance);
                    leaves = leaves || !has_chance;
                }
                Status::Retired => {
                    chances.note(false);
                    leaves = true;
                }
            }
        }
        leaves
    }

    /// Parks those that wait and have no chance, and retires those that have ended, of the run queue, each of which had a turn in this
    /// round. One that leaves is replaced by the last of the queue, so it goes from the last to the first; and the queue is turned around
    /// for that, so that those that had their turns first are parked first.
    fn park_and_retire(&mut self, number: u64, chances: &mut Chances)
        ensures kept { KeepsAll self.old self.new }
        ensures run { self.new.run ≡ self.old.run }
        ensures next { self.new.next ≡ self.old.next }
    {
        if !self.give_chances(number, chances) {
            return;
        }
        self.reverse_queue();
        let turns = self.ready.len();
        let mut place = turns;
        while place > 0 {
            place -= 1;
            if chances.has_chance(turns - 1 - place) {
                continue;
            }
            match status_after(&self.ready[place], number, turns) {
                Status::Ready => {}
                Status::Parked { at, operation } => self.park(place, at, operation),
                Status::Retired => self.retire(place),
            }
        }
        self.reverse_queue();
    }

    /// Puts the goroutines that were started in this round into the run queue. They have places for what they count.
    ///
    /// # Errors
    ///
    /// On allocation failure. Then some of them are.
    fn enqueue_newborns(&mut self) -> Result<(), AllocError>
        ensures none { OnOk result (self.new.born ≡ []) }
        ensures kept { KeepsAll self.old self.new }
        ensures run { self.new.run ≡ self.old.run }
        ensures next { self.new.next ≡ self.old.next }
    {
        self.ready.reserve(self.born.len())?;
        // `pop` takes the last: so they come into the queue in the order in which they were started.
        self.born.reverse();
        while let Some(goroutine) = self.born.pop() {
            match box_newborn(self.alloc, goroutine, &mut self.shares) {
                Ok(boxed) => {
                    self.ready
                        .push_reserved(Turn::new(self.alloc, self.run, boxed));
                }
                Err(failed) => {
                    self.born.push_reserved(failed.value);
                    return Err(AllocError);
                }
            }
        }
        Ok(())
    }

    /// Wakes up to `most` of those that wait to do this operation at a word, the oldest first: they are in the run queue again. Returns how
    /// many.
    ///
    /// # Errors
    ///
    /// On allocation failure. Then nothing has changed.
    fn wake_oldest(
        &mut self,
        at: usize,
        operation: OperationKind,
        most: usize,
    ) -> Result<usize, AllocError>
        ensures kept { KeepsAll self.old self.new }
        ensures run { self.new.run ≡ self.old.run }
        ensures next { self.new.next ≡ self.old.next }
    {
        self.parked.unpark(at, operation, most, &mut self.ready)
    }

    /// Wakes all that are parked. Before a check for a deadlock, and before an exact count of instructions.
    ///
    /// # Errors
    ///
    /// On allocation failure. Then nothing has changed.
    pub fn wake_all(&mut self) -> Result<(), AllocError>
        ensures woken { OnOk result (self.new.parked ≡ []) }
        ensures same { OnErr result (self.new ≡ self.old) }
        ensures kept { KeepsAll self.old self.new }
        ensures rest { self.new ≡ record self.old { ready = self.new.ready; parked = self.new.parked } }
    {
        self.parked.unpark_all(&mut self.ready)
    }

    /// What the turns of this round, of up to `slice` instructions, have come to, and which chances they have made. After the prints were
    /// collected, and before anybody is woken or parked: then the run queue has exactly those that had turns.
    ///
    /// # Errors
    ///
    /// On allocation failure.
    fn summarize(
        &self,
        moved: bool,
        slice: u32,
        chances: &mut Chances,
    ) -> Result<RoundSummary, AllocError> {
        chances.clear(self.ready.len())?;
        let mut summary = RoundSummary {
            moved,
            all_used: self.prints.is_empty(),
            steps: 0,
            is_over: false,
            lacks_memory: false,
        };
        for turn in &self.ready {
            if let Some(turned) = turn.turned() {
                summary.all_used = summary.all_used && turned.steps >= slice;
                summary.steps = summary.steps.saturating_add(u64::from(turned.steps));
                summary.is_over = summary.is_over || turn.goroutine().first().is_some();
                summary.lacks_memory = summary.lacks_memory
                    || turned.stop == TableTurnEnd::NoMemory;
                chances.add(turned)?;
            }
        }
        Ok(summary)
    }

    /// Wakes those that are parked and have this chance.
    ///
    /// # Errors
    ///
    /// On allocation failure. Then nothing has changed.
    fn wake_by(&mut self, place: usize, chances: &mut Chances) -> Result<(), AllocError>
        ensures kept { KeepsAll self.old self.new }
        ensures run { self.new.run ≡ self.old.run }
        ensures next { self.new.next ≡ self.old.next }
    {
        let Some(chance) = chances.get(place) else {
            // Cannot be: the caller goes over the chances.
            return Ok(());
        };
        let most = chance.times as usize;
        let woken = self.wake_oldest(chance.at as usize, chance.operation, most)?;
        chances.use_up(place, woken);
        Ok(())
    }

    /// Wakes those that are parked and have a chance.
    ///
    /// # Errors
    ///
    /// On allocation failure. Then some of them are woken.
    fn wake_each(&mut self, chances: &mut Chances) -> Result<(), AllocError>
        ensures kept { KeepsAll self.old self.new }
        ensures run { self.new.run ≡ self.old.run }
        ensures next { self.new.next ≡ self.old.next }
    {
        if self.parked.is_empty() {
            return Ok(());
        }
        for place in 0..chances.len() {
            self.wake_by(place, chances)?;
        }
        Ok(())
    }

    /// A round: each goroutine of the run queue has a turn of up to `slice` instructions. What they have printed waits. Those that have ended
    /// retire, and those that wait are parked; those that were started, and those that can continue after what was done in the round, are in
    /// the run queue after it. The chances are left in `chances`, whatever was there before, so that one list serves for all rounds.
    ///
    /// # Errors
    ///
    /// On allocation failure. Then some of this was not done.
    pub fn run_round<H: Threads + Sync, G: Gate + Sync>(
        &mut self,
        rt: &H,
        workers: u32,
        slice: u32,
        number: u64,
        gate: &G,
        chances: &mut Chances,
    ) -> Result<RoundSummary, AllocError>
        requires workers { (1 ≤ workers) × (workers ≤ 64) }
        ensures kept { KeepsAll self.old self.new }
        ensures turned { OnOk result (HaveTurned slice self.old.ready) }
        ensures none { OnOk result (self.new.born ≡ []) }
        ensures run { self.new.run ≡ self.old.run }
        ensures next { self.new.next ≡ self.old.next }
    {
        self.set_time_slices(slice);
        let moved = self.turn_all(rt, workers, number, gate)?;
        self.collect_all()?;
        let summary = self.summarize(moved, slice, chances)?;
        self.park_and_retire(number, chances);
        // After those were parked that wait since this round: they may have a chance that comes from a later turn.
        self.wake_each(chances)?;
        self.enqueue_newborns()?;
        Ok(summary)
    }

    /// The check for a deadlock, over the run queue, in which all are that have not retired: none is parked and none was just started. What
    /// it finds was true at one moment. It stays true if nothing moved, since then no goroutine can change anything any more.
    ///
    /// # Errors
    ///
    /// On allocation failure. Then nothing has changed.
    pub fn check_dead(&mut self) -> Result<Passed, AllocError>
        requires settled { (self.old.parked ≡ []) × (self.old.born ≡ []) }
        ensures kept { KeepsAll self.old self.new }
        ensures passed { IfOk result (HasPassedAll self.old self.new) }
        ensures same { OnErr result (self.new ≡ self.old) }
    {
        let mut goroutines = drain_ready(self.alloc, self.run, &mut self.ready)?;
        let passed = check_uncounted(
            self.alloc,
            self.run,
            goroutines.as_mut_slice(),
            &mut self.seat,
        );
        refill_ready(self.alloc, self.run, goroutines, &mut self.ready);
        Ok(passed)
    }

    /// What those in the run queue and those that have retired have counted so far, and how one of them has ended the run. Between rounds,
    /// and if none is parked, these are all goroutines.
    ///
    /// # Errors
    ///
    /// On allocation failure.
    pub fn snapshot(&self) -> Result<Snapshot, AllocError>
        ensures { IfOk result (λ snapshot. AreRetired (self.now.me.0.records ++ map (turn_row self.now.run.setup) self.now.ready)
            snapshot.shares (end_mark snapshot.first)) }
    {
        let mut snapshot = Snapshot {
            shares: self.shares.copy(self.alloc)?,
            first: self.first,
        };
        for turn in &self.ready {
            save_counts(turn.goroutine(), &mut snapshot.shares, &mut snapshot.first);
        }
        Ok(snapshot)
    }

    /// Retires all goroutines, or gives them up. After the run is over. It needs no memory. Prints that still
    /// wait are dropped: an earlier one is missing, or a write has failed, so they may not go out.
    pub fn retire_all(self) -> Left
        ensures left { HaveAllLeft self.entry result }
        ensures crew { spec.IsRunCrew self.entry }
        ensures retired { AreRetired result.seat.me.0.records result.shares (end_mark result.first) }
    {
        let Crew {
            run,
            alloc: _,
            seat,
            ready,
            parked,
            born,
            prints: _,
            shares,
            first,
        } = self;
        let mut left = Left {
            seat,
            shares,
            first,
            is_whole: true,
        };
        retire_turns(run, ready, &mut left);
        retire_parked(run, parked, &mut left);
        retire_newborns(run, born, &mut left);
        left
    }

    /// Writes the prints whose turn it is. Between rounds, so that no other thread writes.
    ///
    /// # Errors
    ///
    /// If a write failed.
    pub fn flush_prints<K: Sink>(&mut self, out: &mut K) -> Result<(), WriteFault>
        ensures given { OnOk result (GivesOut self.old.waiting self.old.next self.new.waiting self.new.next
            (K.contents out.old) (K.contents out.new)) }
        ensures part { OnErr result (GivesSome self.old.waiting self.old.next (K.contents out.old) (K.contents out.new)) }
        ensures cause { HasCause (K.faults out.old) (K.faults out.new) result }
        ensures broken { OnErr result (K.broken out.new ≡ true) }
        ensures pieces { AddsOnly (IsPieceOf self.old.waiting) (K.pieces out.old) (K.pieces out.new) }
        ensures rest { self.new ≡ record self.old { waiting = self.new.waiting; next = self.new.next } }
    {
        self.prints.flush(out)
    }
}

impl<'r, 'c> Crew<'r, 'c> {
    /// The goroutines of a run that begins: `main` alone, in the run queue.
    ///
    /// # Errors
    ///
    /// On allocation failure. Then the seat comes back with the record of `main`.
    pub fn new(
        alloc: Global,
        run: &'r Run<'r, 'c>,
        mut seat: RunSeat,
    ) -> Result<Crew<'r, 'c>, RunSeat>
        requires own { IsSeatOf seat.table_id run.now.table clock_at }
        requires first { seat.me ≡ (view ((0, first_of run.now.setup.code) ∷ []) [], []) }
        requires possible { IsPossible run.now.setup 0 (first_of run.now.setup.code) }
        requires pages { TableHasPages run.now }
        ensures begun { IfOk result (λ c. (c.run ≡ run.now) × (c.waiting ≡ []) × (c.next ≡ 0) × NoneIsLost (crew_members c) []) }
        ensures back { IfErr result (λ s. (s.table_id ≡ seat.table_id) × (s.me ≡ seat.me)) }
    {
        let mut shares = Shares::new(alloc);
        let mut ready: Vec<Turn<'r, 'c>> = Vec::new(alloc);
        // All memory is taken first: once `main` has a seat of its own, nothing can fail.
        match shares.make_room(0) {
            Ok(()) => {}
            Err(_) => return Err(seat),
        }
        match ready.reserve(1) {
            Ok(()) => {}
            Err(_) => return Err(seat),
        }
        match spawn_main(alloc, run, &mut seat) {
            Ok(main) => {
                ready.push_reserved(Turn::new(alloc, run, main));
                Ok(Crew {
                    run,
                    alloc,
                    seat,
                    ready,
                    parked: Parked::new(alloc),
                    born: Vec::new(alloc),
                    prints: PrintQueue::new(alloc),
                    shares,
                    first: None,
                })
            }
            Err(_) => Err(seat),
        }
    }
}

/// Examples of crews, and of values that are not.
pub fn examples()
    ensures { WholeCrewExamples }
{}
