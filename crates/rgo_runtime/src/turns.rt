//! A goroutine with what a worker needs to give it a turn: the task of a round.
//!
//! Invariant (`CanTurn`): the goroutine is of this run and at rest, and after its next turn it has executed fewer than 2^43 instructions,
//! so that its counts and the tickets of its prints fit. A turn has its goroutine for itself: a worker takes it by `&mut`, and the driver
//! reads what it has done only after all turns of the round are over.
ghost use Rattle.std.specs.Prelude.{◌≡◌, ◌+◌, ◌∷◌, ◌<◌, ◌≤◌, [], None, OnOk, Some};
ghost use Rattle.std.specs.List.{All};
ghost use Rattle.rgo_core.specs.Records.{steps_of};
ghost use Rattle.rgo_table_runs.specs.Goroutine.Goroutines.{IsOf, IsTidy, record_of_goroutine};
ghost use Rattle.rgo_table_runs.specs.Goroutine.Instructions.{TableHasPages};
ghost use Rattle.rgo_table_runs.specs.Goroutine.Turns.{HasTurned};
ghost use Rattle.rgo_runtime.specs.Crews.{IsNewborn, DriverKeeps, drawn, its_member, members};
ghost use Rattle.rgo_runtime.specs.Turns as spec;

use crate::printing::PrintQueue;
use rgo_core_steps::counting::Steps;
use rgo_sched::Task;
use rgo_table_runs::goroutine::acts::runs::Run;
use rgo_table_runs::goroutine::goroutine::Goroutine;
use rgo_table_runs::goroutine::turning::Turned;
use std::alloc::{AllocError, Global};
use std::marker::{Brand, Model};
use std::sync::ledger::{Blank, Ledger};

/// The most instructions of a goroutine. A print is an instruction, and a run can number the prints of a million goroutines that have
/// executed no more than these.
const MOST_STEPS: u64 = 1 << 43;

/// A goroutine, with what its next turn is to be and what its last one has done. The goroutine is in a box, since it is large, and a
/// turn moves each time that its goroutine is parked or woken.
#[derive(Drop)]
pub struct Turn<'r, 'c> {
    run: &'r Run<'r, 'c>,
    alloc: Global,
    goroutine: Box<Goroutine>,
    /// How many instructions its next turn may execute.
    slice: u32,
    /// Whether it was parked, and has moved nothing since. No clause speaks of it.
    has_waited: bool,
    /// What its last turn has done.
    turned: Option<Turned>,
}

impl<'r, 'c> Model for Turn<'r, 'c> {
    ghost use Rattle.rgo_runtime.specs.Turns as spec;

    ghost Value = { spec.Turn };

    ghost view = { λ t. record { run = t.run.now; goroutine = t.goroutine.value; slice = t.slice; turned = t.turned } };

    ghost invariant = { λ t. spec.CanTurn (record {
      run = t.run.now;
      goroutine = t.goroutine.value;
      slice = t.slice;
      turned = t.turned;
    }) };
}

impl<'r, 'c> Turn<'r, 'c> {
    /// A goroutine that has had no turn yet. Its next one may execute no instruction, until it is given some.
    pub fn new(alloc: Global, run: &'r Run<'r, 'c>, goroutine: Box<Goroutine>) -> Turn<'r, 'c>
        requires of { IsOf run.now goroutine.value }
        requires tidy { IsTidy (record_of_goroutine run.now.setup goroutine.value) }
        requires pages { TableHasPages run.now }
        requires few { steps_of (record_of_goroutine run.now.setup goroutine.value) < 8796093022208 }
        ensures { result ≡ spec.first_turn run.now goroutine.value }
    {
        Turn {
            run,
            alloc,
            goroutine,
            slice: 0,
            turned: None,
            has_waited: false,
        }
    }

    /// Sets its time slice: its next turn may execute this many instructions; none, if it could then have executed too many in all.
    pub fn set_slice(&mut self, slice: u32)
        ensures rest { self.new ≡ record self.old { slice = self.new.slice } }
        ensures within { self.new.slice ≤ slice }
    {
        let done = self.goroutine.as_ref().tally().steps;
        self.slice = if done < MOST_STEPS && u64::from(slice) < MOST_STEPS - done {
            slice
        } else {
            // Cannot be in a run of the program: the limit of steps is at most 2^42, and it was tested after the round before.
            0
        };
    }

    /// What its last turn has done; `None` before the first. It stays so until the next turn.
    pub fn turned(&self) -> &Option<Turned>
        ensures { result.now ≡ self.now.turned }
    {
        &self.turned
    }

    /// Notes that it is parked now. Returns whether it was parked before and has moved nothing since: then it was woken for nothing, and
    /// keeps its place before those that came later.
    pub fn begin_waiting(&mut self) -> bool
        ensures { self.new ≡ self.old }
    {
        let has_waited = self.has_waited;
        self.has_waited = true;
        has_waited
    }

    /// The goroutine, to read what its turns have done. Between rounds.
    pub fn goroutine(&self) -> &Goroutine
        ensures of { IsOf self.now.run result.now }
        ensures tidy { IsTidy (record_of_goroutine self.now.run.setup result.now) }
        ensures same { result.now ≡ self.now.goroutine }
    {
        self.goroutine.as_ref()
    }

    /// Takes what it has printed into the queue of prints, and the goroutines that it has started to the list's end. After its turn.
    ///
    /// # Errors
    ///
    /// On allocation failure. Then some of it has come, and the goroutine has the rest.
    pub fn collect(
        &mut self,
        queue: &mut PrintQueue,
        born: &mut Vec<Goroutine>,
    ) -> Result<(), AllocError>
        requires born { All (IsNewborn self.old.run) born.old.items }
        ensures same { self.new ≡ record self.old { goroutine = self.new.goroutine } }
        ensures number { self.new.goroutine.number ≡ self.old.goroutine.number }
        ensures actor { self.new.goroutine.actor ≡ self.old.goroutine.actor }
        ensures born { All (IsNewborn self.old.run) born.new.items }
        ensures kept { DriverKeeps (its_member self.old ∷ members self.old.run.setup born.old.items) (drawn queue.old.waiting)
            (its_member self.new ∷ members self.old.run.setup born.new.items) (drawn queue.new.waiting) }
        ensures next { queue.new.next ≡ queue.old.next }
        ensures done { OnOk result ((self.new.goroutine.prints.items ≡ []) × (self.new.goroutine.children.items ≡ [])) }
    {
        let goroutine = self.goroutine.as_mut();
        queue.gather(goroutine)?;
        goroutine.adopt(self.alloc, self.run, born)?;
        Ok(())
    }

    /// The goroutine in its box, for a check for a deadlock: the turns of a check have no time slice.
    pub fn into_box(self) -> Box<Goroutine>
        ensures of { IsOf self.entry.run result.value }
        ensures tidy { IsTidy (record_of_goroutine self.entry.run.setup result.value) }
        ensures few { steps_of (record_of_goroutine self.entry.run.setup result.value) < 8796093022208 }
        ensures same { result.value ≡ self.entry.goroutine }
    {
        let Turn {
            run: _,
            alloc: _,
            goroutine,
            slice: _,
            turned: _,
            has_waited: _,
        } = self;
        goroutine
    }

    /// The goroutine, which has no more turns. Its time slice and what its last turn has done are dropped.
    pub fn into_goroutine(self) -> Goroutine
        ensures of { IsOf self.entry.run result }
        ensures tidy { IsTidy (record_of_goroutine self.entry.run.setup result) }
        ensures few { steps_of (record_of_goroutine self.entry.run.setup result) < 8796093022208 }
        ensures same { result ≡ self.entry.goroutine }
    {
        Box::into_inner(self.into_box())
    }
}

/// A turn whose accesses to the table are counted by this ledger.
fn turn_counted<L: Ledger>(
    alloc: Global,
    run: &Run<'_, '_>,
    goroutine: &mut Goroutine,
    slice: u32,
    blank: Blank,
) -> Turned
    requires of { IsOf run.now goroutine.old }
    requires pages { TableHasPages run.now }
    requires few { steps_of (record_of_goroutine run.now.setup goroutine.old) + slice < 8796093022208 }
    requires name { blank.name ≡ L.name }
    requires parts { (blank.parts ≡ L.parts) × (0 < blank.parts) }
    ensures of { IsOf run.now goroutine.new }
    ensures tidy { IsTidy (record_of_goroutine run.now.setup goroutine.new) }
    ensures turned { HasTurned run.now goroutine.old goroutine.new slice result }
{
    goroutine.turn(alloc, run, slice, &mut Steps::<L>::new(blank))
}

/// A turn whose accesses to the table are counted for nobody: no clause bounds the accesses of a run.
fn turn_once(alloc: Global, run: &Run<'_, '_>, goroutine: &mut Goroutine, slice: u32) -> Turned
    requires of { IsOf run.now goroutine.old }
    requires pages { TableHasPages run.now }
    requires few { steps_of (record_of_goroutine run.now.setup goroutine.old) + slice < 8796093022208 }
    ensures of { IsOf run.now goroutine.new }
    ensures tidy { IsTidy (record_of_goroutine run.now.setup goroutine.new) }
    ensures turned { HasTurned run.now goroutine.old goroutine.new slice result }
{
    turn_counted::<Brand>(alloc, run, goroutine, slice, Blank::new(1))
}

impl<'r, 'c> Task for Turn<'r, 'c> {
    ghost goes = { spec.TurnIsTaken };

    /// A turn of as many instructions as it was given. Called by one worker, which has the task for itself. The slice is used up, so a
    /// second turn in the round would do nothing.
    fn turn(&mut self) -> bool {
        let turned = turn_once(self.alloc, self.run, self.goroutine.as_mut(), self.slice);
        self.slice = 0;
        self.turned = Some(turned);
        self.has_waited = self.has_waited && !turned.moved;
        turned.moved
    }
}

/// Examples of turns, and of values that are not.
pub fn examples()
    ensures { spec.TurningExamples }
{}
