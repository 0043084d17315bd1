//! The goroutines of a run, as a driver for tests keeps them.
//!
//! Invariant: the seat is one of the run's table, the table has pages, and all goroutines are of the run. No clause says that none
//! is lost; the tests compare what a run has made.
//!
//! A clause sees only the run of a crew. So functions over the list of goroutines say what stays true of them, and the methods of `Crew`
//! call these. Only the driver's thread calls them; while `turn_all_on` runs, each goroutine belongs to one thread.
ghost use Rattle.std.specs.Prelude.{◌≡◌, ◌<◌, ◌≤◌, ◌∷◌, [], IfOk, IfSome};
ghost use Rattle.std.specs.List.{All};
ghost use Rattle.rgo_core.specs.Core.{IsPossible};
ghost use Rattle.rgo_core.specs.runs.Opening.{first_of};
ghost use Rattle.rgo_core.specs.Memory.Words.{clock_at};
ghost use Rattle.rgo_core.specs.Rule.Views.{view};
ghost use Rattle.rgo_core_steps.specs.Seats.{IsSeatOf};
ghost use Rattle.rgo_goroutine.specs.Goroutines.{IsOf};
ghost use Rattle.rgo_goroutine.specs.Instructions.{TableHasPages};

use crate::errors::CrewError;
use crate::over::{Over, Tally};
use rgo_core::table::RunSeat;
use rgo_core_steps::counting::Steps;
use rgo_goroutine::acts::prints::Print;
use rgo_goroutine::acts::runs::Run;
use rgo_goroutine::goroutine::Goroutine;
use rgo_goroutine::turning::{TableTurnEnd, Turned};
use std::alloc::{AllocError, Global};
use std::marker::{Brand, Model};
use std::sync::ledger::{Blank, Ledger};
use std::thread::{self, Threads};

/// The goroutines that have not retired, in the order in which they were adopted, and the seat of their driver. Contracts see the
/// run that all of them are of.
#[derive(Drop)]
pub struct Crew<'r, 'c> {
    run: &'r Run<'r, 'c>,
    seat: RunSeat,
    goroutines: Vec<Goroutine>,
}

impl<'r, 'c> Model for Crew<'r, 'c> {
    ghost use Rattle.std.specs.List.{All};
    ghost use Rattle.rgo_core.specs.Memory.Words.{clock_at};
    ghost use Rattle.rgo_core_steps.specs.Seats.{IsSeatOf};
    ghost use Rattle.rgo_goroutine.specs.Acts.Runs as runs;
    ghost use Rattle.rgo_goroutine.specs.Goroutines.{IsOf};
    ghost use Rattle.rgo_goroutine.specs.Instructions.{TableHasPages};

    ghost Value = { runs.Run };

    ghost view = { λ c. c.run.now };

    ghost invariant = { λ c. IsSeatOf c.seat.table_id c.run.now.table clock_at × TableHasPages c.run.now
        × All (IsOf c.run.now) c.goroutines.items };
}

/// The most instructions of a goroutine that has another turn. With those of the turn, fewer than 2^32, they stay below the 2^43 that
/// `Goroutine::turn` requires.
const MOST_STEPS: u64 = 1 << 42;

/// The most turns of a goroutine in a thread. No test comes near it: it bounds the loop.
const MOST_TURNS: u64 = 1 << 40;

/// The most turns in a row of a goroutine in a thread that find nothing to do. Then its thread ends, so that a deadlock ends the test.
const MOST_IDLE: u32 = 1 << 14;

/// The most turns of a goroutine in a thread after the end of its run, in which it may loop without end.
const MOST_LATE: u32 = 1 << 10;

/// Gives the goroutine a turn, unless it has made too many instructions to count those of another.
fn turn<L: Ledger>(
    alloc: Global,
    run: &Run<'_, '_>,
    goroutine: &mut Goroutine,
    slice: u32,
    steps: &mut Steps<L>,
) -> Option<Turned>
    requires of { IsOf run.now goroutine.old }
    requires pages { TableHasPages run.now }
    ensures of { IsOf run.now goroutine.new }
    ensures within { IfSome result (λ turned. turned.steps ≤ slice) }
{
    if goroutine.tally().steps > MOST_STEPS {
        return None;
    }
    Some(goroutine.turn(alloc, run, slice, steps))
}

/// Moves what a goroutine has started and printed to the ends of these lists. Returns how many it has started. After its turn: a goroutine
/// can retire only when all was taken from it.
fn collect(
    alloc: Global,
    run: &Run<'_, '_>,
    goroutine: &mut Goroutine,
    born: &mut Vec<Goroutine>,
    prints: &mut Vec<Print>,
) -> Result<usize, AllocError>
    requires of { IsOf run.now goroutine.old }
    requires born { All (IsOf run.now) born.old.items }
    ensures of { IsOf run.now goroutine.new }
    ensures born { All (IsOf run.now) born.new.items }
{
    goroutine.gather(prints)?;
    goroutine.adopt(alloc, run, born)
}

/// Gives the goroutine at this place a turn. What it has printed and started moves to the ends of these lists. Those that it has started
/// go to another list, since the goroutine is borrowed from its own.
fn turn_one<L: Ledger>(
    alloc: Global,
    run: &Run<'_, '_>,
    goroutines: &mut [Goroutine],
    place: usize,
    slice: u32,
    born: &mut Vec<Goroutine>,
    prints: &mut Vec<Print>,
    steps: &mut Steps<L>,
) -> Result<(Turned, usize), CrewError>
    requires all { All (IsOf run.now) goroutines.old }
    requires born { All (IsOf run.now) born.old.items }
    requires pages { TableHasPages run.now }
    ensures all { All (IsOf run.now) goroutines.new }
    ensures born { All (IsOf run.now) born.new.items }
    ensures within { IfOk result (λ t. t.0.steps ≤ slice) }
{
    if place >= goroutines.len() {
        return Err(CrewError::NoGoroutine);
    }
    let goroutine = &mut goroutines[place];
    match turn(alloc, run, goroutine, slice, steps) {
        Some(turned) => {
            let started = collect(alloc, run, goroutine, born, prints)?;
            Ok((turned, started))
        }
        None => Err(CrewError::StepsSpent),
    }
}

/// Adds goroutines that were started at the end, so that the places of the others stay: tests list turns by place.
fn join(
    run: &Run<'_, '_>,
    goroutines: &mut Vec<Goroutine>,
    born: &mut Vec<Goroutine>,
) -> Result<(), AllocError>
    requires all { All (IsOf run.now) goroutines.old.items }
    requires born { All (IsOf run.now) born.old.items }
    ensures all { All (IsOf run.now) goroutines.new.items }
{
    goroutines.append(born)
}

/// Gives the goroutine at this place a turn. Those that it has started come to the end.
fn turn_at<L: Ledger>(
    alloc: Global,
    run: &Run<'_, '_>,
    goroutines: &mut Vec<Goroutine>,
    place: usize,
    slice: u32,
    prints: &mut Vec<Print>,
    steps: &mut Steps<L>,
) -> Result<(Turned, usize), CrewError>
    requires all { All (IsOf run.now) goroutines.old.items }
    requires pages { TableHasPages run.now }
    ensures all { All (IsOf run.now) goroutines.new.items }
    ensures within { IfOk result (λ t. t.0.steps ≤ slice) }
{
    let mut born = Vec::new(alloc);
    let turned = turn_one(
        alloc,
        run,
        goroutines.as_mut_slice(),
        place,
        slice,
        &mut born,
        prints,
        steps,
    )?;
    join(run, goroutines, &mut born)?;
    Ok(turned)
}

/// Whether the run has ended, as the first goroutine finds it. The end is a word of the table, so any goroutine can look. If all have
/// retired, `main` has returned.
fn look(run: &Run<'_, '_>, goroutines: &mut [Goroutine]) -> bool
    requires all { All (IsOf run.now) goroutines.old }
    ensures { All (IsOf run.now) goroutines.new }
{
    if goroutines.is_empty() {
        return true;
    }
    goroutines[0].look(run)
}

/// Removes the goroutine at this place and returns it. The order of the others stays.
fn take(run: &Run<'_, '_>, goroutines: &mut Vec<Goroutine>, place: usize) -> Option<Goroutine>
    requires all { All (IsOf run.now) goroutines.old.items }
    ensures all { All (IsOf run.now) goroutines.new.items }
    ensures of { IfSome result (IsOf run.now) }
{
    if place >= goroutines.len() {
        return None;
    }
    Some(goroutines.remove(place))
}

/// How much longer a goroutine has turns in its thread. A thread decides this alone, by what its own goroutine found.
#[derive(Drop)]
struct Patience {
    /// How many turns in a row have found nothing to do.
    idle: u32,
    /// How many turns it has had after the end of the run.
    late: u32,
}

impl Patience {
    /// Whether the goroutine has another turn in its thread, after this one. One that lacks room counts as idle: others may free some.
    fn lasts(&mut self, turned: &Turned, is_over: bool) -> bool {
        if is_over {
            self.late = self.late.saturating_add(1);
        }
        let is_idle = match turned.stop {
            TableTurnEnd::Ended | TableTurnEnd::Stopped(_) | TableTurnEnd::NoMemory => return false,
            TableTurnEnd::Short(_) => true,
            TableTurnEnd::Went | TableTurnEnd::Blocked { .. } | TableTurnEnd::Lost { .. } =>
                !turned.moved,
        };
        if !is_idle {
            self.idle = 0;
            return self.late < MOST_LATE;
        }
        self.idle = self.idle.saturating_add(1);
        // The goroutine waits for another one, whose thread may need this processor.
        thread::yield_now();
        !is_over && self.idle < MOST_IDLE
    }
}

/// Gives a goroutine turns until it has ended, or finds nothing to do after the end of the run, or has found nothing to do for long. It
/// looks before each turn, since another thread may end the run at any time.
fn turn_counted<L: Ledger>(
    alloc: Global,
    run: &Run<'_, '_>,
    goroutine: &mut Goroutine,
    slice: u32,
    blank: Blank,
)
    requires of { IsOf run.now goroutine.old }
    requires pages { TableHasPages run.now }
    requires name { blank.name ≡ L.name }
    requires parts { (blank.parts ≡ L.parts) × (0 < blank.parts) }
    ensures { IsOf run.now goroutine.new }
{
    let mut steps = Steps::<L>::new(blank);
    let mut patience = Patience { idle: 0, late: 0 };
    for _ in 0..MOST_TURNS {
        let is_over = goroutine.look(run);
        let Some(turned) = turn(alloc, run, goroutine, slice, &mut steps) else {
            return;
        };
        if !patience.lasts(&turned, is_over) {
            return;
        }
    }
}

/// The same with a ledger of its own, which counts for nobody: threads cannot share one.
fn turn_on(alloc: Global, run: &Run<'_, '_>, goroutine: &mut Goroutine, slice: u32)
    requires of { IsOf run.now goroutine.old }
    requires pages { TableHasPages run.now }
    ensures { IsOf run.now goroutine.new }
{
    turn_counted::<Brand>(alloc, run, goroutine, slice, Blank::new(1));
}

/// Each goroutine has such turns in a thread of its own. All threads have ended when it returns.
fn turn_all_on<R: Threads + Sync>(
    rt: &R,
    alloc: Global,
    run: &Run<'_, '_>,
    goroutines: &mut [Goroutine],
    slice: u32,
)
    requires all { All (IsOf run.now) goroutines.old }
    requires pages { TableHasPages run.now }
    ensures { All (IsOf run.now) goroutines.new }
{
    let count = goroutines.len();
    if count == 0 {
        return;
    }
    thread::for_each_mut(
        rt,
        goroutines,
        count,
        &|_: usize, goroutine: &mut Goroutine|
            requires { IsOf run.now goroutine.old × TableHasPages run.now }
            ensures { IsOf run.entry.now goroutine.new }
        { turn_on(alloc, run, goroutine, slice) },
    );
}

/// Moves what the goroutines have started and printed to the ends of these lists. After their threads have ended, so that no thread has to
/// share the lists.
fn collect_all(
    alloc: Global,
    run: &Run<'_, '_>,
    goroutines: &mut [Goroutine],
    born: &mut Vec<Goroutine>,
    prints: &mut Vec<Print>,
) -> Result<(), AllocError>
    requires all { All (IsOf run.now) goroutines.old }
    requires born { All (IsOf run.now) born.old.items }
    ensures all { All (IsOf run.now) goroutines.new }
    ensures born { All (IsOf run.now) born.new.items }
{
    for place in 0..goroutines.len() {
        collect(alloc, run, &mut goroutines[place], born, prints)?;
    }
    Ok(())
}

/// Each goroutine has turns in a thread of its own. Those that they have started come to the end.
fn turn_each<R: Threads + Sync>(
    rt: &R,
    alloc: Global,
    run: &Run<'_, '_>,
    goroutines: &mut Vec<Goroutine>,
    slice: u32,
    prints: &mut Vec<Print>,
) -> Result<(), AllocError>
    requires all { All (IsOf run.now) goroutines.old.items }
    requires pages { TableHasPages run.now }
    ensures all { All (IsOf run.now) goroutines.new.items }
{
    let mut born = Vec::new(alloc);
    turn_all_on(rt, alloc, run, goroutines.as_mut_slice(), slice);
    collect_all(alloc, run, goroutines.as_mut_slice(), &mut born, prints)?;
    join(run, goroutines, &mut born)
}

/// Retires a goroutine that has ended, or is to have no more turns. It fails if something was not taken from the goroutine, since that would
/// be lost.
fn retire(run: &Run<'_, '_>, seat: &mut RunSeat, goroutine: Goroutine) -> Result<(), CrewError>
    requires of { IsOf run.now goroutine }
    requires own { IsSeatOf seat.old.table_id run.now.table clock_at }
    ensures { seat.new.table_id ≡ seat.old.table_id }
{
    if goroutine.new_prints() > 0 || goroutine.new_children() > 0 {
        return Err(CrewError::TooEarly);
    }
    goroutine.retire(run, seat);
    Ok(())
}

impl<'r, 'c> Crew<'r, 'c> {
    /// The crew of a run that begins: `main` alone. Its record comes from the driver's seat, so there is no goroutine before this.
    pub fn new(
        alloc: Global,
        run: &'r Run<'r, 'c>,
        mut seat: RunSeat,
    ) -> Result<Crew<'r, 'c>, AllocError>
        requires own { IsSeatOf seat.table_id run.now.table clock_at }
        requires first { seat.me ≡ (view ((0, first_of run.now.setup.code) ∷ []) [], []) }
        requires possible { IsPossible run.now.setup 0 (first_of run.now.setup.code) }
        requires pages { TableHasPages run.now }
        ensures { IfOk result (λ c. c ≡ run.now) }
    {
        let main = Goroutine::main_goroutine(alloc, run, &mut seat)?;
        let mut goroutines = Vec::new(alloc);
        goroutines.push(main)?;
        Ok(Crew {
            run,
            seat,
            goroutines,
        })
    }

    /// How many goroutines have not retired.
    pub fn len(&self) -> usize {
        self.goroutines.len()
    }

    /// What the goroutines have made and done that have not retired. `Over` has what the others have.
    pub fn tally(&self) -> Tally {
        let mut tally = Tally::new();
        for goroutine in &self.goroutines {
            tally = tally.and(Tally::of(goroutine.tally()));
        }
        tally
    }

    /// Whether the run has ended. The answer `true` is final: no goroutine takes its end back.
    pub fn look(&mut self) -> bool
        ensures { self.new ≡ self.old }
    {
        let run = self.run;
        look(run, self.goroutines.as_mut_slice())
    }

    /// Gives the goroutine at this place a turn. Then what it has printed is gathered, and what it has started is adopted. Returns how
    /// many it has started, too.
    pub fn turn<L: Ledger>(
        &mut self,
        alloc: Global,
        place: usize,
        slice: u32,
        prints: &mut Vec<Print>,
        steps: &mut Steps<L>,
    ) -> Result<(Turned, usize), CrewError>
        ensures run { self.new ≡ self.old }
        ensures within { IfOk result (λ t. t.0.steps ≤ slice) }
    {
        let run = self.run;
        turn_at(
            alloc,
            run,
            &mut self.goroutines,
            place,
            slice,
            prints,
            steps,
        )
    }

    /// Each goroutine has turns in a thread of its own until it has ended, finds nothing to do after the end of the run, or has found
    /// nothing to do for long. Then what they have printed is gathered, and what they have started is adopted.
    ///
    /// # Errors
    ///
    /// On allocation failure. Then some of it was not gathered or adopted.
    pub fn turn_on<R: Threads + Sync>(
        &mut self,
        rt: &R,
        alloc: Global,
        slice: u32,
        prints: &mut Vec<Print>,
    ) -> Result<(), AllocError>
        ensures { self.new ≡ self.old }
    {
        let run = self.run;
        turn_each(rt, alloc, run, &mut self.goroutines, slice, prints)
    }

    /// Retires the goroutine at this place. What it has counted is added first, while it has its record.
    pub fn retire(&mut self, place: usize, over: &mut Over) -> Result<(), CrewError>
        ensures { self.new ≡ self.old }
    {
        let run = self.run;
        match take(run, &mut self.goroutines, place) {
            Some(goroutine) => {
                over.count(&goroutine)?;
                retire(run, &mut self.seat, goroutine)
            }
            None => Err(CrewError::NoGoroutine),
        }
    }

    /// The seat of the driver, with which the table is closed. The goroutines must have retired: a record that is not at the seat is lost.
    pub fn into_seat(self) -> RunSeat
        ensures { result.table_id ≡ self.entry.table }
    {
        let Crew {
            run: _,
            seat,
            goroutines: _,
        } = self;
        seat
    }
}
