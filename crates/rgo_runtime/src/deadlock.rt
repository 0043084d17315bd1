//! The check for a deadlock (`checkdead` in Go's runtime): whether no goroutine can continue. The definitions call it a *pass*.
//!
//! Goroutines find the table one after the other, and the answer must hold of one moment. So first all meet the driver, which has then
//! seen as much as each of them; then each looks at the clock, so that all its accesses are known; then each has a turn of one
//! instruction. If no turn has changed anything, all have found the table as it was at one moment, and it stays so.
//!
//! Only the driver calls it, between rounds, over all goroutines that have not retired. No other thread accesses the table meanwhile, but
//! the contracts do not rely on that: they know of threads only what the accesses show.
ghost use Rattle.std.specs.Prelude.{◌≡◌, ◌<◌, ◌++◌, List};
ghost use Rattle.std.specs.List.{All, AllZip};
ghost use Rattle.rgo_core.specs.Memory.Words.{clock_at};
ghost use Rattle.rgo_core.specs.Rule.declared.accesses.Access.{Access};
ghost use Rattle.rgo_core_steps.specs.Seats.{IsSeatOf};
ghost use Rattle.rgo_table_runs.specs.Goroutine.Goroutines.{IsOf};
ghost use Rattle.rgo_table_runs.specs.Goroutine.Instructions.{TableHasPages};
ghost use Rattle.rgo_runtime.specs.Boxes.{in_boxes};
ghost use Rattle.rgo_runtime.specs.Passing.{TurnComesTo, HasLookedOnce, HasMet, IsBehind, IsKnownBy, IsPass, IsTidyIn, LooksBetween, MayHaveTurned, PassComesTo, PassingExamples, TurnsBetween, is_moved, joined_with};

use rgo_core::rule::seats::glance;
use rgo_core::table::RunSeat;
use rgo_core_steps::counting::Steps;
use rgo_sound::machine::Shortage;
use rgo_table_runs::goroutine::acts::runs::Run;
use rgo_table_runs::goroutine::goroutine::Goroutine;
use rgo_table_runs::goroutine::turning::{TableTurnEnd, Turned};
use std::alloc::Global;
use std::marker::Brand;
use std::sync::ledger::{Blank, Ledger};

/// The most instructions of a goroutine that has another turn in a check. It is far below the most that a run can count, so the turn
/// meets what `Goroutine::turn` requires.
const MOST_STEPS: u64 = 1 << 42;

/// What the turns of a pass have come to. There is no variant for a goroutine that has ended or found no memory: such a turn counts as one
/// that moved, since it does not show that anybody is blocked.
#[derive(Clone, Copy, Debug, PartialEq, Eq)]
pub enum Passed {
    /// A goroutine may have changed something, may continue, or has ended.
    Moved,
    /// No goroutine can continue, and none lacks anything.
    Still,
    /// No goroutine can continue, and one lacks this.
    Lacks(Shortage),
}

/// All goroutines meet their driver, which has then seen at least as many accesses as each of them. `look_all` requires that (`behind`):
/// then a meeting only adds to what the driver has seen.
pub fn meet_all(run: &Run<'_, '_>, goroutines: &mut [Box<Goroutine>], seat: &mut RunSeat)
    requires all { All (IsOf run.now) (in_boxes goroutines.old) }
    requires own { IsSeatOf seat.old.table_id run.now.table clock_at }
    ensures all { All (IsOf run.now) (in_boxes goroutines.new) }
    ensures own { seat.new.table_id ≡ seat.old.table_id }
    ensures rows { (seat.new.me.0.records ≡ seat.old.me.0.records) × (seat.new.me.1 ≡ seat.old.me.1) }
    ensures met { AllZip (HasMet run.now.setup) (in_boxes goroutines.old) (in_boxes goroutines.new) }
    ensures behind { All (IsBehind seat.new.me.0.seen) (in_boxes goroutines.new) }
{
    for i in 0..goroutines.len() {
        goroutines[i].as_mut().meet(run, seat);
    }
}

/// A goroutine looks at the clock, between two meetings with its driver. From the first it has what the driver has seen; by the second the
/// driver learns of the look, and so of all accesses that the goroutine has made before.
fn look_once(run: &Run<'_, '_>, goroutine: &mut Goroutine, seat: &mut RunSeat)
    requires of { IsOf run.now goroutine.old }
    requires own { IsSeatOf seat.old.table_id run.now.table clock_at }
    requires behind { IsBehind seat.old.me.0.seen goroutine.old }
    ensures of { IsOf run.now goroutine.new }
    ensures own { seat.new.table_id ≡ seat.old.table_id }
    ensures rows { (seat.new.me.0.records ≡ seat.old.me.0.records) × (seat.new.me.1 ≡ seat.old.me.1) }
    ensures looks { LooksBetween run.now.setup seat.old.me.0.seen seat.new.me.0.seen goroutine.old goroutine.new }
{
    goroutine.meet(run, seat);
    goroutine.look(run);
    goroutine.meet(run, seat);
}

/// After all have met their driver, each looks, between two meetings with it. Then the driver knows all accesses that they have made.
pub fn look_all(run: &Run<'_, '_>, goroutines: &mut [Box<Goroutine>], seat: &mut RunSeat)
    requires all { All (IsOf run.now) (in_boxes goroutines.old) }
    requires own { IsSeatOf seat.old.table_id run.now.table clock_at }
    requires behind { All (IsBehind seat.old.me.0.seen) (in_boxes goroutines.old) }
    ensures all { All (IsOf run.now) (in_boxes goroutines.new) }
    ensures own { seat.new.table_id ≡ seat.old.table_id }
    ensures rows { (seat.new.me.0.records ≡ seat.old.me.0.records) × (seat.new.me.1 ≡ seat.old.me.1) }
    ensures looked { AllZip (HasLookedOnce run.now.setup) (in_boxes goroutines.old) (in_boxes goroutines.new) }
    ensures seen { (es : List Access) × (seat.new.me.0.seen ≡ seat.old.me.0.seen ++ es) }
    ensures known { All (IsKnownBy run.now.setup seat.new.me.0.seen) (in_boxes goroutines.new) }
    ensures behind { All (IsBehind seat.new.me.0.seen) (in_boxes goroutines.new) }
{
    for i in 0..goroutines.len() {
        look_once(run, goroutines[i].as_mut(), seat);
    }
}

impl Passed {
    /// What one turn has come to. It counts as still only if nothing moved and the goroutine waits, was outrun, or lacks something.
    fn by(turned: &Turned) -> Passed
        ensures { TurnComesTo turned.now result }
    {
        if turned.moved {
            return Passed::Moved;
        }
        match turned.stop {
            TableTurnEnd::Blocked { .. } | TableTurnEnd::Lost { .. } => Passed::Still,
            TableTurnEnd::Short(why) => Passed::Lacks(why),
            // Such a turn does not show that the goroutine is blocked, so the run continues.
            TableTurnEnd::Went
            | TableTurnEnd::Ended
            | TableTurnEnd::Stopped(_)
            | TableTurnEnd::NoMemory => Passed::Moved,
        }
    }

    /// What turns have come to, with one more. A lack goes before `Still`, since with room that goroutine could continue. Of two lacks the
    /// later one is reported; each is true.
    fn and(self, next: Passed) -> Passed
        ensures { result ≡ joined_with self next }
    {
        match next {
            Passed::Moved => Passed::Moved,
            Passed::Still => self,
            Passed::Lacks(why) => Passed::Lacks(why),
        }
    }

    fn is_moved(&self) -> bool
        ensures { result ≡ is_moved self.now }
    {
        match self {
            Passed::Moved => true,
            Passed::Still | Passed::Lacks(_) => false,
        }
    }
}

/// A goroutine that has not seen more than its driver has a turn of one instruction, between two meetings with it. One is enough: if it can
/// execute one, the run continues.
fn step_once<L: Ledger>(
    alloc: Global,
    run: &Run<'_, '_>,
    goroutine: &mut Goroutine,
    seat: &mut RunSeat,
    steps: &mut Steps<L>,
) -> Passed
    requires of { IsOf run.now goroutine.old }
    requires own { IsSeatOf seat.old.table_id run.now.table clock_at }
    requires pages { TableHasPages run.now }
    requires behind { IsBehind seat.old.me.0.seen goroutine.old }
    ensures of { IsOf run.now goroutine.new }
    ensures own { seat.new.table_id ≡ seat.old.table_id }
    ensures rows { (seat.new.me.0.records ≡ seat.old.me.0.records) × (seat.new.me.1 ≡ seat.old.me.1) }
    ensures turns { TurnsBetween run.now seat.old.me.0.seen seat.new.me.0.seen goroutine.old goroutine.new result }
{
    if goroutine.tally().steps > MOST_STEPS {
        // Cannot be in a run of the program: its limit is at most 2^42 instructions, and it was tested after the round. No clause of a crew
        // says so, and `Moved` is the result that claims nothing.
        return Passed::Moved;
    }
    goroutine.meet(run, seat);
    let turned = goroutine.turn(alloc, run, 1, steps);
    goroutine.meet(run, seat);
    Passed::by(&turned)
}

/// After all have looked, each has a turn of one instruction, between two meetings with its driver, until one moves: then the run
/// continues, whatever the others would find. A goroutine that has made too many instructions to count another has no turn, and counts as
/// one that moved.
pub fn step_all<L: Ledger>(
    alloc: Global,
    run: &Run<'_, '_>,
    goroutines: &mut [Box<Goroutine>],
    seat: &mut RunSeat,
    steps: &mut Steps<L>,
) -> Passed
    requires all { All (IsOf run.now) (in_boxes goroutines.old) }
    requires own { IsSeatOf seat.old.table_id run.now.table clock_at }
    requires pages { TableHasPages run.now }
    requires known { All (IsKnownBy run.now.setup seat.old.me.0.seen) (in_boxes goroutines.old) }
    requires behind { All (IsBehind seat.old.me.0.seen) (in_boxes goroutines.old) }
    ensures all { All (IsOf run.now) (in_boxes goroutines.new) }
    ensures own { seat.new.table_id ≡ seat.old.table_id }
    ensures rows { (seat.new.me.0.records ≡ seat.old.me.0.records) × (seat.new.me.1 ≡ seat.old.me.1) }
    ensures seen { (es : List Access) × (seat.new.me.0.seen ≡ seat.old.me.0.seen ++ es) }
    ensures known { All (IsKnownBy run.now.setup seat.new.me.0.seen) (in_boxes goroutines.new) }
    ensures behind { All (IsBehind seat.new.me.0.seen) (in_boxes goroutines.new) }
    ensures tidy { All (IsTidyIn run.now.setup) (in_boxes goroutines.old) → All (IsTidyIn run.now.setup) (in_boxes goroutines.new) }
    ensures turned { AllZip (MayHaveTurned run.now) (in_boxes goroutines.old) (in_boxes goroutines.new) }
    ensures passed { PassComesTo run.now seat.old.me.0.seen seat.new.me.0.seen (in_boxes goroutines.old) (in_boxes goroutines.new) result }
{
    let mut passed = Passed::Still;
    for i in 0..goroutines.len() {
        let next = step_once(alloc, run, goroutines[i].as_mut(), seat, steps);
        if next.is_moved() {
            return Passed::Moved;
        }
        passed = passed.and(next);
    }
    passed
}

/// A pass: all goroutines meet their driver, which looks, so that all accesses of those that have retired are known; then each looks, and
/// then each has a turn, until one moves. If none has moved, and all other goroutines have ended, the run is in a deadlock, or has no page
/// or no slot left for one that lacks it.
pub fn check<L: Ledger>(
    alloc: Global,
    run: &Run<'_, '_>,
    goroutines: &mut [Box<Goroutine>],
    seat: &mut RunSeat,
    steps: &mut Steps<L>,
) -> Passed
    requires all { All (IsOf run.now) (in_boxes goroutines.old) }
    requires own { IsSeatOf seat.old.table_id run.now.table clock_at }
    requires pages { TableHasPages run.now }
    ensures all { All (IsOf run.now) (in_boxes goroutines.new) }
    ensures own { seat.new.table_id ≡ seat.old.table_id }
    ensures rows { (seat.new.me.0.records ≡ seat.old.me.0.records) × (seat.new.me.1 ≡ seat.old.me.1) }
    ensures known { All (IsKnownBy run.now.setup seat.new.me.0.seen) (in_boxes goroutines.new) }
    ensures behind { All (IsBehind seat.new.me.0.seen) (in_boxes goroutines.new) }
    ensures tidy { All (IsTidyIn run.now.setup) (in_boxes goroutines.old) → All (IsTidyIn run.now.setup) (in_boxes goroutines.new) }
    ensures passed { IsPass run.now seat.new.me (in_boxes goroutines.old) (in_boxes goroutines.new) result }
{
    meet_all(run, goroutines, seat);
    glance(run.table(), seat);
    look_all(run, goroutines, seat);
    step_all(alloc, run, goroutines, seat, steps)
}

/// A pass whose accesses to the table are counted by this ledger. The caller chooses its type, since `Steps` needs the blank of that type.
fn check_counted<L: Ledger>(
    alloc: Global,
    run: &Run<'_, '_>,
    goroutines: &mut [Box<Goroutine>],
    seat: &mut RunSeat,
    blank: Blank,
) -> Passed
    requires all { All (IsOf run.now) (in_boxes goroutines.old) }
    requires own { IsSeatOf seat.old.table_id run.now.table clock_at }
    requires pages { TableHasPages run.now }
    requires name { blank.name ≡ L.name }
    requires parts { (blank.parts ≡ L.parts) × (0 < blank.parts) }
    ensures all { All (IsOf run.now) (in_boxes goroutines.new) }
    ensures own { seat.new.table_id ≡ seat.old.table_id }
    ensures rows { (seat.new.me.0.records ≡ seat.old.me.0.records) × (seat.new.me.1 ≡ seat.old.me.1) }
    ensures behind { All (IsBehind seat.new.me.0.seen) (in_boxes goroutines.new) }
    ensures tidy { All (IsTidyIn run.now.setup) (in_boxes goroutines.old) → All (IsTidyIn run.now.setup) (in_boxes goroutines.new) }
    ensures passed { IsPass run.now seat.new.me (in_boxes goroutines.old) (in_boxes goroutines.new) result }
{
    check(alloc, run, goroutines, seat, &mut Steps::<L>::new(blank))
}

/// A pass whose accesses to the table are counted for nobody: a run needs no bound on them. The driver calls this one.
pub(crate) fn check_uncounted(
    alloc: Global,
    run: &Run<'_, '_>,
    goroutines: &mut [Box<Goroutine>],
    seat: &mut RunSeat,
) -> Passed
    requires all { All (IsOf run.now) (in_boxes goroutines.old) }
    requires own { IsSeatOf seat.old.table_id run.now.table clock_at }
    requires pages { TableHasPages run.now }
    ensures all { All (IsOf run.now) (in_boxes goroutines.new) }
    ensures own { seat.new.table_id ≡ seat.old.table_id }
    ensures rows { (seat.new.me.0.records ≡ seat.old.me.0.records) × (seat.new.me.1 ≡ seat.old.me.1) }
    ensures behind { All (IsBehind seat.new.me.0.seen) (in_boxes goroutines.new) }
    ensures tidy { All (IsTidyIn run.now.setup) (in_boxes goroutines.old) → All (IsTidyIn run.now.setup) (in_boxes goroutines.new) }
    ensures passed { IsPass run.now seat.new.me (in_boxes goroutines.old) (in_boxes goroutines.new) result }
{
    check_counted::<Brand>(alloc, run, goroutines, seat, Blank::new(1))
}

/// What is known of goroutines and turns, and what is not.
pub fn examples()
    ensures { PassingExamples }
{}
