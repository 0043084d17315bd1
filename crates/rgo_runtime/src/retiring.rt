//! Goroutines that have no more turns: what their driver keeps of them.
//!
//! Invariant (`AreRetired`): none of those that have retired has anything under way; what each has counted is in `shares`, at the place of
//! its number; and `first` is how one of them has ended the run, if one has. At most one goroutine of a run sets such a mark.
//!
//! Only the driver's thread calls these functions, between rounds. `retire` and `give_up` take the goroutine itself, so it has no turn
//! afterwards.
ghost use Rattle.std.specs.Prelude.{◌≡◌, ◌⊎◌, ◌<◌, ◌∷◌, ◌++◌, [], IsPermutation, List, MatchOption, Some, length, map, reverse, slice_set};
ghost use Rattle.std.specs.List.{All};
ghost use Rattle.rgo_table_runs.specs.Goroutine.Acts.Runs as runs;
ghost use Rattle.rgo_core.specs.Memory.Words.{clock_at};
ghost use Rattle.rgo_core.specs.Rule.Passes.{after_pass};
ghost use Rattle.rgo_core.specs.Rule.Views.{longer};
ghost use Rattle.rgo_core_steps.specs.Seats.{IsSeatOf};
ghost use Rattle.rgo_table_runs.specs.Goroutine.Goroutines.{IsOf, IsTidy, all_seen, record_of_goroutine, rows_of_children};
ghost use Rattle.rgo_runtime.specs.Crews.{AreRetired, CrewExamples, IsNewborn, IsOfCrew, DriverKeeps, KeepsMembers, its_goroutine, end_mark, member_of};
ghost use Rattle.rgo_runtime.specs.Leaving.{HaveLeft, LeavingExamples};
ghost use Rattle.rgo_runtime.specs.Parking.{all_parked, parked_values};
ghost use Rattle.rgo_table_runs.specs.Goroutine.declared.goroutine.Goroutine.{Goroutine};
ghost use Rattle.rgo_sound.specs.Tally.{no_share};
ghost use Rattle.rgo_table_runs.specs.closing.Members.{retired};

use crate::parking::Parked;
use crate::queues::Queues;
use crate::shares::Shares;
use crate::turns::Turn;
use rgo_core::table::RunSeat;
use rgo_core_steps::clock::Mark;
use rgo_table_runs::goroutine::acts::runs::Run;
use rgo_table_runs::goroutine::goroutine::Goroutine;

/// Puts what the goroutine has counted at its place, and records how it has ended the run, if it has. Exact between two of its turns, since
/// in a turn a goroutine counts for itself.
pub(crate) fn save_counts(goroutine: &Goroutine, shares: &mut Shares, first: &mut Option<Mark>)
    ensures share { (r : runs.Run) → IsOf r goroutine.now → shares.new
        ≡ slice_set shares.old goroutine.now.number (record_of_goroutine r.setup goroutine.now).clock.share }
    ensures first { MatchOption goroutine.now.first (first.new ≡ first.old) (λ mark. first.new ≡ Some mark) }
{
    if let Some(mark) = goroutine.first() {
        *first = Some(mark);
    }
    shares.set(goroutine.number(), goroutine.tally());
}

/// Retires a goroutine whose prints were gathered and whose children were adopted: its record comes to the seat of the driver. Without
/// `gathered` and `adopted`, what the goroutine still has would be lost, against the clause `kept`.
pub fn retire(
    run: &Run<'_, '_>,
    goroutine: Goroutine,
    seat: &mut RunSeat,
    shares: &mut Shares,
    first: &mut Option<Mark>,
)
    requires of { IsOf run.now goroutine }
    requires tidy { IsTidy (record_of_goroutine run.now.setup goroutine) }
    requires gathered { goroutine.prints.items ≡ [] }
    requires adopted { goroutine.children.items ≡ [] }
    requires place { goroutine.number < length shares.old }
    requires own { IsSeatOf seat.old.table_id run.now.table clock_at }
    ensures own { (seat.new.table_id ≡ seat.old.table_id) × (seat.new.me.1 ≡ seat.old.me.1) }
    ensures places { length shares.new ≡ length shares.old }
    ensures records { seat.new.me.0.records
        ≡ seat.old.me.0.records ++ (goroutine.number, record_of_goroutine run.now.setup goroutine) ∷ [] }
    ensures seen { seat.new.me.0.seen ≡ longer seat.old.me.0.seen goroutine.actor.seat.me.0.seen }
    ensures retired { AreRetired seat.old.me.0.records shares.old (end_mark first.old)
        → AreRetired seat.new.me.0.records shares.new (end_mark first.new) }
    ensures kept { DriverKeeps (member_of run.now.setup goroutine ∷ map retired seat.old.me.0.records) []
        (map retired seat.new.me.0.records) [] }
{
    save_counts(&goroutine, shares, first);
    goroutine.retire(run, seat);
}

/// Gives a goroutine up, on allocation failure: its record comes to the seat of the driver, and after it the records of the goroutines that
/// it has started and that were not adopted. Its prints that were not gathered remain in its record alone. A goroutine that has counted
/// nothing needs no place.
pub fn give_up(
    run: &Run<'_, '_>,
    goroutine: Goroutine,
    seat: &mut RunSeat,
    shares: &mut Shares,
    first: &mut Option<Mark>,
)
    requires of { IsOf run.now goroutine }
    requires tidy { IsTidy (record_of_goroutine run.now.setup goroutine) }
    requires place { (goroutine.number < length shares.old)
        ⊎ ((record_of_goroutine run.now.setup goroutine).clock.share ≡ no_share) }
    requires own { IsSeatOf seat.old.table_id run.now.table clock_at }
    ensures own { (seat.new.table_id ≡ seat.old.table_id) × (seat.new.me.1 ≡ seat.old.me.1) }
    ensures places { length shares.new ≡ length shares.old }
    ensures records { seat.new.me.0.records ≡ seat.old.me.0.records
        ++ (goroutine.number, record_of_goroutine run.now.setup goroutine) ∷ rows_of_children run.now.setup goroutine.children.items }
    ensures seen { seat.new.me.0.seen
        ≡ after_pass (longer seat.old.me.0.seen goroutine.actor.seat.me.0.seen) (all_seen goroutine.children.items) }
    ensures retired { AreRetired seat.old.me.0.records shares.old (end_mark first.old)
        → AreRetired seat.new.me.0.records shares.new (end_mark first.new) }
    ensures kept { KeepsMembers (member_of run.now.setup goroutine ∷ map retired seat.old.me.0.records)
        (map retired seat.new.me.0.records) }
{
    save_counts(&goroutine, shares, first);
    goroutine.give_up(run, seat);
}

/// What goroutines have counted, each share at the place of its goroutine's number, and how one of them has ended the run. It is a copy:
/// those that have not retired continue to count.
#[derive(Drop)]
pub struct Snapshot {
    pub shares: Shares,
    pub first: Option<Mark>,
}

/// What is left of goroutines that have no more turns.
#[derive(Drop)]
pub struct Left {
    /// The seat of their driver, with their records.
    pub seat: RunSeat,
    /// What each has counted, at the place of its number.
    pub shares: Shares,
    /// How one of them has ended the run, if one has.
    pub first: Option<Mark>,
    /// Whether nothing of them is lost. If memory was refused, prints may be that were not gathered.
    pub is_whole: bool,
}

/// Retires a goroutine. If its prints were not gathered, or its children not adopted, or it has no place, as after memory was refused, it
/// is given up. Neither way needs memory, so a run can always be closed.
pub(crate) fn retire_or_give_up(run: &Run<'_, '_>, goroutine: Goroutine, left: &mut Left)
    requires of { IsOf run.now goroutine }
    requires tidy { IsTidy (record_of_goroutine run.now.setup goroutine) }
    requires place { (goroutine.number < length left.old.shares)
        ⊎ ((record_of_goroutine run.now.setup goroutine).clock.share ≡ no_share) }
    requires own { IsSeatOf left.old.seat.table_id run.now.table clock_at }
    ensures { HaveLeft run.now.setup (goroutine ∷ []) left.old left.new }
{
    let is_empty = goroutine.new_prints() == 0 && goroutine.new_children() == 0;
    if is_empty && left.shares.has_place(goroutine.number()) {
        retire(
            run,
            goroutine,
            &mut left.seat,
            &mut left.shares,
            &mut left.first,
        );
    } else {
        left.is_whole = false;
        give_up(
            run,
            goroutine,
            &mut left.seat,
            &mut left.shares,
            &mut left.first,
        );
    }
}

/// Retires the goroutines of the run queue, or gives them up. The last goes first, since then none of the others moves; the order means
/// nothing, as the records are found by number.
pub(crate) fn retire_turns<'r, 'c>(
    run: &'r Run<'r, 'c>,
    mut turns: Vec<Turn<'r, 'c>>,
    left: &mut Left,
)
    requires all { All (IsOfCrew run.now (length left.old.shares)) turns.items }
    requires own { IsSeatOf left.old.seat.table_id run.now.table clock_at }
    ensures { HaveLeft run.now.setup (reverse (map its_goroutine turns.entry.items)) left.old left.new }
{
    while let Some(turn) = turns.pop() {
        retire_or_give_up(run, turn.into_goroutine(), left);
    }
}

/// Retires those that wait to do one operation, or gives them up.
fn retire_queues<'r, 'c>(run: &'r Run<'r, 'c>, mut queues: Queues<Turn<'r, 'c>>, left: &mut Left)
    requires all { All (IsOfCrew run.now (length left.old.shares)) (parked_values queues) }
    requires own { IsSeatOf left.old.seat.table_id run.now.table clock_at }
    ensures { (gone : List Goroutine) × IsPermutation gone (map its_goroutine (parked_values queues.entry))
        × HaveLeft run.now.setup gone left.old left.new }
{
    while let Some(group) = queues.pop() {
        retire_turns(run, group, left);
    }
}

/// Retires those that are parked, or gives them up.
pub(crate) fn retire_parked<'r, 'c>(
    run: &'r Run<'r, 'c>,
    parked: Parked<Turn<'r, 'c>>,
    left: &mut Left,
)
    requires all { All (IsOfCrew run.now (length left.old.shares)) (parked_values (all_parked parked)) }
    requires own { IsSeatOf left.old.seat.table_id run.now.table clock_at }
    ensures { (gone : List Goroutine) × IsPermutation gone (map its_goroutine (parked_values (all_parked parked.entry)))
        × HaveLeft run.now.setup gone left.old left.new }
{
    let (senders, receivers, offerers) = parked.into_queues();
    retire_queues(run, senders, left);
    retire_queues(run, receivers, left);
    retire_queues(run, offerers, left);
}

/// Retires those that were just started, or gives them up. They have counted nothing, so they need no place. There are some only if memory
/// was refused in the last round: `enqueue_newborns` leaves none.
pub(crate) fn retire_newborns(run: &Run<'_, '_>, mut born: Vec<Goroutine>, left: &mut Left)
    requires all { All (IsNewborn run.now) born.items }
    requires own { IsSeatOf left.old.seat.table_id run.now.table clock_at }
    ensures { HaveLeft run.now.setup (reverse born.items) left.old left.new }
{
    while let Some(goroutine) = born.pop() {
        retire_or_give_up(run, goroutine, left);
    }
}

/// Examples of members that a driver keeps, and of some that it loses.
pub fn examples()
    ensures { CrewExamples }
{}

/// Examples of what is left of goroutines, and of what cannot be.
pub fn leaving_examples()
    ensures { LeavingExamples }
{}
