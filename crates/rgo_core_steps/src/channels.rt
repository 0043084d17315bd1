//! Accesses to the words of a channel. `at` is the word of its control; the word after it has the capacity, and the cells follow,
//! or if the channel is spread, the numbers of the data pages that have the cells.
//!
//! A goroutine operates on a channel in these steps, each of which is one access:
//! 1. It loads the capacity and the control: [`capacity`], [`control`]; [`own_control`] if its own offer is at the channel. The control
//!    comes last, so that an answer is about the last word that was loaded.
//! 2. It exchanges the unlocked control for the locked one: [`lock`]. If another goroutine has changed the control since, the
//!    exchange changes nothing, and what the goroutine has decided is void: it may begin again with step 1.
//! 3. Under the lock it loads a cell or stores one that holds nothing: [`load_cell`], [`store_cell`]. Of a spread channel it first
//!    loads the number of the cell's page: [`page_number`].
//! 4. It stores the unlocked control of the channel after the operation. With this store the operation takes effect:
//!    [`commit_send`], [`commit_receive`], [`commit_zero`], [`commit_close`], [`commit_offer`], [`commit_meet`],
//!    [`commit_acknowledge`].
//!
//! All other goroutines find a locked control between 2 and 4, and decide nothing by it. So the goroutine may be stopped there, and only
//! its own turn ends the lock. `behind` is how many local steps the goroutine has made since its last access. Between the accesses of
//! one operation, and while its offer is at a channel, it makes none.
//!
//! Each call is made by the goroutine whose record is on the seat. Why: docs/DECISIONS.md, "Operations on channels".
ghost use Rattle.std.specs.Prelude.{◌≡◌, ◌+◌, ◌-◌, ◌/◌, ◌%◌, ◌^◌, ◌<◌, ◌==◌, ℕ};
ghost use prog.Atomic.{either};
ghost use Rattle.rgo_core.specs.ties.AtChannels.{IsAtChannel, knows};
ghost use Rattle.rgo_core.specs.ties.Bounds.{Points};
ghost use Rattle.rgo_core.specs.moves.Commits.{offers};
ghost use Rattle.rgo_core.specs.runs.Plans.{setup_of};
ghost use Rattle.rgo_core.specs.Channels.Controls.{closed_of, control as control_of, count_of, head_of};
ghost use Rattle.rgo_core.specs.Channels.Records.{Free, Offering, Read, Wrote, with_hold, with_lock};
ghost use Rattle.rgo_core.specs.Rule.declared.accesses.Kind.TheVariants as kind;
ghost use Rattle.rgo_core_steps.specs.Accesses.{given_type};
ghost use Rattle.rgo_core_steps.specs.After.{acknowledging, committing};
ghost use Rattle.rgo_core_steps.specs.ChannelExamples.{ChannelAccessExamples};
ghost use Rattle.rgo_core_steps.specs.Channels.{CanAcknowledge, CanClose, CanLoadCell, RecordCanMeet, CanOffer, CanReachCell, CanReceive, CanReceiveZero, CanSend, CanStoreCell, ShowsCapacity, ShowsControl, ShowsOwnControl, ShowsPage, found_by, value_by};
ghost use Rattle.rgo_core_steps.specs.Seats.{HasOne, HasPossible, IsSeatOf, HasAccessed, Settles, Stored, mine, settled};

use rgo_core::channels::controls::without_oldest;
use rgo_core::records::Record;
use rgo_core::rule::steps::{compare_exchange, load, store};
use rgo_core::table::{ByRuns, Plan, RunSeat, RunTable};
use std::marker::Brand;

// ---- loads

/// Loads the control, before the goroutine decides whether its operation can take effect. The goroutine is before an operation on
/// the channel, or its offer is there. An unlocked control may change at once; one that shows a closed channel stays closed.
pub fn control(table: &RunTable, seat: &mut RunSeat, behind: u64, at: usize) -> u64
    requires own { IsSeatOf seat.old.table_id table.now.shared.table_id at }
    requires alone { HasOne (setup_of table.now.shared.key) seat.old.me }
    requires settles { Settles (setup_of table.now.shared.key) behind seat.old.me }
    requires here { let T = setup_of table.now.shared.key in IsAtChannel T (settled T behind seat.old.me) at }
    ensures own { (seat.new.table_id ≡ seat.old.table_id) × (seat.new.id ≡ seat.old.id) }
    ensures leaves { let T = setup_of table.now.shared.key in
        HasAccessed T kind.LoadControl at (λ n. n) (ShowsControl (settled T behind seat.old.me) at)
        seat.old.me result seat.new.me }
    ensures possible { HasPossible (setup_of table.now.shared.key) seat.new.me }
{
    load::<Record, Plan, ByRuns, Brand, _>(table, seat, at, &behind)
}

/// Loads the control of the channel at which the goroutine's own offer is, to see whether it was taken. A taken offer stays taken
/// until this goroutine acknowledges it.
pub fn own_control(table: &RunTable, seat: &mut RunSeat, at: usize) -> u64
    requires own { IsSeatOf seat.old.table_id table.now.shared.table_id at }
    requires alone { HasOne (setup_of table.now.shared.key) seat.old.me }
    requires offering { (mine (setup_of table.now.shared.key) seat.old.me).side.post ≡ Offering at }
    ensures own { (seat.new.table_id ≡ seat.old.table_id) × (seat.new.id ≡ seat.old.id) }
    ensures leaves { let T = setup_of table.now.shared.key in
        HasAccessed T kind.LoadControl at (λ n. n) (ShowsOwnControl (mine T seat.old.me) at) seat.old.me result seat.new.me }
    ensures possible { HasPossible (setup_of table.now.shared.key) seat.new.me }
{
    load::<Record, Plan, ByRuns, Brand, _>(table, seat, at, &())
}

/// Loads the capacity, which never changes: it may be loaded at any moment at which the goroutine is at the channel.
pub fn capacity(table: &RunTable, seat: &mut RunSeat, behind: u64, at: usize) -> u64
    requires own { IsSeatOf seat.old.table_id table.now.shared.table_id (at + 1) }
    requires fits { at + 1 < 2 ^ 64 }
    requires alone { HasOne (setup_of table.now.shared.key) seat.old.me }
    requires settles { Settles (setup_of table.now.shared.key) behind seat.old.me }
    requires here { let T = setup_of table.now.shared.key in IsAtChannel T (settled T behind seat.old.me) at }
    ensures own { (seat.new.table_id ≡ seat.old.table_id) × (seat.new.id ≡ seat.old.id) }
    ensures leaves { let T = setup_of table.now.shared.key in
        HasAccessed T kind.Load (at + 1) (λ n. n) (ShowsCapacity T (settled T behind seat.old.me) at)
        seat.old.me result seat.new.me }
    ensures possible { HasPossible (setup_of table.now.shared.key) seat.new.me }
{
    load::<Record, Plan, ByRuns, Brand, _>(table, seat, at + 1, &(behind, at))
}

// ---- the lock

/// Locks the channel, if its control is still `control`, which is unlocked. Returns what the control was: the channel is locked by
/// the caller exactly if this equals `control`. Anything else means that another goroutine has operated on the channel or has it
/// locked. A failed exchange is not repeated here: that loop might never end, and it would keep a worker busy.
pub fn lock(table: &RunTable, seat: &mut RunSeat, at: usize, control: u64) -> u64
    requires own { IsSeatOf seat.old.table_id table.now.shared.table_id at }
    requires alone { HasOne (setup_of table.now.shared.key) seat.old.me }
    requires here { let T = setup_of table.now.shared.key in IsAtChannel T (mine T seat.old.me) at }
    requires unlocked { control % 2 ≡ 0 }
    requires free { (mine (setup_of table.now.shared.key) seat.old.me).side.hold ≡ Free }
    ensures own { (seat.new.table_id ≡ seat.old.table_id) × (seat.new.id ≡ seat.old.id) }
    ensures leaves { let T = setup_of table.now.shared.key in let c = mine T seat.old.me in
        HasAccessed T kind.LockChannel at (λ n. either (n == control) (control + 1) n)
        (λ n d. d ≡ knows c (with_lock c.side at control n)) seat.old.me result seat.new.me }
    ensures possible { HasPossible (setup_of table.now.shared.key) seat.new.me }
{
    compare_exchange::<Record, Plan, ByRuns, Brand, _>(table, seat, at, control, control + 1, &())
}

// ---- cells

/// Loads the number, plus 1, of the data page that has a cell of a spread channel. The number never changes, so no lock is needed.
pub fn page_number(
    table: &RunTable,
    seat: &mut RunSeat,
    at: usize,
    cell: usize,
    page_words: usize,
) -> u64
    requires own { IsSeatOf seat.old.table_id table.now.shared.table_id (at + 2 + cell / page_words) }
    requires fits { at + 2 + cell / page_words < 2 ^ 64 }
    requires size { page_words ≡ (setup_of table.now.shared.key).sizes.page_words }
    requires some { 0 < page_words }
    requires alone { HasOne (setup_of table.now.shared.key) seat.old.me }
    requires sized { let T = setup_of table.now.shared.key in CanReachCell T (mine T seat.old.me) at cell }
    ensures own { (seat.new.table_id ≡ seat.old.table_id) × (seat.new.id ≡ seat.old.id) }
    ensures leaves { let T = setup_of table.now.shared.key in
        HasAccessed T kind.LoadIndex (at + 2 + cell / page_words) (λ n. n) (ShowsPage T (mine T seat.old.me) at cell)
        seat.old.me result seat.new.me }
    ensures possible { HasPossible (setup_of table.now.shared.key) seat.new.me }
{
    load::<Record, Plan, ByRuns, Brand, _>(table, seat, at + 2 + cell / page_words, &(at, cell))
}

/// Loads a cell, which is this word of the table, under the lock: nobody takes the value before the commit.
pub fn load_cell(table: &RunTable, seat: &mut RunSeat, at: usize, cell: usize, word: usize) -> u64
    requires own { IsSeatOf seat.old.table_id table.now.shared.table_id word }
    requires alone { HasOne (setup_of table.now.shared.key) seat.old.me }
    requires held { let T = setup_of table.now.shared.key in CanLoadCell T (mine T seat.old.me) at cell word }
    ensures own { (seat.new.table_id ≡ seat.old.table_id) × (seat.new.id ≡ seat.old.id) }
    ensures leaves { let T = setup_of table.now.shared.key in let c = mine T seat.old.me in
        HasAccessed T kind.LoadCell word (λ n. n)
        (λ n d. d ≡ knows c (with_hold c.side (Read at (found_by c.side.hold) cell n))) seat.old.me result seat.new.me }
    ensures possible { HasPossible (setup_of table.now.shared.key) seat.new.me }
{
    load::<Record, Plan, ByRuns, Brand, _>(table, seat, word, &(at, cell))
}

/// Stores the word of a value in a cell that holds nothing, under the lock. It comes before the commit, which makes others read the cell.
pub fn store_cell(
    table: &RunTable,
    seat: &mut RunSeat,
    at: usize,
    cell: usize,
    word: usize,
    value: u64,
)
    requires own { IsSeatOf seat.old.table_id table.now.shared.table_id word }
    requires alone { HasOne (setup_of table.now.shared.key) seat.old.me }
    requires held { let T = setup_of table.now.shared.key in CanStoreCell T (mine T seat.old.me) at cell word }
    ensures own { (seat.new.table_id ≡ seat.old.table_id) × (seat.new.id ≡ seat.old.id) }
    ensures stored { let T = setup_of table.now.shared.key in let c = mine T seat.old.me in
        Stored T kind.StoreCell word value
        (knows c (with_hold c.side (Wrote at (found_by c.side.hold) cell value))) seat.old.me seat.new.me }
    ensures possible { HasPossible (setup_of table.now.shared.key) seat.new.me }
{
    store::<Record, Plan, ByRuns, Brand, _>(table, seat, word, value, &(at, cell));
}

// ---- commits. `control` is what the goroutine found when it locked the channel. Each is a plain store: no other goroutine changes
// the control in between.

/// Sends into a buffer: the control counts one value more, which was stored before.
pub fn commit_send(table: &RunTable, seat: &mut RunSeat, at: usize, control: u64)
    requires own { IsSeatOf seat.old.table_id table.now.shared.table_id at }
    requires fits { control + 4 < 2 ^ 64 }
    requires alone { HasOne (setup_of table.now.shared.key) seat.old.me }
    requires ready { let T = setup_of table.now.shared.key in CanSend T (mine T seat.old.me) at control }
    ensures own { (seat.new.table_id ≡ seat.old.table_id) × (seat.new.id ≡ seat.old.id) }
    ensures stored { let T = setup_of table.now.shared.key in
        Stored T kind.Commit at (control + 4) (committing T.code (mine T seat.old.me) 0) seat.old.me seat.new.me }
    ensures possible { HasPossible (setup_of table.now.shared.key) seat.new.me }
{
    store::<Record, Plan, ByRuns, Brand, _>(table, seat, at, control + 4, &());
}

/// Receives the oldest value of a buffer: there is one value less, and the next cell is the oldest. The word that was loaded is a
/// value of the type of the variable that gets it.
pub fn commit_receive(table: &RunTable, seat: &mut RunSeat, at: usize, control: u64, size: u64)
    requires own { IsSeatOf seat.old.table_id table.now.shared.table_id at }
    requires small { size < 1073741820 }
    requires alone { HasOne (setup_of table.now.shared.key) seat.old.me }
    requires ready { let T = setup_of table.now.shared.key in CanReceive T (mine T seat.old.me) at control size }
    ensures own { (seat.new.table_id ≡ seat.old.table_id) × (seat.new.id ≡ seat.old.id) }
    ensures stored { let T = setup_of table.now.shared.key in let c = mine T seat.old.me in
        Stored T kind.Commit at (control_of (closed_of control) (count_of control - 1) ((head_of control + 1) % size))
        (committing T.code c (value_by c.side.hold)) seat.old.me seat.new.me }
    ensures points { let T = setup_of table.now.shared.key in let c = mine T seat.old.me in
        Points T (given_type T c) (value_by c.side.hold) }
    ensures possible { HasPossible (setup_of table.now.shared.key) seat.new.me }
{
    let new = without_oldest(control, size);
    store::<Record, Plan, ByRuns, Brand, _>(table, seat, at, new, &());
}

/// Receives zero from a closed channel in which nothing is left. The control stays as it was, so this only unlocks.
pub fn commit_zero(table: &RunTable, seat: &mut RunSeat, at: usize, control: u64)
    requires own { IsSeatOf seat.old.table_id table.now.shared.table_id at }
    requires alone { HasOne (setup_of table.now.shared.key) seat.old.me }
    requires ready { let T = setup_of table.now.shared.key in CanReceiveZero T (mine T seat.old.me) at control }
    ensures own { (seat.new.table_id ≡ seat.old.table_id) × (seat.new.id ≡ seat.old.id) }
    ensures stored { let T = setup_of table.now.shared.key in
        Stored T kind.Commit at control (committing T.code (mine T seat.old.me) 0) seat.old.me seat.new.me }
    ensures possible { HasPossible (setup_of table.now.shared.key) seat.new.me }
{
    store::<Record, Plan, ByRuns, Brand, _>(table, seat, at, control, &());
}

/// Closes the channel. Goroutines that wait there are not touched: each sees it when it looks again.
pub fn commit_close(table: &RunTable, seat: &mut RunSeat, at: usize, control: u64)
    requires own { IsSeatOf seat.old.table_id table.now.shared.table_id at }
    requires fits { control + 2 < 2 ^ 64 }
    requires alone { HasOne (setup_of table.now.shared.key) seat.old.me }
    requires ready { let T = setup_of table.now.shared.key in CanClose T (mine T seat.old.me) at control }
    ensures own { (seat.new.table_id ≡ seat.old.table_id) × (seat.new.id ≡ seat.old.id) }
    ensures stored { let T = setup_of table.now.shared.key in
        Stored T kind.Commit at (control + 2) (committing T.code (mine T seat.old.me) 0) seat.old.me seat.new.me }
    ensures possible { HasPossible (setup_of table.now.shared.key) seat.new.me }
{
    store::<Record, Plan, ByRuns, Brand, _>(table, seat, at, control + 2, &());
}

/// Offers a value at a channel without a buffer. The goroutine stays at its send, and no instruction is counted.
pub fn commit_offer(table: &RunTable, seat: &mut RunSeat, at: usize, control: u64)
    requires own { IsSeatOf seat.old.table_id table.now.shared.table_id at }
    requires fits { control + 4 < 2 ^ 64 }
    requires alone { HasOne (setup_of table.now.shared.key) seat.old.me }
    requires ready { let T = setup_of table.now.shared.key in CanOffer T (mine T seat.old.me) at control }
    ensures own { (seat.new.table_id ≡ seat.old.table_id) × (seat.new.id ≡ seat.old.id) }
    ensures stored { let T = setup_of table.now.shared.key in
        Stored T kind.Commit at (control + 4) (offers (mine T seat.old.me) at) seat.old.me seat.new.me }
    ensures possible { HasPossible (setup_of table.now.shared.key) seat.new.me }
{
    store::<Record, Plan, ByRuns, Brand, _>(table, seat, at, control + 4, &());
}

/// Takes the offer at a channel without a buffer. Both instructions are done in the run now. Its sender acknowledges that later, since
/// only its own accesses change its record.
pub fn commit_meet(table: &RunTable, seat: &mut RunSeat, at: usize, control: u64)
    requires own { IsSeatOf seat.old.table_id table.now.shared.table_id at }
    requires fits { control + 4 < 2 ^ 64 }
    requires alone { HasOne (setup_of table.now.shared.key) seat.old.me }
    requires ready { let T = setup_of table.now.shared.key in RecordCanMeet T (mine T seat.old.me) at control }
    ensures own { (seat.new.table_id ≡ seat.old.table_id) × (seat.new.id ≡ seat.old.id) }
    ensures stored { let T = setup_of table.now.shared.key in let c = mine T seat.old.me in
        Stored T kind.Commit at (control + 4) (committing T.code c (value_by c.side.hold)) seat.old.me seat.new.me }
    ensures points { let T = setup_of table.now.shared.key in let c = mine T seat.old.me in
        Points T (given_type T c) (value_by c.side.hold) }
    ensures possible { HasPossible (setup_of table.now.shared.key) seat.new.me }
{
    store::<Record, Plan, ByRuns, Brand, _>(table, seat, at, control + 4, &());
}

/// Acknowledges that the goroutine's own offer was taken: the channel has no offer then, and the goroutine leaves its send. It has to
/// lock like any other operation, since a close may come at the same time.
pub fn commit_acknowledge(table: &RunTable, seat: &mut RunSeat, at: usize, control: u64)
    requires own { IsSeatOf seat.old.table_id table.now.shared.table_id at }
    requires alone { HasOne (setup_of table.now.shared.key) seat.old.me }
    requires ready { let T = setup_of table.now.shared.key in CanAcknowledge T (mine T seat.old.me) at control }
    ensures own { (seat.new.table_id ≡ seat.old.table_id) × (seat.new.id ≡ seat.old.id) }
    ensures stored { let T = setup_of table.now.shared.key in
        Stored T kind.Commit at (control - 8) (acknowledging T.code (mine T seat.old.me)) seat.old.me seat.new.me }
    ensures possible { HasPossible (setup_of table.now.shared.key) seat.new.me }
{
    store::<Record, Plan, ByRuns, Brand, _>(table, seat, at, control - 8, &());
}

/// Where the premise of an access holds, and where it does not.
pub fn examples()
    ensures { ChannelAccessExamples }
{}
