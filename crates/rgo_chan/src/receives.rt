//! Receives: of the oldest value of a buffer, of another goroutine's offer, or of zero from a closed channel in which nothing is
//! left.
ghost use Rattle.std.specs.Prelude.{◌≡◌, ◌≢◌, ◌≤◌, ◌<◌, ◌+◌, ◌^◌, ℕ, suc, [], ◌∷◌, ◌++◌};
ghost use Rattle.rgo_chan.specs.Answers.{Holds, Receives, cell_word, commits, loads_cell, numbers, reaches, without_oldest};
ghost use Rattle.rgo_chan.specs.Before.{IsBeforeReceive, IsPaged, LiesIn, ReceivesAt, control_of_channel};
ghost use Rattle.rgo_chan.specs.Ready.{HasOffer, HasValue, IsDrained};
ghost use Rattle.rgo_chan.specs.declared.answers.Tried.TheVariants.{NotReady};
ghost use Rattle.rgo_core.specs.ties.Bounds.{Points};
ghost use Rattle.rgo_core.specs.Core.{layout};
ghost use Rattle.rgo_core.specs.runs.Plans.{setup_of};
ghost use Rattle.rgo_core.specs.Channels.Controls.{extent, head_of, tail_words};
ghost use Rattle.rgo_core.specs.Channels.Records.{Free};
ghost use Rattle.rgo_core.specs.Memory.Words.{all_words, base as base_of};
ghost use Rattle.rgo_core_steps.specs.Accesses.{given_type};
ghost use Rattle.rgo_core_steps.specs.After.{committing};
ghost use Rattle.rgo_core_steps.specs.Calls.{Did, IsSeatIn, accessing};
ghost use Rattle.rgo_core_steps.specs.Seats.{HasOne, HasPossible, Settles, mine, settled};

use crate::answers::{Tried, has_value, is_empty};
use crate::looks::look;
use crate::reaching::{Pages, reach};
use rgo_core::channels::controls::{head, is_closed, is_locked};
use rgo_core::table::{RunSeat, RunTable};
use rgo_core_steps::channels::{commit_meet, commit_receive, commit_zero, load_cell, lock};
use rgo_core_steps::counting::Steps;
use std::sync::ledger::Ledger;

/// Takes the oldest value of the buffer, under the lock. The cell is loaded before the commit: after it, a sender may use the cell.
fn pop<L: Ledger>(
    table: &RunTable,
    seat: &mut RunSeat,
    pages: Pages,
    at: usize,
    size: u64,
    control: u64,
    steps: &mut Steps<L>,
) -> u64
    requires own { IsSeatIn (setup_of table.now.shared.key) seat.old.table_id table.now.shared.table_id }
    requires paged { IsPaged (setup_of table.now.shared.key) pages.base pages.words }
    requires inside { let T = setup_of table.now.shared.key in
        at + 2 + tail_words T.sizes.page_words size ≤ all_words (layout T) }
    requires cell { head_of control < extent size }
    requires small { size < 1073741820 }
    requires alone { HasOne (setup_of table.now.shared.key) seat.old.me }
    requires held { Holds at size control (mine (setup_of table.now.shared.key) seat.old.me).side }
    requires here { let T = setup_of table.now.shared.key in ReceivesAt T (mine T seat.old.me) at }
    requires some { HasValue size control }
    ensures own { (seat.new.table_id ≡ seat.old.table_id) × (seat.new.id ≡ seat.old.id) }
    ensures steps { let T = setup_of table.now.shared.key in steps.new ≡ steps.old + numbers T size + 2 }
    ensures popped { let T = setup_of table.now.shared.key in (k y : ℕ)
        × Did T seat.old.me steps.old
        (λ g. reaches T at size (head_of control) k g
        ++ loads_cell (cell_word T at size (head_of control) k) result g
        ∷ commits at y (without_oldest size control) g ∷ [])
        (committing T.code (accessing (suc (numbers T size)) (mine T seat.old.me)) result) seat.new.me steps.new }
    ensures points { let T = setup_of table.now.shared.key in
        Points T (given_type T (mine T seat.old.me)) result }
    ensures possible { HasPossible (setup_of table.now.shared.key) seat.new.me }
{
    let cell = head(control) as usize;
    let word = reach(table, seat, pages, at, size, cell, steps);
    let value = load_cell(table, seat, at, cell, word);
    steps.tick();
    commit_receive(table, seat, at, control, size);
    steps.tick();
    value
}

/// Takes the offer at a channel without a buffer, under the lock. With the commit both goroutines make their instruction; the
/// sender learns of it by its acknowledgement.
fn take_offer<L: Ledger>(
    table: &RunTable,
    seat: &mut RunSeat,
    pages: Pages,
    at: usize,
    control: u64,
    steps: &mut Steps<L>,
) -> u64
    requires own { IsSeatIn (setup_of table.now.shared.key) seat.old.table_id table.now.shared.table_id }
    requires paged { IsPaged (setup_of table.now.shared.key) pages.base pages.words }
    requires inside { let T = setup_of table.now.shared.key in
        at + 2 + tail_words T.sizes.page_words 0 ≤ all_words (layout T) }
    requires fits { control + 4 < 2 ^ 64 }
    requires alone { HasOne (setup_of table.now.shared.key) seat.old.me }
    requires held { Holds at 0 control (mine (setup_of table.now.shared.key) seat.old.me).side }
    requires here { let T = setup_of table.now.shared.key in ReceivesAt T (mine T seat.old.me) at }
    requires offered { HasOffer 0 control }
    ensures own { (seat.new.table_id ≡ seat.old.table_id) × (seat.new.id ≡ seat.old.id) }
    ensures steps { let T = setup_of table.now.shared.key in steps.new ≡ steps.old + numbers T 0 + 2 }
    ensures taken { let T = setup_of table.now.shared.key in (k y : ℕ)
        × Did T seat.old.me steps.old
        (λ g. reaches T at 0 0 k g ++ loads_cell (cell_word T at 0 0 k) result g ∷ commits at y (control + 4) g ∷ [])
        (committing T.code (accessing (suc (numbers T 0)) (mine T seat.old.me)) result) seat.new.me steps.new }
    ensures points { let T = setup_of table.now.shared.key in
        Points T (given_type T (mine T seat.old.me)) result }
    ensures possible { HasPossible (setup_of table.now.shared.key) seat.new.me }
{
    let word = reach(table, seat, pages, at, 0, 0, steps);
    let value = load_cell(table, seat, at, 0, word);
    steps.tick();
    commit_meet(table, seat, at, control);
    steps.tick();
    value
}

/// A receive from the channel whose control is word `at`. That the channel is closed is tested after whether it has a value: what was
/// sent before the close is received first.
fn receive_at<L: Ledger>(
    table: &RunTable,
    seat: &mut RunSeat,
    behind: u64,
    pages: Pages,
    at: usize,
    steps: &mut Steps<L>,
) -> Tried
    requires own { IsSeatIn (setup_of table.now.shared.key) seat.old.table_id table.now.shared.table_id }
    requires paged { IsPaged (setup_of table.now.shared.key) pages.base pages.words }
    requires lies { at + 3 ≤ all_words (layout (setup_of table.now.shared.key)) }
    requires alone { HasOne (setup_of table.now.shared.key) seat.old.me }
    requires settles { Settles (setup_of table.now.shared.key) behind seat.old.me }
    requires free { (settled (setup_of table.now.shared.key) behind seat.old.me).side.hold ≡ Free }
    requires here { let T = setup_of table.now.shared.key in ReceivesAt T (settled T behind seat.old.me) at }
    ensures own { (seat.new.table_id ≡ seat.old.table_id) × (seat.new.id ≡ seat.old.id) }
    ensures steps { steps.new ≤ steps.old + 6 }
    ensures answers { let T = setup_of table.now.shared.key in
        Receives T at (settled T behind seat.old.me) result seat.old.me steps.old seat.new.me steps.new }
    ensures possible { HasPossible (setup_of table.now.shared.key) seat.new.me }
{
    let seen = look(table, seat, behind, at, steps);
    let size = seen.size;
    let control = seen.control;
    if is_locked(control) {
        return Tried::Busy { found: control };
    }
    if is_empty(size, control) {
        return Tried::NotReady;
    }
    let found = lock(table, seat, at, control);
    steps.tick();
    if found != control {
        return Tried::Busy { found };
    }
    if has_value(size, control) {
        let value = pop(table, seat, pages, at, size, control, steps);
        return Tried::Done(value);
    }
    if is_closed(control) {
        // The control stays as it was. The store only unlocks it, and with that the receive takes effect.
        commit_zero(table, seat, at, control);
        steps.tick();
        return Tried::Done(0);
    }
    // Not empty, no buffered value and not closed: what is left is an offer that was not taken.
    let value = take_offer(table, seat, pages, at, control, steps);
    Tried::Done(value)
}

/// Tries to receive, as the next instruction does. `base` is the word of the table that has address 0, `page_words` how many words
/// a page has, and `channel` the word of the channel in the frame; the goroutine has made `behind` local steps since its last
/// access.
///
/// - `Done(v)`: v is the oldest value of the buffer, or the value of an offer, or 0 since the channel is closed and nothing is left
///   in it. The instruction is made.
/// - `NotReady`: the channel is open, and its buffer is empty or it has no offer that could be taken; or it is nil, and then no
///   access was made.
/// - `Busy`: the control was locked, or the exchange found another. The instruction is not made, and may be tried again.
///
/// Called by the goroutine itself, which must have no offer and no lock.
pub fn receive<L: Ledger>(
    table: &RunTable,
    seat: &mut RunSeat,
    behind: u64,
    base: usize,
    page_words: usize,
    channel: u64,
    steps: &mut Steps<L>,
) -> Tried
    requires own { IsSeatIn (setup_of table.now.shared.key) seat.old.table_id table.now.shared.table_id }
    requires first { base ≡ base_of (layout (setup_of table.now.shared.key)) }
    requires words { page_words ≡ (setup_of table.now.shared.key).sizes.page_words }
    requires some { channel ≢ 0 → 0 < page_words }
    requires lies { LiesIn (setup_of table.now.shared.key) base channel }
    requires alone { HasOne (setup_of table.now.shared.key) seat.old.me }
    requires settles { Settles (setup_of table.now.shared.key) behind seat.old.me }
    requires free { (settled (setup_of table.now.shared.key) behind seat.old.me).side.hold ≡ Free }
    requires here { let T = setup_of table.now.shared.key in IsBeforeReceive T (settled T behind seat.old.me) channel }
    ensures own { (seat.new.table_id ≡ seat.old.table_id) × (seat.new.id ≡ seat.old.id) }
    ensures steps { steps.new ≤ steps.old + 6 }
    ensures nil { channel ≡ 0
        → (result ≡ NotReady) × (seat.new.me ≡ seat.old.me) × (steps.new ≡ steps.old) }
    ensures answers { channel ≢ 0 → let T = setup_of table.now.shared.key in
        Receives T (control_of_channel base channel) (settled T behind seat.old.me) result
        seat.old.me steps.old seat.new.me steps.new }
    ensures possible { channel ≢ 0 → HasPossible (setup_of table.now.shared.key) seat.new.me }
{
    if channel == 0 {
        return Tried::NotReady;
    }
    let pages = Pages {
        base,
        words: page_words,
    };
    receive_at(
        table,
        seat,
        behind,
        pages,
        base + (channel as usize - 1),
        steps,
    )
}
