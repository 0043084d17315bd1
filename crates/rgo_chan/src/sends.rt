//! Sends: into a buffer, or as an offer at a channel without one.
ghost use Rattle.std.specs.Prelude.{◌≡◌, ◌≢◌, ◌≤◌, ◌<◌, ◌+◌, ◌^◌, ℕ, suc, [], ◌∷◌, ◌++◌};
ghost use Rattle.rgo_chan.specs.Answers.{Holds, Sends, cell_word, commits, free_cell as free_cell_of, numbers, reaches, stores_cell};
ghost use Rattle.rgo_chan.specs.Before.{IsBeforeSend, IsPaged, LiesIn, SendsAt, control_of_channel};
ghost use Rattle.rgo_chan.specs.Ready.{HasNoOffer, BufferHasRoom};
ghost use Rattle.rgo_chan.specs.declared.answers.Tried.TheVariants.{NotReady};
ghost use Rattle.rgo_core.specs.moves.Commits.{offers};
ghost use Rattle.rgo_core.specs.Core.{layout};
ghost use Rattle.rgo_core.specs.runs.Plans.{setup_of};
ghost use Rattle.rgo_core.specs.Channels.Controls.{tail_words};
ghost use Rattle.rgo_core.specs.Channels.Records.{Free};
ghost use Rattle.rgo_core.specs.Memory.Words.{all_words, base as base_of};
ghost use Rattle.rgo_core_steps.specs.After.{committing};
ghost use Rattle.rgo_core_steps.specs.Calls.{Did, IsSeatIn, accessing};
ghost use Rattle.rgo_core_steps.specs.Seats.{HasOne, HasPossible, Settles, mine, settled};

use crate::answers::{Tried, is_full};
use crate::looks::look;
use crate::reaching::{Pages, reach};
use rgo_core::channels::controls::{free_cell, is_closed, is_locked};
use rgo_core::table::{RunSeat, RunTable};
use rgo_core_steps::channels::{commit_offer, commit_send, lock, store_cell};
use rgo_core_steps::counting::Steps;
use std::sync::ledger::Ledger;

/// Puts a value into the buffer, under the lock. The cell is stored before the commit: after it, a receiver may load the cell.
fn push<L: Ledger>(
    table: &RunTable,
    seat: &mut RunSeat,
    pages: Pages,
    at: usize,
    size: u64,
    control: u64,
    value: u64,
    steps: &mut Steps<L>,
)
    requires own { IsSeatIn (setup_of table.now.shared.key) seat.old.table_id table.now.shared.table_id }
    requires paged { IsPaged (setup_of table.now.shared.key) pages.base pages.words }
    requires inside { let T = setup_of table.now.shared.key in
        at + 2 + tail_words T.sizes.page_words size ≤ all_words (layout T) }
    requires small { size < 1073741820 }
    requires fits { control + 4 < 2 ^ 64 }
    requires alone { HasOne (setup_of table.now.shared.key) seat.old.me }
    requires held { Holds at size control (mine (setup_of table.now.shared.key) seat.old.me).side }
    requires here { let T = setup_of table.now.shared.key in SendsAt T (mine T seat.old.me) at value }
    requires room { BufferHasRoom size control }
    ensures own { (seat.new.table_id ≡ seat.old.table_id) × (seat.new.id ≡ seat.old.id) }
    ensures steps { let T = setup_of table.now.shared.key in steps.new ≡ steps.old + numbers T size + 2 }
    ensures pushed { let T = setup_of table.now.shared.key in (k x y : ℕ)
        × Did T seat.old.me steps.old
        (λ g. reaches T at size (free_cell_of size control) k g
        ++ stores_cell (cell_word T at size (free_cell_of size control) k) x value g
        ∷ commits at y (control + 4) g ∷ [])
        (committing T.code (accessing (suc (numbers T size)) (mine T seat.old.me)) 0) seat.new.me steps.new }
    ensures possible { HasPossible (setup_of table.now.shared.key) seat.new.me }
{
    let cell = free_cell(control, size) as usize;
    let word = reach(table, seat, pages, at, size, cell, steps);
    store_cell(table, seat, at, cell, word, value);
    steps.tick();
    commit_send(table, seat, at, control);
    steps.tick();
}

/// Offers a value at a channel without a buffer, under the lock. The cell is stored before the commit: after it, a receiver may
/// take the offer.
fn offer<L: Ledger>(
    table: &RunTable,
    seat: &mut RunSeat,
    pages: Pages,
    at: usize,
    control: u64,
    value: u64,
    steps: &mut Steps<L>,
)
    requires own { IsSeatIn (setup_of table.now.shared.key) seat.old.table_id table.now.shared.table_id }
    requires paged { IsPaged (setup_of table.now.shared.key) pages.base pages.words }
    requires inside { let T = setup_of table.now.shared.key in
        at + 2 + tail_words T.sizes.page_words 0 ≤ all_words (layout T) }
    requires fits { control + 4 < 2 ^ 64 }
    requires alone { HasOne (setup_of table.now.shared.key) seat.old.me }
    requires held { Holds at 0 control (mine (setup_of table.now.shared.key) seat.old.me).side }
    requires here { let T = setup_of table.now.shared.key in SendsAt T (mine T seat.old.me) at value }
    requires none { HasNoOffer 0 control }
    ensures own { (seat.new.table_id ≡ seat.old.table_id) × (seat.new.id ≡ seat.old.id) }
    ensures steps { let T = setup_of table.now.shared.key in steps.new ≡ steps.old + numbers T 0 + 2 }
    ensures offered { let T = setup_of table.now.shared.key in (k x y : ℕ)
        × Did T seat.old.me steps.old
        (λ g. reaches T at 0 0 k g ++ stores_cell (cell_word T at 0 0 k) x value g
        ∷ commits at y (control + 4) g ∷ [])
        (offers (accessing (suc (numbers T 0)) (mine T seat.old.me)) at) seat.new.me steps.new }
    ensures possible { HasPossible (setup_of table.now.shared.key) seat.new.me }
{
    let word = reach(table, seat, pages, at, 0, 0, steps);
    store_cell(table, seat, at, 0, word, value);
    steps.tick();
    commit_offer(table, seat, at, control);
    steps.tick();
}

/// A send on the channel whose control is word `at`. That the channel is closed is tested before whether it is full: a send on a
/// closed channel traps in either case.
fn send_at<L: Ledger>(
    table: &RunTable,
    seat: &mut RunSeat,
    behind: u64,
    pages: Pages,
    at: usize,
    value: u64,
    steps: &mut Steps<L>,
) -> Tried
    requires own { IsSeatIn (setup_of table.now.shared.key) seat.old.table_id table.now.shared.table_id }
    requires paged { IsPaged (setup_of table.now.shared.key) pages.base pages.words }
    requires lies { at + 3 ≤ all_words (layout (setup_of table.now.shared.key)) }
    requires alone { HasOne (setup_of table.now.shared.key) seat.old.me }
    requires settles { Settles (setup_of table.now.shared.key) behind seat.old.me }
    requires free { (settled (setup_of table.now.shared.key) behind seat.old.me).side.hold ≡ Free }
    requires here { let T = setup_of table.now.shared.key in SendsAt T (settled T behind seat.old.me) at value }
    ensures own { (seat.new.table_id ≡ seat.old.table_id) × (seat.new.id ≡ seat.old.id) }
    ensures steps { steps.new ≤ steps.old + 6 }
    ensures answers { let T = setup_of table.now.shared.key in
        Sends T at (settled T behind seat.old.me) value result seat.old.me steps.old seat.new.me steps.new }
    ensures possible { HasPossible (setup_of table.now.shared.key) seat.new.me }
{
    let seen = look(table, seat, behind, at, steps);
    let size = seen.size;
    let control = seen.control;
    if is_locked(control) {
        return Tried::Busy { found: control };
    }
    if is_closed(control) {
        return Tried::Trap(5);
    }
    if is_full(size, control) {
        return Tried::NotReady;
    }
    let found = lock(table, seat, at, control);
    steps.tick();
    if found != control {
        return Tried::Busy { found };
    }
    if size == 0 {
        offer(table, seat, pages, at, control, value, steps);
        return Tried::Offered;
    }
    push(table, seat, pages, at, size, control, value, steps);
    Tried::Done(0)
}

/// Tries to send the next instruction's value. `base` is the word of the table that has address 0, `page_words` how many words a
/// page has, and `channel` the word of the channel in the frame; the goroutine has made `behind` local steps since its last access.
///
/// - `Done(0)`: the value is in the buffer, and the instruction is made.
/// - `Offered`: the value is offered, and the goroutine stays at the instruction until its offer was taken.
/// - `NotReady`: the buffer is full, or there is an offer already; or the channel is nil, and then no access was made.
/// - `Busy`: the control was locked, or the exchange found another.
/// - `Trap(5)`: the channel is closed.
///
/// `Busy` means that the instruction is not made, and may be tried again. Called by the goroutine itself, which must have no offer
/// and no lock.
pub fn send<L: Ledger>(
    table: &RunTable,
    seat: &mut RunSeat,
    behind: u64,
    base: usize,
    page_words: usize,
    channel: u64,
    value: u64,
    steps: &mut Steps<L>,
) -> Tried
    requires own { IsSeatIn (setup_of table.now.shared.key) seat.old.table_id table.now.shared.table_id }
    requires first { base ≡ base_of (layout (setup_of table.now.shared.key)) }
    requires words { page_words ≡ (setup_of table.now.shared.key).sizes.page_words }
    requires some { channel ≢ 0 → 0 < page_words }
    requires lies { LiesIn (setup_of table.now.shared.key) base channel }
    requires alone { HasOne (setup_of table.now.shared.key) seat.old.me }
    requires settles { Settles (setup_of table.now.shared.key) behind seat.old.me }
    requires free { (settled (setup_of table.now.shared.key) behind seat.old.me).side.hold ≡ Free }
    requires here { let T = setup_of table.now.shared.key in
        IsBeforeSend T (settled T behind seat.old.me) channel value }
    ensures own { (seat.new.table_id ≡ seat.old.table_id) × (seat.new.id ≡ seat.old.id) }
    ensures steps { steps.new ≤ steps.old + 6 }
    ensures nil { channel ≡ 0
        → (result ≡ NotReady) × (seat.new.me ≡ seat.old.me) × (steps.new ≡ steps.old) }
    ensures answers { channel ≢ 0 → let T = setup_of table.now.shared.key in
        Sends T (control_of_channel base channel) (settled T behind seat.old.me) value result
        seat.old.me steps.old seat.new.me steps.new }
    ensures possible { channel ≢ 0 → HasPossible (setup_of table.now.shared.key) seat.new.me }
{
    if channel == 0 {
        return Tried::NotReady;
    }
    let pages = Pages {
        base,
        words: page_words,
    };
    send_at(
        table,
        seat,
        behind,
        pages,
        base + (channel as usize - 1),
        value,
        steps,
    )
}
