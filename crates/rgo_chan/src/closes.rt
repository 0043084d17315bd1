//! Closes, and acknowledgements of offers that were taken. Both are decided by the control alone, so neither loads the capacity.
ghost use Rattle.std.specs.Prelude.{◌≡◌, ◌≢◌, ◌≤◌, ◌<◌, ◌+◌, ℕ};
ghost use Rattle.rgo_chan.specs.Answers.{Acknowledges, Closes};
ghost use Rattle.rgo_chan.specs.Before.{ClosesAt, IsBeforeClose, LiesIn, control_of_channel};
ghost use Rattle.rgo_chan.specs.declared.answers.Tried.TheVariants.{Trap};
ghost use Rattle.rgo_core.specs.moves.Commits.{IsAtSend};
ghost use Rattle.rgo_core.specs.Core.{layout};
ghost use Rattle.rgo_core.specs.runs.Plans.{setup_of};
ghost use Rattle.rgo_core.specs.Channels.Records.{Free, Offering};
ghost use Rattle.rgo_core.specs.Memory.Words.{all_words, base as base_of};
ghost use Rattle.rgo_core_steps.specs.Calls.{IsSeatIn};
ghost use Rattle.rgo_core_steps.specs.Seats.{HasOne, HasPossible, Settles, mine, settled};

use crate::answers::Tried;
use rgo_core::channels::controls::{count, is_closed, is_locked};
use rgo_core::table::{RunSeat, RunTable};
use rgo_core_steps::channels::{commit_acknowledge, commit_close, control, lock, own_control};
use rgo_core_steps::counting::Steps;
use std::sync::ledger::Ledger;

/// A close of the channel whose control is word `at`. The lock bit is tested first: the goroutine that has the lock is about to
/// change what else the control shows.
fn close_at<L: Ledger>(
    table: &RunTable,
    seat: &mut RunSeat,
    behind: u64,
    at: usize,
    steps: &mut Steps<L>,
) -> Tried
    requires own { IsSeatIn (setup_of table.now.shared.key) seat.old.table_id table.now.shared.table_id }
    requires lies { at + 3 ≤ all_words (layout (setup_of table.now.shared.key)) }
    requires alone { HasOne (setup_of table.now.shared.key) seat.old.me }
    requires settles { Settles (setup_of table.now.shared.key) behind seat.old.me }
    requires free { (settled (setup_of table.now.shared.key) behind seat.old.me).side.hold ≡ Free }
    requires here { let T = setup_of table.now.shared.key in ClosesAt T (settled T behind seat.old.me) at }
    ensures own { (seat.new.table_id ≡ seat.old.table_id) × (seat.new.id ≡ seat.old.id) }
    ensures steps { steps.new ≤ steps.old + 3 }
    ensures answers { let T = setup_of table.now.shared.key in
        Closes T at (settled T behind seat.old.me) result seat.old.me steps.old seat.new.me steps.new }
    ensures possible { HasPossible (setup_of table.now.shared.key) seat.new.me }
{
    let control = control(table, seat, behind, at);
    steps.tick();
    if is_locked(control) {
        return Tried::Busy { found: control };
    }
    if is_closed(control) {
        return Tried::Trap(6);
    }
    let found = lock(table, seat, at, control);
    steps.tick();
    if found != control {
        return Tried::Busy { found };
    }
    commit_close(table, seat, at, control);
    steps.tick();
    Tried::Done(0)
}

/// Tries to close a channel, as the next instruction does. `base` is the word of the table that has address 0, and `channel` the
/// word of the channel in the frame; the goroutine has made `behind` local steps since its last access.
///
/// - `Done(0)`: the channel is closed now, and the instruction is made.
/// - `Busy`: the control was locked, or the exchange found another. The instruction is not made, and may be tried again.
/// - `Trap(6)`: the channel had been closed. `Trap(7)`: it is nil, and no access was made.
///
/// Called by the goroutine itself, which must have no offer and no lock.
pub fn close_channel<L: Ledger>(
    table: &RunTable,
    seat: &mut RunSeat,
    behind: u64,
    base: usize,
    channel: u64,
    steps: &mut Steps<L>,
) -> Tried
    requires own { IsSeatIn (setup_of table.now.shared.key) seat.old.table_id table.now.shared.table_id }
    requires first { base ≡ base_of (layout (setup_of table.now.shared.key)) }
    requires lies { LiesIn (setup_of table.now.shared.key) base channel }
    requires alone { HasOne (setup_of table.now.shared.key) seat.old.me }
    requires settles { Settles (setup_of table.now.shared.key) behind seat.old.me }
    requires free { (settled (setup_of table.now.shared.key) behind seat.old.me).side.hold ≡ Free }
    requires here { let T = setup_of table.now.shared.key in IsBeforeClose T (settled T behind seat.old.me) channel }
    ensures own { (seat.new.table_id ≡ seat.old.table_id) × (seat.new.id ≡ seat.old.id) }
    ensures steps { steps.new ≤ steps.old + 3 }
    ensures nil { channel ≡ 0
        → (result ≡ Trap 7) × (seat.new.me ≡ seat.old.me) × (steps.new ≡ steps.old) }
    ensures answers { channel ≢ 0 → let T = setup_of table.now.shared.key in
        Closes T (control_of_channel base channel) (settled T behind seat.old.me) result
        seat.old.me steps.old seat.new.me steps.new }
    ensures possible { channel ≢ 0 → HasPossible (setup_of table.now.shared.key) seat.new.me }
{
    if channel == 0 {
        return Tried::Trap(7);
    }
    close_at(table, seat, behind, base + (channel as usize - 1), steps)
}

/// Tries to acknowledge that the goroutine's own offer was taken. `at` is the word of the control of the channel at which the
/// offer is.
///
/// - `Done(0)`: it was taken. The channel has no offer now, and the goroutine's send is made.
/// - `NotReady`: it is not taken yet.
/// - `Busy`: the control was locked, or the exchange found another.
/// - `Trap(5)`: the channel was closed before the offer was taken.
///
/// Called by the sender of the offer alone: from phase 2 nobody else can change the phase, so a taken offer stays taken until this
/// call finds it. It makes no local steps before, since it stays at its send.
pub fn acknowledge<L: Ledger>(
    table: &RunTable,
    seat: &mut RunSeat,
    at: usize,
    steps: &mut Steps<L>,
) -> Tried
    requires own { IsSeatIn (setup_of table.now.shared.key) seat.old.table_id table.now.shared.table_id }
    requires lies { at + 3 ≤ all_words (layout (setup_of table.now.shared.key)) }
    requires alone { HasOne (setup_of table.now.shared.key) seat.old.me }
    requires free { (mine (setup_of table.now.shared.key) seat.old.me).side.hold ≡ Free }
    requires offering { (mine (setup_of table.now.shared.key) seat.old.me).side.post ≡ Offering at }
    requires here { let T = setup_of table.now.shared.key in IsAtSend T (mine T seat.old.me) }
    ensures own { (seat.new.table_id ≡ seat.old.table_id) × (seat.new.id ≡ seat.old.id) }
    ensures steps { steps.new ≤ steps.old + 3 }
    ensures answers { let T = setup_of table.now.shared.key in
        Acknowledges T at (mine T seat.old.me) result seat.old.me steps.old seat.new.me steps.new }
    ensures possible { HasPossible (setup_of table.now.shared.key) seat.new.me }
{
    let control = own_control(table, seat, at);
    steps.tick();
    if is_locked(control) {
        return Tried::Busy { found: control };
    }
    if count(control) == 1 {
        if is_closed(control) {
            return Tried::Trap(5);
        }
        return Tried::NotReady;
    }
    // The own offer is at the channel, so its phase is 1 or 2; here it is 2. A close after that changes nothing for the send.
    let found = lock(table, seat, at, control);
    steps.tick();
    if found != control {
        return Tried::Busy { found };
    }
    commit_acknowledge(table, seat, at, control);
    steps.tick();
    Tried::Done(0)
}
