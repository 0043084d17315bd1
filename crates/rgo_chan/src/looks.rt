//! The first two accesses of a send and of a receive: the capacity, then the control. In this order the result is about the last
//! word that was loaded, the control; the capacity never changes.
ghost use Rattle.std.specs.Prelude.{◌≡◌, ◌≤◌, ◌+◌};
ghost use Rattle.rgo_chan.specs.Answers.{Looked};
ghost use Rattle.rgo_core.specs.ties.AtChannels.{IsAtChannel};
ghost use Rattle.rgo_core.specs.Core.{layout};
ghost use Rattle.rgo_core.specs.runs.Plans.{setup_of};
ghost use Rattle.rgo_core.specs.Memory.Words.{all_words};
ghost use Rattle.rgo_core_steps.specs.Calls.{IsSeatIn};
ghost use Rattle.rgo_core_steps.specs.Seats.{HasOne, HasPossible, Settles, settled};

use rgo_core::table::{RunSeat, RunTable};
use rgo_core_steps::channels::{capacity, control};
use rgo_core_steps::counting::Steps;
use std::sync::ledger::Ledger;

/// A capacity and a control. Both were so when the control was loaded, since a capacity never changes.
#[derive(Clone, Copy)]
pub(crate) struct Seen {
    pub(crate) size: u64,
    pub(crate) control: u64,
}

/// Loads the capacity and the control. The first load takes the local steps of the goroutine with it, so the second has none to
/// take.
pub(crate) fn look<L: Ledger>(
    table: &RunTable,
    seat: &mut RunSeat,
    behind: u64,
    at: usize,
    steps: &mut Steps<L>,
) -> Seen
    requires own { IsSeatIn (setup_of table.now.shared.key) seat.old.table_id table.now.shared.table_id }
    requires lies { at + 3 ≤ all_words (layout (setup_of table.now.shared.key)) }
    requires alone { HasOne (setup_of table.now.shared.key) seat.old.me }
    requires settles { Settles (setup_of table.now.shared.key) behind seat.old.me }
    requires here { let T = setup_of table.now.shared.key in IsAtChannel T (settled T behind seat.old.me) at }
    ensures own { (seat.new.table_id ≡ seat.old.table_id) × (seat.new.id ≡ seat.old.id) }
    ensures steps { steps.new ≡ steps.old + 2 }
    ensures looked { let T = setup_of table.now.shared.key in
        Looked T at (settled T behind seat.old.me) result.size result.control
        seat.old.me steps.old seat.new.me steps.new }
    ensures possible { HasPossible (setup_of table.now.shared.key) seat.new.me }
{
    let size = capacity(table, seat, behind, at);
    steps.tick();
    let control = control(table, seat, 0, at);
    steps.tick();
    Seen { size, control }
}
