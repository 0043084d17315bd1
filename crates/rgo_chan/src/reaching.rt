//! Where a cell of a channel is: after the capacity, or if the channel is spread (its cells do not fit its page), in the data page
//! whose number is loaded. The numbers were stored when the channel was made, and never change.
ghost use Rattle.std.specs.Prelude.{◌≡◌, ◌≤◌, ◌<◌, ◌+◌};
ghost use Rattle.rgo_chan.specs.Answers.{IsReached, numbers};
ghost use Rattle.rgo_chan.specs.Before.{IsPaged};
ghost use Rattle.rgo_core.specs.Core.{layout};
ghost use Rattle.rgo_core.specs.runs.Plans.{setup_of};
ghost use Rattle.rgo_core.specs.Channels.Controls.{extent, tail_words};
ghost use Rattle.rgo_core.specs.Channels.Records.{Sized};
ghost use Rattle.rgo_core.specs.Memory.Words.{all_words};
ghost use Rattle.rgo_core_steps.specs.Calls.{IsSeatIn};
ghost use Rattle.rgo_core_steps.specs.Seats.{HasOne, mine};

use rgo_core::channels::controls::is_spread;
use rgo_core::table::{RunSeat, RunTable};
use rgo_core_steps::channels::page_number;
use rgo_core_steps::counting::Steps;
use std::sync::ledger::Ledger;

/// The pages of a table.
#[derive(Clone, Copy)]
pub(crate) struct Pages {
    /// The word of the table that is the first of page 0.
    pub(crate) base: usize,
    /// How many words a page has.
    pub(crate) words: usize,
}

/// The word of a cell. If the channel is spread, loads the number of the cell's page, plus 1; it is not 0, since it was stored before
/// the channel existed. Called under the lock.
pub(crate) fn reach<L: Ledger>(
    table: &RunTable,
    seat: &mut RunSeat,
    pages: Pages,
    at: usize,
    size: u64,
    cell: usize,
    steps: &mut Steps<L>,
) -> usize
    requires own { IsSeatIn (setup_of table.now.shared.key) seat.old.table_id table.now.shared.table_id }
    requires paged { IsPaged (setup_of table.now.shared.key) pages.base pages.words }
    requires inside { let T = setup_of table.now.shared.key in
        at + 2 + tail_words T.sizes.page_words size ≤ all_words (layout T) }
    requires small { size < 1073741820 }
    requires cell { cell < extent size }
    requires alone { HasOne (setup_of table.now.shared.key) seat.old.me }
    requires sized { (mine (setup_of table.now.shared.key) seat.old.me).side.size ≡ Sized at size }
    ensures own { (seat.new.table_id ≡ seat.old.table_id) × (seat.new.id ≡ seat.old.id) }
    ensures steps { let T = setup_of table.now.shared.key in steps.new ≡ steps.old + numbers T size }
    ensures reached { let T = setup_of table.now.shared.key in
        IsReached T at size cell result (mine T seat.old.me) seat.old.me steps.old seat.new.me steps.new }
{
    if !is_spread(size, pages.words as u64) {
        return at + 2 + cell;
    }
    let number = page_number(table, seat, at, cell, pages.words);
    steps.tick();
    pages.base + ((number as usize - 1) * pages.words + cell % pages.words)
}
