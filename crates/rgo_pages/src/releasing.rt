//! The pages of a region without stakes are returned, by the goroutine that ended the last one: from the head of the chain on, the
//! next word of each page is loaded before the page is freed, and the head is cleared at last. The slot is freed after that, by
//! `free_slot` of `rgo_counts`.
//!
//! Nobody else accesses the chain meanwhile: to claim a page for the slot takes a stake, but none is left, and no new region
//! has the slot before it is freed. Only pages that were freed may be claimed again, for other slots. Why: docs/DECISIONS.md,
//! "Counts and pages as words".
ghost use Rattle.std.specs.Prelude.{◌≡◌, ◌<◌, ◌≤◌, ◌+◌, ◌*◌, ℕ, suc, [], ◌∷◌};
ghost use Rattle.rgo_core.specs.runs.Opening.{first_of};
ghost use Rattle.rgo_core.specs.runs.Plans.{setup_of};
ghost use Rattle.rgo_core.specs.Records.{accesses};
ghost use Rattle.rgo_core.specs.Memory.Records.{Giving, Owes};
ghost use Rattle.rgo_core_steps.specs.Grown.{Made};
ghost use Rattle.rgo_core_steps.specs.Layouts.{HasLayout};
ghost use Rattle.rgo_core_steps.specs.Seats.{HasOne, HasPossible, mine};
ghost use Rattle.rgo_pages.specs.Releasing.{ChainGivenBack, OneFreed};

use rgo_core::memory::layout::TableSizes;
use rgo_core::table::{RunSeat, RunTable};
use rgo_core_steps::counting::Steps;
use rgo_core_steps::pages;
use std::sync::ledger::Ledger;

/// Frees the pages of a region whose last stake this goroutine has ended, and returns how many. That number is in its record, so the
/// loop ends. The head is cleared once, at the end, since nobody reads it before.
pub fn release<L: Ledger>(
    table: &RunTable,
    seat: &mut RunSeat,
    sizes: &TableSizes,
    slot: u32,
    steps: &mut Steps<L>,
) -> u64
    requires own { seat.old.table_id ≡ table.now.shared.table_id }
    requires layout { HasLayout (setup_of table.now.shared.key) sizes.now table.now.shared.table_id }
    requires alone { HasOne (setup_of table.now.shared.key) seat.old.me }
    requires slot { slot < sizes.now.slots }
    requires owes { (mine (setup_of table.now.shared.key) seat.old.me).memory.give ≡ Owes slot }
    ensures own { (seat.new.table_id ≡ seat.old.table_id) × (seat.new.id ≡ seat.old.id) }
    ensures count { result ≡ (mine (setup_of table.now.shared.key) seat.old.me).clock.owed }
    ensures given { let T = setup_of table.now.shared.key in
        ChainGivenBack T sizes.now slot (mine T seat.old.me) result seat.old.me seat.new.me }
    ensures possible { HasPossible (setup_of table.now.shared.key) seat.new.me }
    ensures cost { steps.new ≡ steps.old + (2 * result + 2) }
{
    steps.tick();
    let mut cursor = pages::head(table, seat, sizes, slot as usize);
    let mut freed = 0;
    while cursor != 0 {
        let page = cursor as usize - 1;
        cursor = free_page(table, seat, sizes, slot as usize, page, steps);
        freed += 1;
    }
    steps.tick();
    pages::clear(table, seat, sizes, slot as usize);
    freed
}

/// Frees the first page that is left of a chain, and returns the link to the page after it. The link is loaded first: once the page
/// is free, another goroutine may claim it and store its next word.
fn free_page<L: Ledger>(
    table: &RunTable,
    seat: &mut RunSeat,
    sizes: &TableSizes,
    slot: usize,
    page: usize,
    steps: &mut Steps<L>,
) -> u64
    requires own { seat.old.table_id ≡ table.now.shared.table_id }
    requires layout { HasLayout (setup_of table.now.shared.key) sizes.now table.now.shared.table_id }
    requires alone { HasOne (setup_of table.now.shared.key) seat.old.me }
    requires page { page < sizes.now.pages }
    requires gives { (mine (setup_of table.now.shared.key) seat.old.me).memory.give ≡ Giving slot (page + 1) }
    ensures own { (seat.new.table_id ≡ seat.old.table_id) × (seat.new.id ≡ seat.old.id) }
    ensures within { result ≤ sizes.now.pages }
    ensures owed { 0 < (mine (setup_of table.now.shared.key) seat.old.me).clock.owed }
    ensures freed { let T = setup_of table.now.shared.key in
        OneFreed T sizes.now slot (mine T seat.old.me) page result seat.old.me seat.new.me }
    ensures possible { HasPossible (setup_of table.now.shared.key) seat.new.me }
    ensures cost { steps.new ≡ steps.old + 2 }
{
    steps.tick();
    let next = pages::next(table, seat, sizes, slot, page);
    steps.tick();
    pages::free(table, seat, sizes, slot, page, next);
    next
}
