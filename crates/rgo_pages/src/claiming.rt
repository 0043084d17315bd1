//! A page is claimed: a search for a page whose state is 0, and two accesses that put it on the chain of its slot.
//!
//! 1. Looks find the page at which to begin: the first that looks free. A look is a plain load that no history has, so it proves
//!    nothing, and it is not counted as a step. There is at most one for each page.
//! 2. From there on once around, the state of each page is exchanged, the slot plus 1 for 0, until a state is found 0.
//! 3. That page is swapped in as the head of the chain, and the head found becomes its next word.
//! 4. If no state is found 0, each page was found in use by an exchange of this call, and the record remembers each page.
//!
//! An exchange that finds a state other than 0 shows that the page is in use at that moment. It is not tried again in this call, so
//! the call ends after at most one exchange for each page. Why: docs/DECISIONS.md, "Counts and pages as words".
ghost use Rattle.std.specs.Prelude.{◌≡◌, ◌<◌, ◌≤◌, ◌+◌, ◌-◌, ℕ, IfErr, IfOk, IfSome};
ghost use Rattle.rgo_core.specs.runs.Plans.{setup_of};
ghost use Rattle.rgo_core.specs.Memory.Records.{Got};
ghost use Rattle.rgo_core_steps.specs.Layouts.{HasLayout};
ghost use Rattle.rgo_core_steps.specs.Making.{IsCalm, NeedsPage};
ghost use Rattle.rgo_core_steps.specs.Seats.{HasOne, HasPossible, Settles, mine, settled};
ghost use Rattle.rgo_pages.specs.Claiming.{AllPagesTried, FullPagesLaw, Hooked, PageClaimed, PageOrNone, PagesTried};

use rgo_core::memory::layout::TableSizes;
use rgo_core::table::{RunSeat, RunTable};
use rgo_core_steps::counting::Steps;
use rgo_core_steps::pages;
use std::sync::ledger::Ledger;

/// Each page was found in use, at its own exchange. That all were in use at one moment does not follow; the driver finds that out
/// by a pass over all goroutines.
#[derive(Clone, Copy, Debug, PartialEq, Eq)]
pub struct NoPage;

/// Claims a page for the slot of the region in which the next instruction makes an object: the own page there, or if the object is
/// spread, one that is reserved for it. The search begins at page 0. Called by the goroutine itself, which has a stake in the
/// region.
pub fn claim<L: Ledger>(
    table: &RunTable,
    seat: &mut RunSeat,
    behind: u64,
    sizes: &TableSizes,
    slot: u32,
    steps: &mut Steps<L>,
) -> Result<u32, NoPage>
    requires own { seat.old.table_id ≡ table.now.shared.table_id }
    requires layout { HasLayout (setup_of table.now.shared.key) sizes.now table.now.shared.table_id }
    requires alone { HasOne (setup_of table.now.shared.key) seat.old.me }
    requires settles { Settles (setup_of table.now.shared.key) behind seat.old.me }
    requires slot { slot ≤ sizes.now.slots }
    requires some { 0 < sizes.now.pages }
    requires calm { IsCalm (settled (setup_of table.now.shared.key) behind seat.old.me) }
    requires needs { let T = setup_of table.now.shared.key in NeedsPage T (settled T behind seat.old.me) slot }
    ensures own { (seat.new.table_id ≡ seat.old.table_id) × (seat.new.id ≡ seat.old.id) }
    ensures claimed { let T = setup_of table.now.shared.key in IfOk result (λ page.
        PageClaimed T sizes.now slot (settled T behind seat.old.me) page seat.old.me seat.new.me) }
    ensures full { let T = setup_of table.now.shared.key in IfErr result (λ e.
        AllPagesTried T sizes.now (settled T behind seat.old.me) seat.old.me seat.new.me) }
    ensures possible { HasPossible (setup_of table.now.shared.key) seat.new.me }
    ensures cost { steps.new ≤ steps.old + (sizes.now.pages + 2) }
{
    claim_at(table, seat, behind, sizes, slot, 0, steps)
}

/// The same, but the search begins at page `from`, or at page 0 if there is no such page. Where it begins is a hint: no clause
/// depends on it.
pub fn claim_from<L: Ledger>(
    table: &RunTable,
    seat: &mut RunSeat,
    behind: u64,
    sizes: &TableSizes,
    slot: u32,
    from: u32,
    steps: &mut Steps<L>,
) -> Result<u32, NoPage>
    requires own { seat.old.table_id ≡ table.now.shared.table_id }
    requires layout { HasLayout (setup_of table.now.shared.key) sizes.now table.now.shared.table_id }
    requires alone { HasOne (setup_of table.now.shared.key) seat.old.me }
    requires settles { Settles (setup_of table.now.shared.key) behind seat.old.me }
    requires slot { slot ≤ sizes.now.slots }
    requires some { 0 < sizes.now.pages }
    requires calm { IsCalm (settled (setup_of table.now.shared.key) behind seat.old.me) }
    requires needs { let T = setup_of table.now.shared.key in NeedsPage T (settled T behind seat.old.me) slot }
    ensures own { (seat.new.table_id ≡ seat.old.table_id) × (seat.new.id ≡ seat.old.id) }
    ensures claimed { let T = setup_of table.now.shared.key in IfOk result (λ page.
        PageClaimed T sizes.now slot (settled T behind seat.old.me) page seat.old.me seat.new.me) }
    ensures full { let T = setup_of table.now.shared.key in IfErr result (λ e.
        AllPagesTried T sizes.now (settled T behind seat.old.me) seat.old.me seat.new.me) }
    ensures possible { HasPossible (setup_of table.now.shared.key) seat.new.me }
    ensures cost { steps.new ≤ steps.old + (sizes.now.pages + 2) }
{
    if (from as usize) < sizes.pages {
        claim_at(table, seat, behind, sizes, slot, from, steps)
    } else {
        claim(table, seat, behind, sizes, slot, steps)
    }
}

/// What a search in vain shows: each page was found in use at an exchange of the call. The driver compares this with the accesses of
/// others to show that a run lacks pages.
pub fn full_law()
    ensures { FullPagesLaw }
{}

/// Claims a page. The looks begin at this one, which exists.
fn claim_at<L: Ledger>(
    table: &RunTable,
    seat: &mut RunSeat,
    behind: u64,
    sizes: &TableSizes,
    slot: u32,
    from: u32,
    steps: &mut Steps<L>,
) -> Result<u32, NoPage>
    requires own { seat.old.table_id ≡ table.now.shared.table_id }
    requires layout { HasLayout (setup_of table.now.shared.key) sizes.now table.now.shared.table_id }
    requires alone { HasOne (setup_of table.now.shared.key) seat.old.me }
    requires settles { Settles (setup_of table.now.shared.key) behind seat.old.me }
    requires slot { slot ≤ sizes.now.slots }
    requires from { from < sizes.now.pages }
    requires calm { IsCalm (settled (setup_of table.now.shared.key) behind seat.old.me) }
    requires needs { let T = setup_of table.now.shared.key in NeedsPage T (settled T behind seat.old.me) slot }
    ensures own { (seat.new.table_id ≡ seat.old.table_id) × (seat.new.id ≡ seat.old.id) }
    ensures claimed { let T = setup_of table.now.shared.key in IfOk result (λ page.
        PageClaimed T sizes.now slot (settled T behind seat.old.me) page seat.old.me seat.new.me) }
    ensures full { let T = setup_of table.now.shared.key in IfErr result (λ e.
        AllPagesTried T sizes.now (settled T behind seat.old.me) seat.old.me seat.new.me) }
    ensures possible { HasPossible (setup_of table.now.shared.key) seat.new.me }
    ensures cost { steps.new ≤ steps.old + (sizes.now.pages + 2) }
{
    match take(
        table,
        seat,
        behind,
        sizes,
        slot as usize,
        from as usize,
        steps,
    ) {
        Some(page) => {
            hook(table, seat, sizes, page, slot as usize, steps);
            Ok(page as u32)
        },
        None => Err(NoPage),
    }
}

/// Puts a page that was taken at the head of the chain of its slot. The swap cannot fail, whatever others put on the chain at the
/// same time. Between the two accesses the page's next word is wrong, and nobody reads it: a chain is read only when no stake is
/// left, and the caller has one.
fn hook<L: Ledger>(
    table: &RunTable,
    seat: &mut RunSeat,
    sizes: &TableSizes,
    page: usize,
    slot: usize,
    steps: &mut Steps<L>,
)
    requires own { seat.old.table_id ≡ table.now.shared.table_id }
    requires layout { HasLayout (setup_of table.now.shared.key) sizes.now table.now.shared.table_id }
    requires alone { HasOne (setup_of table.now.shared.key) seat.old.me }
    requires page { page < sizes.now.pages }
    requires slot { slot ≤ sizes.now.slots }
    requires got { (mine (setup_of table.now.shared.key) seat.old.me).memory.claim ≡ Got page slot }
    ensures own { (seat.new.table_id ≡ seat.old.table_id) × (seat.new.id ≡ seat.old.id) }
    ensures hooked { let T = setup_of table.now.shared.key in
        Hooked T sizes.now (mine T seat.old.me) page slot seat.old.me seat.new.me }
    ensures possible { HasPossible (setup_of table.now.shared.key) seat.new.me }
    ensures cost { steps.new ≡ steps.old + 2 }
{
    steps.tick();
    let head = pages::hang(table, seat, sizes, page, slot);
    steps.tick();
    pages::link(table, seat, sizes, page, slot, head);
}

/// Takes a free page, if an exchange finds one. The first exchange takes the local steps of the goroutine with it, so the others
/// have none to take.
fn take<L: Ledger>(
    table: &RunTable,
    seat: &mut RunSeat,
    behind: u64,
    sizes: &TableSizes,
    slot: usize,
    from: usize,
    steps: &mut Steps<L>,
) -> Option<usize>
    requires own { seat.old.table_id ≡ table.now.shared.table_id }
    requires layout { HasLayout (setup_of table.now.shared.key) sizes.now table.now.shared.table_id }
    requires alone { HasOne (setup_of table.now.shared.key) seat.old.me }
    requires settles { Settles (setup_of table.now.shared.key) behind seat.old.me }
    requires slot { slot ≤ sizes.now.slots }
    requires from { from < sizes.now.pages }
    requires calm { IsCalm (settled (setup_of table.now.shared.key) behind seat.old.me) }
    requires needs { let T = setup_of table.now.shared.key in NeedsPage T (settled T behind seat.old.me) slot }
    ensures own { (seat.new.table_id ≡ seat.old.table_id) × (seat.new.id ≡ seat.old.id) }
    ensures taken { let T = setup_of table.now.shared.key in
        PageOrNone T sizes.now slot (settled T behind seat.old.me) result seat.old.me seat.new.me }
    ensures possible { HasPossible (setup_of table.now.shared.key) seat.new.me }
    ensures cost { steps.new ≤ steps.old + sizes.now.pages }
{
    let start = beginning(table, sizes, from);
    steps.tick();
    if pages::claim(table, seat, behind, sizes, start, slot) == 0 {
        return Some(start);
    }
    match try_pages(table, seat, sizes, slot, start + 1, sizes.pages, steps) {
        Some(page) => Some(page),
        None => try_pages(table, seat, sizes, slot, 0, start, steps),
    }
}

/// Where the exchanges begin: at the first page that looks free, from `from` on once around; if none does, at `from`. The exchanges
/// are made in that case, too: a look is not part of the history of the table, so it cannot show that a page is in use.
fn beginning(table: &RunTable, sizes: &TableSizes, from: usize) -> usize
    requires layout { HasLayout (setup_of table.now.shared.key) sizes.now table.now.shared.table_id }
    requires from { from < sizes.now.pages }
    ensures inside { result < sizes.now.pages }
{
    if let Some(page) = look(table, sizes, from, sizes.pages) {
        return page;
    }
    match look(table, sizes, 0, from) {
        Some(page) => page,
        None => from,
    }
}

/// The first page from `first` to `end` that looks free. It may be claimed before the exchange; then the exchange finds that out.
fn look(table: &RunTable, sizes: &TableSizes, first: usize, end: usize) -> Option<usize>
    requires layout { HasLayout (setup_of table.now.shared.key) sizes.now table.now.shared.table_id }
    requires ends { (first ≤ end) × (end ≤ sizes.now.pages) }
    ensures inside { IfSome result (λ page. page < sizes.now.pages) }
{
    for page in first..end {
        if pages::looks_free(table, sizes, page) {
            return Some(page);
        }
    }
    None
}

/// Exchanges the states of the pages from `first` to `end` in turn, until one is found 0. Pages in use are exchanged, too: only an
/// exchange proves that a page was in use.
fn try_pages<L: Ledger>(
    table: &RunTable,
    seat: &mut RunSeat,
    sizes: &TableSizes,
    slot: usize,
    first: usize,
    end: usize,
    steps: &mut Steps<L>,
) -> Option<usize>
    requires own { seat.old.table_id ≡ table.now.shared.table_id }
    requires layout { HasLayout (setup_of table.now.shared.key) sizes.now table.now.shared.table_id }
    requires alone { HasOne (setup_of table.now.shared.key) seat.old.me }
    requires slot { slot ≤ sizes.now.slots }
    requires calm { IsCalm (mine (setup_of table.now.shared.key) seat.old.me) }
    requires needs { let T = setup_of table.now.shared.key in NeedsPage T (mine T seat.old.me) slot }
    requires possible { HasPossible (setup_of table.now.shared.key) seat.old.me }
    requires ends { (first ≤ end) × (end ≤ sizes.now.pages) }
    ensures own { (seat.new.table_id ≡ seat.old.table_id) × (seat.new.id ≡ seat.old.id) }
    ensures tried { let T = setup_of table.now.shared.key in
        PagesTried T sizes.now slot first end (mine T seat.old.me) result seat.old.me seat.new.me }
    ensures possible { HasPossible (setup_of table.now.shared.key) seat.new.me }
    ensures cost { steps.new ≤ steps.old + (end - first) }
{
    for page in first..end {
        steps.tick();
        if pages::claim(table, seat, 0, sizes, page, slot) == 0 {
            return Some(page);
        }
    }
    None
}
