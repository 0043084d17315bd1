//! The state and the next word of a page, and the head of the chain of a slot. A page is free, or claimed for a slot. Claimed pages
//! are linked from the head on, newest first; links are a page's number plus 1, or 0.
//!
//! A claim:
//! 1. `claim` exchanges state 0 for the slot plus 1: the goroutine that finds 0 has the page.
//! 2. `hang` swaps the head for this page, and remembers the old head. Others may hang pages before it at once.
//! 3. `link` stores the old head as the page's next word. Nobody reads it before: only the chain of a region without stakes is
//!    read, and the claimer has one.
//!
//! A chain is returned by the goroutine whose `leave` was the last:
//! 1. `head` loads the first page.
//! 2. For each page `next` loads the page after it; then `free` stores state 0. In the other order the page could be claimed, and
//!    its next word be stored, before it is loaded.
//! 3. `clear` stores head 0. Only then may `free_slot` let another region have the slot.
//!
//! Each call is made by the goroutine whose record is on the seat. Why: docs/DECISIONS.md, "Counts and pages as words".
ghost use Rattle.std.specs.Prelude.{◌≡◌, ◌<◌, ◌≤◌, ◌+◌, ◌^◌, ◌==◌, ℕ, suc};
ghost use prog.Atomic.{either};
ghost use Rattle.rgo_core.specs.moves.Chains.{frees, remembers};
ghost use Rattle.rgo_core.specs.runs.Plans.{setup_of};
ghost use Rattle.rgo_core.specs.Memory.Records.{Gave, Giving, Got, Hung, Idle, Owes, Past, with_claim, with_give};
ghost use Rattle.rgo_core.specs.Memory.Words.{head_at as head_is_at, next_at as next_is_at, state_at as state_is_at};
ghost use Rattle.rgo_core.specs.Rule.declared.accesses.Kind.TheVariants as kind;
ghost use Rattle.rgo_core_steps.specs.Layouts.{HasLayout};
ghost use Rattle.rgo_core_steps.specs.Making.{IsCalm, NeedsPage};
ghost use Rattle.rgo_core_steps.specs.Pages.{tries_page};
ghost use Rattle.rgo_core_steps.specs.Seats.{HasOne, HasPossible, HasAccessed, Settles, Stored, mine, settled};

use rgo_core::memory::layout::{TableSizes, head_at, next_at, state_at};
use rgo_core::records::Record;
use rgo_core::rule::steps::{compare_exchange, load, store, swap};
use rgo_core::table::{ByRuns, Plan, RunSeat, RunTable};
use std::marker::Brand;

/// Whether a page looks free. A hint where to begin a search: another goroutine may claim the page at once, and the load is not
/// part of the history. Anybody may call it, with no seat.
pub fn looks_free(table: &RunTable, sizes: &TableSizes, page: usize) -> bool
    requires layout { HasLayout (setup_of table.now.shared.key) sizes.now table.now.shared.table_id }
    requires page { page < sizes.now.pages }
{
    table.shared.peek(state_at(sizes, page)) == 0
}

/// Claims a page for the slot of the region in which the next instruction makes an object, if its state is found 0: the own page
/// there, or a page that is reserved for the object, if that is spread. If the state is not 0, nothing changes, and the record
/// remembers that this page was found in use. Of several goroutines that try one page, exactly one finds 0.
pub fn claim(
    table: &RunTable,
    seat: &mut RunSeat,
    behind: u64,
    sizes: &TableSizes,
    page: usize,
    slot: usize,
) -> u64
    requires own { seat.old.table_id ≡ table.now.shared.table_id }
    requires layout { HasLayout (setup_of table.now.shared.key) sizes.now table.now.shared.table_id }
    requires alone { HasOne (setup_of table.now.shared.key) seat.old.me }
    requires settles { Settles (setup_of table.now.shared.key) behind seat.old.me }
    requires page { page < sizes.now.pages }
    requires slot { slot ≤ sizes.now.slots }
    requires calm { IsCalm (settled (setup_of table.now.shared.key) behind seat.old.me) }
    requires needs { let T = setup_of table.now.shared.key in NeedsPage T (settled T behind seat.old.me) slot }
    ensures own { (seat.new.table_id ≡ seat.old.table_id) × (seat.new.id ≡ seat.old.id) }
    ensures leaves { let T = setup_of table.now.shared.key in HasAccessed T kind.ClaimPage (state_is_at sizes.now page)
        (λ n. either (n == 0) (slot + 1) n) (λ n d. d ≡ tries_page T (settled T behind seat.old.me) page slot n)
        seat.old.me result seat.new.me }
    ensures possible { HasPossible (setup_of table.now.shared.key) seat.new.me }
{
    let word = state_at(sizes, page);
    compare_exchange::<Record, Plan, ByRuns, Brand, _>(
        table,
        seat,
        word,
        0,
        slot as u64 + 1,
        &(page, slot, behind),
    )
}

/// Puts the claimed page at the head of the chain of its slot, and returns the head that was there. A swap cannot fail, however many
/// goroutines hang pages there at once.
pub fn hang(
    table: &RunTable,
    seat: &mut RunSeat,
    sizes: &TableSizes,
    page: usize,
    slot: usize,
) -> u64
    requires own { seat.old.table_id ≡ table.now.shared.table_id }
    requires layout { HasLayout (setup_of table.now.shared.key) sizes.now table.now.shared.table_id }
    requires alone { HasOne (setup_of table.now.shared.key) seat.old.me }
    requires page { page < sizes.now.pages }
    requires slot { slot ≤ sizes.now.slots }
    requires got { (mine (setup_of table.now.shared.key) seat.old.me).memory.claim ≡ Got page slot }
    ensures own { (seat.new.table_id ≡ seat.old.table_id) × (seat.new.id ≡ seat.old.id) }
    ensures leaves { let T = setup_of table.now.shared.key in HasAccessed T kind.HangPage (head_is_at sizes.now slot)
        (λ n. page + 1) (λ n d. d ≡ remembers (mine T seat.old.me)
        (with_claim (mine T seat.old.me).memory (Hung page slot n))) seat.old.me result seat.new.me }
    ensures possible { HasPossible (setup_of table.now.shared.key) seat.new.me }
{
    let word = head_at(sizes, slot);
    swap::<Record, Plan, ByRuns, Brand, _>(table, seat, word, page as u64 + 1, &(page, slot))
}

/// Links the page at the head of its chain to `old`, the head before it. The goroutine must do so before it ends its stake there: the
/// chain is read after that.
pub fn link(
    table: &RunTable,
    seat: &mut RunSeat,
    sizes: &TableSizes,
    page: usize,
    slot: usize,
    old: u64,
)
    requires own { seat.old.table_id ≡ table.now.shared.table_id }
    requires layout { HasLayout (setup_of table.now.shared.key) sizes.now table.now.shared.table_id }
    requires alone { HasOne (setup_of table.now.shared.key) seat.old.me }
    requires page { page < sizes.now.pages }
    requires hung { (mine (setup_of table.now.shared.key) seat.old.me).memory.claim ≡ Hung page slot old }
    ensures own { (seat.new.table_id ≡ seat.old.table_id) × (seat.new.id ≡ seat.old.id) }
    ensures leaves { let T = setup_of table.now.shared.key in Stored T kind.LinkPage (next_is_at sizes.now page) old
        (remembers (mine T seat.old.me) (with_claim (mine T seat.old.me).memory Idle)) seat.old.me seat.new.me }
    ensures possible { HasPossible (setup_of table.now.shared.key) seat.new.me }
{
    store::<Record, Plan, ByRuns, Brand, _>(table, seat, next_at(sizes, page), old, &slot);
}

/// Loads the head of a chain that is being returned: its first page by number plus 1, or 0. Nobody puts a page on it any more.
pub fn head(table: &RunTable, seat: &mut RunSeat, sizes: &TableSizes, slot: usize) -> u64
    requires own { seat.old.table_id ≡ table.now.shared.table_id }
    requires layout { HasLayout (setup_of table.now.shared.key) sizes.now table.now.shared.table_id }
    requires alone { HasOne (setup_of table.now.shared.key) seat.old.me }
    requires slot { slot < sizes.now.slots }
    requires owes { (mine (setup_of table.now.shared.key) seat.old.me).memory.give ≡ Owes slot }
    ensures own { (seat.new.table_id ≡ seat.old.table_id) × (seat.new.id ≡ seat.old.id) }
    ensures within { result ≤ sizes.now.pages }
    ensures owed { (mine (setup_of table.now.shared.key) seat.old.me).clock.owed ≤ sizes.now.pages }
    ensures leaves { let T = setup_of table.now.shared.key in HasAccessed T kind.LoadHead (head_is_at sizes.now slot)
        (λ n. n) (λ n d. d ≡ remembers (mine T seat.old.me)
        (with_give (mine T seat.old.me).memory (Giving slot n))) seat.old.me result seat.new.me }
    ensures possible { HasPossible (setup_of table.now.shared.key) seat.new.me }
{
    load::<Record, Plan, ByRuns, Brand, _>(table, seat, head_at(sizes, slot), &slot)
}

/// Loads the page after this one in a chain that is being returned, by its number plus 1; 0 after the last. It is called before the page
/// is freed.
pub fn next(
    table: &RunTable,
    seat: &mut RunSeat,
    sizes: &TableSizes,
    slot: usize,
    page: usize,
) -> u64
    requires own { seat.old.table_id ≡ table.now.shared.table_id }
    requires layout { HasLayout (setup_of table.now.shared.key) sizes.now table.now.shared.table_id }
    requires alone { HasOne (setup_of table.now.shared.key) seat.old.me }
    requires page { page < sizes.now.pages }
    requires gives { (mine (setup_of table.now.shared.key) seat.old.me).memory.give ≡ Giving slot (page + 1) }
    ensures own { (seat.new.table_id ≡ seat.old.table_id) × (seat.new.id ≡ seat.old.id) }
    ensures within { result ≤ sizes.now.pages }
    ensures leaves { let T = setup_of table.now.shared.key in HasAccessed T kind.LoadNext (next_is_at sizes.now page)
        (λ n. n) (λ n d. d ≡ remembers (mine T seat.old.me)
        (with_give (mine T seat.old.me).memory (Past slot (page + 1) n))) seat.old.me result seat.new.me }
    ensures possible { HasPossible (setup_of table.now.shared.key) seat.new.me }
{
    load::<Record, Plan, ByRuns, Brand, _>(table, seat, next_at(sizes, page), &(slot, page))
}

/// Frees a page of a chain that is being returned, once the page after it is known. Another goroutine may claim it at once, so this
/// goroutine must not access the page any more.
pub fn free(
    table: &RunTable,
    seat: &mut RunSeat,
    sizes: &TableSizes,
    slot: usize,
    page: usize,
    next: u64,
)
    requires own { seat.old.table_id ≡ table.now.shared.table_id }
    requires layout { HasLayout (setup_of table.now.shared.key) sizes.now table.now.shared.table_id }
    requires alone { HasOne (setup_of table.now.shared.key) seat.old.me }
    requires page { page < sizes.now.pages }
    requires past { (mine (setup_of table.now.shared.key) seat.old.me).memory.give ≡ Past slot (page + 1) next }
    ensures own { (seat.new.table_id ≡ seat.old.table_id) × (seat.new.id ≡ seat.old.id) }
    ensures owed { 0 < (mine (setup_of table.now.shared.key) seat.old.me).clock.owed }
    ensures leaves { let T = setup_of table.now.shared.key in Stored T kind.FreePage (state_is_at sizes.now page) 0
        (frees (mine T seat.old.me) slot next) seat.old.me seat.new.me }
    ensures possible { HasPossible (setup_of table.now.shared.key) seat.new.me }
{
    store::<Record, Plan, ByRuns, Brand, _>(table, seat, state_at(sizes, page), 0, &(slot, next));
}

/// Clears the head of a chain once all its pages are free. Once at the end is enough, since nobody reads the head before the slot is free.
pub fn clear(table: &RunTable, seat: &mut RunSeat, sizes: &TableSizes, slot: usize)
    requires own { seat.old.table_id ≡ table.now.shared.table_id }
    requires layout { HasLayout (setup_of table.now.shared.key) sizes.now table.now.shared.table_id }
    requires alone { HasOne (setup_of table.now.shared.key) seat.old.me }
    requires slot { slot < sizes.now.slots }
    requires given { (mine (setup_of table.now.shared.key) seat.old.me).memory.give ≡ Giving slot 0 }
    ensures own { (seat.new.table_id ≡ seat.old.table_id) × (seat.new.id ≡ seat.old.id) }
    ensures owed { (mine (setup_of table.now.shared.key) seat.old.me).clock.owed ≡ 0 }
    ensures leaves { let T = setup_of table.now.shared.key in Stored T kind.ClearHead (head_is_at sizes.now slot) 0
        (remembers (mine T seat.old.me) (with_give (mine T seat.old.me).memory (Gave slot))) seat.old.me seat.new.me }
    ensures possible { HasPossible (setup_of table.now.shared.key) seat.new.me }
{
    store::<Record, Plan, ByRuns, Brand, _>(table, seat, head_at(sizes, slot), 0, &slot);
}
