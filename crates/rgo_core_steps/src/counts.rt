//! The count of a slot: 0 while the slot is free, n + 1 for a region with n stakes, 1 while the pages of a region without stakes
//! are returned.
//!
//! 1. `create` exchanges 0 for 2: the goroutine that finds 0 has the slot, for a region with its own stake.
//! 2. `share` adds 1 before a goroutine starts that uses the region, so that its stake is there from its first step on.
//! 3. `leave` subtracts 1. The goroutine that finds 2 ended the last stake: it alone returns the pages.
//! 4. `free_slot` stores 0, after the pages are free and the head of their chain is 0.
//!
//! A count other than 0 is never taken by `create`, so the slot stays with its region until step 4. Only goroutines with a stake there
//! access the count in steps 2 and 3, so it cannot fall to 1 while one of them is about to add. Each call is made by the
//! goroutine whose record is on the seat. Why: docs/DECISIONS.md, "Counts and pages as words".
ghost use Rattle.std.specs.Prelude.{◌≡◌, ◌<◌, ◌≤◌, ◌+◌, ◌-◌, ◌%◌, ◌^◌, ◌==◌, ℕ, false};
ghost use prog.Atomic.{either};
ghost use Rattle.rgo_sound.specs.Stakes.{is_in};
ghost use Rattle.rgo_core.specs.moves.Chains.{remembers};
ghost use Rattle.rgo_core.specs.runs.Plans.{setup_of};
ghost use Rattle.rgo_core.specs.Channels.Records.{at_rest};
ghost use Rattle.rgo_core.specs.Memory.Records.{Calm, Gave, with_give};
ghost use Rattle.rgo_core.specs.Memory.Words.{count_at as count_is_at};
ghost use Rattle.rgo_core.specs.Rule.declared.accesses.Kind.TheVariants as kind;
ghost use Rattle.rgo_core_steps.specs.Counts.{IsCreating, IsLeaving, IsSharing, Leaving, shared_record, tries_slot};
ghost use Rattle.rgo_core_steps.specs.Layouts.{HasLayout};
ghost use Rattle.rgo_core_steps.specs.Seats.{HasOne, HasPossible, HasAccessed, Settles, Stored, mine, settled};

use rgo_core::memory::layout::{TableSizes, count_at};
use rgo_core::records::Record;
use rgo_core::rule::steps::{compare_exchange, fetch_add, fetch_sub, store};
use rgo_core::table::{ByRuns, Plan, RunSeat, RunTable};
use std::marker::Brand;

/// Whether a slot looks free. A hint where to begin a search: another goroutine may take the slot at once, and the load is not part
/// of the history. Anybody may call it, with no seat.
pub fn looks_free(table: &RunTable, sizes: &TableSizes, slot: usize) -> bool
    requires layout { HasLayout (setup_of table.now.shared.key) sizes.now table.now.shared.table_id }
    requires slot { slot < sizes.now.slots }
{
    table.shared.peek(count_at(sizes, slot)) == 0
}

/// Takes a slot for the region that the first duty creates, if the count found is 0: the goroutine has no stake in a region of the
/// slot before. Otherwise nothing changes, and the record remembers that this slot was found in use. It may be free again at once, so
/// the memory of it proves only that some region was created there.
pub fn create(
    table: &RunTable,
    seat: &mut RunSeat,
    behind: u64,
    sizes: &TableSizes,
    slot: usize,
) -> u64
    requires own { seat.old.table_id ≡ table.now.shared.table_id }
    requires layout { HasLayout (setup_of table.now.shared.key) sizes.now table.now.shared.table_id }
    requires alone { HasOne (setup_of table.now.shared.key) seat.old.me }
    requires settles { Settles (setup_of table.now.shared.key) behind seat.old.me }
    requires rests { (settled (setup_of table.now.shared.key) behind seat.old.me).side ≡ at_rest }
    requires slot { slot < sizes.now.slots }
    requires creates { IsCreating (settled (setup_of table.now.shared.key) behind seat.old.me) }
    ensures own { (seat.new.table_id ≡ seat.old.table_id) × (seat.new.id ≡ seat.old.id) }
    ensures leaves { let T = setup_of table.now.shared.key in HasAccessed T kind.CreateRegion (count_is_at sizes.now slot)
        (λ n. either (n == 0) 2 n) (λ n d. d ≡ tries_slot (settled T behind seat.old.me) slot n)
        seat.old.me result seat.new.me }
    ensures fresh { result ≡ 0
        → is_in slot (settled (setup_of table.now.shared.key) behind seat.old.me).frame.holder.stakes ≡ false }
    ensures possible { HasPossible (setup_of table.now.shared.key) seat.new.me }
{
    compare_exchange::<Record, Plan, ByRuns, Brand, _>(
        table,
        seat,
        count_at(sizes, slot),
        0,
        2,
        &(slot, behind),
    )
}

/// Takes the stake of a goroutine that is about to start: the first duty. It comes before the start, since afterwards the last stake of
/// the others may end before the new goroutine's first step.
pub fn share(
    table: &RunTable,
    seat: &mut RunSeat,
    behind: u64,
    sizes: &TableSizes,
    slot: usize,
) -> u64
    requires own { seat.old.table_id ≡ table.now.shared.table_id }
    requires layout { HasLayout (setup_of table.now.shared.key) sizes.now table.now.shared.table_id }
    requires alone { HasOne (setup_of table.now.shared.key) seat.old.me }
    requires settles { Settles (setup_of table.now.shared.key) behind seat.old.me }
    requires rests { (settled (setup_of table.now.shared.key) behind seat.old.me).side ≡ at_rest }
    requires slot { slot < sizes.now.slots }
    requires shares { IsSharing (settled (setup_of table.now.shared.key) behind seat.old.me) slot }
    ensures own { (seat.new.table_id ≡ seat.old.table_id) × (seat.new.id ≡ seat.old.id) }
    ensures leaves { let T = setup_of table.now.shared.key in HasAccessed T kind.ShareRegion (count_is_at sizes.now slot)
        (λ n. (n + 1) % 2 ^ 64) (λ n d. d ≡ shared_record (settled T behind seat.old.me)) seat.old.me result seat.new.me }
    ensures possible { HasPossible (setup_of table.now.shared.key) seat.new.me }
{
    fetch_add::<Record, Plan, ByRuns, Brand, _>(table, seat, count_at(sizes, slot), 1, &behind)
}

/// Ends a stake of the goroutine: the first duty. It was the last if the count found is 2; then the pages of the region are to
/// be returned, by this goroutine and before its next duty. Two goroutines never both find 2, since each subtracts.
pub fn leave(
    table: &RunTable,
    seat: &mut RunSeat,
    behind: u64,
    sizes: &TableSizes,
    slot: usize,
) -> u64
    requires own { seat.old.table_id ≡ table.now.shared.table_id }
    requires layout { HasLayout (setup_of table.now.shared.key) sizes.now table.now.shared.table_id }
    requires alone { HasOne (setup_of table.now.shared.key) seat.old.me }
    requires settles { Settles (setup_of table.now.shared.key) behind seat.old.me }
    requires rests { (settled (setup_of table.now.shared.key) behind seat.old.me).side ≡ at_rest }
    requires slot { slot < sizes.now.slots }
    requires leaves { IsLeaving (settled (setup_of table.now.shared.key) behind seat.old.me) slot }
    ensures own { (seat.new.table_id ≡ seat.old.table_id) × (seat.new.id ≡ seat.old.id) }
    ensures leaves { let T = setup_of table.now.shared.key in HasAccessed T kind.LeaveRegion (count_is_at sizes.now slot)
        (λ n. (n + (2 ^ 64 - 1)) % 2 ^ 64) (Leaving (settled T behind seat.old.me) slot) seat.old.me result seat.new.me }
    ensures possible { HasPossible (setup_of table.now.shared.key) seat.new.me }
{
    fetch_sub::<Record, Plan, ByRuns, Brand, _>(
        table,
        seat,
        count_at(sizes, slot),
        1,
        &(slot, behind),
    )
}

/// Frees the slot of a region whose pages are free again, and whose head is 0. A plain store, since nobody else accesses a count of 1.
pub fn free_slot(table: &RunTable, seat: &mut RunSeat, sizes: &TableSizes, slot: usize)
    requires own { seat.old.table_id ≡ table.now.shared.table_id }
    requires layout { HasLayout (setup_of table.now.shared.key) sizes.now table.now.shared.table_id }
    requires alone { HasOne (setup_of table.now.shared.key) seat.old.me }
    requires slot { slot < sizes.now.slots }
    requires gave { (mine (setup_of table.now.shared.key) seat.old.me).memory.give ≡ Gave slot }
    ensures own { (seat.new.table_id ≡ seat.old.table_id) × (seat.new.id ≡ seat.old.id) }
    ensures leaves { let T = setup_of table.now.shared.key in Stored T kind.FreeSlot (count_is_at sizes.now slot) 0
        (remembers (mine T seat.old.me) (with_give (mine T seat.old.me).memory Calm)) seat.old.me seat.new.me }
    ensures possible { HasPossible (setup_of table.now.shared.key) seat.new.me }
{
    store::<Record, Plan, ByRuns, Brand, _>(table, seat, count_at(sizes, slot), 0, &());
}
