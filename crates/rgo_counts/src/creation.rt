//! A region is created: a search for a slot whose count is 0.
//!
//! 1. Looks find the slot at which to begin: the first that looks free. A look is a plain load that no history has, so it proves
//!    nothing, and it is not counted as a step. There is at most one for each slot.
//! 2. From there on once around, the count of each slot is exchanged, 2 for 0, until a count is found 0. That slot is the region's.
//! 3. If none is found 0, each count was found in use by an exchange of this call, and the record remembers each slot.
//!
//! An exchange that finds a count other than 0 shows that the slot is in use at that moment. It is not tried again in this call, so
//! the call ends after at most one exchange for each slot. Why: docs/DECISIONS.md, "Counts and pages as words".
ghost use Rattle.std.specs.Prelude.{◌≡◌, ◌<◌, ◌≤◌, ◌+◌, ◌-◌, ◌≢◌, ℕ, false, IfErr, IfOk, IfSome};
ghost use Rattle.rgo_core.specs.runs.Opening.{first_of};
ghost use Rattle.rgo_core.specs.runs.Plans.{setup_of};
ghost use Rattle.rgo_core.specs.Channels.Records.{at_rest};
ghost use Rattle.rgo_sound.specs.Stakes.{is_in};
ghost use Rattle.rgo_core_steps.specs.Counts.{IsCreating};
ghost use Rattle.rgo_core_steps.specs.Layouts.{HasLayout};
ghost use Rattle.rgo_core_steps.specs.Seats.{HasOne, HasPossible, Settles, mine, settled};
ghost use Rattle.rgo_counts.specs.Creation.{AllSlotsTried, FullSlotsLaw, SlotOrNone, SlotTaken, SlotsTried};

use rgo_core::memory::layout::TableSizes;
use rgo_core::table::{RunSeat, RunTable};
use rgo_core_steps::counting::Steps;
use rgo_core_steps::counts;
use std::sync::ledger::Ledger;

/// Each slot was found in use, at its own exchange. That all were in use at one moment does not follow; the driver finds that out
/// by a pass over all goroutines.
#[derive(Clone, Copy, Debug, PartialEq, Eq)]
pub struct NoSlot;

/// Creates the region of the first duty, and returns its slot, in which the goroutine had no stake before. The search begins at
/// slot 0. Called by the goroutine that owes the duty.
pub fn create<L: Ledger>(
    table: &RunTable,
    seat: &mut RunSeat,
    behind: u64,
    sizes: &TableSizes,
    steps: &mut Steps<L>,
) -> Result<u32, NoSlot>
    requires own { seat.old.table_id ≡ table.now.shared.table_id }
    requires layout { HasLayout (setup_of table.now.shared.key) sizes.now table.now.shared.table_id }
    requires alone { HasOne (setup_of table.now.shared.key) seat.old.me }
    requires settles { Settles (setup_of table.now.shared.key) behind seat.old.me }
    requires rests { (settled (setup_of table.now.shared.key) behind seat.old.me).side ≡ at_rest }
    requires creates { IsCreating (settled (setup_of table.now.shared.key) behind seat.old.me) }
    requires some { 0 < sizes.now.slots }
    ensures own { (seat.new.table_id ≡ seat.old.table_id) × (seat.new.id ≡ seat.old.id) }
    ensures created { let T = setup_of table.now.shared.key in IfOk result (λ slot.
        SlotTaken T sizes.now (settled T behind seat.old.me) slot seat.old.me seat.new.me) }
    ensures full { let T = setup_of table.now.shared.key in IfErr result (λ e.
        AllSlotsTried T sizes.now (settled T behind seat.old.me) seat.old.me seat.new.me) }
    ensures fresh { let T = setup_of table.now.shared.key in IfOk result (λ slot.
        is_in slot (settled T behind seat.old.me).frame.holder.stakes ≡ false) }
    ensures possible { HasPossible (setup_of table.now.shared.key) seat.new.me }
    ensures cost { steps.new ≤ steps.old + sizes.now.slots }
{
    create_at(table, seat, behind, sizes, 0, steps)
}

/// The same, but the search begins at slot `from`, or at slot 0 if there is no such slot. Where it begins is a hint: no clause
/// depends on it.
pub fn create_from<L: Ledger>(
    table: &RunTable,
    seat: &mut RunSeat,
    behind: u64,
    sizes: &TableSizes,
    from: u32,
    steps: &mut Steps<L>,
) -> Result<u32, NoSlot>
    requires own { seat.old.table_id ≡ table.now.shared.table_id }
    requires layout { HasLayout (setup_of table.now.shared.key) sizes.now table.now.shared.table_id }
    requires alone { HasOne (setup_of table.now.shared.key) seat.old.me }
    requires settles { Settles (setup_of table.now.shared.key) behind seat.old.me }
    requires rests { (settled (setup_of table.now.shared.key) behind seat.old.me).side ≡ at_rest }
    requires creates { IsCreating (settled (setup_of table.now.shared.key) behind seat.old.me) }
    requires some { 0 < sizes.now.slots }
    ensures own { (seat.new.table_id ≡ seat.old.table_id) × (seat.new.id ≡ seat.old.id) }
    ensures created { let T = setup_of table.now.shared.key in IfOk result (λ slot.
        SlotTaken T sizes.now (settled T behind seat.old.me) slot seat.old.me seat.new.me) }
    ensures full { let T = setup_of table.now.shared.key in IfErr result (λ e.
        AllSlotsTried T sizes.now (settled T behind seat.old.me) seat.old.me seat.new.me) }
    ensures fresh { let T = setup_of table.now.shared.key in IfOk result (λ slot.
        is_in slot (settled T behind seat.old.me).frame.holder.stakes ≡ false) }
    ensures possible { HasPossible (setup_of table.now.shared.key) seat.new.me }
    ensures cost { steps.new ≤ steps.old + sizes.now.slots }
{
    if (from as usize) < sizes.slots {
        create_at(table, seat, behind, sizes, from, steps)
    } else {
        create(table, seat, behind, sizes, steps)
    }
}

/// What a search in vain shows: each slot was found in use at an exchange of the call. The driver compares this with the accesses of
/// others to show that a run lacks regions.
pub fn full_law()
    ensures { FullSlotsLaw }
{}

/// Creates a region. The looks begin at this slot, which exists.
fn create_at<L: Ledger>(
    table: &RunTable,
    seat: &mut RunSeat,
    behind: u64,
    sizes: &TableSizes,
    from: u32,
    steps: &mut Steps<L>,
) -> Result<u32, NoSlot>
    requires own { seat.old.table_id ≡ table.now.shared.table_id }
    requires layout { HasLayout (setup_of table.now.shared.key) sizes.now table.now.shared.table_id }
    requires alone { HasOne (setup_of table.now.shared.key) seat.old.me }
    requires settles { Settles (setup_of table.now.shared.key) behind seat.old.me }
    requires rests { (settled (setup_of table.now.shared.key) behind seat.old.me).side ≡ at_rest }
    requires creates { IsCreating (settled (setup_of table.now.shared.key) behind seat.old.me) }
    requires from { from < sizes.now.slots }
    ensures own { (seat.new.table_id ≡ seat.old.table_id) × (seat.new.id ≡ seat.old.id) }
    ensures created { let T = setup_of table.now.shared.key in IfOk result (λ slot.
        SlotTaken T sizes.now (settled T behind seat.old.me) slot seat.old.me seat.new.me) }
    ensures full { let T = setup_of table.now.shared.key in IfErr result (λ e.
        AllSlotsTried T sizes.now (settled T behind seat.old.me) seat.old.me seat.new.me) }
    ensures fresh { let T = setup_of table.now.shared.key in IfOk result (λ slot.
        is_in slot (settled T behind seat.old.me).frame.holder.stakes ≡ false) }
    ensures possible { HasPossible (setup_of table.now.shared.key) seat.new.me }
    ensures cost { steps.new ≤ steps.old + sizes.now.slots }
{
    match take(table, seat, behind, sizes, from as usize, steps) {
        Some(slot) => Ok(slot as u32),
        None => Err(NoSlot),
    }
}

/// Takes a free slot, if an exchange finds one. The first exchange takes the local steps of the goroutine with it, so the others
/// have none to take.
fn take<L: Ledger>(
    table: &RunTable,
    seat: &mut RunSeat,
    behind: u64,
    sizes: &TableSizes,
    from: usize,
    steps: &mut Steps<L>,
) -> Option<usize>
    requires own { seat.old.table_id ≡ table.now.shared.table_id }
    requires layout { HasLayout (setup_of table.now.shared.key) sizes.now table.now.shared.table_id }
    requires alone { HasOne (setup_of table.now.shared.key) seat.old.me }
    requires settles { Settles (setup_of table.now.shared.key) behind seat.old.me }
    requires rests { (settled (setup_of table.now.shared.key) behind seat.old.me).side ≡ at_rest }
    requires creates { IsCreating (settled (setup_of table.now.shared.key) behind seat.old.me) }
    requires from { from < sizes.now.slots }
    ensures own { (seat.new.table_id ≡ seat.old.table_id) × (seat.new.id ≡ seat.old.id) }
    ensures taken { let T = setup_of table.now.shared.key in
        SlotOrNone T sizes.now (settled T behind seat.old.me) result seat.old.me seat.new.me }
    ensures fresh { let T = setup_of table.now.shared.key in IfSome result (λ slot.
        is_in slot (settled T behind seat.old.me).frame.holder.stakes ≡ false) }
    ensures possible { HasPossible (setup_of table.now.shared.key) seat.new.me }
    ensures cost { steps.new ≤ steps.old + sizes.now.slots }
{
    let start = beginning(table, sizes, from);
    steps.tick();
    if counts::create(table, seat, behind, sizes, start) == 0 {
        return Some(start);
    }
    match try_slots(table, seat, sizes, start + 1, sizes.slots, steps) {
        Some(slot) => Some(slot),
        None => try_slots(table, seat, sizes, 0, start, steps),
    }
}

/// Where the exchanges begin: at the first slot that looks free, from `from` on once around; if none does, at `from`. The exchanges
/// are made in that case, too: a look is not part of the history of the table, so it cannot show that a slot is in use.
fn beginning(table: &RunTable, sizes: &TableSizes, from: usize) -> usize
    requires layout { HasLayout (setup_of table.now.shared.key) sizes.now table.now.shared.table_id }
    requires from { from < sizes.now.slots }
    ensures inside { result < sizes.now.slots }
{
    if let Some(slot) = look(table, sizes, from, sizes.slots) {
        return slot;
    }
    match look(table, sizes, 0, from) {
        Some(slot) => slot,
        None => from,
    }
}

/// The first slot from `first` to `end` that looks free. It may be taken before the exchange; then the exchange finds that out.
fn look(table: &RunTable, sizes: &TableSizes, first: usize, end: usize) -> Option<usize>
    requires layout { HasLayout (setup_of table.now.shared.key) sizes.now table.now.shared.table_id }
    requires ends { (first ≤ end) × (end ≤ sizes.now.slots) }
    ensures inside { IfSome result (λ slot. slot < sizes.now.slots) }
{
    for slot in first..end {
        if counts::looks_free(table, sizes, slot) {
            return Some(slot);
        }
    }
    None
}

/// Exchanges the counts of the slots from `first` to `end` in turn, until one is found 0. Slots in use are exchanged, too: only an
/// exchange proves that a slot was in use.
fn try_slots<L: Ledger>(
    table: &RunTable,
    seat: &mut RunSeat,
    sizes: &TableSizes,
    first: usize,
    end: usize,
    steps: &mut Steps<L>,
) -> Option<usize>
    requires own { seat.old.table_id ≡ table.now.shared.table_id }
    requires layout { HasLayout (setup_of table.now.shared.key) sizes.now table.now.shared.table_id }
    requires alone { HasOne (setup_of table.now.shared.key) seat.old.me }
    requires rests { (mine (setup_of table.now.shared.key) seat.old.me).side ≡ at_rest }
    requires creates { IsCreating (mine (setup_of table.now.shared.key) seat.old.me) }
    requires possible { HasPossible (setup_of table.now.shared.key) seat.old.me }
    requires ends { (first ≤ end) × (end ≤ sizes.now.slots) }
    ensures own { (seat.new.table_id ≡ seat.old.table_id) × (seat.new.id ≡ seat.old.id) }
    ensures tried { let T = setup_of table.now.shared.key in
        SlotsTried T sizes.now first end (mine T seat.old.me) result seat.old.me seat.new.me }
    ensures fresh { let T = setup_of table.now.shared.key in IfSome result (λ slot.
        is_in slot (mine T seat.old.me).frame.holder.stakes ≡ false) }
    ensures possible { HasPossible (setup_of table.now.shared.key) seat.new.me }
    ensures cost { steps.new ≤ steps.old + (end - first) }
{
    for slot in first..end {
        steps.tick();
        if counts::create(table, seat, 0, sizes, slot) == 0 {
            return Some(slot);
        }
    }
    None
}
