//! Stakes in regions, each by one access of the count of a slot, which is one more than the stakes in its region.
//!
//! 1. A goroutine that has a stake adds 1 for one that it is about to start (`share`). So the count is at least 3 from before the
//!    start on, until one of the two leaves.
//! 2. A goroutine that ends its stake subtracts 1 (`leave`). If it finds more than 2, it is not the last: another one still has a
//!    stake and will find what is left. If it finds 2, it is the last. From then on nobody has a stake, so nobody accesses the count.
//! 3. The last one returns the pages, and stores 0 (`free_slot`). Then another goroutine's `create` may find the slot free.
//!
//! Each function is called by the goroutine whose record is on the seat, in its own turn. None can fail: an addition or subtraction
//! is never refused, and the slot is freed when nobody else accesses its count. Why: docs/DECISIONS.md, "Counts and pages as
//! words".
ghost use Rattle.std.specs.Prelude.{◌≡◌, ◌<◌, ◌+◌, ◌-◌, ◌%◌, ◌^◌, ℕ};
ghost use mathlib.Core.Logic.{◌↔◌};
ghost use Rattle.rgo_core.specs.moves.Chains.{remembers};
ghost use Rattle.rgo_core.specs.runs.Plans.{setup_of};
ghost use Rattle.rgo_core.specs.Channels.Records.{at_rest};
ghost use Rattle.rgo_core.specs.Memory.Records.{Calm, Gave, with_give};
ghost use Rattle.rgo_core.specs.Memory.Words.{count_at};
ghost use Rattle.rgo_core.specs.Rule.declared.accesses.Kind.TheVariants as kind;
ghost use Rattle.rgo_core_steps.specs.Counts.{IsLeaving, IsSharing, Leaving, shared_record};
ghost use Rattle.rgo_core_steps.specs.Layouts.{HasLayout};
ghost use Rattle.rgo_core_steps.specs.Seats.{HasOne, HasPossible, HasAccessed as HasLeft, Settles, Stored, mine, settled};
ghost use Rattle.rgo_counts.specs.declared.stakes.Left.TheVariants.{Last};

use rgo_core::memory::layout::TableSizes;
use rgo_core::table::{RunSeat, RunTable};
use rgo_core_steps::counting::Steps;
use rgo_core_steps::counts;
use std::sync::ledger::Ledger;

/// Whether another goroutine has a stake in a region after one has left it.
#[derive(Clone, Copy, Debug, PartialEq, Eq)]
pub enum Left {
    /// At least one goroutine had one at the moment of the subtraction.
    Others,
    /// None has, and none will: only a goroutine with a stake can share it. The caller alone returns the pages, and then frees the
    /// slot.
    Last,
}

/// Takes the stake of a goroutine that is about to start: the first duty. The starter takes it, before the start: if the new
/// goroutine did so itself, the last stake of the others might end before its first step.
pub fn share<L: Ledger>(
    table: &RunTable,
    seat: &mut RunSeat,
    behind: u64,
    sizes: &TableSizes,
    slot: u32,
    steps: &mut Steps<L>,
)
    requires own { seat.old.table_id ≡ table.now.shared.table_id }
    requires layout { HasLayout (setup_of table.now.shared.key) sizes.now table.now.shared.table_id }
    requires alone { HasOne (setup_of table.now.shared.key) seat.old.me }
    requires settles { Settles (setup_of table.now.shared.key) behind seat.old.me }
    requires rests { (settled (setup_of table.now.shared.key) behind seat.old.me).side ≡ at_rest }
    requires slot { slot < sizes.now.slots }
    requires shares { IsSharing (settled (setup_of table.now.shared.key) behind seat.old.me) slot }
    ensures own { (seat.new.table_id ≡ seat.old.table_id) × (seat.new.id ≡ seat.old.id) }
    ensures leaves { let T = setup_of table.now.shared.key in (n : ℕ)
        × HasLeft T kind.ShareRegion (count_at sizes.now slot) (λ n. (n + 1) % 2 ^ 64)
        (λ n d. d ≡ shared_record (settled T behind seat.old.me)) seat.old.me n seat.new.me }
    ensures possible { HasPossible (setup_of table.now.shared.key) seat.new.me }
    ensures cost { steps.new ≡ steps.old + 1 }
{
    steps.tick();
    counts::share(table, seat, behind, sizes, slot as usize);
}

/// Ends a stake of the goroutine: the first duty. Returns `Last` exactly if the count was found to be 2.
pub fn leave<L: Ledger>(
    table: &RunTable,
    seat: &mut RunSeat,
    behind: u64,
    sizes: &TableSizes,
    slot: u32,
    steps: &mut Steps<L>,
) -> Left
    requires own { seat.old.table_id ≡ table.now.shared.table_id }
    requires layout { HasLayout (setup_of table.now.shared.key) sizes.now table.now.shared.table_id }
    requires alone { HasOne (setup_of table.now.shared.key) seat.old.me }
    requires settles { Settles (setup_of table.now.shared.key) behind seat.old.me }
    requires rests { (settled (setup_of table.now.shared.key) behind seat.old.me).side ≡ at_rest }
    requires slot { slot < sizes.now.slots }
    requires leaves { IsLeaving (settled (setup_of table.now.shared.key) behind seat.old.me) slot }
    ensures own { (seat.new.table_id ≡ seat.old.table_id) × (seat.new.id ≡ seat.old.id) }
    ensures leaves { let T = setup_of table.now.shared.key in (n : ℕ) × ((result ≡ Last) ↔ (n ≡ 2))
        × HasLeft T kind.LeaveRegion (count_at sizes.now slot) (λ n. (n + (2 ^ 64 - 1)) % 2 ^ 64)
        (Leaving (settled T behind seat.old.me) slot) seat.old.me n seat.new.me }
    ensures possible { HasPossible (setup_of table.now.shared.key) seat.new.me }
    ensures cost { steps.new ≡ steps.old + 1 }
{
    steps.tick();
    let found = counts::leave(table, seat, behind, sizes, slot as usize);
    if found == 2 { Left::Last } else { Left::Others }
}

/// Frees the slot of a region whose pages were returned. This comes last: a region that took the slot earlier would put its pages
/// on the old chain.
pub fn free_slot<L: Ledger>(
    table: &RunTable,
    seat: &mut RunSeat,
    sizes: &TableSizes,
    slot: u32,
    steps: &mut Steps<L>,
)
    requires own { seat.old.table_id ≡ table.now.shared.table_id }
    requires layout { HasLayout (setup_of table.now.shared.key) sizes.now table.now.shared.table_id }
    requires alone { HasOne (setup_of table.now.shared.key) seat.old.me }
    requires slot { slot < sizes.now.slots }
    requires gave { (mine (setup_of table.now.shared.key) seat.old.me).memory.give ≡ Gave slot }
    ensures own { (seat.new.table_id ≡ seat.old.table_id) × (seat.new.id ≡ seat.old.id) }
    ensures leaves { let T = setup_of table.now.shared.key in Stored T kind.FreeSlot (count_at sizes.now slot) 0
        (remembers (mine T seat.old.me) (with_give (mine T seat.old.me).memory Calm)) seat.old.me seat.new.me }
    ensures possible { HasPossible (setup_of table.now.shared.key) seat.new.me }
    ensures cost { steps.new ≡ steps.old + 1 }
{
    steps.tick();
    counts::free_slot(table, seat, sizes, slot as usize);
}
