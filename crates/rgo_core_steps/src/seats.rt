//! Seats of a run's table: the record of a goroutine that has started goes to a seat of its own, and comes back when nobody needs
//! the seat any more. The driver calls these between turns, when no goroutine uses the seats.
ghost use Rattle.std.specs.Prelude.{◌≡◌, ◌∷◌, [], ◌++◌};
ghost use Rattle.rgo_core.specs.runs.Plans.{setup_of};
ghost use Rattle.rgo_core.specs.Memory.Words.{clock_at};
ghost use Rattle.rgo_core.specs.Rule.Views.{longer, number_of, view};
ghost use Rattle.rgo_core_steps.specs.Seats.{HasTwo, IsSeatOf, mine, other};

use rgo_core::records::Record;
use rgo_core::rule::seats::{part, retire};
use rgo_core::table::{ByRuns, Plan, RunSeat, RunTable};

/// The record of a goroutine that has started goes to a seat of its own, which has seen the same accesses. It must be done before another
/// thread runs the new goroutine: a seat is used by one thread at a time.
pub fn split(table: &RunTable, seat: &mut RunSeat, number: u64) -> RunSeat
    requires own { IsSeatOf seat.old.table_id table.now.shared.table_id clock_at }
    requires two { HasTwo (setup_of table.now.shared.key) seat.old.me number }
    ensures own { (seat.new.table_id ≡ seat.old.table_id) × (seat.new.id ≡ seat.old.id) }
    ensures old { seat.new.me ≡ (
      view ((number_of seat.old.me, mine (setup_of table.now.shared.key) seat.old.me) ∷ []) seat.old.me.0.seen,
      [],
    ) }
    ensures table { result.table_id ≡ seat.old.table_id }
    ensures new { result.me ≡ (
      view ((number, other (setup_of table.now.shared.key) seat.old.me) ∷ []) seat.old.me.0.seen,
      [],
    ) }
{
    part::<Record, Plan, ByRuns>(table, seat, number)
}

/// All records of another seat come to this one, which has then seen what either had. That seat's goroutines can make no access any more.
pub fn join(table: &RunTable, seat: &mut RunSeat, other: RunSeat)
    requires own { IsSeatOf seat.old.table_id table.now.shared.table_id clock_at }
    requires other { IsSeatOf other.table_id table.now.shared.table_id clock_at }
    requires empty { other.me.1 ≡ [] }
    ensures own { (seat.new.table_id ≡ seat.old.table_id) × (seat.new.id ≡ seat.old.id) }
    ensures records { seat.new.me.0.records ≡ seat.old.me.0.records ++ other.me.0.records }
    ensures seen { seat.new.me.0.seen ≡ longer seat.old.me.0.seen other.me.0.seen }
    ensures slots { seat.new.me.1 ≡ seat.old.me.1 }
{
    retire::<Record, Plan, ByRuns>(table, seat, other);
}

/// Each of two seats has then seen what either had. No record passes. A pass over all goroutines is made of these.
pub fn meet(table: &RunTable, seat: &mut RunSeat, other: &mut RunSeat)
    requires own { IsSeatOf seat.old.table_id table.now.shared.table_id clock_at }
    requires other { IsSeatOf other.old.table_id table.now.shared.table_id clock_at }
    ensures own { (seat.new.table_id ≡ seat.old.table_id) × (other.new.table_id ≡ other.old.table_id) }
    ensures seat { seat.new.me ≡ (
      view seat.old.me.0.records (longer seat.old.me.0.seen other.old.me.0.seen),
      seat.old.me.1,
    ) }
    ensures other { other.new.me ≡ (
      view other.old.me.0.records (longer seat.old.me.0.seen other.old.me.0.seen),
      other.old.me.1,
    ) }
{
    rgo_core::rule::seats::meet::<Record, Plan, ByRuns>(table, seat, other);
}
