//! Numbers of goroutines, word 16 of a table: a goroutine that starts another adds 1, and the number found is that of the new
//! one. At the limit of goroutines none starts, and the goroutine that wanted one ends the run.
//!
//! A number that was drawn at the limit is lost. It is not subtracted again: another goroutine may have drawn in between.
//!
//! `behind` is how many local steps the goroutine has made since its last access. The code does not use it: it is for the proof.
ghost use Rattle.std.specs.Prelude.{◌≡◌, IfSome};
ghost use Rattle.rgo_core.specs.Core.{IsPossible};
ghost use Rattle.rgo_core.specs.runs.Plans.{setup_of};
ghost use Rattle.rgo_core.specs.Memory.Words.{made_at};
ghost use Rattle.rgo_core_steps.specs.Seats.{HasOne, HasPossible, IsSeatOf, Settles, other, settled};
ghost use Rattle.rgo_core_steps.specs.Starts.{HasDrawn, IsBeforeGo};

use rgo_core::records::Record;
use rgo_core::rule::steps::fetch_add_start;
use rgo_core::table::{ByRuns, Plan, RunSeat, RunTable};
use rgo_sound::machine::Limits;
use std::marker::Brand;

/// Draws a number for the goroutine that the next instruction starts, and returns it. The seat then has its record beside that of
/// the goroutine that started it. It has to be called after the stakes of the new goroutine were taken. `None` if there are as many
/// goroutines as there may be; the record remembers that it was refused, and may end the run for that reason at any time later.
pub fn number(table: &RunTable, seat: &mut RunSeat, behind: u64, limits: &Limits) -> Option<u64>
    requires own { IsSeatOf seat.old.table_id table.now.shared.table_id made_at }
    requires limits { limits.now ≡ table.now.shared.key.limits }
    requires alone { HasOne (setup_of table.now.shared.key) seat.old.me }
    requires settles { Settles (setup_of table.now.shared.key) behind seat.old.me }
    requires start { IsBeforeGo (setup_of table.now.shared.key) (settled (setup_of table.now.shared.key) behind seat.old.me) }
    ensures own { (seat.new.table_id ≡ seat.old.table_id) × (seat.new.id ≡ seat.old.id) }
    ensures drawn { HasDrawn (setup_of table.now.shared.key) behind seat.old.me result seat.new.me }
    ensures possible { HasPossible (setup_of table.now.shared.key) seat.new.me }
    ensures child { let T = setup_of table.now.shared.key in
        IfSome result (λ n. IsPossible T n (other T seat.new.me)) }
{
    let found = fetch_add_start::<Record, Plan, ByRuns, Brand, _>(table, seat, 16, 1, &behind);
    let most = limits.goroutines.max(1) as u64;
    if found < most { Some(found) } else { None }
}
