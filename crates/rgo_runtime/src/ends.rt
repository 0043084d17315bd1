//! How a run has ended, by the mark that a goroutine has set at its table. The first mark that is set is the run's; later ones fail.
ghost use Rattle.std.specs.Prelude.{◌≡◌};
ghost use Rattle.rgo_core_steps.specs.Ends.{mark_of};
ghost use Rattle.rgo_table_runs.specs.closing.Ends as spec;

use rgo_core_steps::clock::Mark;
use rgo_sound::machine::{RunEnd, Shortage};
use rgo_sound::region_machine::Limit;

/// The end of a run in which a goroutine has met this limit. `RunEnd` does not say whether a goroutine met the limit or the driver
/// found the lack in a check: for a user both are the same.
fn end_of_limit(limit: Limit) -> RunEnd
    ensures { result ≡ spec.end_of_limit limit }
{
    match limit {
        Limit::Pages => RunEnd::NoRoom(Shortage::Pages),
        Limit::Regions => RunEnd::NoRoom(Shortage::Regions),
        Limit::ObjectSize => RunEnd::NoRoom(Shortage::ObjectSize),
        Limit::Calls => RunEnd::CallsTooDeep,
        Limit::Goroutines => RunEnd::GoroutinesSpent,
        Limit::Memory => RunEnd::NoMemory,
    }
}

/// The end of a run whose mark this is.
pub fn end_of(mark: Mark) -> RunEnd
    ensures { result ≡ spec.run_end_of_mark (mark_of mark) }
{
    match mark {
        Mark::Ended(end) => RunEnd::Ended(end),
        Mark::Stopped(limit) => end_of_limit(limit),
    }
}
