//! What a run comes to: how it ended, its prints, and what its goroutines have counted. `driving` fills it, and the tests of
//! `rgo_goroutine` compare all of it.
//!
//! Invariant: `tally` and `enders` speak of goroutines that have retired, and of no others. Until `drive` sorts them, `prints` are in
//! the order in which they were gathered, which need not be that of their tickets. Only the driver's thread has an `Over`.
ghost use Rattle.std.specs.Prelude.{◌≡◌, ◌++◌, true, IfOk, OnOk};
ghost use Rattle.rgo_goroutine.specs.Acts.Runs as runs;
ghost use Rattle.rgo_goroutine.specs.Goroutines.{IsOf, record_of_goroutine};
ghost use Rattle.rgo_crew.specs.Overs.{AreTicketsNumbered, tally_sum, ended_by, crew_end_of, joined_prints, no_tally, tally_of, why_of};

use rgo_core_steps::clock::Mark;
use rgo_goroutine::acts::prints::Print;
use rgo_goroutine::body::Counts;
use rgo_goroutine::goroutine::Goroutine;
use rgo_goroutine::turning::TableTurnEnd;
use rgo_sound::machine::{End, Shortage};
use rgo_sound::memory::Trap;
use rgo_sound::region_machine::Limit;
use std::alloc::{AllocError, Global};

/// How a run ended that a test drives. It is not a `RunEnd`, which is the result of a whole run: a test may stop while the run could
/// continue (`Unfinished`). It also keeps apart the limit that a goroutine has marked (`Limit`) and what a goroutine lacked in its turn
/// (`Short`), since `RunEnd` reports both as a lack of room. A trap has no place, so that a test need not count columns.
#[derive(Clone, Copy, Debug, PartialEq, Eq)]
pub enum CrewEnd {
    /// It could continue.
    Unfinished,
    /// `main` has returned.
    Exit,
    Trap(Trap),
    Limit(Limit),
    /// Each goroutine that has not returned waits.
    Deadlock,
    /// A goroutine lacks a page or a slot.
    Short(Shortage),
    NoMemory,
}

/// Why a turn was over. Words of the table and places of the text are left out, so that a test can list what it expects without them.
#[derive(Clone, Copy, Debug, PartialEq, Eq)]
pub enum Why {
    Went,
    Blocked,
    Lost,
    Ended,
    Over(CrewEnd),
}

/// What goroutines have made and done.
#[derive(Clone, Copy, Debug, PartialEq, Eq)]
pub struct Tally {
    /// Regions.
    pub made: u64,
    pub removed: u64,
    /// Pages, and those of regions that were removed.
    pub taken: u64,
    pub returned: u64,
    /// Instructions.
    pub steps: u64,
    pub objects: u64,
    pub goroutines: u64,
}

/// What a run has come to.
#[derive(Drop)]
pub struct Over {
    pub ending: CrewEnd,
    /// What was printed. The tickets of a run that is over are the numbers from 0 on, in order.
    pub prints: Vec<Print>,
    /// The numbers of the goroutines that have retired and have set the first end mark, and how they have ended the run. It is a
    /// list, so that a test would see if two had.
    pub enders: Vec<(u64, CrewEnd)>,
    /// What all goroutines had made and done when the run was over.
    pub at_end: Tally,
    /// What those that have retired have made and done, also after the end of the run. Once all have retired, it shows whether each
    /// page that was taken was returned.
    pub tally: Tally,
    /// Why each listed turn was over, and how many goroutines it has started.
    pub whys: Vec<Why>,
    pub started: Vec<usize>,
    /// How many pages and slots of the closed table are not free.
    pub pages: u64,
    pub slots: u64,
}

/// How a mark ends the run. It leaves out the place of a trap.
fn crew_end_of(mark: Mark) -> CrewEnd
    ensures { result ≡ crew_end_of mark }
{
    match mark {
        Mark::Ended(End::Exit) => CrewEnd::Exit,
        Mark::Ended(End::Trap(trap, _)) => CrewEnd::Trap(trap),
        Mark::Stopped(limit) => CrewEnd::Limit(limit),
    }
}

impl Why {
    /// The reason without words and places. There is no arm for all others, so that a new reason of `rgo_goroutine` has to be considered
    /// here.
    pub fn of(stop: TableTurnEnd) -> Why
        ensures { result ≡ why_of stop }
    {
        match stop {
            TableTurnEnd::Went => Why::Went,
            TableTurnEnd::Blocked { .. } => Why::Blocked,
            TableTurnEnd::Lost { .. } => Why::Lost,
            TableTurnEnd::Ended => Why::Ended,
            TableTurnEnd::Stopped(mark) => Why::Over(crew_end_of(mark)),
            TableTurnEnd::Short(shortage) => Why::Over(CrewEnd::Short(shortage)),
            TableTurnEnd::NoMemory => Why::Over(CrewEnd::NoMemory),
        }
    }
}

impl Tally {
    /// The tally of no goroutine, from which sums begin.
    pub fn new() -> Tally
        ensures { result ≡ no_tally }
    {
        Tally {
            made: 0,
            removed: 0,
            taken: 0,
            returned: 0,
            steps: 0,
            objects: 0,
            goroutines: 0,
        }
    }

    /// What a goroutine has made and done.
    pub fn of(counts: &Counts) -> Tally
        ensures { result ≡ tally_of counts.now }
    {
        Tally {
            made: counts.made,
            removed: counts.removed,
            taken: counts.taken,
            returned: counts.returned,
            steps: counts.steps,
            objects: counts.objects,
            goroutines: counts.goroutines,
        }
    }

    /// The sum of two tallies. The numbers wrap, since no clause bounds what a goroutine has counted; those of a test are small.
    pub fn and(self, other: Tally) -> Tally
        ensures { result ≡ tally_sum self other }
    {
        Tally {
            made: self.made.wrapping_add(other.made),
            removed: self.removed.wrapping_add(other.removed),
            taken: self.taken.wrapping_add(other.taken),
            returned: self.returned.wrapping_add(other.returned),
            steps: self.steps.wrapping_add(other.steps),
            objects: self.objects.wrapping_add(other.objects),
            goroutines: self.goroutines.wrapping_add(other.goroutines),
        }
    }
}

/// Whether the tickets of these prints are the numbers from 0 on, in order. If they are not, a print was lost, or two have drawn the
/// same ticket.
pub(crate) fn are_numbered(prints: &[Print]) -> bool
    ensures { result ≡ true → AreTicketsNumbered prints.now }
{
    for i in 0..prints.len() {
        if prints[i].ticket != i as u64 {
            return false;
        }
    }
    true
}

impl Over {
    /// What a run comes to in which nothing has happened yet.
    pub(crate) fn new(alloc: Global) -> Over {
        Over {
            ending: CrewEnd::Unfinished,
            prints: Vec::new(alloc),
            enders: Vec::new(alloc),
            at_end: Tally::new(),
            tally: Tally::new(),
            whys: Vec::new(alloc),
            started: Vec::new(alloc),
            pages: 0,
            slots: 0,
        }
    }

    /// Adds what a goroutine has counted. Called once for each, just before it retires: afterwards its record is at the driver's seat.
    ///
    /// # Errors
    ///
    /// On allocation failure. Then nothing is added.
    pub fn count(&mut self, goroutine: &Goroutine) -> Result<(), AllocError>
        ensures tally { (r : runs.Run) → IsOf r goroutine.now
            → OnOk result (self.new.tally ≡ tally_sum self.old.tally (tally_of (record_of_goroutine r.setup goroutine.now).clock.share)) }
        ensures enders { OnOk result (self.new.enders.items ≡ self.old.enders.items ++ ended_by goroutine.now) }
        ensures prints { self.new.prints.items ≡ self.old.prints.items }
    {
        if let Some(mark) = goroutine.first() {
            self.enders.push((goroutine.number(), crew_end_of(mark)))?;
        }
        self.tally = self.tally.and(Tally::of(goroutine.tally()));
        Ok(())
    }

    /// Settles how the run ended, after all goroutines have retired. A mark that a goroutine has set goes before what the driver saw: with
    /// threads, the driver sees only that the run has ended, and the mark is in the record of a goroutine.
    pub(crate) fn settle(&mut self) {
        if let Some((_, ending)) = self.enders.first() {
            self.ending = *ending;
        }
    }

    /// What was printed, as one text.
    ///
    /// # Errors
    ///
    /// On allocation failure.
    pub fn printed(&self, alloc: Global) -> Result<Vec<u8>, AllocError>
        ensures { IfOk result (λ bytes. bytes.items ≡ joined_prints self.now.prints.items) }
    {
        let mut bytes = Vec::new(alloc);
        for print in &self.prints {
            bytes.extend_from_slice(&print.bytes)?;
        }
        Ok(bytes)
    }
}
