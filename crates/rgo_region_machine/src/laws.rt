//! Examples of runs of the region machine, proved by computation. They check the definitions, which are trusted: a law about
//! every run would hold as well for a machine that has no steps.

ghost use Rattle.rgo_region_machine.specs.Examples.{RegionExamples, RegionRoomExamples, SpreadExamples};

/// Small runs: what they print, how they end and what they count; and events that have no step.
pub fn examples()
    ensures { RegionExamples }
{}

/// Objects larger than a page: the pages that are taken for them, and how large they can be, at each limit and one above it.
pub fn spread_examples()
    ensures { SpreadExamples }
{}

/// The room that small runs use, and which runs have none.
pub fn room_examples()
    ensures { RegionRoomExamples }
{}
