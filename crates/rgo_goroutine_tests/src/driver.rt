//! Runs of texts on tables of their own.

use rgo_crew::driving;
pub(crate) use rgo_crew::driving::Course;
use rgo_crew::over::Over;
use rgo_machine::{Limits, Sizes};
use rgo_run::compile;
use std::test::Fail;
use std::thread::Threads;

/// How much room a run has.
#[derive(Clone, Copy)]
pub(crate) struct Room {
    pub page_words: usize,
    pub pages: usize,
    pub regions: usize,
    pub goroutines: usize,
}

/// Room for all that any program of these tests needs.
pub(crate) const ROOMY: Room = Room {
    page_words: 256,
    pages: 1000,
    regions: 1000,
    goroutines: 1000,
};

/// What goroutines have made and done, but for their instructions.
#[derive(Clone, Copy, Debug, PartialEq, Eq)]
pub(crate) struct Tally {
    pub made: u64,
    pub removed: u64,
    pub taken: u64,
    pub returned: u64,
    pub objects: u64,
    pub goroutines: u64,
}

/// What the goroutines of a run have made and done.
pub(crate) fn made_by(over: &Over) -> Tally {
    let tally = over.tally;
    Tally {
        made: tally.made,
        removed: tally.removed,
        taken: tally.taken,
        returned: tally.returned,
        objects: tally.objects,
        goroutines: tally.goroutines,
    }
}

/// Runs a text on a table of its own. Fails if more than one goroutine has ended the run, or if the words of the table that are not
/// free are not those that the goroutines have counted.
pub(crate) fn drive<R: Threads + AllocGlobal + Sync>(
    rt: &R,
    text: &str,
    room: Room,
    course: Course<'_>,
) -> Result<Over, Fail> {
    let Ok(code) = compile(rt.alloc(), text.as_bytes()) else {
        return Err(Fail::from("the text has no code"));
    };
    let sizes = Sizes {
        page_words: room.page_words,
        pages: room.pages,
        regions: room.regions,
    };
    let limits = Limits {
        steps: 0,
        goroutines: room.goroutines,
    };
    let over = driving::drive(rt, rt.alloc(), &code, sizes, limits, course)?;
    if over.enders.len() > 1 {
        return Err(Fail::from("the run was ended twice"));
    }
    let tally = over.tally;
    if tally.taken.checked_sub(tally.returned) != Some(over.pages) {
        return Err(Fail::from("pages are lost"));
    }
    if tally.made.checked_sub(tally.removed) != Some(over.slots) {
        return Err(Fail::from("regions are lost"));
    }
    Ok(over)
}
