//! Runs on a table of their own: their goroutines have turns in rounds, turns that are listed, or threads of their own.
//!
//! A round in which nothing moved counts as a deadlock here. No clause says that it is one: `rgo_runtime` makes a check for that,
//! with meetings, which a test of turns does without. All functions run on the driver's thread; `Crew::turn_on` alone has others, and
//! waits until they have ended.
ghost use Rattle.std.specs.Prelude.{◌≡◌, ◌+◌, ◌<◌, ◌≤◌, ◌^◌, IfOk};
ghost use Rattle.std.specs.Mem.Slots.{IsFull, slots_len};
ghost use Rattle.rgo_core.specs.Memory.Words.{all_words};
ghost use Rattle.rgo_crew.specs.Overs.{AreTicketsNumbered};

use crate::crew::Crew;
use crate::errors::CrewError;
use crate::over::{CrewEnd, Over, Why, are_numbered};
use atomic_table::Closed;
use rgo_core::memory::layout::{TableSizes, count_at, state_at};
use rgo_core::table::{close, open};
use rgo_core_steps::counting::Steps;
use rgo_goroutine::acts::runs::Run;
use rgo_goroutine::body::Program;
use rgo_sound::code::Checked;
use rgo_sound::machine::{Limits, Sizes};
use std::alloc::Global;
use std::marker::Brand;
use std::sync::ledger::{Blank, Ledger};
use std::thread::Threads;

/// How the goroutines of a run have their turns.
#[derive(Clone, Copy)]
pub enum Course<'c> {
    /// In rounds, until the run is over: in each, every goroutine has a turn of up to this many instructions.
    Rounds(u32),
    /// In this order: each turn is that of the goroutine at a place, of up to this many instructions.
    Turns(&'c [(usize, u32)]),
    /// In rounds until there are this many goroutines (the first number), and then each of them in a thread of its own, by turns of
    /// up to as many instructions as the second says. Goroutines that have found nothing to do in their threads for long have a
    /// round, before all have threads again.
    Threads { goroutines: usize, slice: u32 },
}

/// The most rounds of a run. No test comes near it: it bounds the loop, so that each run ends.
const MOST_ROUNDS: u64 = 1 << 40;

/// The most rounds of a run after its end. It is low, since a goroutine may loop without end once `main` has returned.
const MOST_LATE: u64 = 1 << 10;

/// When a run is over because a goroutine lacks a page or a slot. A test of rounds wants to see the lack itself. With threads, what a
/// goroutine lacks depends on who came first, so the test waits until others have freed some.
#[derive(Clone, Copy, PartialEq, Eq)]
enum Lack {
    /// At once.
    Ends,
    /// Only if nothing has moved in the whole round.
    Waits,
}

/// What a round came to.
enum RoundEnd {
    Over(CrewEnd),
    /// Whether anything may have changed.
    Went(bool),
}

/// What the turns of a round have come to so far.
#[derive(Clone, Copy)]
struct SoFar {
    /// Whether anything may have changed.
    moved: bool,
    /// What a goroutine lacks that has waited.
    lacked: Option<CrewEnd>,
}

impl SoFar {
    /// A turn that has not ended the run. Returns whether the run waits for what the goroutine lacks.
    fn lacks(&mut self, ending: CrewEnd, lack: Lack) -> bool {
        match ending {
            CrewEnd::Short(_) if lack == Lack::Waits => {
                self.lacked = Some(ending);
                true
            }
            _ => false,
        }
    }

    /// What a round has come to.
    fn end(self) -> RoundEnd {
        match self.lacked {
            Some(ending) if !self.moved => RoundEnd::Over(ending),
            _ => RoundEnd::Went(self.moved),
        }
    }
}

/// Gives each goroutine one turn. Those that have ended retire, and the next one then has their place, so `place` stays.
fn round<L: Ledger>(
    alloc: Global,
    crew: &mut Crew<'_, '_>,
    slice: u32,
    lack: Lack,
    over: &mut Over,
    steps: &mut Steps<L>,
) -> Result<RoundEnd, CrewError>
    ensures { crew.new ≡ crew.old }
{
    let mut so_far = SoFar {
        moved: false,
        lacked: None,
    };
    let mut place = 0;
    for _ in 0..crew.len() {
        let (turned, _) = crew.turn(alloc, place, slice, &mut over.prints, steps)?;
        match Why::of(turned.stop) {
            Why::Over(ending) => {
                if !so_far.lacks(ending, lack) {
                    return Ok(RoundEnd::Over(ending));
                }
                so_far.moved = so_far.moved || turned.moved;
                place += 1;
            }
            Why::Ended => {
                so_far.moved = true;
                crew.retire(place, over)?;
            }
            Why::Lost => {
                // Another goroutine has locked the channel or changed it, so this one may try again at once: it does not wait.
                so_far.moved = true;
                place += 1;
            }
            Why::Went | Why::Blocked => {
                so_far.moved = so_far.moved || turned.moved;
                place += 1;
            }
        }
    }
    Ok(so_far.end())
}

/// Plays rounds until the run is over, at most this many.
fn rounds<L: Ledger>(
    alloc: Global,
    crew: &mut Crew<'_, '_>,
    slice: u32,
    most: u64,
    over: &mut Over,
    steps: &mut Steps<L>,
) -> Result<CrewEnd, CrewError>
    ensures { crew.new ≡ crew.old }
{
    for _ in 0..most {
        match round(alloc, crew, slice, Lack::Ends, over, steps)? {
            RoundEnd::Over(ending) => return Ok(ending),
            RoundEnd::Went(true) => {}
            RoundEnd::Went(false) => return Ok(CrewEnd::Deadlock),
        }
    }
    Ok(CrewEnd::Unfinished)
}

/// Plays rounds until the run is over. After each round at whose end there are this many goroutines, all have turns in threads of
/// their own. Rounds come between, since in its thread a goroutine that waits gives up after a while, and only a round finds that no
/// goroutine can continue.
fn threaded<R: Threads + Sync, L: Ledger>(
    rt: &R,
    alloc: Global,
    crew: &mut Crew<'_, '_>,
    slice: u32,
    goroutines: usize,
    over: &mut Over,
    steps: &mut Steps<L>,
) -> Result<CrewEnd, CrewError>
    ensures { crew.new ≡ crew.old }
{
    for _ in 0..MOST_ROUNDS {
        match round(alloc, crew, slice, Lack::Waits, over, steps)? {
            RoundEnd::Over(ending) => return Ok(ending),
            RoundEnd::Went(true) => {}
            RoundEnd::Went(false) => return Ok(CrewEnd::Deadlock),
        }
        if crew.len() >= goroutines {
            crew.turn_on(rt, alloc, slice, &mut over.prints)?;
            // After the end, goroutines may loop without end, and in rounds there is a limit to that.
            if crew.look() {
                return rounds(alloc, crew, slice, MOST_LATE, over, steps);
            }
        }
    }
    Ok(CrewEnd::Unfinished)
}

/// Plays these turns, one after another, and lists why each was over. The run continues whatever that is: the test has chosen the turns.
fn turns<L: Ledger>(
    alloc: Global,
    crew: &mut Crew<'_, '_>,
    turns: &[(usize, u32)],
    over: &mut Over,
    steps: &mut Steps<L>,
) -> Result<(), CrewError>
    ensures { crew.new ≡ crew.old }
{
    for listed in turns {
        let (place, slice) = *listed;
        let (turned, started) = crew.turn(alloc, place, slice, &mut over.prints, steps)?;
        over.whys.push(Why::of(turned.stop))?;
        over.started.push(started)?;
    }
    Ok(())
}

/// Plays the course. Listed turns leave the run unfinished, even if one of them has ended it: `settle` finds its mark.
fn play<R: Threads + Sync, L: Ledger>(
    rt: &R,
    alloc: Global,
    crew: &mut Crew<'_, '_>,
    course: Course<'_>,
    over: &mut Over,
    steps: &mut Steps<L>,
) -> Result<CrewEnd, CrewError>
    ensures { crew.new ≡ crew.old }
{
    match course {
        Course::Rounds(slice) => rounds(alloc, crew, slice, MOST_ROUNDS, over, steps),
        Course::Turns(list) => {
            turns(alloc, crew, list, over, steps)?;
            Ok(CrewEnd::Unfinished)
        }
        Course::Threads { goroutines, slice } => {
            threaded(rt, alloc, crew, slice, goroutines, over, steps)
        }
    }
}

/// Plays the course, and then retires all goroutines. If `main` has returned, those that are left have turns until none continues, so
/// that a test sees what they do after the end; `at_end` is counted before that.
fn play_out<R: Threads + Sync, L: Ledger>(
    rt: &R,
    alloc: Global,
    crew: &mut Crew<'_, '_>,
    course: Course<'_>,
    over: &mut Over,
    blank: Blank,
) -> Result<(), CrewError>
    requires name { blank.name ≡ L.name }
    requires parts { (blank.parts ≡ L.parts) × (0 < blank.parts) }
    ensures { crew.new ≡ crew.old }
{
    let steps = &mut Steps::<L>::new(blank);
    over.ending = play(rt, alloc, crew, course, over, steps)?;
    over.at_end = over.tally.and(crew.tally());
    if over.ending == CrewEnd::Exit {
        rounds(alloc, crew, 1000, MOST_LATE, over, steps)?;
    }
    // The goroutine at place 0 leaves, and the next one takes its place.
    for _ in 0..crew.len() {
        crew.retire(0, over)?;
    }
    Ok(())
}

/// Fails if a table may not have these sizes. The limits are those of tests, lower than the program's. They imply that the table
/// has at most 2^32 words, as `open` requires.
fn limit(sizes: &TableSizes) -> Result<(), CrewError>
    ensures words { IfOk result (λ _. all_words sizes.now ≤ 2 ^ 32) }
    ensures pages { IfOk result (λ _. (0 < sizes.now.pages) × (sizes.now.page_words ≤ 4096)) }
{
    if sizes.pages == 0 || sizes.pages > 65536 || sizes.page_words > 4096 {
        return Err(CrewError::Pages);
    }
    if sizes.slots > 65536 || sizes.variables > 65536 {
        return Err(CrewError::Slots);
    }
    match sizes.pages.checked_mul(sizes.page_words) {
        Some(cells) => {
            if cells > 1 << 30 {
                return Err(CrewError::Cells);
            }
            Ok(())
        }
        None => Err(CrewError::Cells),
    }
}

/// How many of `count` words from `from` on are not 0. The table is closed, so no goroutine changes a word while this counts.
fn filled(closed: &Closed<(), Global>, from: usize, count: usize) -> u64
    requires inside { from + count ≤ slots_len closed.now.words }
    requires small { from + count ≤ 2 ^ 32 }
    requires full { IsFull closed.now.words }
{
    let mut filled = 0;
    for i in from..from + count {
        if closed.word(i) != 0 {
            filled += 1;
        }
    }
    filled
}

/// Runs code on a table of its own.
///
/// # Errors
///
/// If the table would be too large, or a goroutine at a listed place does not exist. On allocation failure of the driver.
pub fn drive<R: Threads + Sync>(
    rt: &R,
    alloc: Global,
    code: &Checked,
    sizes: Sizes,
    limits: Limits,
    course: Course<'_>,
) -> Result<Over, CrewError>
    ensures { IfOk result (λ over. AreTicketsNumbered over.prints.items) }
{
    let variables = code.code().tac().variables().len();
    let layout = TableSizes {
        pages: sizes.pages,
        page_words: sizes.page_words,
        slots: sizes.regions,
        variables,
    };
    limit(&layout)?;
    if limits.goroutines > 1_000_000 {
        return Err(CrewError::Goroutines);
    }
    let program = Program::new(alloc, code)?;
    let (table, seat) = open(alloc, code, variables, sizes, limits)?;
    let mut over = Over::new(alloc);
    let seat = {
        let run = Run::new(&table, layout, limits, &program);
        let mut crew = Crew::new(alloc, &run, seat)?;
        play_out::<R, Brand>(rt, alloc, &mut crew, course, &mut over, Blank::new(1))?;
        crew.into_seat()
    };
    let closed = close(table, seat);
    over.pages = filled(&closed, state_at(&layout, 0), layout.pages);
    over.slots = filled(&closed, count_at(&layout, 0), layout.slots);
    closed.free();
    over.settle();
    over.prints.sort_unstable_by_key(|print| print.ticket);
    if !are_numbered(&over.prints) {
        return Err(CrewError::NoPrint);
    }
    Ok(over)
}
