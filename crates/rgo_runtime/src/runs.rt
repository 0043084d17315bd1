//! The scheduler: rounds of turns over one table, until the run is over, and how it has ended.
//!
//! Invariant between rounds (`CrewContinues`): no goroutine and no print is lost; the prints that have gone out are those with the lowest
//! tickets, in order. Once prints were flushed, the next one is not among those that wait (`NoneIsNext`).
//!
//! One thread, the driver's, runs all of this file. A goroutine ends the run by a mark at the table; the driver ends it for the other
//! reasons (`Why`), between rounds, and a mark goes before these.
ghost use Rattle.std.specs.Prelude.{◌≡◌, ◌≤◌, ◌<◌, ◌^◌, ◌+◌, ◌*◌, ◌↔◌, true, [], IfOk, OnErr, Some, None, MatchOption, List, Option, ℕ};
ghost use Rattle.rgo_core.specs.Image.{table_sizes};
ghost use Rattle.rgo_core.specs.Memory.Words.{all_words as words_in_all};
ghost use Rattle.rgo_sound.specs.Machine.declared.ends.RunEnd.TheVariants as run_end;
ghost use Rattle.rgo_runtime.specs.Runs.{EndsFor, FailsIf, CrewContinues, NoneIsNext, RunExamples, end_by, is_spent, sizes_with, unmarked_end};
ghost use Rattle.rgo_sound.specs.RegionMachine.Tallies.{counts_in};
ghost use Rattle.rgo_runtime.specs.declared.runs.Why.TheVariants as why;
ghost use Rattle.rgo_sound.specs.Machine.Limits.{most_goroutines};
ghost use Rattle.rgo_sound.specs.RegionRuns.{CodeRuns};

use crate::crew::{Crew, RoundSummary};
use crate::deadlock::Passed;
use crate::ends::end_of;
use crate::retiring::Left;
use crate::sizing::{smaller_table, unless_short};
use crate::time_slices::{OVERRUN, Pace};
use crate::waking::Chances;
use rgo_core::memory::layout::TableSizes;
use rgo_core::table::{close, open};
use rgo_core_steps::clock::Mark;
use rgo_outside::{Gate, Sink};
use rgo_sound::code::Checked;
use rgo_sound::machine::{Limits, RunEnd, Sizes};
use rgo_sound::region_machine::Tally;
use rgo_table_runs::goroutine::acts::runs::Run;
use rgo_table_runs::goroutine::body::Program;
use std::alloc::{AllocError, Global};
use std::thread::Threads;

/// How a run ended, and what it has made and done.
#[derive(Clone, Copy, Debug)]
pub struct Outcome {
    pub end: RunEnd,
    pub tally: Tally,
    /// How many checks for a deadlock have found a goroutine that could continue. Each of these should have been woken before, so tests expect
    /// none. No clause speaks of it.
    pub rescues: u64,
}

/// Why a driver ends a run.
#[derive(Clone, Copy)]
pub(crate) enum Why {
    /// Memory was refused.
    Memory,
    /// A write failed.
    Write,
    /// A goroutine has ended the run.
    Over,
    /// The limit of instructions was reached.
    Steps,
    /// In a pass over all goroutines nothing moved.
    Stuck(Passed),
}

/// What the scheduler keeps from round to round. No clause rests on it: `steps` is an upper bound, and `check_step_limit` counts exactly
/// before it ends a run.
#[derive(Drop)]
struct Scheduler {
    pace: Pace,
    /// The number of the next round.
    number: u64,
    /// The instructions that were executed, at most.
    steps: u64,
    /// The chances of the last round.
    chances: Chances,
    /// How many checks for a deadlock have found a goroutine that could continue.
    rescues: u64,
}

impl Scheduler {
    fn new(alloc: Global) -> Scheduler {
        Scheduler {
            pace: Pace::new(),
            number: 1,
            steps: 0,
            chances: Chances::new(alloc),
            rescues: 0,
        }
    }

    /// Notes that the run continues, or not, after a round. If nothing moved in it, the run continues only because of a check.
    fn note_end(&mut self, summary: RoundSummary, continues: bool) {
        if continues && !summary.moved {
            self.rescues = self.rescues.saturating_add(1);
        }
    }
}

/// The exact number of instructions that were executed until now. It wakes all that are parked, since only the run queue is counted.
fn count_steps(crew: &mut Crew<'_, '_>) -> Result<u128, AllocError>
    ensures kept { (out : Option (List ℕ)) → CrewContinues crew.old out crew.new out }
    ensures rest { crew.new ≡ record crew.old { ready = crew.new.ready; parked = crew.new.parked } }
{
    crew.wake_all()?;
    Ok(crew.snapshot()?.shares.total().steps)
}

/// Tests the limit of steps. `steps` is an upper bound; only if it reaches the limit, all are counted exactly. Returns why the run is over,
/// or `None` if it continues.
fn check_step_limit(crew: &mut Crew<'_, '_>, most: u64, steps: &mut u64) -> Option<Why>
    requires next { NoneIsNext crew.old }
    ensures ends { (out : Option (List ℕ)) → MatchOption result (CrewContinues crew.old out crew.new out)
        (λ why. EndsFor why crew.old out crew.new out) }
    ensures rest { crew.new ≡ record crew.old { ready = crew.new.ready; parked = crew.new.parked } }
    ensures other { result ≡ Some why.Write → ⊥ }
{
    if *steps < most {
        return None;
    }
    let exact = match count_steps(crew) {
        Ok(exact) => exact,
        Err(_) => return Some(Why::Memory),
    };
    if exact >= u128::from(most) {
        return Some(Why::Steps);
    }
    // It fits: it is below `most`.
    *steps = exact as u64;
    None
}

/// Wakes all and checks for a deadlock. If nothing moves in it, the run is over. Only after a round in which nothing moved, so that a run
/// that makes progress never pays for it.
fn check_dead(crew: &mut Crew<'_, '_>) -> Option<Why>
    requires next { NoneIsNext crew.old }
    requires born { crew.old.born ≡ [] }
    ensures ends { (out : Option (List ℕ)) → MatchOption result (CrewContinues crew.old out crew.new out)
        (λ why. EndsFor why crew.old out crew.new out) }
    ensures run { crew.new.run ≡ crew.old.run }
    ensures other { result ≡ Some why.Write → ⊥ }
{
    match crew.wake_all() {
        Ok(()) => {}
        Err(_) => return Some(Why::Memory),
    }
    match crew.check_dead() {
        Ok(passed) => match passed {
            Passed::Moved => None,
            Passed::Still | Passed::Lacks(_) => Some(Why::Stuck(passed)),
        },
        Err(_) => Some(Why::Memory),
    }
}

/// Whether the run is over after a round that has come to this, and why. After the prints were flushed.
fn check_end(
    crew: &mut Crew<'_, '_>,
    summary: RoundSummary,
    most: u64,
    steps: &mut u64,
) -> Option<Why>
    requires next { NoneIsNext crew.old }
    requires born { crew.old.born ≡ [] }
    ensures ends { (out : Option (List ℕ)) → MatchOption result (CrewContinues crew.old out crew.new out)
        (λ why. EndsFor why crew.old out crew.new out) }
    ensures run { crew.new.run ≡ crew.old.run }
    ensures other { result ≡ Some why.Write → ⊥ }
{
    // The mark of a goroutine goes before all that the driver finds. The limit is tested in each round, since how far a run may pass it
    // counts from the last test. The check for a deadlock comes last: it is the dearest, and only a round in which nothing moved needs it.
    if summary.is_over {
        return Some(Why::Over);
    }
    if summary.lacks_memory {
        return Some(Why::Memory);
    }
    match check_step_limit(crew, most, steps) {
        Some(why) => return Some(why),
        None => {}
    }
    if summary.moved {
        return None;
    }
    check_dead(crew)
}

/// One round, and a check for a deadlock if nothing moved in it. Returns why the run is over, or `None` if it continues.
fn schedule_once<H: Threads + Sync, K: Sink, G: Gate + Sync>(
    rt: &H,
    crew: &mut Crew<'_, '_>,
    most: u64,
    workers: u32,
    sched: &mut Scheduler,
    out: &mut K,
    gate: &G,
) -> Option<Why>
    requires workers { (1 ≤ workers) × (workers ≤ 64) }
    ensures ends { MatchOption result (CrewContinues crew.old (K.contents out.old) crew.new (K.contents out.new))
        (λ why. EndsFor why crew.old (K.contents out.old) crew.new (K.contents out.new)) }
    ensures run { crew.new.run ≡ crew.old.run }
    ensures fault { FailsIf (result ≡ Some why.Write) (K.faults out.old) (K.faults out.new) (K.broken out.new) }
{
    let ready = crew.ready();
    let slice = sched
        .pace
        .time_slice(ready, most.saturating_sub(sched.steps));
    let workers = sched.pace.workers(workers, ready, slice, sched.number);
    let summary = match crew.run_round(rt, workers, slice, sched.number, gate, &mut sched.chances) {
        Ok(summary) => summary,
        Err(_) => return Some(Why::Memory),
    };
    sched.number = sched.number.saturating_add(1);
    sched.pace.after(summary.all_used);
    sched.steps = sched.steps.saturating_add(summary.steps);
    // Before the run may end: prints of this round are part of it. Each end requires `NoneIsNext`, which a flush leaves.
    match crew.flush_prints(out) {
        Ok(()) => {}
        Err(_) => return Some(Why::Write),
    }
    let why = check_end(crew, summary, most, &mut sched.steps);
    sched.note_end(summary, why.is_none());
    why
}

/// The loop of the scheduler: rounds until the run is over.
fn schedule<H: Threads + Sync, K: Sink, G: Gate + Sync>(
    rt: &H,
    crew: &mut Crew<'_, '_>,
    most: u64,
    workers: u32,
    sched: &mut Scheduler,
    out: &mut K,
    gate: &G,
) -> Why
    requires workers { (1 ≤ workers) × (workers ≤ 64) }
    ensures ends { EndsFor result crew.old (K.contents out.old) crew.new (K.contents out.new) }
    ensures run { crew.new.run ≡ crew.old.run }
    ensures fault { FailsIf (result ≡ why.Write) (K.faults out.old) (K.faults out.new) (K.broken out.new) }
{
    for _ in 0..u64::MAX {
        match schedule_once(rt, crew, most, workers, sched, out, gate) {
            Some(why) => return why,
            None => {}
        }
    }
    // Cannot be: no run has as many rounds.
    Why::Memory
}

/// Whether a run that has made this has reached its limit of instructions. By then each goroutine has executed fewer than `OVERRUN` more
/// than it had when the limit was last tested, or its share of what was left (`Pace::time_slice`).
fn is_spent(made: &Tally, most: u64) -> bool
    ensures { result ≡ is_spent (counts_in made.now) most }
{
    let most = u128::from(most);
    made.steps >= most && (made.steps - most) / u128::from(OVERRUN) < made.goroutines
}

/// How a run that has made this has ended, if no goroutine has ended it.
fn unmarked_end(why: Why, made: &Tally, most: u64) -> RunEnd
    ensures { result ≡ unmarked_end why (counts_in made.now) most }
{
    match why {
        Why::Stuck(passed) => match passed {
            Passed::Still => RunEnd::Deadlock,
            Passed::Lacks(lack) => RunEnd::NoRoom(lack),
            // Cannot be: `check_dead` ends no run in which something moved.
            Passed::Moved => RunEnd::NoMemory,
        },
        Why::Steps => if is_spent(made, most) {
            RunEnd::StepsSpent
        } else {
            // Cannot be: a time slice is at most a goroutine's share of what is left, or `OVERRUN`.
            RunEnd::NoMemory
        },
        // `Over` cannot be: whoever ends the run has set a mark. For the others `end_of_run` has answered.
        Why::Over | Why::Memory | Why::Write => RunEnd::NoMemory,
    }
}

/// How a run that has made this has ended, when all its goroutines have left. Want of memory, a failed write and a loss (`is_whole`) go
/// before a mark, since after them prints may be missing.
fn end_of_run(why: Why, is_whole: bool, first: Option<Mark>, made: &Tally, most: u64) -> RunEnd
    ensures { result ≡ end_by why is_whole first (counts_in made.now) most }
{
    match why {
        Why::Memory => RunEnd::NoMemory,
        Why::Write => RunEnd::WriteFault,
        Why::Over | Why::Steps | Why::Stuck(_) => {
            if !is_whole {
                return RunEnd::NoMemory;
            }
            match first {
                Some(mark) => end_of(mark),
                None => unmarked_end(why, made, most),
            }
        }
    }
}

/// Whether the table of a run may have these sizes, for code with this many package variables: at least one page, at most 16,777,215
/// words for each, and at most 2^32 words in all.
pub fn has_table(sizes: &Sizes, variables: usize) -> bool
    ensures { (result ≡ true) ↔ ((0 < sizes.now.pages) × (sizes.now.page_words ≤ 16777215)
        × (words_in_all (sizes_with sizes.now variables) ≤ 2 ^ 32)) }
{
    let cells = (sizes.pages as u128) * (sizes.page_words as u128);
    let others = 98 + 2 * (sizes.pages as u128) + 2 * (sizes.regions as u128) + (variables as u128);
    sizes.pages > 0 && sizes.page_words <= 16_777_215 && cells + others <= 1 << 32
}

/// Runs code over a table of these sizes.
///
/// # Errors
///
/// If there is no memory for the table, the program or `main`. Then nothing has gone out. If memory is refused later, the run ends for that.
fn run_on_table<H: Threads + Sync, K: Sink, G: Gate + Sync>(
    rt: &H,
    alloc: Global,
    code: &Checked,
    sizes: Sizes,
    limits: Limits,
    workers: u32,
    out: &mut K,
    gate: &G,
) -> Result<Outcome, AllocError>
    requires workers { (1 ≤ workers) × (workers ≤ 64) }
    requires pages { 0 < sizes.pages }
    requires small { sizes.page_words ≤ 16777215 }
    requires fits { words_in_all (table_sizes code.now sizes) ≤ 2 ^ 32 }
    requires goroutines { most_goroutines limits ≤ 1000000 }
    ensures runs { IfOk result (λ o. CodeRuns code.now sizes limits o.end (counts_in o.tally) (K.contents out.old) (K.contents out.new)) }
    ensures spent { IfOk result (λ o. o.end ≡ run_end.StepsSpent → o.tally.steps < limits.steps + 1000 * o.tally.goroutines) }
    ensures fault { IfOk result (λ o. FailsIf (o.end ≡ run_end.WriteFault) (K.faults out.old) (K.faults out.new) (K.broken out.new)) }
    ensures none { OnErr result (out.new ≡ out.old) }
{
    let variables = code.code().tac().variables().len();
    let layout = TableSizes {
        pages: sizes.pages,
        page_words: sizes.page_words,
        slots: sizes.regions,
        variables,
    };
    let program = Program::new(alloc, code)?;
    let (table, seat) = open(alloc, code, variables, sizes, limits)?;
    let mut sched = Scheduler::new(alloc);
    // The goroutines borrow the table. The block ends with their retirement, so that the table can be closed.
    let (left, why) = {
        let run = Run::new(&table, layout, limits, &program);
        match Crew::new(alloc, &run, seat) {
            Ok(mut crew) => {
                let why = schedule(rt, &mut crew, limits.steps, workers, &mut sched, out, gate);
                (crew.retire_all(), why)
            }
            Err(_) => return Err(AllocError),
        }
    };
    let tally = left.shares.total();
    let Left {
        seat,
        shares: _,
        first,
        is_whole,
    } = left;
    close(table, seat).free();
    Ok(Outcome {
        end: end_of_run(why, is_whole, first, &tally, limits.steps),
        tally,
        rescues: sched.rescues,
    })
}

/// Runs code over a table of its own. The prints go out as they are made. The table of code that makes nothing has fewer pages and
/// regions than the run may have.
///
/// # Errors
///
/// If there is no memory for the table, the program or `main`. Then nothing has gone out. If memory is refused later, the run ends for that.
pub fn run<H: Threads + Sync, K: Sink, G: Gate + Sync>(
    rt: &H,
    alloc: Global,
    code: &Checked,
    sizes: Sizes,
    limits: Limits,
    workers: u32,
    out: &mut K,
    gate: &G,
) -> Result<Outcome, AllocError>
    requires workers { (1 ≤ workers) × (workers ≤ 64) }
    requires pages { 0 < sizes.pages }
    requires small { sizes.page_words ≤ 16777215 }
    requires fits { words_in_all (table_sizes code.now sizes) ≤ 2 ^ 32 }
    requires goroutines { most_goroutines limits ≤ 1000000 }
    ensures runs { IfOk result (λ o. CodeRuns code.now sizes limits o.end (counts_in o.tally) (K.contents out.old) (K.contents out.new)) }
    ensures spent { IfOk result (λ o. o.end ≡ run_end.StepsSpent → o.tally.steps < limits.steps + 1000 * o.tally.goroutines) }
    ensures fault { IfOk result (λ o. FailsIf (o.end ≡ run_end.WriteFault) (K.faults out.old) (K.faults out.new) (K.broken out.new)) }
    ensures none { OnErr result (out.new ≡ out.old) }
{
    let Some(few) = smaller_table(code.code(), sizes) else {
        return run_on_table(rt, alloc, code, sizes, limits, workers, out, gate);
    };
    let Outcome {
        end,
        tally,
        rescues,
    } = run_on_table(rt, alloc, code, few, limits, workers, out, gate)?;
    Ok(Outcome {
        end: unless_short(end),
        tally,
        rescues,
    })
}

/// Examples of what a driver knows during a run, of why it ends one, and of what must not count as such.
pub fn examples()
    ensures { RunExamples }
{}
