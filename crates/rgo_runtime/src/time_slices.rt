//! How long the time slices of a round are, and whether a round is worth threads.
//!
//! Nothing here is shared. Any slice and any number of workers lead to a run of the code, so no clause says which are chosen, but for one:
//! a slice is no longer than `OVERRUN` or the goroutine's share of what is left of the limit of steps (`within`). Only the driver's thread
//! uses it, before and after each round.
ghost use Rattle.std.specs.Prelude.{◌≤◌, ◌/◌, max};
ghost use Rattle.rgo_runtime.specs.Runs.{overrun};

/// How far each goroutine may pass the limit of steps, in instructions. It is part of the claim: a run that has gone further cannot end
/// for its limit.
pub(crate) const OVERRUN: u32 = 1_000;

/// The time slice of the first rounds, in instructions, and of those after a round in which a goroutine waited, ended or printed.
const FIRST: u32 = 1_000;

/// The longest time slice. With it, the cost of a round no longer matters.
const LONG: u32 = 1_000_000;

/// The least instructions of a round for which threads are started. For less, starting them costs more than they save.
const WORTH_THREADS: u64 = 30_000;

/// The first rounds, which are on threads whatever their length, if few goroutines are ready. So a small program that has a data race shows
/// it, as a large one does, and a test can hold its workers.
const FIRST_ROUNDS: u64 = 2;

/// The most goroutines of a round that has few.
pub(crate) const FEW: usize = 8;

/// Whether this is one of the first rounds.
pub(crate) fn is_early(number: u64) -> bool {
    number <= FIRST_ROUNDS
}

/// The pace of a run. It decides nothing but how fast a run is.
#[derive(Drop)]
pub(crate) struct Pace {
    slice: u32,
}

impl Pace {
    pub(crate) fn new() -> Pace {
        Pace { slice: FIRST }
    }

    /// The time slice of each turn of a round of `ready` goroutines, in a run that may execute `left` instructions more before its
    /// limit is tested. It is not cut below `OVERRUN`, so that a run does not slow down near its limit.
    pub(crate) fn time_slice(&self, ready: usize, left: u64) -> u32
        ensures within { result ≤ max overrun (left / max ready 1) }
    {
        let share = left / (ready as u64).max(1);
        let most = share.max(u64::from(OVERRUN));
        if u64::from(self.slice) < most {
            self.slice
        } else {
            // It fits: it is at most `self.slice`.
            most as u32
        }
    }

    /// After a round in which each turn used all that it was given and none printed, turns may be twice as long; after any other they are
    /// short again, so that goroutines that talk to each other do not wait for those that compute, and prints do not wait either.
    pub(crate) fn after(&mut self, all_used: bool) {
        self.slice = if all_used {
            self.slice.saturating_mul(2).min(LONG)
        } else {
            FIRST
        };
    }

    /// On how many workers a round of `ready` goroutines runs: on all that have one, or on the thread of the caller.
    pub(crate) fn workers(&self, workers: u32, ready: usize, slice: u32, number: u64) -> u32
        requires { (1 ≤ workers) × (workers ≤ 64) }
        ensures { (1 ≤ result) × (result ≤ 64) }
    {
        let is_shown = is_early(number) && ready <= FEW;
        let is_long = u64::from(slice).saturating_mul(ready as u64) >= WORTH_THREADS
            && slice > FIRST;
        if ready > 1 && (is_shown || is_long) {
            // More workers than goroutines would have nothing to do.
            if ready < workers as usize {
                ready as u32
            } else {
                workers
            }
        } else {
            1
        }
    }
}
