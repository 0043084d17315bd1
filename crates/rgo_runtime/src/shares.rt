//! What goroutines that have retired have counted, each share at the place of its goroutine's number.
//!
//! Invariant: the list has fewer than 2^40 shares, each of `u64`s, so the sums fit in `u128`s. A place whose goroutine has not retired yet
//! has counts of zero. Only the driver's thread uses it; while a goroutine has turns, its counts are its own, and no two threads add to
//! the same number.
ghost use Rattle.std.specs.Prelude.{◌≡◌, ◌<◌, ◌++◌, ◌↔◌, [], ℕ, IfOk, OnErr, OnOk, length, replicate, slice_set, true};
ghost use Rattle.rgo_sound.specs.RegionMachine.Tallies.{counts_in};
ghost use Rattle.rgo_sound.specs.Tally.{no_share};
ghost use Rattle.rgo_table_runs.specs.closing.Gathering.{sum_of};

use rgo_sound::region_machine::Tally;
use rgo_table_runs::goroutine::body::Counts;
use std::alloc::{AllocError, Global};
use std::marker::Model;

/// The list of shares is shorter than this, so that the sums fit: 2^40 numbers below 2^64 have a sum below 2^104. A run has at most a
/// million goroutines, so this limit is never met; as an invariant of the list it lets `total` add without a test.
const MOST: usize = 1 << 40;

/// The shares by number. Contracts see the list of them.
#[derive(Drop)]
pub struct Shares {
    shares: Vec<Counts>,
}

impl Model for Shares {
    ghost use Rattle.std.specs.Prelude.{◌<◌, List, length};
    ghost use Rattle.rgo_sound.specs.RegionMachine.Counts as spec;

    ghost Value = { List spec.Counts };

    ghost view = { λ s. s.shares.items };

    ghost invariant = { λ s. length s.shares.items < 1099511627776 };
}

/// The same counts. Written out, since `Counts` has no copy: a goroutine's counts are its own, and a copy is wanted only here.
fn copy_of(counts: &Counts) -> Counts
    ensures { result ≡ counts.now }
{
    Counts {
        made: counts.made,
        removed: counts.removed,
        taken: counts.taken,
        returned: counts.returned,
        steps: counts.steps,
        objects: counts.objects,
        goroutines: counts.goroutines,
    }
}

/// No counts.
fn nothing() -> Counts
    ensures { result ≡ no_share }
{
    Counts {
        made: 0,
        removed: 0,
        taken: 0,
        returned: 0,
        steps: 0,
        objects: 0,
        goroutines: 0,
    }
}

impl Shares {
    /// None yet.
    pub fn new(alloc: Global) -> Shares
        ensures { result ≡ [] }
    {
        Shares {
            shares: Vec::new(alloc),
        }
    }

    /// The same shares once more, for a snapshot of a run that continues.
    ///
    /// # Errors
    ///
    /// On allocation failure.
    pub fn copy(&self, alloc: Global) -> Result<Shares, AllocError>
        ensures { IfOk result (λ shares. shares ≡ self.now) }
    {
        let mut shares = Vec::new(alloc);
        shares.reserve(self.shares.len())?;
        for share in &self.shares {
            shares.push_reserved(copy_of(share));
        }
        Ok(Shares { shares })
    }

    /// Makes a place for the goroutine of this number, and for those of lower numbers. Nothing is counted at a new place. Called before
    /// a goroutine comes into the run queue, so that it needs no memory when it retires.
    ///
    /// # Errors
    ///
    /// On allocation failure, and for a number that is too large for the list. Then nothing has changed.
    pub fn make_room(&mut self, number: u64) -> Result<(), AllocError>
        ensures room { OnOk result (number < length self.new) }
        ensures more { OnOk result ((n : ℕ) × (self.new ≡ self.old ++ replicate n no_share)) }
        ensures same { OnErr result (self.new ≡ self.old) }
    {
        let Ok(number) = usize::try_from(number) else {
            // Cannot be where a `usize` has 64 bits.
            return Err(AllocError);
        };
        if number >= MOST - 1 {
            return Err(AllocError);
        }
        let len = self.shares.len();
        if number < len {
            return Ok(());
        }
        self.shares.reserve(number + 1 - len)?;
        for _ in len..number + 1 {
            self.shares.push_reserved(nothing());
        }
        Ok(())
    }

    /// Whether the goroutine of this number has a place. Compared as `u128`s, so that neither number is cut.
    pub fn has_place(&self, number: u64) -> bool
        ensures { (result ≡ true) ↔ (number < length self.now) }
    {
        (number as u128) < (self.shares.len() as u128)
    }

    /// Puts what the goroutine of this number has counted at its place. One that has no place has counted nothing, so nothing changes then.
    pub fn set(&mut self, number: u64, counts: &Counts)
        ensures { self.new ≡ slice_set self.old number counts.now }
    {
        if let Ok(number) = usize::try_from(number) {
            if number < self.shares.len() {
                self.shares[number] = copy_of(counts);
            }
        }
    }

    /// The sum of all: that of the run once all goroutines have retired. No sum overflows, by the invariant.
    pub fn total(&self) -> Tally
        ensures { counts_in result ≡ sum_of self.now }
    {
        let mut total = Tally {
            made: 0,
            removed: 0,
            taken: 0,
            returned: 0,
            steps: 0,
            objects: 0,
            goroutines: 0,
        };
        for share in &self.shares {
            total.made += u128::from(share.made);
            total.removed += u128::from(share.removed);
            total.taken += u128::from(share.taken);
            total.returned += u128::from(share.returned);
            total.steps += u128::from(share.steps);
            total.objects += u128::from(share.objects);
            total.goroutines += u128::from(share.goroutines);
        }
        total
    }
}
