//! What a run has made and done, counted in 128 bits: each goroutine counts its share in 64 bits, and the sum of all shares must
//! not overflow, since it is proved to be the machine's count.

/// What a run has made and done. The sums of a million shares fit.
#[derive(Clone, Copy, Debug, PartialEq, Eq)]
pub struct Tally {
    /// Regions that were created, but for Global.
    pub made: u128,
    /// Regions that were removed.
    pub removed: u128,
    /// Pages that were taken, those of Global among them.
    pub taken: u128,
    /// Pages of regions that were removed.
    pub returned: u128,
    /// Instructions that were executed; two that meet are one.
    pub steps: u128,
    /// Objects that were made.
    pub objects: u128,
    /// Goroutines, `main` included.
    pub goroutines: u128,
}
