//! A driver: which goroutines of a run have a turn next.

use std::collections::HashMap;

/// Which goroutines of a run have a turn next, and how many steps were taken.
#[derive(Drop)]
pub(crate) struct Driver {
    /// How many steps were taken. It stays at the end of its type, where it has reached every limit.
    pub(crate) steps: u64,
    /// The goroutines that have a turn in the next round.
    pub(crate) ready: Vec<usize>,
    /// The goroutines that wait, by channel.
    pub(crate) waiting: HashMap<usize, Vec<usize>>,
}
