//! What limits a run.

/// What limits a run: its steps, tested after each round, and its goroutines, tested before each start. `main` and the
/// goroutines that have returned count, so that the limit bounds the memory of a run. There is always `main`, so a limit of 0
/// goroutines counts as 1.
#[derive(Clone, Copy, Debug, PartialEq, Eq)]
pub struct Limits {
    pub steps: u64,
    pub goroutines: usize,
}

/// The most frames of a goroutine: a recursion that never ends stops here, and not when the memory of the machine is used up.
pub const DEEPEST: usize = 100_000;

/// How much room the regions of a run have.
#[derive(Clone, Copy, Debug, PartialEq, Eq)]
pub struct Sizes {
    /// The words of a page.
    pub page_words: usize,
    /// The most pages that live regions and the global one have at one time.
    pub pages: usize,
    /// The most regions that are live at one time, but for the global one.
    pub regions: usize,
}

/// What a machine whose objects lie in regions can have no room for.
#[derive(Clone, Copy, Debug, PartialEq, Eq)]
pub enum Shortage {
    /// All pages are taken, and an object wants another one.
    Pages,
    /// There are as many regions as there may be, and another one is to be created.
    Regions,
    /// An object would need more data pages than the largest object may have.
    ObjectSize,
}
