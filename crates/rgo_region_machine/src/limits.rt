//! Limits: what ends a run before its program does, as the region machine's end mark has it.

/// What ends a run before its program does.
#[derive(Clone, Copy, Debug, PartialEq, Eq)]
pub enum Limit {
    /// As many pages are in use as the sizes allow, and an object needs another one.
    Pages,
    /// As many regions are live as the sizes allow, and another one is to be created.
    Regions,
    /// An object needs more data pages than an object can have.
    ObjectSize,
    /// A goroutine with as many frames as it may have calls a function.
    Calls,
    /// As many goroutines exist as there may be, and one of them starts another.
    Goroutines,
    /// Memory ran out.
    Memory,
}
