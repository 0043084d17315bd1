//! What the seats of a table know. Only contracts use these types. No value of them is ever made, so a view costs neither memory
//! nor time when the code runs.
use std::collections::LinkedList;

/// What an access is for. The rule never reads it. Contracts of callers do, to state which accesses a call has made: several kinds
/// of access do the same to a word.
pub enum Kind {
    /// A load of the clock, or of a word of an object or a package variable.
    Load,
    /// A store to a word of an object or a package variable.
    Store,
    /// A store of the first value of a word of an object that is being made.
    Fill,
    /// A store of a page number in the lead page of an object that is being made.
    StoreIndex,
    /// A load of a page number from the lead page of an object.
    LoadIndex,
    /// An exchange that claims a page if it is free.
    ClaimPage,
    /// A swap that puts a claimed page at the head of a chain.
    HangPage,
    /// A store that links a claimed page to the rest of its chain.
    LinkPage,
    /// An addition to the clock, which gives a print its place.
    DrawTicket,
    /// An `or` that sets the clock's last bit: the run ends.
    EndRun,
    /// An exchange that takes a slot for a new region if it is free.
    CreateRegion,
    /// An addition to the count of a region: one stake more.
    ShareRegion,
    /// A subtraction from the count of a region: one stake less.
    LeaveRegion,
    /// A load of the head of a chain.
    LoadHead,
    /// A load of the page that follows in a chain.
    LoadNext,
    /// A store that frees a page.
    FreePage,
    /// A store that empties a chain.
    ClearHead,
    /// A store that frees the slot of a region.
    FreeSlot,
    /// A load of a channel's control word.
    LoadControl,
    /// An exchange that locks a channel.
    LockChannel,
    /// A load of a cell of a channel's buffer.
    LoadCell,
    /// A store to a cell of a channel's buffer.
    StoreCell,
    /// A store that unlocks a channel and makes an operation on it take effect.
    Commit,
    /// An addition to the number of goroutines that were started.
    DrawNumber,
    /// A load of word 0 with which a seat is split in two.
    Split,
    /// A load of word 0 with which two seats are joined.
    Join,
}

/// One atomic access to a word of a table.
pub struct Access {
    /// The goroutine that made it. `None` is a load of word 0, which no record counts, so that a seat without a record can make it.
    pub by: Option<u64>,
    pub kind: Kind,
    pub word: u64,
    pub found: u64,
    pub left: u64,
}

/// What a seat knows: the records of the goroutines that it has, by their numbers, and the accesses that it has seen. These are a
/// beginning of the table's history, so of two seats the one that has seen more has seen all that the other has.
pub struct View<R> {
    pub records: LinkedList<(u64, R)>,
    pub seen: LinkedList<Access>,
}
