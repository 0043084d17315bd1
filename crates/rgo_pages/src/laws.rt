//! Who returns the pages of a region, and when.
//!
//! A page changes its owner only by two accesses. `claim` exchanges its state from 0, so no page is claimed twice. `free` stores 0; a
//! goroutine may do so only while its record says that it returns the chain of a slot. The record says so from a `leave` that found
//! the last stake, and after no other access, until `free_slot`.
ghost use Rattle.rgo_pages.specs.Examples.{PageExamples};
ghost use Rattle.rgo_pages.specs.Laws.{GiveLaw, ReleaseLaw};

/// Pages of a region with a stake are not freed, and those of a region without one are freed by one goroutine, before its slot is
/// free.
pub fn release_law()
    ensures { ReleaseLaw }
{}

/// A record comes to return the chain of a slot by a leave that found the last stake, and by no other access.
pub fn give_law()
    ensures { GiveLaw }
{}

/// Where each definition holds and where it does not.
pub fn examples()
    ensures { PageExamples }
{}
