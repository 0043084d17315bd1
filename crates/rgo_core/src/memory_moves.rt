//! What each access to memory does to what the table shows: loads and stores, new objects, pages, chains and the counts of
//! regions; and what ends the run in place of one. What a law requires can be read off the goroutine's own record. So a goroutine
//! needs no permission from others: what it may access follows from its stakes, which only its own accesses end.
ghost use Rattle.rgo_core.specs.moves.Cells.{AtMove, GetMove, IndexMove, LenMove, LenNilStill, LoadMove, MeasureMove, PutMove, SetMove, StoreMove};
ghost use Rattle.rgo_core.specs.examples.Bounds.{BoundExamples};
ghost use Rattle.rgo_core.specs.moves.Chains.{ClearMove, FreeMove, HangMove, HeadMove, LinkMove, NextMove, SlotMove};
ghost use Rattle.rgo_core.specs.moves.Claims.{ClaimMove, ReserveMove};
ghost use Rattle.rgo_core.specs.moves.ElementTraps.{AtTrapMove, PutTrapMove};
ghost use Rattle.rgo_core.specs.examples.Links.{LinkExamples};
ghost use Rattle.rgo_core.specs.moves.NewObjects.{LargeMove, ObjectMove, ObjectMoveApart, WordMove, WordMoveApart};
ghost use Rattle.rgo_core.specs.moves.OperandTraps.{DivideTrapMove, LoadTrapMove, SizeTrapMove, StoreTrapMove};
ghost use Rattle.rgo_core.specs.moves.Regions.{CreateMove, LeaveMove, ShareMove};
ghost use Rattle.rgo_core.specs.examples.Spread.{SpreadObjectExamples};
ghost use Rattle.rgo_core.specs.examples.Traces.{TraceExamples};

/// A load of a field reads what the instruction reads, at the moment of the load. Another goroutine may store the field directly before
/// or after it: Go's programs race in the same way.
pub fn load_move()
    ensures { LoadMove }
{}

/// A store of a field is the instruction.
pub fn store_move()
    ensures { StoreMove }
{}

/// A load of the first word of a slice reads its length.
pub fn len_move()
    ensures { LenMove }
{}

/// The length of nil is 0, without a load: there is no word to load.
pub fn len_nil_still()
    ensures { LenNilStill }
{}

/// The length of a slice is read before an access to one of its elements. The record keeps it until the next instruction, since after
/// that the region may be gone. Until then it stays right, because lengths never change.
pub fn measure_move()
    ensures { MeasureMove }
{}

/// The number of a data page is read before an access to a cell of a spread object. It is kept like a length, and for the same reason.
pub fn index_move()
    ensures { IndexMove }
{}

/// A load of an element reads what the instruction reads.
pub fn at_move()
    ensures { AtMove }
{}

/// A store of an element is the instruction.
pub fn put_move()
    ensures { PutMove }
{}

/// A load of an element that the slice does not have ends the run, by an access to the clock. The length that was read shows it.
pub fn at_trap_move()
    ensures { AtTrapMove }
{}

/// So does a store of one.
pub fn put_trap_move()
    ensures { PutTrapMove }
{}

/// A load of a field of nil ends the run.
pub fn load_trap_move()
    ensures { LoadTrapMove }
{}

/// So does a store of one.
pub fn store_trap_move()
    ensures { StoreTrapMove }
{}

/// A division by zero ends the run.
pub fn divide_trap_move()
    ensures { DivideTrapMove }
{}

/// A load of a package variable reads what the instruction reads.
pub fn get_move()
    ensures { GetMove }
{}

/// A store of a package variable is the instruction.
pub fn set_move()
    ensures { SetMove }
{}

/// One word of a new object is stored, and not all of them are. Nobody else can reach these words: they are in the goroutine's own page,
/// above what is filled.
pub fn word_move()
    ensures { WordMove }
{}

/// The same of a spread object; the numbers of its data pages are stored too.
pub fn word_move_apart()
    ensures { WordMoveApart }
{}

/// With the last of its words an object is made: this store is the instruction. No flag marks it, since the record knows which words are
/// stored.
pub fn object_move()
    ensures { ObjectMove }
{}

/// The same of a spread object.
pub fn object_move_apart()
    ensures { ObjectMoveApart }
{}

/// A negative size of a new slice or channel ends the run.
pub fn size_trap_move()
    ensures { SizeTrapMove }
{}

/// So does an object that takes more data pages than an object may have.
pub fn large_move()
    ensures { LargeMove }
{}

/// A page is claimed if it is free, by an exchange. A failed one shows that the page was in use at that moment, and it is not tried
/// again: the search continues with the next page.
pub fn claim_move()
    ensures { ClaimMove }
{}

/// The same for a spread object.
pub fn reserve_move()
    ensures { ReserveMove }
{}

/// A claimed page becomes the head of its chain, by a swap: other claims for the same slot swap before or after it.
pub fn hang_move()
    ensures { HangMove }
{}

/// Its next word is stored. It comes after the swap, which alone shows what the next page is.
pub fn link_move()
    ensures { LinkMove }
{}

/// A slot is taken for a new region if it is free, by an exchange of 2 for 0.
pub fn create_move()
    ensures { CreateMove }
{}

/// A stake is taken for a goroutine that is about to start, by one that has a stake there itself. So the count is not 0 or 1, and the
/// region stays.
pub fn share_move()
    ensures { ShareMove }
{}

/// A stake ends. If it was the last, the region is removed, and its chain is to be returned. The number found decides, so exactly one
/// goroutine finds that its stake was the last.
pub fn leave_move()
    ensures { LeaveMove }
{}

/// The head of a chain that is being returned is loaded. From the end of the last stake on this goroutine alone accesses the slot.
pub fn head_move()
    ensures { HeadMove }
{}

/// A page's next word is loaded, before the page is freed and may be linked elsewhere.
pub fn next_move()
    ensures { NextMove }
{}

/// A page is free again, and others may claim it from now on.
pub fn free_move()
    ensures { FreeMove }
{}

/// The head is cleared, for the next region of this slot.
pub fn clear_move()
    ensures { ClearMove }
{}

/// The slot is free again. This comes last, so that a new region never finds an old chain.
pub fn slot_move()
    ensures { SlotMove }
{}

/// Small runs, access by access.
pub fn traces()
    ensures { TraceExamples }
{}

/// Records that are before an access to an element, what they know of its slice, and what is still to be freed.
pub fn links()
    ensures { LinkExamples }
{}

/// Records that work at spread objects: what they know of a cell, and what they reserve.
pub fn spread()
    ensures { SpreadObjectExamples }
{}

/// How many words objects have at least, and where words of a type may point.
pub fn bounds()
    ensures { BoundExamples }
{}
