//! What each atomic access to the table's memory keeps. A law is about one state: it takes the image of a state, and returns the image
//! of the state after the access. Some accesses are a step of the region machine. Others, such as those to chains and all opening
//! stores but the last, prepare or finish one: these leave the state as it is.

ghost use Rattle.rgo_core_memory.specs.Allocations.{AllocationKeeps, AllocationKeepsApart, WordKeeps, WordKeepsApart};
ghost use Rattle.rgo_core_memory.specs.Chains.{ClearKeeps, ForgetKeeps, FreeKeeps, HangKeeps, HeadKeeps, LinkKeeps, LocatedKeeps, MeasuredKeeps, NextKeeps, SlotKeeps, TriedPageKeeps, TriedSlotKeeps};
ghost use Rattle.rgo_core_memory.specs.Elsewhere.{ClockKeeps, GroundKeeps, NumberKeeps};
ghost use Rattle.rgo_core_memory.specs.Examples.{MemoryExamples};
ghost use Rattle.rgo_core_memory.specs.Events.{CreateKeeps, LastLeaveKeeps, LeaveKeeps, PageKeeps, ReservedPageKeeps, ShareKeeps};
ghost use Rattle.rgo_core_memory.specs.Laws.{AtLaw, GetLaw, LenLaw, MemoryLoadLaw, PutLaw, SetLaw, StoreLaw};
ghost use Rattle.rgo_core_memory.specs.Opening.{Opens};
ghost use Rattle.rgo_core_memory.specs.Facts.{AllFound, CountIsSmall, OneAddress, QueueKeeps, SomeLeft, SpreadFollows, UntoldKeeps, WordsFollow};
ghost use Rattle.rgo_core_memory.specs.Quiet.{QuietKeeps, StartKeeps};
ghost use Rattle.rgo_core_memory.specs.Exists.{AccessExists, AllocationExists, AllocationExistsApart, PageExists, ReservedPageExists};
ghost use Rattle.rgo_core_memory.specs.Facts.{WordsDiffer};
ghost use Rattle.rgo_core_memory.specs.Owed.{StillClaimed, StillOwed};

/// A load of a field reads what the instruction reads. The object exists and has the field, since the code is checked.
pub fn load_law()
    ensures { MemoryLoadLaw }
{}

/// A load of an element reads what the instruction reads.
pub fn at_law()
    ensures { AtLaw }
{}

/// A load of the first word of a slice reads its length. The length never changes, but the word may serve another object once the
/// region is gone: the record remembers the length only up to the next instruction.
pub fn len_law()
    ensures { LenLaw }
{}

/// A load of a package variable reads what the instruction reads.
pub fn get_law()
    ensures { GetLaw }
{}

/// A store of a field is the instruction. Other goroutines may load or store the same word before and after it: each of these is an
/// instruction of its own, and the order of accesses is that of the instructions.
pub fn store_law()
    ensures { StoreLaw }
{}

/// A store of an element is the instruction.
pub fn put_law()
    ensures { PutLaw }
{}

/// A store of a package variable is the instruction.
pub fn set_law()
    ensures { SetLaw }
{}

/// An opening store before the last changes nothing of the region machine: nobody has a pointer to the object yet, and its words are
/// above what is filled of an own page, where no object is.
pub fn word_law()
    ensures { WordKeeps }
{}

/// The same for a spread object.
pub fn word_apart_law()
    ensures { WordKeepsApart }
{}

/// The last opening store is the instruction that makes the object, whichever word it is: the record knows which are stored.
pub fn allocation_law()
    ensures { AllocationKeeps }
{}

/// The same for a spread object.
pub fn allocation_apart_law()
    ensures { AllocationKeepsApart }
{}

/// The exchange that found a page state 0 takes the page, by a step of its own before the instruction that makes the object. From
/// then on only this goroutine changes the state, until the chain of its slot is returned.
pub fn page_law()
    ensures { PageKeeps }
{}

/// The same for a spread object.
pub fn reserved_page_law()
    ensures { ReservedPageKeeps }
{}

/// An exchange has found a page claimed, and has changed nothing. The record remembers it, since a page that was found claimed was taken
/// by some earlier step: with all pages in the record, the run has taken at least as many.
pub fn tried_page_law()
    ensures { TriedPageKeeps }
{}

/// A claimed page becomes the head of its chain, by a swap that cannot fail. Other goroutines with a stake may swap in theirs before
/// and after it. What was found is the next page, which only the claimer knows until it is stored.
pub fn hang_law()
    ensures { HangKeeps }
{}

/// Its next word is stored. Nobody has loaded it in between: a chain is read only when no stake is left, and the claimer has one.
pub fn link_law()
    ensures { LinkKeeps }
{}

/// The exchange that found a count 0 creates a region: from 0 to 2, which is one stake.
pub fn create_law()
    ensures { CreateKeeps }
{}

/// An exchange has found a slot in use, and has changed nothing. As with pages, the record remembers it.
pub fn tried_slot_law()
    ensures { TriedSlotKeeps }
{}

/// A count with one added has one stake more. It may be done only by a goroutine with a stake there, so the count is at least 2 before
/// it, and the region cannot go in between.
pub fn share_law()
    ensures { ShareKeeps }
{}

/// A count with one subtracted has one stake less. If more than 2 was found, others have stakes and keep the region alive.
pub fn leave_law()
    ensures { LeaveKeeps }
{}

/// The subtraction that found 2 ends the last stake and removes the region. The count is then 1, which no creation takes, so the
/// slot is this goroutine's alone until it has returned the chain.
pub fn last_leave_law()
    ensures { LastLeaveKeeps }
{}

/// The head of a chain that is being returned is loaded. No stake is left, so no page is being hung there any more.
pub fn head_law()
    ensures { HeadKeeps }
{}

/// A page's next word is loaded, before the page is freed: afterwards another goroutine may claim it and store another one.
pub fn next_law()
    ensures { NextKeeps }
{}

/// A page's state is stored as 0. From this access on any goroutine may claim it, so it is off the chain with the same access.
pub fn free_law()
    ensures { FreeKeeps }
{}

/// The head is cleared, when the last page is free. Nobody else reads it in between, so once is enough.
pub fn clear_law()
    ensures { ClearKeeps }
{}

/// The count is stored as 0, as the last access of a return: from here on another goroutine may create a region in the slot, whose
/// chain must be empty.
pub fn slot_law()
    ensures { SlotKeeps }
{}

/// The first words are the image of the first state.
pub fn opening_law()
    ensures { Opens }
{}

/// Steps of the region machine that change no word of memory: local steps, which need no access, and those at channels and at the
/// clock, whose words are not those of memory.
pub fn quiet_law()
    ensures { QuietKeeps }
{}

/// A goroutine starts, and its record has nothing of memory. Its stakes are counted already: the goroutine that starts it has shared
/// them before.
pub fn start_law()
    ensures { StartKeeps }
{}

/// Each live object has an address of its own. This does not hold for all objects: the words of a removed region serve again.
pub fn address_law()
    ensures { OneAddress }
{}

/// The words of an object follow one another, in the table.
pub fn row_law()
    ensures { WordsFollow }
{}

/// If a page is free at some moment, fewer than all are in use; the same of slots. With `found_law` it makes a lack of room exact.
pub fn left_law()
    ensures { SomeLeft }
{}

/// A count has at most two stakes for each goroutine: its own, and one that it has taken for a goroutine that it is about to start. So
/// a count never wraps around.
pub fn count_law()
    ensures { CountIsSmall }
{}

/// If a search has found everything in use, at least that many pages were taken, or regions created, in the whole run. It found them
/// at different moments, so it does not follow that all were in use at once.
pub fn found_law()
    ensures { AllFound }
{}

/// A word of a channel other than its capacity may be written: memory says nothing of it, and the image of channels says the rest.
pub fn untold_law()
    ensures { UntoldKeeps }
{}

/// The queue of a channel may change.
pub fn queue_law()
    ensures { QueueKeeps }
{}

/// The region machine has the step of an access. The laws above take the step as a premise. These laws show that it exists.
pub fn access_exists_law()
    ensures { AccessExists }
{}

/// The region machine has the step of an allocation that fits.
pub fn allocation_exists_law()
    ensures { AllocationExists }
{}

/// The region machine has the step that takes a page for what does not fit.
pub fn page_exists_law()
    ensures { PageExists }
{}

/// No two words of live objects are the same, nor a word of an object and one above the fill of an own page. So a store to one of them
/// leaves all others.
pub fn differ_law()
    ensures { WordsDiffer }
{}

/// A call begins, and forgets what the last one has found in use: these places may have become free since.
pub fn forget_law()
    ensures { ForgetKeeps }
{}

/// What chains have still to free. A record counts it down, so that the loop that returns a chain ends.
pub fn owed_law()
    ensures { StillOwed }
{}

/// The pages that are still claimed for a slot.
pub fn claimed_law()
    ensures { StillClaimed }
{}

/// The record notes a length that it has read. Any number may be noted here. That it is right comes from `len_law`.
pub fn measured_law()
    ensures { MeasuredKeeps }
{}

/// The number of a data page was read.
pub fn located_law()
    ensures { LocatedKeeps }
{}

/// The clock is not a word of memory.
pub fn clock_law()
    ensures { ClockKeeps }
{}

/// Nor is the number of goroutines.
pub fn number_law()
    ensures { NumberKeeps }
{}

/// The image depends on a state only through what memory shows of it (`Ground`). So steps elsewhere need no proof here.
pub fn ground_law()
    ensures { GroundKeeps }
{}

/// A small table: where its words are, how it opens, and words and records that are not an image.
pub fn examples()
    ensures { MemoryExamples }
{}

/// The lead page of a spread object leads from its address to its cells.
pub fn spread_follows_law()
    ensures { SpreadFollows }
{}

/// A spread object can be made when all of its pages were taken.
pub fn allocation_exists_apart_law()
    ensures { AllocationExistsApart }
{}

/// As long as it has too few pages reserved, another one can be taken for it.
pub fn reserved_page_exists_law()
    ensures { ReservedPageExists }
{}
