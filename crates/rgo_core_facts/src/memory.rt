//! Where the words of the next instruction are, which object it makes, and what the own pages of a goroutine are. An access outside of the
//! table would be undefined, and an own page that is not one would be shared: these facts exclude both without a test.
ghost use Rattle.rgo_core_facts.specs.MemoryExamples.{ObjectExamples, PlaceExamples};
ghost use Rattle.rgo_core_facts.specs.MemoryObjects.{AtStays, HasRegion, MakesChannel, MakesSlice, MakesStruct, NewStays, SpreadIsNext, PagesAre, StoresNone, StoresNoneApart, StoresWords, StoresWordsApart, TooLarge, WantsPage, WantsReserved};
ghost use Rattle.rgo_core_facts.specs.MemoryPages.{ClaimedPage, FreeOfSlots, OneOwnPage, OwnPages, ReservedFew, ReservedPages, RoomLies};
ghost use Rattle.rgo_core_facts.specs.MemoryWords.{ChannelLies, ElementLies, GetExists, IndexLies, LenLies, LoadLies, LoadsField, OfferLies, OperandPoints, PagesInTable, SetExists, SliceLies, StoreLies, StoresField};

/// An operand that is not nil points to at least as many words of pages as an object of its type has. The word may have been stored by any
/// goroutine.
pub fn operand_points()
    ensures { OperandPoints }
{}

/// Words of pages are words of the table, so their positions are in bounds.
pub fn pages_in_table()
    ensures { PagesInTable }
{}

/// The struct has the field that is loaded, by the types of the code.
pub fn loads_field()
    ensures { LoadsField }
{}

/// The struct has the field that is stored.
pub fn stores_field()
    ensures { StoresField }
{}

/// The word with the number of a data page, which is loaded next, is a word of a page.
pub fn index_lies()
    ensures { IndexLies }
{}

/// So is an element of a slice that fits a page.
pub fn slice_lies()
    ensures { SliceLies }
{}

/// The field that is loaded is a word of a page.
pub fn load_lies()
    ensures { LoadLies }
{}

/// So is the field that is stored.
pub fn store_lies()
    ensures { StoreLies }
{}

/// So is the length that is loaded: each slice has a first word, also an empty one.
pub fn len_lies()
    ensures { LenLies }
{}

/// So is the length of a slice whose element is accessed.
pub fn element_lies()
    ensures { ElementLies }
{}

/// The package variable that is loaded exists.
pub fn get_exists()
    ensures { GetExists }
{}

/// So does the one that is stored.
pub fn set_exists()
    ensures { SetExists }
{}

/// The first words of a channel that is operated on are words of pages: its control, its capacity and one more. The other words are known
/// only after the capacity was loaded.
pub fn channel_lies()
    ensures { ChannelLies }
{}

/// So are those of the channel at which the goroutine's offer is. In the run the goroutine may be past its send, but it keeps its stake
/// until it has acknowledged.
pub fn offer_lies()
    ensures { OfferLies }
{}

/// An object that is made has a region: that of the variable that will point to it.
pub fn has_region()
    ensures { HasRegion }
{}

/// The words of a new struct, and what they first hold.
pub fn makes_struct()
    ensures { MakesStruct }
{}

/// The words of a new slice. Its length must not be negative; a negative one is a trap.
pub fn makes_slice()
    ensures { MakesSlice }
{}

/// The words of a new channel. Its capacity must be one that a control can count.
pub fn makes_channel()
    ensures { MakesChannel }
{}

/// The next instruction is the same while the frames are. So an instruction may take several accesses, with others in between.
pub fn at_stays()
    ensures { AtStays }
{}

/// So is the object that it makes.
pub fn new_stays()
    ensures { NewStays }
{}

/// Its data pages: how many, from its words alone.
pub fn pages_are()
    ensures { PagesAre }
{}

/// An object of too many data pages may end the run, in whatever state that is.
pub fn too_large()
    ensures { TooLarge }
{}

/// A new object for which the own page has no room needs a page. Only then may it claim one: the machine takes no page without need.
pub fn wants_page()
    ensures { WantsPage }
{}

/// A new object is spread if it has more words than a page.
pub fn next_is_spread()
    ensures { SpreadIsNext }
{}

/// A spread object of which not all pages are reserved needs one.
pub fn wants_reserved()
    ensures { WantsReserved }
{}

/// Each word of a new object may be stored after the words before it, and the last one makes the object. This is the order of the code;
/// the table would allow any.
pub fn stores_words()
    ensures { StoresWords }
{}

/// Before the first of them the record is as it was.
pub fn stores_none()
    ensures { StoresNone }
{}

/// The same of a spread object, with the numbers of its data pages.
pub fn stores_words_apart()
    ensures { StoresWordsApart }
{}

/// Before the first of them the record is as it was.
pub fn stores_none_apart()
    ensures { StoresNoneApart }
{}

/// An own page is a page of the table, and is filled at most to its end.
pub fn own_pages()
    ensures { OwnPages }
{}

/// A goroutine has at most one own page for each slot, so the code may keep it with the region.
pub fn one_own_page()
    ensures { OneOwnPage }
{}

/// A claimed page is the own page of its slot.
pub fn claimed_page()
    ensures { ClaimedPage }
{}

/// A reserved page is a page of the table.
pub fn reserved_pages()
    ensures { ReservedPages }
{}

/// No more pages are reserved than the next object takes, so the search for pages ends with exactly its number.
pub fn reserved_few()
    ensures { ReservedFew }
{}

/// What is left of a page is in the pages.
pub fn room_lies()
    ensures { RoomLies }
{}

/// A goroutine that makes and claims nothing is free of each slot, so it may end its stake there.
pub fn free_of_slots()
    ensures { FreeOfSlots }
{}

/// New objects, own pages and offers that meet the definitions, and some that do not.
pub fn examples()
    ensures objects { ObjectExamples }
    ensures places { PlaceExamples }
{}
