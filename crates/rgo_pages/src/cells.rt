//! Words of objects and package variables, each by one access.
//!
//! 1. The goroutine that makes an object stores each of its words once (`zero`), in whatever order. Nobody else has its address
//!    before the last of these stores. If the object is spread, it stores the words in several pages (`zero_apart`), and in the lead page
//!    the numbers of the data pages (`set_index`).
//! 2. From then on each goroutine that has come to know the address, and has a stake in the region, loads and stores the words
//!    (`load`, `store`). None is locked: a load finds what the last store to the word has stored, whoever made it.
//! 3. Before a goroutine accesses an element it loads the length of the slice (`measure`), which is never stored again; and before
//!    it accesses a cell of a spread object, the number of the cell's page (`index`), which is not either.
//!
//! Each function is called by the goroutine whose record is on the seat, in its own turn, and only if its next instruction makes
//! this access. What `load` returns was the value of the word at one moment of the call. Why: docs/DECISIONS.md, "Tables of words".
ghost use Rattle.std.specs.Prelude.{◌≡◌, ◌+◌, ◌-◌, ◌/◌, ◌%◌, ◌<◌, ℕ};
ghost use Rattle.rgo_core.specs.moves.Cells.{IsAtSpread, locates, measures};
ghost use Rattle.rgo_core.specs.ties.Bounds.{LieInPages, Points, slice_words};
ghost use Rattle.rgo_core.specs.Core.{layout};
ghost use Rattle.rgo_core.specs.ties.Links.{IsAtElement};
ghost use Rattle.rgo_core.specs.runs.Plans.{setup_of};
ghost use Rattle.rgo_core.specs.Channels.Records.{at_rest};
ghost use Rattle.rgo_core.specs.Memory.Words.{all_words, base, cell_at, clock_at};
ghost use Rattle.rgo_core.specs.Rule.declared.accesses.Kind.TheVariants as kind;
ghost use Rattle.rgo_core_steps.specs.Accesses.{LengthOfNil, Loads, Stores, given_type};
ghost use Rattle.rgo_core_steps.specs.After.{acting};
ghost use Rattle.rgo_core_steps.specs.Making.{IsIndex, IsNewWord, IsNewWordApart, NewPoints, NewPointsApart, filling, filling_apart};
ghost use Rattle.rgo_core_steps.specs.Seats.{HasOne, HasPossible, IsSeatOf, HasAccessed, Settles, Stored, settled};

use rgo_core::table::{RunSeat, RunTable};
use rgo_core_steps::counting::Steps;
use rgo_core_steps::memory;
use std::sync::ledger::Ledger;

/// Stores the first value of word `index` of the object that the next instruction makes. With the last word, in whatever order they
/// are stored, the object exists and the instruction is done. Until then nobody else has its address.
pub fn zero<L: Ledger>(
    table: &RunTable,
    seat: &mut RunSeat,
    behind: u64,
    word: usize,
    value: u64,
    index: usize,
    steps: &mut Steps<L>,
)
    requires own { IsSeatOf seat.old.table_id table.now.shared.table_id word }
    requires alone { HasOne (setup_of table.now.shared.key) seat.old.me }
    requires settles { Settles (setup_of table.now.shared.key) behind seat.old.me }
    requires rests { (settled (setup_of table.now.shared.key) behind seat.old.me).side ≡ at_rest }
    requires new { let T = setup_of table.now.shared.key in IsNewWord T (settled T behind seat.old.me) index word value }
    ensures own { (seat.new.table_id ≡ seat.old.table_id) × (seat.new.id ≡ seat.old.id) }
    ensures leaves { let T = setup_of table.now.shared.key in Stored T kind.Fill word value
        (filling T (settled T behind seat.old.me) index) seat.old.me seat.new.me }
    ensures points { let T = setup_of table.now.shared.key in NewPoints T (settled T behind seat.old.me) index }
    ensures possible { HasPossible (setup_of table.now.shared.key) seat.new.me }
    ensures cost { steps.new ≡ steps.old + 1 }
{
    steps.tick();
    memory::zero(table, seat, behind, word, value, index);
}

/// The same of a word of a spread object, which lies in the pages that are reserved for it. The object exists only when the numbers of
/// its data pages are stored, too: whoever gets its address loads them.
pub fn zero_apart<L: Ledger>(
    table: &RunTable,
    seat: &mut RunSeat,
    behind: u64,
    word: usize,
    value: u64,
    index: usize,
    steps: &mut Steps<L>,
)
    requires own { IsSeatOf seat.old.table_id table.now.shared.table_id word }
    requires alone { HasOne (setup_of table.now.shared.key) seat.old.me }
    requires settles { Settles (setup_of table.now.shared.key) behind seat.old.me }
    requires rests { (settled (setup_of table.now.shared.key) behind seat.old.me).side ≡ at_rest }
    requires new { let T = setup_of table.now.shared.key in IsNewWordApart T (settled T behind seat.old.me) index word value }
    ensures own { (seat.new.table_id ≡ seat.old.table_id) × (seat.new.id ≡ seat.old.id) }
    ensures leaves { let T = setup_of table.now.shared.key in Stored T kind.Fill word value
        (filling_apart T (settled T behind seat.old.me) index) seat.old.me seat.new.me }
    ensures points { let T = setup_of table.now.shared.key in NewPointsApart T (settled T behind seat.old.me) index }
    ensures possible { HasPossible (setup_of table.now.shared.key) seat.new.me }
    ensures cost { steps.new ≡ steps.old + 1 }
{
    steps.tick();
    memory::zero_apart(table, seat, behind, word, value, index);
}

/// Stores the number of a data page, plus 1, in the lead page of the object: word `index`, after the words of the object.
pub fn set_index<L: Ledger>(
    table: &RunTable,
    seat: &mut RunSeat,
    behind: u64,
    word: usize,
    value: u64,
    index: usize,
    steps: &mut Steps<L>,
)
    requires own { IsSeatOf seat.old.table_id table.now.shared.table_id word }
    requires alone { HasOne (setup_of table.now.shared.key) seat.old.me }
    requires settles { Settles (setup_of table.now.shared.key) behind seat.old.me }
    requires rests { (settled (setup_of table.now.shared.key) behind seat.old.me).side ≡ at_rest }
    requires new { let T = setup_of table.now.shared.key in
        (new : IsNewWordApart T (settled T behind seat.old.me) index word value) × IsIndex new }
    ensures own { (seat.new.table_id ≡ seat.old.table_id) × (seat.new.id ≡ seat.old.id) }
    ensures leaves { let T = setup_of table.now.shared.key in Stored T kind.StoreIndex word value
        (filling_apart T (settled T behind seat.old.me) index) seat.old.me seat.new.me }
    ensures points { let T = setup_of table.now.shared.key in NewPointsApart T (settled T behind seat.old.me) index }
    ensures possible { HasPossible (setup_of table.now.shared.key) seat.new.me }
    ensures cost { steps.new ≡ steps.old + 1 }
{
    steps.tick();
    memory::set_index(table, seat, behind, word, value, index);
}

/// Loads a word as the next instruction: a field, an element, the length of a slice or a package variable. If it is a pointer, a
/// slice or a channel, it is nil or leads to words of pages.
pub fn load<L: Ledger>(
    table: &RunTable,
    seat: &mut RunSeat,
    behind: u64,
    word: usize,
    steps: &mut Steps<L>,
) -> u64
    requires own { IsSeatOf seat.old.table_id table.now.shared.table_id word }
    requires alone { HasOne (setup_of table.now.shared.key) seat.old.me }
    requires settles { Settles (setup_of table.now.shared.key) behind seat.old.me }
    requires rests { (settled (setup_of table.now.shared.key) behind seat.old.me).side ≡ at_rest }
    requires loads { let T = setup_of table.now.shared.key in Loads T (settled T behind seat.old.me) word }
    ensures own { (seat.new.table_id ≡ seat.old.table_id) × (seat.new.id ≡ seat.old.id) }
    ensures leaves { let T = setup_of table.now.shared.key in HasAccessed T kind.Load word (λ n. n)
        (λ n d. (d ≡ acting T.code (settled T behind seat.old.me) n)
        × Points T (given_type T (settled T behind seat.old.me)) n) seat.old.me result seat.new.me }
    ensures possible { HasPossible (setup_of table.now.shared.key) seat.new.me }
    ensures cost { steps.new ≡ steps.old + 1 }
{
    steps.tick();
    memory::load(table, seat, behind, word)
}

/// Takes the length of nil as the next instruction: it is 0, and no word is loaded for it. A load of the clock puts the instruction
/// into the run, since an instruction that is not a local step needs an access.
pub fn length_of_nil<L: Ledger>(
    table: &RunTable,
    seat: &mut RunSeat,
    behind: u64,
    steps: &mut Steps<L>,
)
    requires own { IsSeatOf seat.old.table_id table.now.shared.table_id clock_at }
    requires alone { HasOne (setup_of table.now.shared.key) seat.old.me }
    requires settles { Settles (setup_of table.now.shared.key) behind seat.old.me }
    requires rests { (settled (setup_of table.now.shared.key) behind seat.old.me).side ≡ at_rest }
    requires nil { let T = setup_of table.now.shared.key in LengthOfNil T (settled T behind seat.old.me) }
    ensures own { (seat.new.table_id ≡ seat.old.table_id) × (seat.new.id ≡ seat.old.id) }
    ensures leaves { let T = setup_of table.now.shared.key in (n : ℕ)
        × HasAccessed T kind.Load clock_at (λ n. n) (λ n d. d ≡ acting T.code (settled T behind seat.old.me) 0)
        seat.old.me n seat.new.me }
    ensures possible { HasPossible (setup_of table.now.shared.key) seat.new.me }
    ensures cost { steps.new ≡ steps.old + 1 }
{
    steps.tick();
    memory::length_of_nil(table, seat, behind);
}

/// Loads the length of the slice at this address, before the next instruction loads or stores one of its elements. They all lie in
/// pages, or if the slice is spread, the numbers of its data pages do.
pub fn measure<L: Ledger>(
    table: &RunTable,
    seat: &mut RunSeat,
    behind: u64,
    word: usize,
    address: usize,
    steps: &mut Steps<L>,
) -> u64
    requires own { IsSeatOf seat.old.table_id table.now.shared.table_id word }
    requires alone { HasOne (setup_of table.now.shared.key) seat.old.me }
    requires settles { Settles (setup_of table.now.shared.key) behind seat.old.me }
    requires element { let T = setup_of table.now.shared.key in IsAtElement T.code (settled T behind seat.old.me) address }
    requires at { word ≡ base (layout (setup_of table.now.shared.key)) + address }
    ensures own { (seat.new.table_id ≡ seat.old.table_id) × (seat.new.id ≡ seat.old.id) }
    ensures leaves { let T = setup_of table.now.shared.key in HasAccessed T kind.Load word (λ n. n)
        (λ n d. (d ≡ measures (settled T behind seat.old.me) address n) × LieInPages T address (slice_words T n))
        seat.old.me result seat.new.me }
    ensures possible { HasPossible (setup_of table.now.shared.key) seat.new.me }
    ensures cost { steps.new ≡ steps.old + 1 }
{
    steps.tick();
    memory::measure(table, seat, behind, word, address)
}

/// Loads the number of the data page, plus 1, that has a cell of the spread object at this address, before the next instruction
/// loads or stores the cell. `before` words of the object precede its cells.
pub fn index<L: Ledger>(
    table: &RunTable,
    seat: &mut RunSeat,
    behind: u64,
    word: usize,
    address: usize,
    before: usize,
    cell: usize,
    steps: &mut Steps<L>,
) -> u64
    requires own { IsSeatOf seat.old.table_id table.now.shared.table_id word }
    requires alone { HasOne (setup_of table.now.shared.key) seat.old.me }
    requires settles { Settles (setup_of table.now.shared.key) behind seat.old.me }
    requires spread { let T = setup_of table.now.shared.key in IsAtSpread T (settled T behind seat.old.me) address before cell }
    requires at { let T = setup_of table.now.shared.key in
        word ≡ base (layout T) + (address + (before + cell / T.sizes.page_words)) }
    ensures own { (seat.new.table_id ≡ seat.old.table_id) × (seat.new.id ≡ seat.old.id) }
    ensures leaves { let T = setup_of table.now.shared.key in HasAccessed T kind.LoadIndex word (λ n. n)
        (λ n d. (d ≡ locates (settled T behind seat.old.me) address cell (n - 1)) × (0 < n)
        × (cell_at (layout T) (n - 1) (cell % T.sizes.page_words) < all_words (layout T)))
        seat.old.me result seat.new.me }
    ensures possible { HasPossible (setup_of table.now.shared.key) seat.new.me }
    ensures cost { steps.new ≡ steps.old + 1 }
{
    steps.tick();
    memory::index(table, seat, behind, word, address, before, cell)
}

/// Stores a word as the next instruction: to a field, an element or a package variable. Other goroutines may store to it at the same
/// time; the order of the accesses to the word decides.
pub fn store<L: Ledger>(
    table: &RunTable,
    seat: &mut RunSeat,
    behind: u64,
    word: usize,
    value: u64,
    steps: &mut Steps<L>,
)
    requires own { IsSeatOf seat.old.table_id table.now.shared.table_id word }
    requires alone { HasOne (setup_of table.now.shared.key) seat.old.me }
    requires settles { Settles (setup_of table.now.shared.key) behind seat.old.me }
    requires rests { (settled (setup_of table.now.shared.key) behind seat.old.me).side ≡ at_rest }
    requires stores { let T = setup_of table.now.shared.key in Stores T (settled T behind seat.old.me) word value }
    ensures own { (seat.new.table_id ≡ seat.old.table_id) × (seat.new.id ≡ seat.old.id) }
    ensures leaves { let T = setup_of table.now.shared.key in Stored T kind.Store word value
        (acting T.code (settled T behind seat.old.me) 0) seat.old.me seat.new.me }
    ensures possible { HasPossible (setup_of table.now.shared.key) seat.new.me }
    ensures cost { steps.new ≡ steps.old + 1 }
{
    steps.tick();
    memory::store(table, seat, behind, word, value);
}
