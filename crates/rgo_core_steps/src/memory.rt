//! Words of objects and package variables. A load or a store is the next instruction of its goroutine; the length of a slice is
//! loaded before an access to one of its elements, and the number of a data page before one to a cell of a spread object; and each
//! word of a new object is stored once before the object exists.
//!
//! Only the goroutine itself may use these calls, and only if its record shows that the access is its next one. No word is locked: a
//! load finds what the last store to the word has left, whichever goroutine made it. The region cannot go meanwhile, since the
//! goroutine has a stake in it. Why: docs/DECISIONS.md, "Tables of words".
ghost use Rattle.std.specs.Prelude.{◌≡◌, ◌+◌, ◌-◌, ◌/◌, ◌%◌, ◌<◌, ℕ};
ghost use Rattle.rgo_core.specs.moves.Cells.{IsAtSpread, locates, measures};
ghost use Rattle.rgo_core.specs.ties.Bounds.{LieInPages, Points, slice_words};
ghost use Rattle.rgo_core.specs.Core.{layout};
ghost use Rattle.rgo_core.specs.ties.Links.{IsAtElement};
ghost use Rattle.rgo_core.specs.runs.Plans.{setup_of};
ghost use Rattle.rgo_core.specs.Channels.Records.{at_rest};
ghost use Rattle.rgo_core.specs.Memory.Words.{all_words, base, cell_at, clock_at};
ghost use Rattle.rgo_core.specs.Rule.declared.accesses.Kind.TheVariants as kind;
ghost use Rattle.rgo_core_steps.specs.Accesses.{LengthOfNil, Loads, Stores, given_type};
ghost use Rattle.rgo_core_steps.specs.After.{acting};
ghost use Rattle.rgo_core_steps.specs.Making.{IsIndex, IsNewWord, IsNewWordApart, NewPoints, NewPointsApart, filling, filling_apart};
ghost use Rattle.rgo_core_steps.specs.Seats.{HasOne, HasPossible, IsSeatOf, HasAccessed, Settles, Stored, settled};

use rgo_core::records::Record;
use rgo_core::rule::steps;
use rgo_core::table::{ByRuns, Plan, RunSeat, RunTable};
use std::marker::Brand;

/// Loads a word as the next instruction: a field, an element, the length of a slice or a package variable. If it is a pointer, a
/// slice or a channel, it is nil or leads to words of pages, whichever goroutine has stored it.
pub fn load(table: &RunTable, seat: &mut RunSeat, behind: u64, word: usize) -> u64
    requires own { IsSeatOf seat.old.table_id table.now.shared.table_id word }
    requires alone { HasOne (setup_of table.now.shared.key) seat.old.me }
    requires settles { Settles (setup_of table.now.shared.key) behind seat.old.me }
    requires rests { (settled (setup_of table.now.shared.key) behind seat.old.me).side ≡ at_rest }
    requires loads { let T = setup_of table.now.shared.key in Loads T (settled T behind seat.old.me) word }
    ensures own { (seat.new.table_id ≡ seat.old.table_id) × (seat.new.id ≡ seat.old.id) }
    ensures leaves { let T = setup_of table.now.shared.key in HasAccessed T kind.Load word (λ n. n)
        (λ n d. (d ≡ acting T.code (settled T behind seat.old.me) n)
        × Points T (given_type T (settled T behind seat.old.me)) n) seat.old.me result seat.new.me }
    ensures possible { HasPossible (setup_of table.now.shared.key) seat.new.me }
{
    steps::load::<Record, Plan, ByRuns, Brand, _>(table, seat, word, &behind)
}

/// Takes the length of nil as the next instruction: it is 0, and no word is loaded for it. A load of the clock puts the
/// instruction into the run.
pub fn length_of_nil(table: &RunTable, seat: &mut RunSeat, behind: u64)
    requires own { IsSeatOf seat.old.table_id table.now.shared.table_id clock_at }
    requires alone { HasOne (setup_of table.now.shared.key) seat.old.me }
    requires settles { Settles (setup_of table.now.shared.key) behind seat.old.me }
    requires rests { (settled (setup_of table.now.shared.key) behind seat.old.me).side ≡ at_rest }
    requires nil { let T = setup_of table.now.shared.key in LengthOfNil T (settled T behind seat.old.me) }
    ensures own { (seat.new.table_id ≡ seat.old.table_id) × (seat.new.id ≡ seat.old.id) }
    ensures leaves { let T = setup_of table.now.shared.key in (n : ℕ)
        × HasAccessed T kind.Load clock_at (λ n. n) (λ n d. d ≡ acting T.code (settled T behind seat.old.me) 0)
        seat.old.me n seat.new.me }
    ensures possible { HasPossible (setup_of table.now.shared.key) seat.new.me }
{
    steps::load::<Record, Plan, ByRuns, Brand, _>(table, seat, 0, &behind);
}

/// Loads the length of the slice at this address, before the next instruction loads or stores one of its elements. The elements are all
/// in pages; if the slice is spread, the numbers of its data pages are. The length never changes, but it may be used only up to the
/// next instruction: then another slice may have the address.
pub fn measure(
    table: &RunTable,
    seat: &mut RunSeat,
    behind: u64,
    word: usize,
    address: usize,
) -> u64
    requires own { IsSeatOf seat.old.table_id table.now.shared.table_id word }
    requires alone { HasOne (setup_of table.now.shared.key) seat.old.me }
    requires settles { Settles (setup_of table.now.shared.key) behind seat.old.me }
    requires element { let T = setup_of table.now.shared.key in IsAtElement T.code (settled T behind seat.old.me) address }
    requires at { word ≡ base (layout (setup_of table.now.shared.key)) + address }
    ensures own { (seat.new.table_id ≡ seat.old.table_id) × (seat.new.id ≡ seat.old.id) }
    ensures leaves { let T = setup_of table.now.shared.key in HasAccessed T kind.Load word (λ n. n)
        (λ n d. (d ≡ measures (settled T behind seat.old.me) address n) × LieInPages T address (slice_words T n))
        seat.old.me result seat.new.me }
    ensures possible { HasPossible (setup_of table.now.shared.key) seat.new.me }
{
    steps::load::<Record, Plan, ByRuns, Brand, _>(table, seat, word, &(address, behind))
}

/// Loads the number of the data page, plus 1, that has a cell of the spread object at this address, before the next instruction loads
/// or stores the cell. `before` words of the object precede its cells.
pub fn index(
    table: &RunTable,
    seat: &mut RunSeat,
    behind: u64,
    word: usize,
    address: usize,
    before: usize,
    cell: usize,
) -> u64
    requires own { IsSeatOf seat.old.table_id table.now.shared.table_id word }
    requires alone { HasOne (setup_of table.now.shared.key) seat.old.me }
    requires settles { Settles (setup_of table.now.shared.key) behind seat.old.me }
    requires spread { let T = setup_of table.now.shared.key in IsAtSpread T (settled T behind seat.old.me) address before cell }
    requires at { let T = setup_of table.now.shared.key in
        word ≡ base (layout T) + (address + (before + cell / T.sizes.page_words)) }
    ensures own { (seat.new.table_id ≡ seat.old.table_id) × (seat.new.id ≡ seat.old.id) }
    ensures leaves { let T = setup_of table.now.shared.key in HasAccessed T kind.LoadIndex word (λ n. n)
        (λ n d. (d ≡ locates (settled T behind seat.old.me) address cell (n - 1)) × (0 < n)
        × (cell_at (layout T) (n - 1) (cell % T.sizes.page_words) < all_words (layout T)))
        seat.old.me result seat.new.me }
    ensures possible { HasPossible (setup_of table.now.shared.key) seat.new.me }
{
    steps::load::<Record, Plan, ByRuns, Brand, _>(
        table,
        seat,
        word,
        &(address, before, cell, behind),
    )
}

/// Stores a word as the next instruction: to a field, an element or a package variable. What another goroutine has stored there before is
/// lost, as in any race.
pub fn store(table: &RunTable, seat: &mut RunSeat, behind: u64, word: usize, value: u64)
    requires own { IsSeatOf seat.old.table_id table.now.shared.table_id word }
    requires alone { HasOne (setup_of table.now.shared.key) seat.old.me }
    requires settles { Settles (setup_of table.now.shared.key) behind seat.old.me }
    requires rests { (settled (setup_of table.now.shared.key) behind seat.old.me).side ≡ at_rest }
    requires stores { let T = setup_of table.now.shared.key in Stores T (settled T behind seat.old.me) word value }
    ensures own { (seat.new.table_id ≡ seat.old.table_id) × (seat.new.id ≡ seat.old.id) }
    ensures leaves { let T = setup_of table.now.shared.key in Stored T kind.Store word value
        (acting T.code (settled T behind seat.old.me) 0) seat.old.me seat.new.me }
    ensures possible { HasPossible (setup_of table.now.shared.key) seat.new.me }
{
    steps::store::<Record, Plan, ByRuns, Brand, _>(table, seat, word, value, &behind);
}

/// Stores the first value of a word of the object that the next instruction makes. The words may be stored in any order; with the
/// last one the object exists, and the instruction is done. Pages are not cleared when they are freed, so each word has to be stored.
pub fn zero(
    table: &RunTable,
    seat: &mut RunSeat,
    behind: u64,
    word: usize,
    value: u64,
    index: usize,
)
    requires own { IsSeatOf seat.old.table_id table.now.shared.table_id word }
    requires alone { HasOne (setup_of table.now.shared.key) seat.old.me }
    requires settles { Settles (setup_of table.now.shared.key) behind seat.old.me }
    requires rests { (settled (setup_of table.now.shared.key) behind seat.old.me).side ≡ at_rest }
    requires new { let T = setup_of table.now.shared.key in IsNewWord T (settled T behind seat.old.me) index word value }
    ensures own { (seat.new.table_id ≡ seat.old.table_id) × (seat.new.id ≡ seat.old.id) }
    ensures leaves { let T = setup_of table.now.shared.key in Stored T kind.Fill word value
        (filling T (settled T behind seat.old.me) index) seat.old.me seat.new.me }
    ensures points { let T = setup_of table.now.shared.key in NewPoints T (settled T behind seat.old.me) index }
    ensures possible { HasPossible (setup_of table.now.shared.key) seat.new.me }
{
    steps::store::<Record, Plan, ByRuns, Brand, _>(table, seat, word, value, &(index, behind));
}

/// The same of a word of a spread object, which is in the pages that are reserved for it. The numbers of its data pages have to be
/// stored, too: the last store of either kind makes the object.
pub fn zero_apart(
    table: &RunTable,
    seat: &mut RunSeat,
    behind: u64,
    word: usize,
    value: u64,
    index: usize,
)
    requires own { IsSeatOf seat.old.table_id table.now.shared.table_id word }
    requires alone { HasOne (setup_of table.now.shared.key) seat.old.me }
    requires settles { Settles (setup_of table.now.shared.key) behind seat.old.me }
    requires rests { (settled (setup_of table.now.shared.key) behind seat.old.me).side ≡ at_rest }
    requires new { let T = setup_of table.now.shared.key in IsNewWordApart T (settled T behind seat.old.me) index word value }
    ensures own { (seat.new.table_id ≡ seat.old.table_id) × (seat.new.id ≡ seat.old.id) }
    ensures leaves { let T = setup_of table.now.shared.key in Stored T kind.Fill word value
        (filling_apart T (settled T behind seat.old.me) index) seat.old.me seat.new.me }
    ensures points { let T = setup_of table.now.shared.key in NewPointsApart T (settled T behind seat.old.me) index }
    ensures possible { HasPossible (setup_of table.now.shared.key) seat.new.me }
{
    steps::store::<Record, Plan, ByRuns, Brand, _>(table, seat, word, value, &(index, behind));
}

/// Stores the number of a data page, plus 1, in the lead page of the object: word `index`, after the words of the object.
pub fn set_index(
    table: &RunTable,
    seat: &mut RunSeat,
    behind: u64,
    word: usize,
    value: u64,
    index: usize,
)
    requires own { IsSeatOf seat.old.table_id table.now.shared.table_id word }
    requires alone { HasOne (setup_of table.now.shared.key) seat.old.me }
    requires settles { Settles (setup_of table.now.shared.key) behind seat.old.me }
    requires rests { (settled (setup_of table.now.shared.key) behind seat.old.me).side ≡ at_rest }
    requires new { let T = setup_of table.now.shared.key in
        (new : IsNewWordApart T (settled T behind seat.old.me) index word value) × IsIndex new }
    ensures own { (seat.new.table_id ≡ seat.old.table_id) × (seat.new.id ≡ seat.old.id) }
    ensures leaves { let T = setup_of table.now.shared.key in Stored T kind.StoreIndex word value
        (filling_apart T (settled T behind seat.old.me) index) seat.old.me seat.new.me }
    ensures points { let T = setup_of table.now.shared.key in NewPointsApart T (settled T behind seat.old.me) index }
    ensures possible { HasPossible (setup_of table.now.shared.key) seat.new.me }
{
    steps::store::<Record, Plan, ByRuns, Brand, _>(table, seat, word, value, &(index, behind));
}
