//! New objects: structs, slices and channels. An object is placed after what is filled of the goroutine's own page in the region,
//! or on a page that is claimed for it. One that has more words than a page is spread: all its pages are claimed first, a lead page
//! and its data pages. Its words are stored one by one; with the last one it exists, and the instruction is done.
//!
//! Nobody else fills an own page or a reserved one, and nobody else knows the address of an object before its last store. So the
//! stores need no lock, and their order does not matter.
ghost use Rattle.std.specs.Prelude.{◌≡◌, ◌+◌, ◌-◌, ◌*◌, ◌/◌, ◌^◌, ◌<◌, ◌≤◌, ◌∷◌, [], ℕ, IfSome, List, MatchOption, MatchResult, Some, false, length, slice_get, suc, true};
ghost use Rattle.rgo_core.specs.Rule.Views.{number_of};
ghost use Rattle.rgo_core.specs.Rule.declared.accesses.Access.{Access};
ghost use Rattle.rgo_core.specs.Rule.declared.accesses.Kind.{Kind};
ghost use Rattle.rgo_core_facts.specs.MemoryObjects.{all_struct_words, channel_words as channel_words_of, data_pages_of, first_held as first_value_of, spot_of, with_new_object, with_new_object_apart};
ghost use Rattle.rgo_core.specs.runs.Opening.{first_of};
ghost use Rattle.rgo_core.specs.runs.Plans.{setup_of};
ghost use Rattle.rgo_core.specs.Records.{accesses};
ghost use Rattle.rgo_core_steps.specs.Grown.{SeatGrew};
ghost use Rattle.rgo_core_steps.specs.Layouts.{HasLayout};
ghost use Rattle.rgo_core_steps.specs.Making.{IsIndex, IsNewWordApart, filling_apart};
ghost use Rattle.rgo_core_steps.specs.Seats.{HasOne, HasPossible, IsSeatOf, Settles, Stored, mine, settled};
ghost use Rattle.rgo_core.specs.Channels.Records.{at_rest};
ghost use Rattle.rgo_body.specs.Bodies.{frames_of_body};
ghost use Rattle.rgo_body.specs.Stack.Stacks.{newest_word};
ghost use Rattle.rgo_body.specs.declared.bodies.Side.TheVariants.{AtRest};
ghost use Rattle.rgo_holding.specs.Holds.{region_of_key};
ghost use Rattle.rgo_holding.specs.Known.{own_page, slot_or_global};
ghost use Rattle.rgo_sound.specs.RegionMachine.Objects.{most_data_pages as most_data_pages_of};
ghost use Rattle.rgo_sound.specs.RegionMachine.declared.regions.Region.{Region};
ghost use Rattle.rgo_sound.specs.Tac.Code.{Do};
ghost use Rattle.rgo_sound.specs.Tac.Ops.{operation_of};
ghost use Rattle.rgo_sound.specs.Typed.declared.actions.Action.TheVariants as action;
ghost use Rattle.rgo_acts.specs.Actors.{ActorActed, now};
ghost use Rattle.rgo_acts.specs.Locals.{IsBeyond};
ghost use Rattle.rgo_acts.specs.ObjectExamples.{PlacementExamples};
ghost use Rattle.rgo_acts.specs.Objects as spec;
ghost use Rattle.rgo_acts.specs.Ready.{ActorIsBefore};

use crate::actors::Actor;
use crate::runs::Run;
use rgo_body::Next;
use rgo_body::pages::cells::{set_index, zero, zero_apart};
use rgo_body::pages::claiming::claim_from;
use rgo_core::memory::layout::{TableSizes, cell_at};
use rgo_core::table::{RunSeat, RunTable};
use rgo_core_steps::counting::Steps;
use rgo_holding::{Key, Page};
use rgo_sound::memory::Trap;
use std::marker::Brand;
use std::sync::ledger::{Blank, Ledger};

/// What came of an instruction that makes an object.
#[derive(Clone, Copy, Debug, PartialEq, Eq)]
pub enum Made {
    /// The object exists; the instruction is done.
    Done,
    /// The size is negative.
    Trap(Trap),
    /// The object has more data pages than an object may have.
    TooLarge,
    /// The object needs a page, and each page was found in use. None was claimed.
    Short,
    /// Pages were claimed for the object, which is spread; it needs one more, and each page was found in use. Those that were
    /// claimed stay reserved for it, and the next try begins with them.
    Partly,
    /// Memory ran out before a page was claimed.
    NoMemory,
}

/// The object that the next instruction makes: its region, its words, and how many of them precede its cells. The word at `place`
/// first holds `value`, and all others hold 0.
#[derive(Clone, Copy)]
pub(crate) struct New {
    pub(crate) key: Key,
    pub(crate) words: usize,
    pub(crate) before: usize,
    pub(crate) place: usize,
    pub(crate) value: u64,
}

/// The least word that is a negative number.
const FIRST_NEGATIVE: u64 = 9223372036854775808;

/// How many data pages an object of `words` words has, `before` of which precede its cells: none if it fits a page.
fn data_pages(page_words: usize, words: usize, before: usize) -> usize
    ensures { result ≡ data_pages_of page_words words before }
{
    if words <= page_words {
        return 0;
    }
    // A page without words has none of the cells.
    if page_words == 0 {
        return 1;
    }
    words.saturating_sub(before).saturating_sub(1) / page_words + 1
}

/// How many data pages an object may have. Their numbers must fit the lead page after at most two other words. The bound of 64 keeps the
/// numbers short whatever the size of a page.
fn most_data_pages(page_words: usize) -> usize
    ensures { result ≡ most_data_pages_of page_words }
{
    page_words.saturating_sub(2).min(64)
}

/// What a word of it first holds.
fn opening(new: New, i: usize) -> u64
    ensures { result ≡ spec.opens new.place new.value i }
{
    if i == new.place { new.value } else { 0 }
}

/// The own page, if it has room for an object. What is left of a page without room is not used again: to look for objects that fit it
/// would cost more than the words.
fn with_room(page: Option<Page>, words: usize, page_words: usize) -> Option<Page>
    requires { words ≤ page_words }
    ensures { MatchOption result (spec.HasNoRoomIn page_words words page)
        (λ q. (page ≡ Some q) × (q.fill + words ≤ page_words)) }
{
    match page {
        Some(own) => if own.fill as usize <= page_words - words {
            Some(own)
        } else {
            None
        },
        None => None,
    }
}

/// Stores the words of the next object on its page.
fn store_words<L: Ledger>(
    table: &RunTable,
    sizes: &TableSizes,
    seat: &mut RunSeat,
    behind: u64,
    page: Page,
    new: New,
    steps: &mut Steps<L>,
)
    requires own { seat.old.table_id ≡ table.now.shared.table_id }
    requires layout { HasLayout (setup_of table.now.shared.key) sizes.now table.now.shared.table_id }
    requires alone { HasOne (setup_of table.now.shared.key) seat.old.me }
    requires settles { Settles (setup_of table.now.shared.key) behind seat.old.me }
    requires placed { let T = setup_of table.now.shared.key in
        (slot : ℕ) × spec.IsPlacedInPage T (settled T behind seat.old.me) slot page new }
    ensures own { seat.new.table_id ≡ seat.old.table_id }
    ensures grew { let T = setup_of table.now.shared.key in
        (es : List Access) × SeatGrew accesses (first_of T.code) seat.old.me es seat.new.me }
    ensures stored { let T = setup_of table.now.shared.key in
        (slot : ℕ) (placed : spec.IsPlacedInPage T (settled T behind seat.old.me) slot page new)
        → mine T seat.new.me ≡ with_new_object T (settled T behind seat.old.me) (own_page slot page) placed.object.object }
    ensures possible { HasPossible (setup_of table.now.shared.key) seat.new.me }
    ensures cost { steps.new ≡ steps.old + new.words }
{
    let mut left = behind;
    for i in 0..new.words {
        let word = cell_at(sizes, page.page as usize, page.fill as usize + i);
        zero(table, seat, left, word, opening(new, i), i, steps);
        // The first access takes the local steps before it.
        left = 0;
    }
}

/// Makes the next object on this page.
fn make_on<L: Ledger>(
    actor: &mut Actor,
    run: &Run<'_, '_>,
    next: &Next<'_>,
    new: New,
    page: Page,
    steps: &mut Steps<L>,
)
    requires before { ActorIsBefore run.now actor.old next.now }
    requires does { (to : _) × (act : _) × (from : List ℕ) × (operation_of next.now.op ≡ Do to act from) }
    requires count { actor.old.body.counts.objects + 1 < 2 ^ 64 }
    requires placed { (region : Region) × (region_of_key actor.old.body.holding new.key ≡ Some region)
        × spec.IsPlacedInPage run.now.setup (now run.now.setup actor.old) (slot_or_global run.now.setup.sizes.regions region) page new }
    ensures acted { ActorActed run.now actor.old actor.new 1 [] [] }
    ensures beyond { IsBeyond actor.old actor.new }
    ensures rests { actor.new.body.side ≡ AtRest }
    ensures cost { steps.new ≡ steps.old + new.words }
{
    store_words(
        run.table,
        &run.sizes,
        &mut actor.seat,
        actor.behind,
        page,
        new,
        steps,
    );
    actor.behind = 0;
    let address = page.page as usize * run.sizes.page_words + page.fill as usize;
    let end = page.fill + new.words as u32;
    actor
        .body
        .made(run.program, next, new.key, end, address as u64 + 1);
}

/// The same for `execute`, which does not count accesses: it makes no search, and only searches have to be bounded.
fn make_uncounted<L: Ledger>(
    actor: &mut Actor,
    run: &Run<'_, '_>,
    next: &Next<'_>,
    new: New,
    page: Page,
    blank: Blank,
)
    requires before { ActorIsBefore run.now actor.old next.now }
    requires does { (to : _) × (act : _) × (from : List ℕ) × (operation_of next.now.op ≡ Do to act from) }
    requires count { actor.old.body.counts.objects + 1 < 2 ^ 64 }
    requires placed { (region : Region) × (region_of_key actor.old.body.holding new.key ≡ Some region)
        × spec.IsPlacedInPage run.now.setup (now run.now.setup actor.old) (slot_or_global run.now.setup.sizes.regions region) page new }
    requires name { blank.name ≡ L.name }
    requires parts { (blank.parts ≡ L.parts) × (0 < blank.parts) }
    ensures acted { ActorActed run.now actor.old actor.new 1 [] [] }
    ensures beyond { IsBeyond actor.old actor.new }
    ensures rests { actor.new.body.side ≡ AtRest }
{
    let mut steps = Steps::<L>::new(blank);
    make_on(actor, run, next, new, page, &mut steps);
}

/// Claims a page for the next object. It becomes the own page there; the one before it keeps its objects and is filled no more.
fn claim_page<L: Ledger>(
    actor: &mut Actor,
    run: &Run<'_, '_>,
    next: &Next<'_>,
    new: New,
    steps: &mut Steps<L>,
) -> Option<Page>
    requires before { ActorIsBefore run.now actor.old next.now }
    requires new { spec.IsNextObject run.now.setup (now run.now.setup actor.old) actor.old.body.holding new }
    requires fits { new.words ≤ run.now.setup.sizes.page_words }
    requires some { 0 < new.words }
    requires full { spec.HasNoRoomHere run.now actor.old new }
    requires pages { 0 < run.now.sizes.pages }
    requires count { actor.old.body.counts.taken + 1 < 2 ^ 64 }
    ensures page { MatchOption result (spec.HasNoPage run.now actor.old actor.new)
        (spec.HasPage run.now actor.old actor.new next.now new) }
    ensures cost { steps.new ≤ steps.old + (run.now.setup.sizes.pages + 2) }
{
    let slot = actor.body.page_slot(new.key);
    let claimed = claim_from(
        run.table,
        &mut actor.seat,
        actor.behind,
        &run.sizes,
        slot,
        actor.searches.pages.first_page(run),
        steps,
    );
    actor.behind = 0;
    match claimed {
        Ok(page) => {
            actor.searches.pages.found(page);
            actor.body.claimed(run.program, new.key, page);
            Some(Page { page, fill: 0 })
        }
        Err(_) => None,
    }
}

/// The own page, if it has room for the next object.
fn own_page_for(actor: &Actor, run: &Run<'_, '_>, next: &Next<'_>, new: New) -> Option<Page>
    requires before { ActorIsBefore run.now actor.now next.now }
    requires new { spec.IsNextObject run.now.setup (now run.now.setup actor.now) actor.now.body.holding new }
    requires fits { new.words ≤ run.now.setup.sizes.page_words }
    requires some { 0 < new.words }
    ensures { MatchOption result (spec.HasNoRoomHere run.now actor.now new)
        (spec.HasPage run.now actor.now actor.now next.now new) }
{
    let own = actor.body.own_page(new.key);
    with_room(own, new.words, run.page_words())
}

/// The page for the next object: the own page if it has room, or else one that is claimed.
fn page_for<L: Ledger>(
    actor: &mut Actor,
    run: &Run<'_, '_>,
    next: &Next<'_>,
    new: New,
    steps: &mut Steps<L>,
) -> Option<Page>
    requires before { ActorIsBefore run.now actor.old next.now }
    requires new { spec.IsNextObject run.now.setup (now run.now.setup actor.old) actor.old.body.holding new }
    requires fits { new.words ≤ run.now.setup.sizes.page_words }
    requires some { 0 < new.words }
    requires pages { 0 < run.now.sizes.pages }
    requires count { actor.old.body.counts.taken + 1 < 2 ^ 64 }
    ensures page { MatchOption result (spec.HasNoPage run.now actor.old actor.new)
        (spec.HasPage run.now actor.old actor.new next.now new) }
    ensures cost { steps.new ≤ steps.old + (run.now.setup.sizes.pages + 2) }
{
    match own_page_for(actor, run, next, new) {
        Some(page) => Some(page),
        None => claim_page(actor, run, next, new, steps),
    }
}

/// Makes the next object, which fits a page.
fn make<L: Ledger>(
    actor: &mut Actor,
    run: &Run<'_, '_>,
    next: &Next<'_>,
    new: New,
    steps: &mut Steps<L>,
) -> Made
    requires before { ActorIsBefore run.now actor.old next.now }
    requires does { (to : _) × (act : _) × (from : List ℕ) × (operation_of next.now.op ≡ Do to act from) }
    requires new { spec.IsNextObject run.now.setup (now run.now.setup actor.old) actor.old.body.holding new }
    requires fits { new.words ≤ run.now.setup.sizes.page_words }
    requires some { 0 < new.words }
    requires pages { 0 < run.now.sizes.pages }
    requires count { (actor.old.body.counts.taken + 1 < 2 ^ 64) × (actor.old.body.counts.objects + 1 < 2 ^ 64) }
    ensures made { spec.ActorMakes run.now actor.old actor.new result }
    ensures cost { steps.new ≤ steps.old + (run.now.setup.sizes.pages + 2 + new.words) }
{
    match page_for(actor, run, next, new, steps) {
        Some(page) => {
            make_on(actor, run, next, new, page, steps);
            Made::Done
        }
        None => Made::Short,
    }
}

// ---- an object that is spread

/// Claims a page more for the next object, which is spread. Returns whether one was free. The body keeps the page at once: the claim
/// shows at the table, so it must not be forgotten if the next one fails.
fn reserve_page<L: Ledger>(
    actor: &mut Actor,
    run: &Run<'_, '_>,
    next: &Next<'_>,
    new: New,
    steps: &mut Steps<L>,
) -> bool
    requires before { ActorIsBefore run.now actor.old next.now }
    requires new { spec.IsNextObject run.now.setup (now run.now.setup actor.old) actor.old.body.holding new }
    requires spread { run.now.setup.sizes.page_words < new.words }
    requires small { spec.IsSmall run.now.setup new.words new.before }
    requires more { length actor.old.body.reserved.pages ≤ data_pages_of run.now.setup.sizes.page_words new.words new.before }
    requires room { 1 ≤ actor.old.body.reserved.room }
    requires pages { 0 < run.now.sizes.pages }
    requires count { actor.old.body.counts.taken + 1 < 2 ^ 64 }
    ensures one { result ≡ true → spec.HasReserved run.now actor.old actor.new next.now new 1 }
    ensures none { result ≡ false → spec.HasNoPage run.now actor.old actor.new }
    ensures cost { steps.new ≤ steps.old + (run.now.setup.sizes.pages + 2) }
{
    let slot = actor.body.page_slot(new.key);
    let claimed = claim_from(
        run.table,
        &mut actor.seat,
        actor.behind,
        &run.sizes,
        slot,
        actor.searches.pages.first_page(run),
        steps,
    );
    actor.behind = 0;
    match claimed {
        Ok(page) => {
            actor.searches.pages.found(page);
            actor.body.reserved_page(run.program, page);
            true
        }
        Err(_) => false,
    }
}

/// Claims all pages of the next object, which is spread, that are not reserved for it yet; if it cannot, returns what came of the
/// instruction. Memory for their numbers is taken first, since a claim cannot be undone.
fn reserve<L: Ledger>(
    actor: &mut Actor,
    run: &Run<'_, '_>,
    next: &Next<'_>,
    new: New,
    steps: &mut Steps<L>,
) -> Result<(), Made>
    requires before { ActorIsBefore run.now actor.old next.now }
    requires new { spec.IsNextObject run.now.setup (now run.now.setup actor.old) actor.old.body.holding new }
    requires spread { run.now.setup.sizes.page_words < new.words }
    requires small { spec.IsSmall run.now.setup new.words new.before }
    requires pages { 0 < run.now.sizes.pages }
    requires count { actor.old.body.counts.taken + 65 < 2 ^ 64 }
    ensures made { MatchResult result
        (λ _. spec.HasAllPages run.now actor.old actor.new next.now new) (spec.ActorMakes run.now actor.old actor.new) }
    ensures cost { steps.new ≤ steps.old
        + (data_pages_of run.now.setup.sizes.page_words new.words new.before + 1) * (run.now.setup.sizes.pages + 2) }
{
    let first = actor.body.reserved().len();
    let all = data_pages(run.page_words(), new.words, new.before) + 1;
    match actor.body.room_to_reserve(all - first) {
        Ok(()) => {}
        Err(_) => return Err(Made::NoMemory),
    }
    for i in first..all {
        let is_free = reserve_page(actor, run, next, new, steps);
        if !is_free {
            if i == first {
                return Err(Made::Short);
            }
            return Err(Made::Partly);
        }
    }
    Ok(())
}

/// Where word `i` of a spread object goes, by a page and a word of it. The numbers of its data pages come after its words.
fn spot(page_words: usize, pages: &[u32], new: New, i: usize) -> (u32, usize)
    requires words { 0 < page_words }
    requires some { 0 < length pages.now }
    requires within { i < new.words → (i - new.before) / page_words + 1 < length pages.now }
    requires fits { new.before + (i - new.words) < 2 ^ 64 }
    ensures page { result.0 ≡ (spot_of page_words new.words new.before pages.now i).page }
    ensures offset { result.1 ≡ (spot_of page_words new.words new.before pages.now i).offset }
{
    if i < new.before {
        return (pages[0], i);
    }
    if i >= new.words {
        return (pages[0], new.before + (i - new.words));
    }
    let cell = i - new.before;
    (pages[cell / page_words + 1], cell % page_words)
}

/// What it first holds.
fn first_value(pages: &[u32], new: New, i: usize) -> u64
    requires within { new.words ≤ i → i - new.words + 1 < length pages.now }
    ensures { result ≡ first_value_of new.words (spec.opens new.place new.value) pages.now i }
{
    if i < new.words {
        return opening(new, i);
    }
    u64::from(pages[i - new.words + 1]) + 1
}

/// Stores this word of the next object, which is spread: one of its words, or the number of a data page.
fn store_apart<L: Ledger>(
    table: &RunTable,
    seat: &mut RunSeat,
    behind: u64,
    new: New,
    word: usize,
    value: u64,
    i: usize,
    steps: &mut Steps<L>,
)
    requires own { IsSeatOf seat.old.table_id table.now.shared.table_id word }
    requires alone { HasOne (setup_of table.now.shared.key) seat.old.me }
    requires settles { Settles (setup_of table.now.shared.key) behind seat.old.me }
    requires rests { (settled (setup_of table.now.shared.key) behind seat.old.me).side ≡ at_rest }
    requires new { let T = setup_of table.now.shared.key in
        (w : IsNewWordApart T (settled T behind seat.old.me) i word value) × (new.words ≤ i → IsIndex w) }
    ensures own { seat.new.table_id ≡ seat.old.table_id }
    ensures leaves { let T = setup_of table.now.shared.key in (kind : Kind)
        × Stored T kind word value (filling_apart T (settled T behind seat.old.me) i) seat.old.me seat.new.me }
    ensures possible { HasPossible (setup_of table.now.shared.key) seat.new.me }
    ensures cost { steps.new ≡ steps.old + 1 }
{
    if i < new.words {
        zero_apart(table, seat, behind, word, value, i, steps);
        return;
    }
    set_index(table, seat, behind, word, value, i, steps);
}

/// Stores all words of the next object, which is spread over these pages, and the numbers of its data pages.
fn store_words_apart<L: Ledger>(
    table: &RunTable,
    sizes: &TableSizes,
    seat: &mut RunSeat,
    behind: u64,
    pages: &[u32],
    new: New,
    steps: &mut Steps<L>,
)
    requires own { seat.old.table_id ≡ table.now.shared.table_id }
    requires layout { HasLayout (setup_of table.now.shared.key) sizes.now table.now.shared.table_id }
    requires alone { HasOne (setup_of table.now.shared.key) seat.old.me }
    requires settles { Settles (setup_of table.now.shared.key) behind seat.old.me }
    requires placed { let T = setup_of table.now.shared.key in spec.IsSpreadOverPages T (settled T behind seat.old.me) pages.now new }
    ensures own { seat.new.table_id ≡ seat.old.table_id }
    ensures grew { let T = setup_of table.now.shared.key in
        (es : List Access) × SeatGrew accesses (first_of T.code) seat.old.me es seat.new.me }
    ensures stored { let T = setup_of table.now.shared.key in (placed : spec.IsSpreadOverPages T (settled T behind seat.old.me) pages.now new)
        → mine T seat.new.me ≡ with_new_object_apart T (settled T behind seat.old.me) placed.object.object }
    ensures possible { HasPossible (setup_of table.now.shared.key) seat.new.me }
    ensures cost { let T = setup_of table.now.shared.key in
        steps.new ≡ steps.old + (new.words + data_pages_of T.sizes.page_words new.words new.before) }
{
    let mut left = behind;
    let data_pages = pages.len() - 1;
    for i in 0..new.words + data_pages {
        let place = spot(sizes.page_words, pages, new, i);
        let word = cell_at(sizes, place.0 as usize, place.1);
        let value = first_value(pages, new, i);
        store_apart(table, seat, left, new, word, value, i, steps);
        // The first access takes the local steps before it.
        left = 0;
    }
}

/// Makes the next object, which is spread, in the pages that are reserved for it.
fn make_in_reserved<L: Ledger>(
    actor: &mut Actor,
    run: &Run<'_, '_>,
    next: &Next<'_>,
    new: New,
    steps: &mut Steps<L>,
)
    requires before { ActorIsBefore run.now actor.old next.now }
    requires does { (to : _) × (act : _) × (from : List ℕ) × (operation_of next.now.op ≡ Do to act from) }
    requires count { actor.old.body.counts.objects + 1 < 2 ^ 64 }
    requires new { spec.IsNextObject run.now.setup (now run.now.setup actor.old) actor.old.body.holding new }
    requires spread { run.now.setup.sizes.page_words < new.words }
    requires small { spec.IsSmall run.now.setup new.words new.before }
    requires all { length actor.old.body.reserved.pages ≡ suc (data_pages_of run.now.setup.sizes.page_words new.words new.before) }
    ensures acted { ActorActed run.now actor.old actor.new 1 [] [] }
    ensures cost { steps.new ≡ steps.old + (new.words + data_pages_of run.now.setup.sizes.page_words new.words new.before) }
{
    store_words_apart(
        run.table,
        &run.sizes,
        &mut actor.seat,
        actor.behind,
        actor.body.reserved(),
        new,
        steps,
    );
    actor.behind = 0;
    let lead = actor.body.reserved()[0];
    let address = lead as usize * run.sizes.page_words;
    actor.body.made_apart(run.program, next, address as u64 + 1);
}

/// Makes the next object, which is spread.
fn make_apart<L: Ledger>(
    actor: &mut Actor,
    run: &Run<'_, '_>,
    next: &Next<'_>,
    new: New,
    steps: &mut Steps<L>,
) -> Made
    requires before { ActorIsBefore run.now actor.old next.now }
    requires does { (to : _) × (act : _) × (from : List ℕ) × (operation_of next.now.op ≡ Do to act from) }
    requires new { spec.IsNextObject run.now.setup (now run.now.setup actor.old) actor.old.body.holding new }
    requires spread { run.now.setup.sizes.page_words < new.words }
    requires small { spec.IsSmall run.now.setup new.words new.before }
    requires pages { 0 < run.now.sizes.pages }
    requires count { (actor.old.body.counts.taken + 65 < 2 ^ 64) × (actor.old.body.counts.objects + 1 < 2 ^ 64) }
    ensures made { spec.ActorMakes run.now actor.old actor.new result }
    ensures cost { steps.new ≤ steps.old + spec.most_steps run.now.setup new.words new.before }
{
    match reserve(actor, run, next, new, steps) {
        Ok(()) => {
            make_in_reserved(actor, run, next, new, steps);
            Made::Done
        }
        Err(made) => made,
    }
}

// ---- any object

/// The next object, of this many words, for variable `to`, unless it has too many data pages; `before` words precede its cells. The
/// word at `place` first holds `value`, and all others hold 0.
fn object_of(
    actor: &Actor,
    run: &Run<'_, '_>,
    next: &Next<'_>,
    to: u32,
    words: usize,
    before: usize,
    place: usize,
    value: u64,
) -> Option<New>
    requires before { ActorIsBefore run.now actor.now next.now }
    requires wants { spec.Wants run.now.setup (number_of actor.now.seat.me) (now run.now.setup actor.now) next.now.function to words before place value }
    ensures object { MatchOption result
        (most_data_pages_of run.now.setup.sizes.page_words < data_pages_of run.now.setup.sizes.page_words words before) (spec.CanMake run.now actor.now) }
    ensures words { IfSome result (λ new. (new.words ≡ words) × (new.before ≡ before)) }
{
    let page_words = run.page_words();
    if data_pages(page_words, words, before) > most_data_pages(page_words) {
        return None;
    }
    // The record is possible, so the class of the variable has a region at this instruction.
    let Some(key) = actor.body.region_of(next, to) else {
        unreachable!();
    };
    Some(New {
        key,
        words,
        before,
        place,
        value,
    })
}

/// Makes the next object, which is not too large.
fn make_new<L: Ledger>(
    actor: &mut Actor,
    run: &Run<'_, '_>,
    next: &Next<'_>,
    new: New,
    steps: &mut Steps<L>,
) -> Made
    requires before { ActorIsBefore run.now actor.old next.now }
    requires does { (to : _) × (act : _) × (from : List ℕ) × (operation_of next.now.op ≡ Do to act from) }
    requires can { spec.CanMake run.now actor.old new }
    requires pages { 0 < run.now.sizes.pages }
    requires count { (actor.old.body.counts.taken + 65 < 2 ^ 64) × (actor.old.body.counts.objects + 1 < 2 ^ 64) }
    ensures made { spec.ActorMakes run.now actor.old actor.new result }
    ensures cost { steps.new ≤ steps.old + spec.most_steps run.now.setup new.words new.before }
{
    let page_words = run.page_words();
    if new.words <= page_words {
        return make(actor, run, next, new, steps);
    }
    make_apart(actor, run, next, new, steps)
}

/// Makes the next object, of this many words, for variable `to`; `before` words precede its cells. The word at `place` first holds
/// `value`, and all others hold 0.
fn object<L: Ledger>(
    actor: &mut Actor,
    run: &Run<'_, '_>,
    next: &Next<'_>,
    to: u32,
    words: usize,
    before: usize,
    place: usize,
    value: u64,
    steps: &mut Steps<L>,
) -> Made
    requires before { ActorIsBefore run.now actor.old next.now }
    requires does { (to : _) × (act : _) × (from : List ℕ) × (operation_of next.now.op ≡ Do to act from) }
    requires wants { spec.Wants run.now.setup (number_of actor.old.seat.me) (now run.now.setup actor.old) next.now.function to words before place value }
    requires pages { 0 < run.now.sizes.pages }
    requires count { (actor.old.body.counts.taken + 65 < 2 ^ 64) × (actor.old.body.counts.objects + 1 < 2 ^ 64) }
    ensures made { spec.ActorMakes run.now actor.old actor.new result }
    ensures cost { steps.new ≤ steps.old + spec.most_steps run.now.setup words before }
{
    match object_of(actor, run, next, to, words, before, place, value) {
        Some(new) => make_new(actor, run, next, new, steps),
        None => Made::TooLarge,
    }
}

/// How many words a struct of this number has: one for each field, and at least one.
fn struct_words(run: &Run<'_, '_>, number: usize) -> usize
    ensures { result ≡ all_struct_words (slice_get run.now.setup.code.structs number) }
{
    match run.program.code().tac().structs().get(number) {
        Some(made) => made.fields.items().len().max(1),
        // Checked code has no struct of another number.
        None => 1,
    }
}

/// Makes a struct of this number, to which variable `to` points. Its fields are all 0, the zero value of each type, so no word is
/// special.
pub fn new_struct<L: Ledger>(
    actor: &mut Actor,
    run: &Run<'_, '_>,
    next: &Next<'_>,
    to: u32,
    number: usize,
    steps: &mut Steps<L>,
) -> Made
    requires before { ActorIsBefore run.now actor.old next.now }
    requires is { operation_of next.now.op ≡ Do (Some to) (action.New number) [] }
    requires pages { 0 < run.now.sizes.pages }
    requires count { (actor.old.body.counts.taken + 65 < 2 ^ 64) × (actor.old.body.counts.objects + 1 < 2 ^ 64) }
    ensures made { spec.ActorMakes run.now actor.old actor.new result }
    ensures cost { steps.new ≤ steps.old + spec.most_steps run.now.setup (all_struct_words (slice_get run.now.setup.code.structs number)) 0 }
{
    let words = struct_words(run, number);
    object(actor, run, next, to, words, 0, 0, 0, steps)
}

/// The next instruction makes a struct of this number, to which variable `to` points. Makes it if the own page has room, and
/// returns whether it has. Otherwise nothing has changed, and the turn makes it with a page of its own or reports why not.
pub(crate) fn new_at_hand(
    actor: &mut Actor,
    run: &Run<'_, '_>,
    next: &Next<'_>,
    to: u32,
    number: usize,
) -> bool
    requires before { ActorIsBefore run.now actor.old next.now }
    requires is { (from : List ℕ) × (operation_of next.now.op ≡ Do (Some to) (action.New number) from) }
    ensures acted { result ≡ true → ActorActed run.now actor.old actor.new 1 [] [] }
    ensures beyond { result ≡ true → IsBeyond actor.old actor.new }
    ensures rests { actor.new.body.side ≡ AtRest }
    ensures same { result ≡ false → actor.new ≡ actor.old }
{
    if actor.body.counts().objects == u64::MAX {
        return false;
    }
    let words = struct_words(run, number);
    // A struct that is too large ends the run, which is the turn's to report.
    let Some(new) = object_of(actor, run, next, to, words, 0, 0, 0) else {
        return false;
    };
    let page_words = run.page_words();
    if words > page_words {
        return false;
    }
    match own_page_for(actor, run, next, new) {
        Some(page) => {
            make_uncounted::<Brand>(actor, run, next, new, page, Blank::new(1));
            true
        }
        None => false,
    }
}

/// Makes a slice for variable `to`, with as many elements as variable `size` says. Its first word is its length.
pub fn new_slice<L: Ledger>(
    actor: &mut Actor,
    run: &Run<'_, '_>,
    next: &Next<'_>,
    to: u32,
    size: u32,
    steps: &mut Steps<L>,
) -> Made
    requires before { ActorIsBefore run.now actor.old next.now }
    requires is { operation_of next.now.op ≡ Do (Some to) action.Slice (size ∷ []) }
    requires pages { 0 < run.now.sizes.pages }
    requires count { (actor.old.body.counts.taken + 65 < 2 ^ 64) × (actor.old.body.counts.objects + 1 < 2 ^ 64) }
    ensures made { spec.ActorMakes run.now actor.old actor.new result }
    ensures cost { steps.new ≤ steps.old + spec.most_steps run.now.setup (newest_word (frames_of_body actor.old.body) size + 1) 1 }
{
    let elements = actor.body.word(size);
    if elements >= FIRST_NEGATIVE {
        return Made::Trap(Trap::BadSize);
    }
    object(
        actor,
        run,
        next,
        to,
        elements as usize + 1,
        1,
        0,
        elements,
        steps,
    )
}

/// How many words a channel has: its control, its capacity, and at least one cell. Without a buffer the cell holds the offer.
fn channel_words(capacity: u64) -> usize
    requires { capacity < 2 ^ 63 }
    ensures { result ≡ channel_words_of capacity }
{
    capacity.max(1) as usize + 2
}

/// Makes a channel for variable `to`, with a buffer of as many values as variable `size` says.
pub fn new_channel<L: Ledger>(
    actor: &mut Actor,
    run: &Run<'_, '_>,
    next: &Next<'_>,
    to: u32,
    size: u32,
    steps: &mut Steps<L>,
) -> Made
    requires before { ActorIsBefore run.now actor.old next.now }
    requires is { operation_of next.now.op ≡ Do (Some to) action.Chan (size ∷ []) }
    requires pages { 0 < run.now.sizes.pages }
    requires small { run.now.setup.sizes.page_words ≤ 16777215 }
    requires count { (actor.old.body.counts.taken + 65 < 2 ^ 64) × (actor.old.body.counts.objects + 1 < 2 ^ 64) }
    ensures made { spec.ActorMakes run.now actor.old actor.new result }
    ensures cost { steps.new ≤ steps.old + spec.most_steps run.now.setup (channel_words_of (newest_word (frames_of_body actor.old.body) size)) 2 }
{
    let capacity = actor.body.word(size);
    if capacity >= FIRST_NEGATIVE {
        return Made::Trap(Trap::BadSize);
    }
    object(
        actor,
        run,
        next,
        to,
        channel_words(capacity),
        2,
        1,
        capacity,
        steps,
    )
}

/// New objects that meet their definitions, and some that do not.
pub fn examples()
    ensures { PlacementExamples }
{}
