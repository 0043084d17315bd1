//! Goroutines at the table: a seat, a body, and where the next searches begin. The seat and the body change together, in the acts
//! of this crate alone, so that the body shows the record of the seat between any two of them.
ghost use Rattle.std.specs.Prelude.{◌≤◌};
ghost use Rattle.rgo_acts.specs.ActorExamples.{ActorExamples};

use crate::runs::Run;
use rgo_body::Body;
use rgo_core::table::RunSeat;
use rgo_core_steps::{counts, pages};
use rgo_holding::Page;

/// A goroutine with its seat at the table.
#[derive(Drop)]
pub struct Actor {
    pub seat: RunSeat,
    /// How many local steps it has made since its last access. Its record takes them with its next one, so an act sets this to 0
    /// after its first access, and no other code may.
    pub behind: u64,
    pub searches: Searches,
    pub body: Body,
}

/// Where a goroutine searches for free pages and for free slots. No clause speaks of these places: a search goes once around
/// wherever it begins.
#[derive(Clone, Copy)]
pub struct Searches {
    pub(crate) pages: Search,
    pub(crate) slots: Search,
}

impl Searches {
    /// Those of a new goroutine with this number.
    pub fn new(number: u64, run: &Run<'_, '_>) -> Searches {
        Searches {
            pages: Search::from_place(place_of(number, run.sizes.pages)),
            slots: Search::from_place(place_of(number, run.sizes.slots)),
        }
    }

    /// A region was removed whose slot and pages this goroutine has returned, among them the page that it filled there, if it did.
    pub(crate) fn freed(&mut self, slot: u32, own: Option<Page>) {
        self.slots.near = slot;
        if let Some(own) = own {
            self.pages.near = own.page;
        }
    }
}

/// Where the next search for one of several places begins.
///
/// A goroutine that makes and removes regions in turn takes again what it gave back last: the cache of its processor has that
/// still. If that is in use, it searches after the last place that it found: it has often taken the places before that itself, and
/// would look at all of them again.
#[derive(Clone, Copy)]
pub(crate) struct Search {
    /// The place that was returned last, or the one after what was found near it.
    near: u32,
    /// The place after the last one that was found elsewhere.
    next: u32,
}

/// How many places are near.
const FEW: u32 = 8;

/// Whether a place is one of the few from `first` on, whose words share a cache line or two.
fn lies_near(place: u32, first: u32) -> bool {
    place.wrapping_sub(first) < FEW
}

/// The end of the few places from `first` on, of `count` places.
fn end_near(first: usize, count: usize) -> usize
    ensures { result ≤ count }
{
    let end = first.saturating_add(FEW as usize);
    if end < count { end } else { count }
}

impl Search {
    fn from_place(place: u32) -> Search {
        Search {
            near: place,
            next: place,
        }
    }

    /// A search has found this place. The next one begins after it, as the place itself is in use now.
    pub(crate) fn found(&mut self, place: u32) {
        if !lies_near(place, self.near) || lies_near(place, self.next) {
            self.next = after(place);
        }
        self.near = after(place);
    }

    /// Where a search for a page begins: at one nearby that looks free, if one does.
    pub(crate) fn first_page(self, run: &Run<'_, '_>) -> u32 {
        let first = self.near as usize;
        for page in first..end_near(first, run.sizes.pages) {
            if pages::looks_free(run.table, &run.sizes, page) {
                return u32::try_from(page).unwrap_or(self.next);
            }
        }
        self.next
    }

    /// Where a search for a slot begins, in the same way.
    pub(crate) fn first_slot(self, run: &Run<'_, '_>) -> u32 {
        let first = self.near as usize;
        for slot in first..end_near(first, run.sizes.slots) {
            if counts::looks_free(run.table, &run.sizes, slot) {
                return u32::try_from(slot).unwrap_or(self.next);
            }
        }
        self.next
    }
}

/// The fractional part of the golden ratio, in units of 2^-64.
const GOLDEN: u64 = 0x9E37_79B9_7F4A_7C15;

/// Where a goroutine begins to search among `count` places. Multiples of the golden ratio lie far from each other, however many
/// there are, so that goroutines begin in cache lines of their own.
fn place_of(number: u64, count: usize) -> u32 {
    let share = number.wrapping_mul(GOLDEN) >> 32;
    u32::try_from(share.wrapping_mul(count as u64) >> 32).unwrap_or(0)
}

/// The place after this one. After the last one there is none, and a search begins at the first one then; so no bound is asked for.
fn after(place: u32) -> u32 {
    place.wrapping_add(1)
}

/// Actors and runs that meet their definitions, and some that do not.
pub fn examples()
    ensures { ActorExamples }
{}
