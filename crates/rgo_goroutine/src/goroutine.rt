//! Goroutines between turns: where they begin and end, and what their driver takes from them. Only the driver calls these
//! functions, while the goroutine has no turn.
ghost use mathlib.Core.Logic.{◌↔◌};
ghost use Rattle.std.specs.Prelude.{◌≡◌, ◌+◌, ◌≤◌, ◌<◌, ◌-◌, ◌++◌, ◌∷◌, [], ℕ, List, IfErr, IfOk, MatchResult, None, length, true, vec_capacity, vec_len};
ghost use Rattle.std.specs.List.{All};
ghost use Rattle.rgo_core.specs.Core.{IsPossible};
ghost use Rattle.rgo_core.specs.runs.Opening.{first_of};
ghost use Rattle.rgo_core.specs.Memory.Words.{clock_at};
ghost use Rattle.rgo_core.specs.Rule.Passes.{after_pass};
ghost use Rattle.rgo_core.specs.Rule.Views.{longer, view};
ghost use Rattle.rgo_core_steps.specs.Seats.{IsSeatOf};
ghost use Rattle.rgo_acts.specs.Runs as runs;
ghost use Rattle.rgo_goroutine.specs.Goroutines.{AreChildren, IsOf, all_seen, printed_byte_count, record_of_goroutine, rows_of_children, valid};
ghost use Rattle.rgo_goroutine.specs.Passing.{Adopts, AreBorn, Gathers, LoadsClock};
ghost use Rattle.rgo_goroutine.specs.declared.goroutine.Goroutine as spec;

use rgo_acts::actors::{Actor, Searches};
use rgo_acts::body::{Body, Counts};
use rgo_acts::prints::Print;
use rgo_acts::runs::Run;
use rgo_core::records::Record;
use rgo_core::rule::seats::part;
use rgo_core::table::{ByRuns, Plan, RunSeat};
use rgo_core_steps::clock::{self, Mark};
use rgo_core_steps::seats;
use std::alloc::{AllocError, Global};

/// A goroutine of a run.
#[derive(Drop)]
pub struct Goroutine {
    pub(crate) actor: Actor,
    /// Its number; that of `main` is 0.
    pub(crate) number: u64,
    /// What it has printed and the driver has not gathered, the oldest first.
    pub(crate) prints: Vec<Print>,
    /// The goroutines that it has started and the driver has not adopted, the oldest first.
    pub(crate) children: Vec<Child>,
    /// How the run ended, if this goroutine ended it: its mark was the first. At most one goroutine of a run has this.
    pub(crate) first: Option<Mark>,
}

/// A turn is over once its prints have this many bytes, so that a round never holds much more of each goroutine.
pub(crate) const MOST_PRINTED: usize = 65_536;

/// A goroutine that was started, with its number.
#[derive(Drop)]
pub(crate) struct Child {
    pub(crate) actor: Actor,
    pub(crate) number: u64,
}

/// Whether these prints have as many bytes as end a turn. It stops at the first print that makes them enough, so it never adds up more
/// than a number can hold.
pub(crate) fn hold_much(prints: &[Print]) -> bool
    ensures { (result ≡ true) ↔ (65536 ≤ printed_byte_count prints.now) }
{
    let mut left = MOST_PRINTED;
    let mut rest = prints;
    while let Some((first, others)) = rest.split_first() {
        let bytes = first.bytes.len();
        if bytes >= left {
            return true;
        }
        left -= bytes;
        rest = others;
    }
    false
}

/// Moves the prints that are not void to the end of another list. Void ones were drawn after the end of the run, so nobody waits for
/// their tickets.
fn move_valid(prints: &mut Vec<Print>, into: &mut Vec<Print>)
    requires room { vec_len prints.old ≤ vec_capacity into.old - vec_len into.old }
    ensures moved { into.new.items ≡ into.old.items ++ valid prints.old.items }
    ensures none { prints.new.items ≡ [] }
{
    prints.reverse();
    while let Some(print) = prints.pop() {
        if !print.is_void {
            into.push_reserved(print);
        }
    }
}

/// Makes goroutines of children, at the end of a list. The list has room already, so none can be lost in the middle.
fn raise(alloc: Global, run: &Run<'_, '_>, children: &mut Vec<Child>, into: &mut Vec<Goroutine>)
    requires room { vec_len children.old ≤ vec_capacity into.old - vec_len into.old }
    requires stand { AreChildren run.now children.old.items }
    ensures born { (more : List spec.Goroutine) × (into.new.items ≡ into.old.items ++ more)
        × AreBorn run.now children.old.items more }
    ensures none { children.new.items ≡ [] }
{
    children.reverse();
    while let Some(child) = children.pop() {
        into.push_reserved(Goroutine::new(alloc, child.actor, child.number));
    }
}

/// The records of goroutines that were started come to the seat of their driver, the oldest first. They never had a turn, but their
/// records are needed: the driver closes the table with the records of all.
fn hand_over(run: &Run<'_, '_>, started: &mut Vec<Child>, seat: &mut RunSeat)
    requires stand { AreChildren run.now started.old.items }
    requires own { IsSeatOf seat.old.table_id run.now.table clock_at }
    ensures own { (seat.new.table_id ≡ seat.old.table_id) × (seat.new.id ≡ seat.old.id) }
    ensures records { seat.new.me.0.records ≡ seat.old.me.0.records ++ rows_of_children run.now.setup started.old.items }
    ensures seen { seat.new.me.0.seen ≡ after_pass seat.old.me.0.seen (all_seen started.old.items) }
    ensures slots { seat.new.me.1 ≡ seat.old.me.1 }
{
    started.reverse();
    while let Some(child) = started.pop() {
        seats::join(run.table(), seat, child.actor.seat);
    }
}

impl Goroutine {
    /// A goroutine that has done nothing yet.
    fn new(alloc: Global, actor: Actor, number: u64) -> Goroutine
        ensures actor { result.actor ≡ actor }
        ensures number { result.number ≡ number }
        ensures prints { result.prints.items ≡ [] }
        ensures children { result.children.items ≡ [] }
        ensures first { result.first ≡ None }
    {
        Goroutine {
            actor,
            number,
            prints: Vec::new(alloc),
            children: Vec::new(alloc),
            first: None,
        }
    }

    /// The goroutine of `main` at a new table. The record of `main` goes from the table's first seat to a seat of the goroutine.
    ///
    /// # Errors
    ///
    /// On allocation failure. Then the seat keeps it.
    pub fn main_goroutine(
        alloc: Global,
        run: &Run<'_, '_>,
        seat: &mut RunSeat,
    ) -> Result<Goroutine, AllocError>
        requires own { IsSeatOf seat.old.table_id run.now.table clock_at }
        requires first { seat.old.me ≡ (view ((0, first_of run.now.setup.code) ∷ []) [], []) }
        requires possible { IsPossible run.now.setup 0 (first_of run.now.setup.code) }
        ensures own { (seat.new.table_id ≡ seat.old.table_id) × (seat.new.id ≡ seat.old.id) }
        ensures seat { MatchResult result (λ _. seat.new.me ≡ (view [] [], [])) (λ _. seat.new.me ≡ seat.old.me) }
        ensures main { IfOk result (λ go. IsOf run.now go × (go.number ≡ 0) × (go.actor.seat.me ≡ seat.old.me)) }
        ensures new { IfOk result (λ go. (go.prints.items ≡ []) × (go.children.items ≡ [])) }
    {
        run.fits();
        match Body::new(alloc, run.program(), run.slots() as u32) {
            Ok(body) => {
                let seat = part::<Record, Plan, ByRuns>(run.table(), seat, 0);
                let searches = Searches::new(0, run);
                Ok(Goroutine::new(
                    alloc,
                    Actor {
                        seat,
                        behind: 0,
                        searches,
                        body,
                    },
                    0,
                ))
            }
            Err(error) => Err(error),
        }
    }

    /// Its number. That of `main` is 0.
    pub fn number(&self) -> u64
        ensures { result ≡ self.now.number }
    {
        self.number
    }

    /// How many of its prints were not gathered, void ones among them.
    pub fn new_prints(&self) -> usize
        ensures { result ≡ length self.now.prints.items }
    {
        self.prints.len()
    }

    /// How many goroutines it has started that were not adopted.
    pub fn new_children(&self) -> usize
        ensures { result ≡ length self.now.children.items }
    {
        self.children.len()
    }

    /// How the run ended, if this goroutine ended it.
    pub fn first(&self) -> Option<Mark>
        ensures { result ≡ self.now.first }
    {
        self.first
    }

    /// What it has made and done. Read between turns alone, so no two workers count in it at once.
    pub fn tally(&self) -> &Counts
        ensures { (r : runs.Run) → IsOf r self.now → result.now ≡ (record_of_goroutine r.setup self.now).clock.share }
    {
        self.actor.body.counts()
    }

    /// The goroutines that it has started since the last call come to the list's end, in the order in which they were started.
    /// Returns how many.
    ///
    /// # Errors
    ///
    /// On allocation failure. Then none has moved.
    pub fn adopt(
        &mut self,
        alloc: Global,
        run: &Run<'_, '_>,
        into: &mut Vec<Goroutine>,
    ) -> Result<usize, AllocError>
        requires of { IsOf run.now self.old }
        ensures of { IsOf run.now self.new }
        ensures adopts { MatchResult result (Adopts run.now self.old self.new into.old.items into.new.items)
            (λ _. (self.new ≡ self.old) × (into.new.items ≡ into.old.items)) }
        ensures all { All (IsOf run.now) into.old.items → All (IsOf run.now) into.new.items }
    {
        let count = self.new_children();
        match into.reserve(count) {
            Ok(()) => {
                raise(alloc, run, &mut self.children, into);
                Ok(count)
            }
            Err(error) => Err(error),
        }
    }

    /// What it has printed since the last call moves to the end of the list, in its order, except prints that are void. Returns how
    /// many prints came.
    ///
    /// # Errors
    ///
    /// On allocation failure. Then nothing has moved.
    pub fn gather(&mut self, into: &mut Vec<Print>) -> Result<usize, AllocError>
        ensures of { (r : runs.Run) → IsOf r self.old → IsOf r self.new }
        ensures gathers { MatchResult result (Gathers self.old self.new into.old.items into.new.items)
            (λ _. (self.new ≡ self.old) × (into.new.items ≡ into.old.items)) }
    {
        match into.reserve(self.prints.len()) {
            Ok(()) => {
                let before = into.len();
                move_valid(&mut self.prints, into);
                Ok(into.len() - before)
            }
            Err(error) => Err(error),
        }
    }

    /// Whether the run has ended: `true` stays true, `false` was so at the load. The seat has then seen all accesses of its
    /// goroutine.
    pub fn look(&mut self, run: &Run<'_, '_>) -> bool
        requires of { IsOf run.now self.old }
        ensures of { IsOf run.now self.new }
        ensures looks { LoadsClock run.now self.old self.new result }
    {
        run.fits();
        clock::look(run.table(), &mut self.actor.seat, 0)
    }

    /// Its record moves to the seat of its driver. The caller has gathered what it had printed and adopted what it had started.
    pub fn retire(self, run: &Run<'_, '_>, seat: &mut RunSeat)
        requires of { IsOf run.now self }
        requires own { IsSeatOf seat.old.table_id run.now.table clock_at }
        requires gathered { self.prints.items ≡ [] }
        requires adopted { self.children.items ≡ [] }
        ensures own { (seat.new.table_id ≡ seat.old.table_id) × (seat.new.id ≡ seat.old.id) }
        ensures records { seat.new.me.0.records ≡ seat.old.me.0.records ++ (self.number, record_of_goroutine run.now.setup self) ∷ [] }
        ensures seen { seat.new.me.0.seen ≡ longer seat.old.me.0.seen self.actor.seat.me.0.seen }
        ensures slots { seat.new.me.1 ≡ seat.old.me.1 }
    {
        seats::join(run.table(), seat, self.actor.seat);
    }

    /// Its record moves to the seat of its driver, and after it the records of the goroutines that it had started and that were not
    /// adopted. Prints that were not gathered are lost, but for what its record says of them. It takes no memory, so a driver can
    /// close the table even if `gather` or `adopt` was refused memory.
    pub fn give_up(self, run: &Run<'_, '_>, seat: &mut RunSeat)
        requires of { IsOf run.now self }
        requires own { IsSeatOf seat.old.table_id run.now.table clock_at }
        ensures own { (seat.new.table_id ≡ seat.old.table_id) × (seat.new.id ≡ seat.old.id) }
        ensures records { seat.new.me.0.records ≡ seat.old.me.0.records
            ++ (self.number, record_of_goroutine run.now.setup self) ∷ rows_of_children run.now.setup self.children.items }
        ensures seen { seat.new.me.0.seen ≡ after_pass (longer seat.old.me.0.seen self.actor.seat.me.0.seen)
            (all_seen self.children.items) }
        ensures slots { seat.new.me.1 ≡ seat.old.me.1 }
    {
        let mut started = self.children;
        seats::join(run.table(), seat, self.actor.seat);
        hand_over(run, &mut started, seat);
    }

    /// It and its driver have then seen what either had seen. In a pass the driver learns by this what each goroutine has found.
    pub fn meet(&mut self, run: &Run<'_, '_>, seat: &mut RunSeat)
        requires of { IsOf run.now self.old }
        requires own { IsSeatOf seat.old.table_id run.now.table clock_at }
        ensures of { IsOf run.now self.new }
        ensures own { seat.new.table_id ≡ seat.old.table_id }
        ensures seat { seat.new.me ≡ (
          view seat.old.me.0.records (longer seat.old.me.0.seen self.old.actor.seat.me.0.seen),
          seat.old.me.1,
        ) }
        ensures seen { self.new.actor.seat.me.0.seen ≡ longer seat.old.me.0.seen self.old.actor.seat.me.0.seen }
        ensures rest { self.new ≡ record self.old { actor = record self.old.actor { seat = self.new.actor.seat } } }
        ensures record { record_of_goroutine run.now.setup self.new ≡ record_of_goroutine run.now.setup self.old }
    {
        seats::meet(run.table(), seat, &mut self.actor.seat);
    }
}
