//! The smallest table under the rule: goroutines add to one total, and each of them may start one more. It shows what a crate
//! above has to provide: an explanation, a law for each kind of access, and a call for each kind.
ghost use Rattle.std.specs.Prelude.{◌≡◌, ◌≤◌, ◌<◌, ◌+◌, ◌%◌, ◌^◌, ℕ, suc, false, List, [], ◌∷◌, Some, None, IfOk, length};
ghost use Rattle.std.specs.Mem.Slots.{IsFull, slots_items, slots_len};
ghost use Rattle.rgo_core_rule.specs.Counting.{AdderEvent, CountingExplains, CountingExamples, RuleExamples, MoveExamples, added, idled, drew, new_adder, DidStart};
ghost use Rattle.rgo_core_rule.specs.Rule.{Closing};
ghost use Rattle.rgo_core_rule.specs.Steps.{Move, MoveEither, Still, Told};
ghost use Rattle.rgo_core_rule.specs.Views.{IsAlone, number_of, record_of, view};
ghost use Rattle.rgo_core_rule.specs.declared.counting.Adder as adders;
ghost use Rattle.rgo_core_rule.specs.declared.accesses.Kind.TheVariants as kind;

use crate::rule::{Cells, Chair, Explanation};
use crate::seats;
use crate::steps::{fetch_add, fetch_add_start};
use atomic_table::Closed;
use std::alloc::{AllocError, Global};
use std::marker::Brand;

/// What is known of a goroutine: how often it has added and idled, how many accesses it has made, and whether it has drawn a
/// number for another goroutine.
pub struct Adder {
    pub added: u64,
    pub idled: u64,
    pub accesses: u64,
    pub has_drawn: bool,
}

/// At most `limit` goroutines start.
#[derive(Drop)]
pub struct Plan {
    pub limit: u64,
}

/// Word 0 is the total. Word 1 counts the numbers of goroutines that were drawn: it opens at 1, since the first goroutine has 0.
pub struct Counting;

impl Explanation<Adder, Plan> for Counting {
    ghost Event = { AdderEvent };

    ghost accesses = { λ c. c.accesses };

    ghost explains = { λ plan. CountingExplains plan.limit };

    ghost opening = { λ plan. 0 ∷ 1 ∷ [] };

    ghost first = { λ plan. new_adder };
}

pub type Total = Cells<Adder, Plan, Counting>;

pub type AdderSeat = Chair<Adder>;

/// Histories, views, what is explained and what is not, on small tables.
pub fn examples()
    ensures counting { CountingExamples }
    ensures rule { RuleExamples }
    ensures moves { MoveExamples }
{}

/// The law of an addition: it is one event of the run. It is modulo 2^64, since a word wraps around.
pub fn add_law()
    ensures { (limit g : ℕ) (c : adders.Adder)
        → Move (λ (c : adders.Adder). c.accesses) (CountingExplains limit) g c 0 (λ n. (n + 1) % 2 ^ 64) (λ n d. d ≡ added c) }
{}

/// The law of a draw: below the limit it starts a goroutine. A record has one bit for draws, so each goroutine draws at most once.
pub fn start_law()
    ensures { (limit g : ℕ) (c : adders.Adder) → c.has_drawn ≡ false
        → MoveEither (λ (c : adders.Adder). c.accesses) (CountingExplains limit) g c 1 (λ n. (n + 1) % 2 ^ 64)
        (λ n d. (limit ≤ n) × (d ≡ drew c)) (λ n d child. (n < limit) × (d ≡ drew c) × (child ≡ new_adder)) }
{}

/// A goroutine may idle without an access: this changes its record and the run, but no word, so no other seat can see it.
pub fn idle_law()
    ensures { (limit g : ℕ) (c : adders.Adder)
        → Still (λ (c : adders.Adder). c.accesses) (CountingExplains limit) g c (idled c) }
{}

/// A table with the total 0, and the seat of its first goroutine.
pub fn open(alloc: Global, plan: &Plan) -> Result<(Total, AdderSeat), AllocError>
    requires { (0 < plan.now.limit) × (plan.now.limit < 2 ^ 63) }
    ensures { IfOk result (λ t. (t.0.shared.table_id.words ≡ 2) × (t.0.shared.table_id.slots ≡ 0)
        × (t.0.shared.key ≡ plan.now) × (t.1.table_id ≡ t.0.shared.table_id)
        × (t.1.me ≡ (view ((0, new_adder) ∷ []) [], []))) }
{
    seats::open::<Adder, Plan, Counting>(alloc, &[0, 1], plan)
}

/// Adds one to the total, and returns what it was at that moment. Others may have added since.
pub fn add(table: &Total, seat: &mut AdderSeat) -> u64
    requires own { (seat.old.table_id ≡ table.now.shared.table_id) × (table.now.shared.table_id.words ≡ 2) }
    requires alone { IsAlone new_adder seat.old.me }
    ensures own { (seat.new.table_id ≡ seat.old.table_id) × (seat.new.id ≡ seat.old.id) }
    ensures alone { IsAlone new_adder seat.new.me }
    ensures told { Told (λ (c : adders.Adder). c.accesses) (number_of seat.old.me) kind.DrawTicket 0
        (λ n. (n + 1) % 2 ^ 64) (λ n d. d ≡ added (record_of new_adder seat.old.me)) seat.old.me result seat.new.me }
{
    fetch_add::<Adder, Plan, Counting, Brand, _>(table, seat, 0, 1, &())
}

/// Starts a goroutine, and returns its number. Its record is then on the same seat as that of the goroutine that started it.
/// `None` at the limit: the number drawn is lost. It cannot be returned, since another goroutine may have drawn the next one.
pub fn start(table: &Total, seat: &mut AdderSeat, limit: u64) -> Option<u64>
    requires own { (seat.old.table_id ≡ table.now.shared.table_id) × (table.now.shared.table_id.words ≡ 2) }
    requires limit { limit ≡ table.now.shared.key.limit }
    requires alone { IsAlone new_adder seat.old.me }
    requires first { (record_of new_adder seat.old.me).has_drawn ≡ false }
    ensures own { (seat.new.table_id ≡ seat.old.table_id) × (seat.new.id ≡ seat.old.id) }
    ensures started { DidStart limit seat.old.me result seat.new.me }
{
    let found = fetch_add_start::<Adder, Plan, Counting, Brand, _>(table, seat, 1, 1, &limit);
    if found < limit { Some(found) } else { None }
}

/// The last words, and the run that explains them. The table is taken by value, so no thread can access it any more.
pub fn close(table: Total, seat: AdderSeat) -> Closed<(), Global>
    requires { seat.table_id ≡ table.shared.table_id }
    ensures counts { (slots_len result.words ≡ table.shared.table_id.words)
        × (slots_len result.slots ≡ table.shared.table_id.slots) }
    ensures full { IsFull result.words }
    ensures end { Closing (λ (c : adders.Adder). c.accesses) (CountingExplains table.shared.key.limit) (0 ∷ 1 ∷ [])
        (slots_items result.words) seat.me.0 }
{
    seats::close(table, seat)
}
