//! Accesses by a goroutine: each call is one atomic access to one word. A call requires the law of its access, a `Move`, from which
//! follows that the rule of the table allows it. The record after it is possible: some run leads to a table with this record. So
//! callers can conclude from a record alone what every run guarantees, and need no invariant of their own data.
//!
//! What a call returns was the word at the moment of the access. Other threads may have changed the word before the caller reads it.
ghost use Rattle.std.specs.Prelude.{◌≡◌, ◌⊎◌, ◌+◌, ◌-◌, ◌%◌, ◌^◌, ◌<◌, ◌==◌, ℕ, bit_or};
ghost use prog.Atomic.{either};
ghost use Rattle.rgo_core_rule.specs.Steps.{Asks, AsksEither, LeavesOnSeat, Occurs, Told, ToldChild};
ghost use Rattle.rgo_core_rule.specs.Views.{HasRow, number_of, record_of};

use crate::rule::{Cells, Chair, Explanation};
use crate::told;
use crate::told::{Start, Step};
use std::marker::Brand;

/// A load. `_about` is never read, here and below: the proof of a caller picks `T` by it.
pub fn load<R, K, X: Explanation<R, K>, T: Step<R>, A>(
    table: &Cells<R, K, X>,
    seat: &mut Chair<R>,
    word: usize,
    _about: &A,
) -> u64
    requires own { (seat.old.table_id ≡ table.now.shared.table_id) × (word < table.now.shared.table_id.words) }
    requires asks { Asks X.accesses (X.explains table.now.shared.key) (X.first table.now.shared.key) seat.old.me word
        (λ n. n) T.tells }
    ensures own { (seat.new.table_id ≡ seat.old.table_id) × (seat.new.id ≡ seat.old.id) }
    ensures leaves { LeavesOnSeat X.accesses (X.first table.now.shared.key) T.kind word
        (λ n. n) T.tells seat.old.me result seat.new.me }
    ensures possible { Occurs (X.explains table.now.shared.key) (number_of seat.new.me)
        (record_of (X.first table.now.shared.key) seat.new.me) }
{
    told::load::<R, K, X, Brand>(table, seat, word)
}

/// A store. It does not show what the word held. So its law has to hold whatever it overwrites.
pub fn store<R, K, X: Explanation<R, K>, T: Step<R>, A>(
    table: &Cells<R, K, X>,
    seat: &mut Chair<R>,
    word: usize,
    new: u64,
    _about: &A,
)
    requires own { (seat.old.table_id ≡ table.now.shared.table_id) × (word < table.now.shared.table_id.words) }
    requires asks { Asks X.accesses (X.explains table.now.shared.key) (X.first table.now.shared.key) seat.old.me word
        (λ n. new) T.tells }
    ensures own { (seat.new.table_id ≡ seat.old.table_id) × (seat.new.id ≡ seat.old.id) }
    ensures leaves { (n : ℕ)
        × LeavesOnSeat X.accesses (X.first table.now.shared.key) T.kind word (λ n. new) T.tells seat.old.me n seat.new.me }
    ensures possible { Occurs (X.explains table.now.shared.key) (number_of seat.new.me)
        (record_of (X.first table.now.shared.key) seat.new.me) }
{
    told::store::<R, K, X, Brand>(table, seat, word, new);
}

/// A swap.
pub fn swap<R, K, X: Explanation<R, K>, T: Step<R>, A>(
    table: &Cells<R, K, X>,
    seat: &mut Chair<R>,
    word: usize,
    new: u64,
    _about: &A,
) -> u64
    requires own { (seat.old.table_id ≡ table.now.shared.table_id) × (word < table.now.shared.table_id.words) }
    requires asks { Asks X.accesses (X.explains table.now.shared.key) (X.first table.now.shared.key) seat.old.me word
        (λ n. new) T.tells }
    ensures own { (seat.new.table_id ≡ seat.old.table_id) × (seat.new.id ≡ seat.old.id) }
    ensures leaves { LeavesOnSeat X.accesses (X.first table.now.shared.key) T.kind word
        (λ n. new) T.tells seat.old.me result seat.new.me }
    ensures possible { Occurs (X.explains table.now.shared.key) (number_of seat.new.me)
        (record_of (X.first table.now.shared.key) seat.new.me) }
{
    told::swap::<R, K, X, Brand>(table, seat, word, new)
}

/// An addition, modulo 2^64.
pub fn fetch_add<R, K, X: Explanation<R, K>, T: Step<R>, A>(
    table: &Cells<R, K, X>,
    seat: &mut Chair<R>,
    word: usize,
    k: u64,
    _about: &A,
) -> u64
    requires own { (seat.old.table_id ≡ table.now.shared.table_id) × (word < table.now.shared.table_id.words) }
    requires asks { Asks X.accesses (X.explains table.now.shared.key) (X.first table.now.shared.key) seat.old.me word
        (λ n. (n + k) % 2 ^ 64) T.tells }
    ensures own { (seat.new.table_id ≡ seat.old.table_id) × (seat.new.id ≡ seat.old.id) }
    ensures leaves { LeavesOnSeat X.accesses (X.first table.now.shared.key) T.kind word
        (λ n. (n + k) % 2 ^ 64) T.tells seat.old.me result seat.new.me }
    ensures possible { Occurs (X.explains table.now.shared.key) (number_of seat.new.me)
        (record_of (X.first table.now.shared.key) seat.new.me) }
{
    told::fetch_add::<R, K, X, Brand>(table, seat, word, k)
}

/// A subtraction, modulo 2^64.
pub fn fetch_sub<R, K, X: Explanation<R, K>, T: Step<R>, A>(
    table: &Cells<R, K, X>,
    seat: &mut Chair<R>,
    word: usize,
    k: u64,
    _about: &A,
) -> u64
    requires own { (seat.old.table_id ≡ table.now.shared.table_id) × (word < table.now.shared.table_id.words) }
    requires asks { Asks X.accesses (X.explains table.now.shared.key) (X.first table.now.shared.key) seat.old.me word
        (λ n. (n + (2 ^ 64 - k)) % 2 ^ 64) T.tells }
    ensures own { (seat.new.table_id ≡ seat.old.table_id) × (seat.new.id ≡ seat.old.id) }
    ensures leaves { LeavesOnSeat X.accesses (X.first table.now.shared.key) T.kind word
        (λ n. (n + (2 ^ 64 - k)) % 2 ^ 64) T.tells seat.old.me result seat.new.me }
    ensures possible { Occurs (X.explains table.now.shared.key) (number_of seat.new.me)
        (record_of (X.first table.now.shared.key) seat.new.me) }
{
    told::fetch_sub::<R, K, X, Brand>(table, seat, word, k)
}

/// Bits are set.
pub fn fetch_or<R, K, X: Explanation<R, K>, T: Step<R>, A>(
    table: &Cells<R, K, X>,
    seat: &mut Chair<R>,
    word: usize,
    k: u64,
    _about: &A,
) -> u64
    requires own { (seat.old.table_id ≡ table.now.shared.table_id) × (word < table.now.shared.table_id.words) }
    requires asks { Asks X.accesses (X.explains table.now.shared.key) (X.first table.now.shared.key) seat.old.me word
        (λ n. bit_or n k) T.tells }
    ensures own { (seat.new.table_id ≡ seat.old.table_id) × (seat.new.id ≡ seat.old.id) }
    ensures leaves { LeavesOnSeat X.accesses (X.first table.now.shared.key) T.kind word
        (λ n. bit_or n k) T.tells seat.old.me result seat.new.me }
    ensures possible { Occurs (X.explains table.now.shared.key) (number_of seat.new.me)
        (record_of (X.first table.now.shared.key) seat.new.me) }
{
    told::fetch_or::<R, K, X, Brand>(table, seat, word, k)
}

/// The word becomes `new` if it is `old`.
pub fn compare_exchange<R, K, X: Explanation<R, K>, T: Step<R>, A>(
    table: &Cells<R, K, X>,
    seat: &mut Chair<R>,
    word: usize,
    old: u64,
    new: u64,
    _about: &A,
) -> u64
    requires own { (seat.old.table_id ≡ table.now.shared.table_id) × (word < table.now.shared.table_id.words) }
    requires asks { Asks X.accesses (X.explains table.now.shared.key) (X.first table.now.shared.key) seat.old.me word
        (λ n. either (n == old) new n) T.tells }
    ensures own { (seat.new.table_id ≡ seat.old.table_id) × (seat.new.id ≡ seat.old.id) }
    ensures leaves { LeavesOnSeat X.accesses (X.first table.now.shared.key) T.kind word
        (λ n. either (n == old) new n) T.tells seat.old.me result seat.new.me }
    ensures possible { Occurs (X.explains table.now.shared.key) (number_of seat.new.me)
        (record_of (X.first table.now.shared.key) seat.new.me) }
{
    told::compare_exchange::<R, K, X, Brand>(table, seat, word, old, new)
}

/// An addition, modulo 2^64, that may start a goroutine, whose number is then what was found.
pub fn fetch_add_start<R, K, X: Explanation<R, K>, T: Start<R>, A>(
    table: &Cells<R, K, X>,
    seat: &mut Chair<R>,
    word: usize,
    k: u64,
    _about: &A,
) -> u64
    requires own { (seat.old.table_id ≡ table.now.shared.table_id) × (word < table.now.shared.table_id.words) }
    requires asks { AsksEither X.accesses (X.explains table.now.shared.key) (X.first table.now.shared.key) seat.old.me word
        (λ n. (n + k) % 2 ^ 64) T.tells T.tells_child }
    ensures own { (seat.new.table_id ≡ seat.old.table_id) × (seat.new.id ≡ seat.old.id) }
    ensures told { Told X.accesses (number_of seat.old.me) T.kind word
        (λ n. (n + k) % 2 ^ 64) T.tells seat.old.me result seat.new.me
        ⊎ ToldChild X.accesses (number_of seat.old.me) T.kind word
        (λ n. (n + k) % 2 ^ 64) T.tells_child seat.old.me result seat.new.me }
    ensures possible { (g : ℕ) (c : R) → HasRow seat.new.me.0.records g c
        → Occurs (X.explains table.now.shared.key) g c }
{
    told::fetch_add_start::<R, K, X, Brand>(table, seat, word, k)
}
