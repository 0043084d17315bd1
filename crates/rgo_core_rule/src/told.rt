//! What is known after an access, and the accesses themselves. [`crate::steps`] calls these with a stronger `tells`, which has also
//! that the record after the access is possible. This is a layer of its own because a law can be strengthened only before the
//! access: afterwards other threads may have changed the table.
ghost use Rattle.std.specs.Prelude.{◌≡◌, ◌⊎◌, ◌+◌, ◌-◌, ◌%◌, ◌^◌, ◌<◌, ◌==◌, ℕ, bit_or};
ghost use prog.Atomic.{either};
ghost use Rattle.rgo_core_rule.specs.Steps.{Asks, AsksEither, LeavesOnSeat, Told, ToldChild};
ghost use Rattle.rgo_core_rule.specs.Views.{number_of};
ghost use Rattle.rgo_core_rule.specs.declared.accesses.Kind.{Kind as kinds};
ghost use Rattle.rgo_core_rule.specs.declared.accesses.Kind.TheVariants as kind;

use crate::accesses::View;
use crate::rule::{Cells, Chair, Explanation};
use atomic_table::Play;
use std::marker::{Brand, PhantomData};

/// What an access is for, and what holds of the number found and the record after it. A call picks both in its proof.
pub trait Step<R> {
    ghost kind: { kinds };

    ghost tells: { ℕ → R → Type 0 };
}

impl<R> Step<R> for Brand {
    ghost kind = { kind.Load };

    ghost tells = { λ n c. Unit {0} };
}

/// The same for an access that may start a goroutine: `tells` if none has started, and `tells_child` if one has, whose record is
/// then the third argument.
pub trait Start<R> {
    ghost kind: { kinds };

    ghost tells: { ℕ → R → Type 0 };

    ghost tells_child: { ℕ → R → R → Type 0 };
}

impl<R> Start<R> for Brand {
    ghost kind = { kind.DrawNumber };

    ghost tells = { λ n c. Unit {0} };

    ghost tells_child = { λ n c d. Unit {0} };
}

/// The word stays as it is.
pub struct Loads<K, X, T> {
    of: PhantomData<(K, X, T)>,
}

impl<R, K, X: Explanation<R, K>, T: Step<R>> Play<(), View<R>> for Loads<K, X, T> {
    ghost then = { λ s m n w. Told X.accesses (number_of m) T.kind s.word (λ n. n) T.tells m n w };
}

/// The word becomes the first operand.
pub struct Swaps<K, X, T> {
    of: PhantomData<(K, X, T)>,
}

impl<R, K, X: Explanation<R, K>, T: Step<R>> Play<(), View<R>> for Swaps<K, X, T> {
    ghost then = { λ s m n w. Told X.accesses (number_of m) T.kind s.word (λ n. s.first) T.tells m n w };
}

/// The same of a store, which does not show what was found.
pub struct Stores<K, X, T> {
    of: PhantomData<(K, X, T)>,
}

impl<R, K, X: Explanation<R, K>, T: Step<R>> Play<(), View<R>> for Stores<K, X, T> {
    ghost then = { λ s m n w. (found : ℕ)
        × Told X.accesses (number_of m) T.kind s.word (λ n. s.first) T.tells m found w };
}

/// The first operand is added, modulo 2^64.
pub struct Adds<K, X, T> {
    of: PhantomData<(K, X, T)>,
}

impl<R, K, X: Explanation<R, K>, T: Step<R>> Play<(), View<R>> for Adds<K, X, T> {
    ghost then = { λ s m n w. Told X.accesses (number_of m) T.kind s.word
        (λ n. (n + s.first) % 2 ^ 64) T.tells m n w };
}

/// The first operand is subtracted, modulo 2^64.
pub struct Subtracts<K, X, T> {
    of: PhantomData<(K, X, T)>,
}

impl<R, K, X: Explanation<R, K>, T: Step<R>> Play<(), View<R>> for Subtracts<K, X, T> {
    ghost then = { λ s m n w. Told X.accesses (number_of m) T.kind s.word
        (λ n. (n + (2 ^ 64 - s.first)) % 2 ^ 64) T.tells m n w };
}

/// The bits of the first operand are set.
pub struct Sets<K, X, T> {
    of: PhantomData<(K, X, T)>,
}

impl<R, K, X: Explanation<R, K>, T: Step<R>> Play<(), View<R>> for Sets<K, X, T> {
    ghost then = { λ s m n w. Told X.accesses (number_of m) T.kind s.word (λ n. bit_or n s.first) T.tells m n w };
}

/// The word becomes the second operand if it is the first.
pub struct Exchanges<K, X, T> {
    of: PhantomData<(K, X, T)>,
}

impl<R, K, X: Explanation<R, K>, T: Step<R>> Play<(), View<R>> for Exchanges<K, X, T> {
    ghost then = { λ s m n w. Told X.accesses (number_of m) T.kind s.word
        (λ n. either (n == s.first) s.second n) T.tells m n w };
}

/// The first operand is added, modulo 2^64, and a goroutine may start.
pub struct Draws<K, X, T> {
    of: PhantomData<(K, X, T)>,
}

impl<R, K, X: Explanation<R, K>, T: Start<R>> Play<(), View<R>> for Draws<K, X, T> {
    ghost then = { λ s m n w.
        Told X.accesses (number_of m) T.kind s.word (λ n. (n + s.first) % 2 ^ 64) T.tells m n w
        ⊎ ToldChild X.accesses (number_of m) T.kind s.word (λ n. (n + s.first) % 2 ^ 64) T.tells_child m n w };
}

/// A load.
pub(crate) fn load<R, K, X: Explanation<R, K>, T: Step<R>>(
    table: &Cells<R, K, X>,
    seat: &mut Chair<R>,
    word: usize,
) -> u64
    requires own { (seat.old.table_id ≡ table.now.shared.table_id) × (word < table.now.shared.table_id.words) }
    requires asks { Asks X.accesses (X.explains table.now.shared.key) (X.first table.now.shared.key) seat.old.me word
        (λ n. n) T.tells }
    ensures own { (seat.new.table_id ≡ seat.old.table_id) × (seat.new.id ≡ seat.old.id) }
    ensures leaves { LeavesOnSeat X.accesses (X.first table.now.shared.key) T.kind word
        (λ n. n) T.tells seat.old.me result seat.new.me }
{
    table.shared.load::<Loads<K, X, T>>(seat, word)
}

/// A store. It does not show what the word held.
pub(crate) fn store<R, K, X: Explanation<R, K>, T: Step<R>>(
    table: &Cells<R, K, X>,
    seat: &mut Chair<R>,
    word: usize,
    new: u64,
)
    requires own { (seat.old.table_id ≡ table.now.shared.table_id) × (word < table.now.shared.table_id.words) }
    requires asks { Asks X.accesses (X.explains table.now.shared.key) (X.first table.now.shared.key) seat.old.me word
        (λ n. new) T.tells }
    ensures own { (seat.new.table_id ≡ seat.old.table_id) × (seat.new.id ≡ seat.old.id) }
    ensures leaves { (n : ℕ)
        × LeavesOnSeat X.accesses (X.first table.now.shared.key) T.kind word (λ n. new) T.tells seat.old.me n seat.new.me }
{
    table.shared.store::<Stores<K, X, T>>(seat, word, new);
}

/// A swap.
pub(crate) fn swap<R, K, X: Explanation<R, K>, T: Step<R>>(
    table: &Cells<R, K, X>,
    seat: &mut Chair<R>,
    word: usize,
    new: u64,
) -> u64
    requires own { (seat.old.table_id ≡ table.now.shared.table_id) × (word < table.now.shared.table_id.words) }
    requires asks { Asks X.accesses (X.explains table.now.shared.key) (X.first table.now.shared.key) seat.old.me word
        (λ n. new) T.tells }
    ensures own { (seat.new.table_id ≡ seat.old.table_id) × (seat.new.id ≡ seat.old.id) }
    ensures leaves { LeavesOnSeat X.accesses (X.first table.now.shared.key) T.kind word
        (λ n. new) T.tells seat.old.me result seat.new.me }
{
    table.shared.swap::<Swaps<K, X, T>>(seat, word, new)
}

/// An addition, modulo 2^64.
pub(crate) fn fetch_add<R, K, X: Explanation<R, K>, T: Step<R>>(
    table: &Cells<R, K, X>,
    seat: &mut Chair<R>,
    word: usize,
    k: u64,
) -> u64
    requires own { (seat.old.table_id ≡ table.now.shared.table_id) × (word < table.now.shared.table_id.words) }
    requires asks { Asks X.accesses (X.explains table.now.shared.key) (X.first table.now.shared.key) seat.old.me word
        (λ n. (n + k) % 2 ^ 64) T.tells }
    ensures own { (seat.new.table_id ≡ seat.old.table_id) × (seat.new.id ≡ seat.old.id) }
    ensures leaves { LeavesOnSeat X.accesses (X.first table.now.shared.key) T.kind word
        (λ n. (n + k) % 2 ^ 64) T.tells seat.old.me result seat.new.me }
{
    table.shared.fetch_add::<Adds<K, X, T>>(seat, word, k)
}

/// A subtraction, modulo 2^64.
pub(crate) fn fetch_sub<R, K, X: Explanation<R, K>, T: Step<R>>(
    table: &Cells<R, K, X>,
    seat: &mut Chair<R>,
    word: usize,
    k: u64,
) -> u64
    requires own { (seat.old.table_id ≡ table.now.shared.table_id) × (word < table.now.shared.table_id.words) }
    requires asks { Asks X.accesses (X.explains table.now.shared.key) (X.first table.now.shared.key) seat.old.me word
        (λ n. (n + (2 ^ 64 - k)) % 2 ^ 64) T.tells }
    ensures own { (seat.new.table_id ≡ seat.old.table_id) × (seat.new.id ≡ seat.old.id) }
    ensures leaves { LeavesOnSeat X.accesses (X.first table.now.shared.key) T.kind word
        (λ n. (n + (2 ^ 64 - k)) % 2 ^ 64) T.tells seat.old.me result seat.new.me }
{
    table.shared.fetch_sub::<Subtracts<K, X, T>>(seat, word, k)
}

/// Bits are set.
pub(crate) fn fetch_or<R, K, X: Explanation<R, K>, T: Step<R>>(
    table: &Cells<R, K, X>,
    seat: &mut Chair<R>,
    word: usize,
    k: u64,
) -> u64
    requires own { (seat.old.table_id ≡ table.now.shared.table_id) × (word < table.now.shared.table_id.words) }
    requires asks { Asks X.accesses (X.explains table.now.shared.key) (X.first table.now.shared.key) seat.old.me word
        (λ n. bit_or n k) T.tells }
    ensures own { (seat.new.table_id ≡ seat.old.table_id) × (seat.new.id ≡ seat.old.id) }
    ensures leaves { LeavesOnSeat X.accesses (X.first table.now.shared.key) T.kind word
        (λ n. bit_or n k) T.tells seat.old.me result seat.new.me }
{
    table.shared.fetch_or::<Sets<K, X, T>>(seat, word, k)
}

/// The word becomes `new` if it is `old`. It fails only if the word is another number, and returns that number.
pub(crate) fn compare_exchange<R, K, X: Explanation<R, K>, T: Step<R>>(
    table: &Cells<R, K, X>,
    seat: &mut Chair<R>,
    word: usize,
    old: u64,
    new: u64,
) -> u64
    requires own { (seat.old.table_id ≡ table.now.shared.table_id) × (word < table.now.shared.table_id.words) }
    requires asks { Asks X.accesses (X.explains table.now.shared.key) (X.first table.now.shared.key) seat.old.me word
        (λ n. either (n == old) new n) T.tells }
    ensures own { (seat.new.table_id ≡ seat.old.table_id) × (seat.new.id ≡ seat.old.id) }
    ensures leaves { LeavesOnSeat X.accesses (X.first table.now.shared.key) T.kind word
        (λ n. either (n == old) new n) T.tells seat.old.me result seat.new.me }
{
    table
        .shared
        .compare_exchange::<Exchanges<K, X, T>>(seat, word, old, new)
}

/// An addition, modulo 2^64, that may start a goroutine, whose number is then what was found. Its two outcomes are one law, because
/// only the number found decides between them.
pub(crate) fn fetch_add_start<R, K, X: Explanation<R, K>, T: Start<R>>(
    table: &Cells<R, K, X>,
    seat: &mut Chair<R>,
    word: usize,
    k: u64,
) -> u64
    requires own { (seat.old.table_id ≡ table.now.shared.table_id) × (word < table.now.shared.table_id.words) }
    requires asks { AsksEither X.accesses (X.explains table.now.shared.key) (X.first table.now.shared.key) seat.old.me word
        (λ n. (n + k) % 2 ^ 64) T.tells T.tells_child }
    ensures own { (seat.new.table_id ≡ seat.old.table_id) × (seat.new.id ≡ seat.old.id) }
    ensures told { Told X.accesses (number_of seat.old.me) T.kind word
        (λ n. (n + k) % 2 ^ 64) T.tells seat.old.me result seat.new.me
        ⊎ ToldChild X.accesses (number_of seat.old.me) T.kind word
        (λ n. (n + k) % 2 ^ 64) T.tells_child seat.old.me result seat.new.me }
{
    table.shared.fetch_add::<Draws<K, X, T>>(seat, word, k)
}
