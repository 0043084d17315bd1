//! Seats: how a table begins and ends, and how records and what was seen pass from seat to seat. A view changes only with an
//! access, so a split and a join load word 0 and ignore what they find. The thread that has the seats may make them at any time.
ghost use Rattle.std.specs.Prelude.{◌≡◌, ◌<◌, ℕ, List, [], ◌∷◌, length, IfOk};
ghost use Rattle.std.specs.Mem.Slots.{IsFull, slots_items, slots_len};
ghost use Rattle.atomic_table.specs.Table.{Splits};
ghost use Rattle.rgo_core_rule.specs.Rule.{Explained, Closing};
ghost use Rattle.rgo_core_rule.specs.Steps.{Glanced};
ghost use Rattle.rgo_core_rule.specs.Views.{HasRow, view, rows_for, rows_but, joined, longer};

use crate::accesses::View;
use crate::rule::{Cells, Chair, Cut, Explanation, Informed, Joined, Parting, Rule};
use atomic_table::{Closed, Play, Table};
use std::alloc::{AllocError, Global};
use std::marker::{Brand, PhantomData};

/// A table with these words, and the seat with the record of its first goroutine. The empty run has to explain them, since every
/// later run continues it.
pub fn open<R, K, X: Explanation<R, K>>(
    alloc: Global,
    words: &[u64],
    about: &K,
) -> Result<(Cells<R, K, X>, Chair<R>), AllocError>
    requires words { words.now ≡ X.opening about.now }
    requires new { X.accesses (X.first about.now) ≡ 0 }
    requires explains { X.explains about.now (X.opening about.now) (X.first about.now ∷ []) [] }
    ensures table { IfOk result (λ t. (t.0.shared.table_id.words ≡ length words.now)
        × (t.0.shared.table_id.slots ≡ 0) × (t.0.shared.key ≡ about.now)) }
    ensures seat { IfOk result (λ t. (t.1.table_id ≡ t.0.shared.table_id)
        × (t.1.me ≡ (view ((0, X.first about.now) ∷ []) [], []))) }
{
    Table::of_words(alloc, words, about)
}

/// The last words. The run that explains them leads to the records that the seat has, among others. The table is taken by value, so
/// no access can follow. Records on other seats stay unknown, hence a driver retires all of its goroutines first.
pub fn close<R, K, X: Explanation<R, K>>(
    table: Cells<R, K, X>,
    seat: Chair<R>,
) -> Closed<(), Global>
    requires own { seat.table_id ≡ table.shared.table_id }
    ensures counts { (slots_len result.words ≡ table.shared.table_id.words)
        × (slots_len result.slots ≡ table.shared.table_id.slots) }
    ensures full { IsFull result.words }
    ensures end { Closing X.accesses (X.explains table.shared.key) (X.opening table.shared.key)
        (slots_items result.words) seat.me.0 }
{
    table.close_with(seat)
}

/// A load of word 0 by any seat.
pub struct Glances<K, X> {
    of: PhantomData<(K, X)>,
}

impl<R, K, X: Explanation<R, K>> Play<(), View<R>> for Glances<K, X> {
    ghost then = { λ s m n w. Glanced X.accesses m n w };
}

/// A load of word 0 that no record counts. The seat has then seen all accesses up to this one, among them all of the goroutines
/// whose records it has. Any seat may make it, also one with several records or with none.
pub fn glance<R, K, X: Explanation<R, K>>(table: &Cells<R, K, X>, seat: &mut Chair<R>) -> u64
    requires own { (seat.old.table_id ≡ table.now.shared.table_id) × (0 < table.now.shared.table_id.words) }
    ensures own { (seat.new.table_id ≡ seat.old.table_id) × (seat.new.id ≡ seat.old.id) }
    ensures glanced { Glanced X.accesses seat.old.me result seat.new.me }
{
    table.shared.load::<Glances<K, X>>(seat, 0)
}

fn cut_as<R, K, X: Explanation<R, K>, T: Parting<R>, A>(
    table: &Cells<R, K, X>,
    seat: &mut Chair<R>,
    _about: &A,
) -> Chair<R>
    requires own { (seat.old.table_id ≡ table.now.shared.table_id) × (0 < table.now.shared.table_id.words) }
    requires rule { Splits (Explained X.accesses (X.explains table.now.shared.key)
        (X.opening table.now.shared.key)) seat.old.id seat.old.me.0 (T.left seat.old.me.0) (T.right seat.old.me.0) }
    ensures old { (seat.new.table_id ≡ seat.old.table_id) × (seat.new.id ≡ seat.old.id)
        × (seat.new.me ≡ (T.left seat.old.me.0, seat.old.me.1)) }
    ensures new { (result.table_id ≡ seat.old.table_id) × (result.me ≡ (T.right seat.old.me.0, [])) }
{
    table.shared.split_seat::<Cut<R, T>>(seat)
}

/// The record of goroutine `number` goes to a seat of its own, which has seen the same. A record begins on the seat of the
/// goroutine that has started it, and has to leave it before another thread can run the new goroutine.
pub fn part<R, K, X: Explanation<R, K>>(
    table: &Cells<R, K, X>,
    seat: &mut Chair<R>,
    number: u64,
) -> Chair<R>
    requires own { (seat.old.table_id ≡ table.now.shared.table_id) × (0 < table.now.shared.table_id.words) }
    requires has { (c : R) × HasRow seat.old.me.0.records number c }
    ensures old { (seat.new.table_id ≡ seat.old.table_id) × (seat.new.id ≡ seat.old.id)
        × (seat.new.me ≡ (view (rows_but number seat.old.me.0.records) seat.old.me.0.seen, seat.old.me.1)) }
    ensures new { (result.table_id ≡ seat.old.table_id)
        × (result.me ≡ (view (rows_for number seat.old.me.0.records) seat.old.me.0.seen, [])) }
{
    cut_as::<R, K, X, Brand, _>(table, seat, &number)
}

/// All records of another seat come to this one, which has then seen what either had. The other seat is used up.
pub fn retire<R, K, X: Explanation<R, K>>(
    table: &Cells<R, K, X>,
    seat: &mut Chair<R>,
    other: Chair<R>,
)
    requires own { (seat.old.table_id ≡ table.now.shared.table_id) × (other.table_id ≡ table.now.shared.table_id)
        × (0 < table.now.shared.table_id.words) }
    requires empty { other.me.1 ≡ [] }
    ensures own { (seat.new.table_id ≡ seat.old.table_id) × (seat.new.id ≡ seat.old.id) }
    ensures view { seat.new.me ≡ (joined seat.old.me.0 other.me.0, seat.old.me.1) }
{
    table.shared.join_seat::<Joined>(seat, other);
}

/// A new seat with no record, which has seen the same: what a seat hands to another one, since a join uses a seat up.
fn note<R, K, X: Explanation<R, K>>(table: &Cells<R, K, X>, seat: &mut Chair<R>) -> Chair<R>
    requires own { (seat.old.table_id ≡ table.now.shared.table_id) × (0 < table.now.shared.table_id.words) }
    ensures old { (seat.new.table_id ≡ seat.old.table_id) × (seat.new.id ≡ seat.old.id)
        × (seat.new.me ≡ (seat.old.me.0, seat.old.me.1)) }
    ensures new { (result.table_id ≡ seat.old.table_id) × (result.me ≡ (view [] seat.old.me.0.seen, [])) }
{
    cut_as::<R, K, X, Brand, _>(table, seat, &())
}

/// Each of two seats has then seen what either had. No record passes, so both goroutines stay where they are.
pub fn meet<R, K, X: Explanation<R, K>>(
    table: &Cells<R, K, X>,
    seat: &mut Chair<R>,
    other: &mut Chair<R>,
)
    requires own { (seat.old.table_id ≡ table.now.shared.table_id)
        × (other.old.table_id ≡ table.now.shared.table_id) × (0 < table.now.shared.table_id.words) }
    ensures own { (seat.new.table_id ≡ seat.old.table_id) × (other.new.table_id ≡ other.old.table_id) }
    ensures seat { seat.new.me ≡ (
      view seat.old.me.0.records
          (longer seat.old.me.0.seen other.old.me.0.seen),
      seat.old.me.1,
    ) }
    ensures other { other.new.me ≡ (
      view other.old.me.0.records
          (longer seat.old.me.0.seen other.old.me.0.seen),
      other.old.me.1,
    ) }
{
    let word = note(table, seat);
    table.shared.join_seat::<Informed>(other, word);
    let answer = note(table, other);
    table.shared.join_seat::<Joined>(seat, answer);
}
