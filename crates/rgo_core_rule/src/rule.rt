//! The rule of a table: after every access one run explains its words. The machine comes in as a trait with ghost members, so that
//! laws and calls are proved once, as clauses of public functions that are generic in it.
ghost use Rattle.std.specs.Prelude.{ℕ, List, [], ◌∷◌};
ghost use Rattle.rgo_core_rule.specs.Rule.{Explained};
ghost use Rattle.rgo_core_rule.specs.Views.{view, joined, informed};
ghost use Rattle.rgo_core_rule.specs.declared.accesses.View as seats;

use crate::accesses::View;
use atomic_table::{Join, Seat, Split, Table, TableRule};
use std::alloc::Global;
use std::marker::{Brand, PhantomData};

/// Which runs explain which words. `R` is what is known of a goroutine. `K` is fixed when the table is made, such as code and limits.
pub trait Explanation<R, K> {
    /// What a run is a list of.
    ghost Event: { Type 0 };

    /// How many accesses a goroutine has made, by its record. The rule compares it with the history: so a seat has seen every
    /// access of the goroutines whose records it has.
    ghost accesses: { R → ℕ };

    /// The run leads to what these words and the records of all goroutines show. Nothing else may be used: seats and views are no
    /// part of an explanation, since they pass from thread to thread without an access.
    ghost explains: { K → List ℕ → List R → List Event → Type 0 };

    /// The words of a new table.
    ghost opening: { K → List ℕ };

    /// The record of the first goroutine.
    ghost first: { K → R };
}

/// The rule: one run explains the words after every access.
pub struct Rule<X> {
    of: PhantomData<X>,
}

impl<R, K, X: Explanation<R, K>> TableRule<(), View<R>, K> for Rule<X> {
    ghost holds = { λ key s. Explained X.accesses (X.explains key) (X.opening key) s };

    ghost first = { λ key. view ((0, X.first key) ∷ []) [] };
}

/// A table of words under the rule.
pub type Cells<R, K, X> = Table<(), View<R>, K, Rule<X>, Global>;

/// The right of a thread to access the words. It has no bytes.
pub type Chair<R> = Seat<(), View<R>>;

/// How a view is cut in two. Each call picks the members in its proof (`proofs/seats/*/Invariants.antt`). Those of `Brand` are
/// placeholders.
pub trait Parting<R> {
    ghost left: { seats.View R → seats.View R };

    ghost right: { seats.View R → seats.View R };
}

impl<R> Parting<R> for Brand {
    ghost left = { λ v. v };

    ghost right = { λ v. v };
}

/// A view is cut as a call says.
pub struct Cut<R, T> {
    of: PhantomData<(R, T)>,
}

impl<R, T: Parting<R>> Split<View<R>> for Cut<R, T> {
    ghost left = { λ v. T.left v };

    ghost right = { λ v. T.right v };
}

/// Two views become one. If both have seen equally many accesses, it keeps those of the first. Both lists are then the same, but a
/// join sees two views alone, without the history of which they are beginnings.
pub struct Joined;

impl<R> Join<View<R>> for Joined {
    ghost both = { joined };

    ghost spent = { view [] [] };
}

/// As [`Joined`], but with the second view's accesses if both have seen equally many. [`crate::seats::meet`] needs both forms: its
/// two seats must keep the same list, and each of them is once the first.
pub struct Informed;

impl<R> Join<View<R>> for Informed {
    ghost both = { informed };

    ghost spent = { view [] [] };
}
