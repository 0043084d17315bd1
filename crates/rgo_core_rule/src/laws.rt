//! What follows from the rule, for every explanation. A driver needs this to report a deadlock: no single access shows more than
//! one word, so that several words had these values at one moment has to come from the order of all accesses.
ghost use Rattle.rgo_core_rule.specs.Passes.{TwoPasses, NobodyAhead, PassIsStill, TurnLooks};
ghost use Rattle.rgo_core_rule.specs.Steps.{Move, Still};
ghost use Rattle.rgo_core_rule.specs.Views.{rows_for, rows_but};
ghost use Rattle.std.specs.Prelude.{◌≡◌, ◌<◌, ℕ, [], ◌∷◌};

use crate::rule::Explanation;
use crate::told::Step;

/// If every goroutine has looked since some moment, and none has changed a word since, all that they found held at one moment.
pub fn pass_is_still<R, K, X: Explanation<R, K>>()
    ensures { (key : K) → PassIsStill X.accesses (X.explains key) (X.opening key) }
{}

/// How a goroutine comes to have looked: it has had a turn in which it changed nothing, between two meetings with the driver. The
/// meetings are needed because no clause can state that what one seat has seen continues what another seat had seen.
pub fn turn_looks()
    ensures { TurnLooks }
{}

/// After two passes all have seen the same: the first pass finds the longest list, and the second one brings it to everyone.
pub fn two_passes()
    ensures { TwoPasses }
{}

/// After one pass no goroutine has seen more than the one that went through them.
pub fn nobody_ahead()
    ensures { NobodyAhead }
{}

/// A change of a record without an access may happen just before the goroutine's next access. So a goroutine makes its local steps
/// without the table, and its next access puts them into the run.
pub fn still_then_move<R, K, X: Explanation<R, K>, T: Step<R>>()
    ensures { (key : K) (g : ℕ) (c d : R) (i : ℕ) (f : ℕ → ℕ) → Still X.accesses (X.explains key) g c d
        → X.accesses d ≡ X.accesses c → Move X.accesses (X.explains key) g d i f T.tells
        → Move X.accesses (X.explains key) g c i f T.tells }
{}

/// Several such changes in a row are one.
pub fn still_then_still<R, K, X: Explanation<R, K>>()
    ensures { (key : K) (g : ℕ) (c d e : R) → Still X.accesses (X.explains key) g c d
        → Still X.accesses (X.explains key) g d e → Still X.accesses (X.explains key) g c e }
{}

/// The rows of a goroutine and of one that it has just started, when they go to two seats. Their numbers differ, since the new
/// one has the larger number.
pub fn two_rows<R>()
    ensures { (g n : ℕ) (c d : R) → g < n → (rows_for n ((g, c) ∷ (n, d) ∷ []) ≡ (n, d) ∷ [])
        × (rows_but n ((g, c) ∷ (n, d) ∷ []) ≡ (g, c) ∷ []) }
{}
