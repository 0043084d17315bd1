//! Operators on words. A word has no mark of its kind: what it means follows from the type of its variable, so no operator tests it.
//! They are inlined always, because the loop over instructions is made of them.

ghost use Rattle.std.specs.Prelude.{◌≡◌};
ghost use Rattle.rgo_core_frames.specs.shown.Operators.{binary_on_words, negated_word, word_of};

use rgo_sound::ast::BinaryOp;
use rgo_sound::memory::{Value, on_ints};

/// The word of an int or of a bool. Nil and objects do not come from operators; for them it is 0, so that the function is total.
#[inline(always)]
pub fn word(value: Value) -> u64
    ensures { result ≡ word_of value }
{
    match value {
        Value::Int(z) => z.cast_unsigned(),
        Value::Bool(b) => u64::from(b),
        Value::Nil | Value::Object(_) => 0,
    }
}

/// The value of a binary operator for two words; none if it traps. Equality compares words of any type: two values of one type are
/// equal exactly if their words are, since no two live objects share an address. All other operators are on ints.
#[inline(always)]
pub fn binary(op: BinaryOp, x: u64, y: u64) -> Option<u64>
    ensures { result ≡ binary_on_words op x y }
{
    match op {
        BinaryOp::Eq => Some(u64::from(x == y)),
        BinaryOp::Ne => Some(u64::from(x != y)),
        _ => match on_ints(op, x.cast_signed(), y.cast_signed()) {
            Ok(value) => Some(word(value)),
            Err(_) => None,
        },
    }
}

/// `-x`, on words.
#[inline(always)]
pub fn negated(x: u64) -> u64
    ensures { result ≡ negated_word x }
{
    x.cast_signed().wrapping_neg().cast_unsigned()
}
