//! Constant operations. Each result has to be a 64-bit integer, also if a later operation would bring it back into the range: so the
//! value of an expression never needs larger numbers. Go computes with them.

ghost use Rattle.std.specs.Prelude.{◌≡◌};
ghost use Rattle.rgo_typing_rules.specs.Constants.{folded, folded_one, kept};

use rgo_ast::{BinaryOp, UnaryOp};

/// The value of a constant binary operation. `None` if there is no such operation on constants, if it divides by zero, or if its
/// value is not a 64-bit integer: which of these it is, the rules ask for themselves.
pub fn fold(op: BinaryOp, a: i64, b: i64) -> Option<i64>
    ensures { result ≡ kept (folded op a b) }
{
    match op {
        BinaryOp::Add => a.checked_add(b),
        BinaryOp::Sub => a.checked_sub(b),
        BinaryOp::Mul => a.checked_mul(b),
        BinaryOp::Div => a.checked_div(b),
        // By -1 the quotient may leave the range, and the remainder is 0.
        BinaryOp::Rem if b == -1 => Some(0),
        BinaryOp::Rem => a.checked_rem(b),
        _ => None,
    }
}

/// The value of a constant unary operation. `None` if there is no such operation on constants, or if its value is not a 64-bit
/// integer.
pub fn fold_one(op: UnaryOp, a: i64) -> Option<i64>
    ensures { result ≡ kept (folded_one op a) }
{
    match op {
        UnaryOp::Plus => Some(a),
        UnaryOp::Minus => a.checked_neg(),
        UnaryOp::Not | UnaryOp::Receive => None,
    }
}
