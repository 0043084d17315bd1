//! The operators, on values. They are total, so that no machine needs types at run time: an operator returns `nil` for operands
//! that it does not take, which no well-typed program passes to it.

ghost use Rattle.std.specs.Prelude.{◌≡◌};
ghost use Rattle.rgo_memory.specs.Operators.{is_equal, on_ints, binary_of, negated_value, inverted};
ghost use Rattle.rgo_memory.specs.Operators.{nil_test};

use crate::traps::Trap;
use crate::values::Value;
use rgo_ast::BinaryOp;

/// The result of `==` or `!=`, from whether the operands are equal; `nil` for operators that do not compare for equality.
#[inline(always)]
fn is_equal(op: BinaryOp, same: bool) -> Value
    ensures { result ≡ is_equal op same }
{
    match op {
        BinaryOp::Eq => Value::Bool(same),
        BinaryOp::Ne => Value::Bool(!same),
        _ => Value::Nil,
    }
}

/// On integers: `int` has 64 bits, and what does not fit wraps. A quotient is truncated towards
/// zero (The Go Programming Language Specification, "Arithmetic operators", "Integer overflow").
///
/// # Errors
///
/// If the divisor is zero.
#[inline(always)]
pub fn on_ints(op: BinaryOp, x: i64, y: i64) -> Result<Value, Trap>
    ensures { result ≡ on_ints op x y }
{
    let value = match op {
        BinaryOp::Add => Value::Int(x.wrapping_add(y)),
        BinaryOp::Sub => Value::Int(x.wrapping_sub(y)),
        BinaryOp::Mul => Value::Int(x.wrapping_mul(y)),
        // The test comes before both divisions, which need a divisor that is not zero. -1 as a divisor needs no test: the
        // quotient of the least integer wraps to itself, as in Go.
        BinaryOp::Div | BinaryOp::Rem if y == 0 => return Err(Trap::DivideZero),
        BinaryOp::Div => Value::Int(x.wrapping_div(y)),
        BinaryOp::Rem => Value::Int(x.wrapping_rem(y)),
        BinaryOp::Lt => Value::Bool(x < y),
        BinaryOp::Le => Value::Bool(x <= y),
        BinaryOp::Gt => Value::Bool(x > y),
        BinaryOp::Ge => Value::Bool(x >= y),
        BinaryOp::Eq | BinaryOp::Ne => is_equal(op, x == y),
        // Never reached: these two are branches, since their right operand may not be evaluated.
        BinaryOp::And | BinaryOp::Or => Value::Nil,
    };
    Ok(value)
}

/// The result of a binary operator (The Go Programming Language Specification, "Arithmetic operators",
/// "Comparison operators"). Pointers, slices and channels are equal if they refer to one object, so that
/// two objects with the same contents differ. `&&` and `||` are not among the operators.
///
/// # Errors
///
/// If an integer is divided by zero.
#[inline(always)]
pub fn binary(op: BinaryOp, left: Value, right: Value) -> Result<Value, Trap>
    ensures { result ≡ binary_of op left right }
{
    match (left, right) {
        (Value::Int(x), Value::Int(y)) => on_ints(op, x, y),
        (Value::Bool(a), Value::Bool(b)) => Ok(is_equal(op, a == b)),
        (Value::Object(m), Value::Object(n)) => Ok(is_equal(op, m == n)),
        (Value::Nil, Value::Nil) => Ok(is_equal(op, true)),
        (Value::Nil, Value::Object(_)) => Ok(is_equal(op, false)),
        (Value::Object(_), Value::Nil) => Ok(is_equal(op, false)),
        _ => Ok(Value::Nil),
    }
}

/// `-x`, which wraps: the least integer is its own negation. `nil` if `x` is not an integer.
#[inline(always)]
pub fn negated(value: Value) -> Value
    ensures { result ≡ negated_value value }
{
    match value {
        Value::Int(x) => Value::Int(x.wrapping_neg()),
        _ => Value::Nil,
    }
}

/// `!x`. `nil` if `x` is not a truth value.
#[inline(always)]
pub fn inverted(value: Value) -> Value
    ensures { result ≡ inverted value }
{
    match value {
        Value::Bool(b) => Value::Bool(!b),
        _ => Value::Nil,
    }
}

/// `x == nil`. `nil` if `x` can never be nil.
#[inline(always)]
pub fn is_nil(value: Value) -> Value
    ensures { result ≡ nil_test value }
{
    match value {
        Value::Nil => Value::Bool(true),
        Value::Object(_) => Value::Bool(false),
        _ => Value::Nil,
    }
}
