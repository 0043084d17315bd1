//! Operators, zeros and prints, with values computed by hand.

use crate::checks::same;
use crate::typed_trees::ty;
use rgo_ast::BinaryOp;
use rgo_memory::{Trap, Value, binary, element_zero, inverted, is_nil, negated, write_value, zero};
use rgo_typed::{Base, Layer};
use std::test::Fail;

const LEAST: i64 = i64::MIN;

const GREATEST: i64 = i64::MAX;

static INTEGERS: [(BinaryOp, i64, i64, Result<Value, Trap>); 14] = [
    (BinaryOp::Add, GREATEST, 1, Ok(Value::Int(LEAST))),
    (BinaryOp::Sub, LEAST, 1, Ok(Value::Int(GREATEST))),
    (BinaryOp::Mul, 4611686018427387904, 2, Ok(Value::Int(LEAST))),
    (BinaryOp::Mul, LEAST, -1, Ok(Value::Int(LEAST))),
    (BinaryOp::Div, 7, 2, Ok(Value::Int(3))),
    (BinaryOp::Div, -7, 2, Ok(Value::Int(-3))),
    (BinaryOp::Div, 7, -2, Ok(Value::Int(-3))),
    (BinaryOp::Div, LEAST, -1, Ok(Value::Int(LEAST))),
    (BinaryOp::Rem, 7, 2, Ok(Value::Int(1))),
    (BinaryOp::Rem, -7, 2, Ok(Value::Int(-1))),
    (BinaryOp::Rem, 7, -2, Ok(Value::Int(1))),
    (BinaryOp::Rem, LEAST, -1, Ok(Value::Int(0))),
    (BinaryOp::Div, LEAST, 0, Err(Trap::DivideZero)),
    (BinaryOp::Rem, LEAST, 0, Err(Trap::DivideZero)),
];

#[test]
fn integers_wrap_and_quotients_are_truncated(rt: HostRuntime) {
    for (op, x, y, wanted) in &INTEGERS {
        let result = binary(*op, Value::Int(*x), Value::Int(*y));
        same(&rt, "two integers", &result, wanted);
    }
    same(&rt, "-5", &negated(Value::Int(5)), &Value::Int(-5));
    same(
        &rt,
        "the least",
        &negated(Value::Int(LEAST)),
        &Value::Int(LEAST),
    );
}

static COMPARISONS: [(BinaryOp, Value, Value, bool); 13] = [
    (BinaryOp::Lt, Value::Int(-1), Value::Int(0), true),
    (BinaryOp::Le, Value::Int(3), Value::Int(3), true),
    (BinaryOp::Gt, Value::Int(-1), Value::Int(0), false),
    (BinaryOp::Ge, Value::Int(2), Value::Int(3), false),
    (BinaryOp::Eq, Value::Int(3), Value::Int(3), true),
    (BinaryOp::Ne, Value::Int(3), Value::Int(3), false),
    (BinaryOp::Eq, Value::Bool(false), Value::Bool(false), true),
    (BinaryOp::Ne, Value::Bool(true), Value::Bool(false), true),
    (BinaryOp::Eq, Value::Object(4), Value::Object(4), true),
    (BinaryOp::Eq, Value::Object(4), Value::Object(5), false),
    (BinaryOp::Eq, Value::Object(0), Value::Nil, false),
    (BinaryOp::Ne, Value::Nil, Value::Object(0), true),
    (BinaryOp::Eq, Value::Nil, Value::Nil, true),
];

#[test]
fn values_are_compared(rt: HostRuntime) {
    for (op, left, right, wanted) in &COMPARISONS {
        let result = binary(*op, *left, *right);
        same(&rt, "two values", &result, &Ok(Value::Bool(*wanted)));
    }
    same(
        &rt,
        "!true",
        &inverted(Value::Bool(true)),
        &Value::Bool(false),
    );
    same(&rt, "nil", &is_nil(Value::Nil), &Value::Bool(true));
    same(
        &rt,
        "an object",
        &is_nil(Value::Object(0)),
        &Value::Bool(false),
    );
}

/// Types with their zero values and with those of their elements.
static ZEROS: [(&[Layer], Base, Value, Value); 5] = [
    (&[], Base::Int, Value::Int(0), Value::Nil),
    (&[], Base::Bool, Value::Bool(false), Value::Nil),
    (&[], Base::Pointer(1), Value::Nil, Value::Nil),
    (&[Layer::Slice], Base::Bool, Value::Nil, Value::Bool(false)),
    (
        &[Layer::Chan, Layer::Slice],
        Base::Int,
        Value::Nil,
        Value::Nil,
    ),
];

#[test]
fn zeros_are_those_of_the_types(rt: HostRuntime) -> Result<(), Fail> {
    for (layers, base, of_type, of_element) in &ZEROS {
        let ty = ty(rt.alloc(), layers, *base)?;
        same(&rt, "a type", &zero(&ty), of_type);
        same(&rt, "an element", &element_zero(&ty), of_element);
    }
    Ok(())
}

static VALUES: [Value; 6] = [
    Value::Int(LEAST),
    Value::Bool(true),
    Value::Int(0),
    Value::Nil,
    Value::Bool(false),
    Value::Object(3),
];

#[test]
fn values_have_texts(rt: HostRuntime) -> Result<(), Fail> {
    let mut bytes = Vec::new(rt.alloc());
    for value in &VALUES {
        write_value(&mut bytes, *value)?;
    }
    let wanted = b"-9223372036854775808true0false".as_slice();
    same(&rt, "the values", &bytes.as_slice(), &wanted);
    Ok(())
}

static TRAPS: [(Trap, u8, &str); 7] = [
    (Trap::NilPointer, 1, "NilPointer"),
    (Trap::IndexRange, 2, "IndexRange"),
    (Trap::DivideZero, 3, "DivideZero"),
    (Trap::BadSize, 4, "BadSize"),
    (Trap::SendClosed, 5, "SendClosed"),
    (Trap::CloseClosed, 6, "CloseClosed"),
    (Trap::CloseNil, 7, "CloseNil"),
];

#[test]
fn traps_have_their_numbers_and_names(rt: HostRuntime) {
    for (trap, number, name) in &TRAPS {
        same(&rt, name, &trap.number(), number);
        same(&rt, name, &trap.name(), name);
    }
}
