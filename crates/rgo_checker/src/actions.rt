//! What actions take and return, by the types of their operands.

ghost use Rattle.std.specs.Prelude.{◌≡◌, slice_get};
ghost use Rattle.rgo_checker.specs.Tests.{types_in};
ghost use Rattle.rgo_checker.specs.TypeTests as tests;

use crate::types::{is_around, is_bool, is_chan, is_int, is_plain, is_slice, pointed, same};
use rgo_ast::BinaryOp;
use rgo_tac::Tac;
use rgo_typed::{Action, Base, Layer, Type};

/// The types of an action's operands.
#[derive(Clone, Copy)]
pub(crate) enum Types<'a> {
    Zero,
    One(&'a Type),
    Two(&'a Type, &'a Type),
    Three(&'a Type, &'a Type, &'a Type),
}

fn field_in(fields: &[Type], k: usize, ty: &Type) -> bool
    ensures { result ≡ tests.equals_type (slice_get fields.now k) ty.now }
{
    match fields.get(k) {
        Some(field) => same(field, ty),
        None => false,
    }
}

fn is_field_in(code: &Tac, n: usize, k: usize, ty: &Type) -> bool
    ensures { result ≡ tests.is_field_of (slice_get code.now.structs n) k ty.now }
{
    match code.structs().get(n) {
        Some(s) => field_in(s.fields.items(), k, ty),
        None => false,
    }
}

fn is_field(code: &Tac, pointer: &Type, k: usize, ty: &Type) -> bool
    ensures { result ≡ tests.is_field code.now pointer.now k ty.now }
{
    match pointed(pointer) {
        Some(n) => is_field_in(code, n, k, ty),
        None => false,
    }
}

fn is_variable(code: &Tac, n: usize, ty: &Type) -> bool
    ensures { result ≡ tests.variable_has_type (slice_get code.now.variables n) ty.now }
{
    match code.variables().get(n) {
        Some(v) => same(&v.ty, ty),
        None => false,
    }
}

fn is_new(code: &Tac, n: usize, ty: &Type) -> bool
    ensures { result ≡ tests.is_new code.now n ty.now }
{
    is_plain(Base::Pointer(n), ty) && n < code.structs().len()
}

/// `==` and `!=` compare values of one type. As in Go, slices are compared with `nil` only, which is the action `IsNil`.
fn compares(a: &Type, b: &Type, ty: &Type) -> bool
    ensures { result ≡ tests.compares_to_bool a.now b.now ty.now }
{
    same(a, b) && !is_slice(a) && is_bool(ty)
}

fn orders(a: &Type, b: &Type, ty: &Type) -> bool
    ensures { result ≡ tests.orders a.now b.now ty.now }
{
    is_int(a) && is_int(b) && is_bool(ty)
}

fn counts(a: &Type, b: &Type, ty: &Type) -> bool
    ensures { result ≡ tests.counts a.now b.now ty.now }
{
    is_int(a) && is_int(b) && is_int(ty)
}

fn computes(op: BinaryOp, a: &Type, b: &Type, ty: &Type) -> bool
    ensures { result ≡ tests.computes op a.now b.now ty.now }
{
    match op {
        BinaryOp::Eq | BinaryOp::Ne => compares(a, b, ty),
        BinaryOp::Lt | BinaryOp::Le | BinaryOp::Gt | BinaryOp::Ge => orders(a, b, ty),
        BinaryOp::Add | BinaryOp::Sub | BinaryOp::Mul | BinaryOp::Div | BinaryOp::Rem => {
            counts(a, b, ty)
        }
        BinaryOp::And | BinaryOp::Or => false,
    }
}

fn returns_of_none(code: &Tac, action: Action, ty: &Type) -> bool
    ensures { result ≡ tests.returns_of_none code.now action ty.now }
{
    match action {
        Action::Int(_) => is_int(ty),
        Action::Bool(_) => is_bool(ty),
        Action::Nil => ty.is_pointer_like(),
        Action::New(n) => is_new(code, n, ty),
        Action::Get(n) => is_variable(code, n, ty),
        Action::Copy
        | Action::Binary(_)
        | Action::Neg
        | Action::Not
        | Action::IsNil
        | Action::Len
        | Action::Load(_)
        | Action::Store(_)
        | Action::At
        | Action::Put
        | Action::Slice
        | Action::Chan
        | Action::Recv
        | Action::Send
        | Action::Close
        | Action::Set(_) => false,
    }
}

fn returns_of_one(code: &Tac, action: Action, a: &Type, ty: &Type) -> bool
    ensures { result ≡ tests.returns_of_one code.now action a.now ty.now }
{
    match action {
        Action::Copy => same(a, ty),
        Action::Neg => is_int(a) && is_int(ty),
        Action::Not => is_bool(a) && is_bool(ty),
        Action::IsNil => a.is_pointer_like() && is_bool(ty),
        Action::Len => is_slice(a) && is_int(ty),
        Action::Load(k) => is_field(code, a, k, ty),
        Action::Slice => is_int(a) && is_slice(ty),
        Action::Chan => is_int(a) && is_chan(ty),
        Action::Recv => is_around(Layer::Chan, a, ty),
        Action::Int(_)
        | Action::Bool(_)
        | Action::Nil
        | Action::Binary(_)
        | Action::Store(_)
        | Action::At
        | Action::Put
        | Action::New(_)
        | Action::Send
        | Action::Close
        | Action::Get(_)
        | Action::Set(_) => false,
    }
}

fn returns_of_two(action: Action, a: &Type, b: &Type, ty: &Type) -> bool
    ensures { result ≡ tests.returns_of_two action a.now b.now ty.now }
{
    match action {
        Action::Binary(op) => computes(op, a, b, ty),
        Action::At => is_around(Layer::Slice, a, ty) && is_int(b),
        Action::Int(_)
        | Action::Bool(_)
        | Action::Nil
        | Action::Copy
        | Action::Neg
        | Action::Not
        | Action::IsNil
        | Action::Len
        | Action::Load(_)
        | Action::Store(_)
        | Action::Put
        | Action::New(_)
        | Action::Slice
        | Action::Chan
        | Action::Recv
        | Action::Send
        | Action::Close
        | Action::Get(_)
        | Action::Set(_) => false,
    }
}

/// Whether an action on operands of these types returns a value of a type.
pub(crate) fn returns(code: &Tac, action: Action, types: Types<'_>, ty: &Type) -> bool
    ensures { result ≡ tests.returns code.now action (types_in types.entry) ty.now }
{
    match types {
        Types::Zero => returns_of_none(code, action, ty),
        Types::One(a) => returns_of_one(code, action, a, ty),
        Types::Two(a, b) => returns_of_two(action, a, b, ty),
        Types::Three(_, _, _) => false,
    }
}

fn takes_one(code: &Tac, action: Action, a: &Type) -> bool
    ensures { result ≡ tests.takes_one code.now action a.now }
{
    match action {
        Action::Close => is_chan(a),
        Action::Set(n) => is_variable(code, n, a),
        Action::Int(_)
        | Action::Bool(_)
        | Action::Nil
        | Action::Copy
        | Action::Binary(_)
        | Action::Neg
        | Action::Not
        | Action::IsNil
        | Action::Len
        | Action::Load(_)
        | Action::Store(_)
        | Action::At
        | Action::Put
        | Action::New(_)
        | Action::Slice
        | Action::Chan
        | Action::Recv
        | Action::Send
        | Action::Get(_) => false,
    }
}

fn takes_two(code: &Tac, action: Action, a: &Type, b: &Type) -> bool
    ensures { result ≡ tests.takes_two code.now action a.now b.now }
{
    match action {
        Action::Store(k) => is_field(code, a, k, b),
        Action::Send => is_around(Layer::Chan, a, b),
        Action::Int(_)
        | Action::Bool(_)
        | Action::Nil
        | Action::Copy
        | Action::Binary(_)
        | Action::Neg
        | Action::Not
        | Action::IsNil
        | Action::Len
        | Action::Load(_)
        | Action::At
        | Action::Put
        | Action::New(_)
        | Action::Slice
        | Action::Chan
        | Action::Recv
        | Action::Close
        | Action::Get(_)
        | Action::Set(_) => false,
    }
}

fn takes_three(action: Action, a: &Type, b: &Type, c: &Type) -> bool
    ensures { result ≡ tests.takes_three action a.now b.now c.now }
{
    match action {
        Action::Put => is_around(Layer::Slice, a, c) && is_int(b),
        Action::Int(_)
        | Action::Bool(_)
        | Action::Nil
        | Action::Copy
        | Action::Binary(_)
        | Action::Neg
        | Action::Not
        | Action::IsNil
        | Action::Len
        | Action::Load(_)
        | Action::Store(_)
        | Action::At
        | Action::New(_)
        | Action::Slice
        | Action::Chan
        | Action::Recv
        | Action::Send
        | Action::Close
        | Action::Get(_)
        | Action::Set(_) => false,
    }
}

/// Whether an action without value takes operands of these types.
pub(crate) fn takes(code: &Tac, action: Action, types: Types<'_>) -> bool
    ensures { result ≡ tests.takes code.now action (types_in types.entry) }
{
    match types {
        Types::Zero => false,
        Types::One(a) => takes_one(code, action, a),
        Types::Two(a, b) => takes_two(code, action, a, b),
        Types::Three(a, b, c) => takes_three(action, a, b, c),
    }
}
