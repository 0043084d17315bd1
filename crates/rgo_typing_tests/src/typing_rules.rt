//! Nodes with the first rule that they break, worked out from the words of the rules.

mod letters;
mod lists;
mod plain;
mod samples;

use crate::checks::same;
use crate::typed_trees::name_of;
use plain::Row;
use rgo_ast::{BinaryOp, Ident, TypeExpr, UnaryOp};
use rgo_typed::{Base, Layer};
use rgo_typing_rules::{Builtin, Kind, Node, Role, Rule, Shape, Signature, broken, fold, fold_one};
use samples::{Sample, node_of};
use std::alloc::Global;
use std::process::Abort;
use std::test::Fail;

fn rows_hold<R: Abort>(rt: &R, rows: &[Row]) {
    for (rule, bad, good) in rows {
        same(rt, rule.name(), &broken(&node_of(*bad)), &Some(*rule));
        same(rt, rule.name(), &broken(&node_of(*good)), &None);
    }
}

fn are_first<R: Abort>(rt: &R, rows: &[(Rule, Sample)]) {
    for (rule, node) in rows {
        same(rt, rule.name(), &broken(&node_of(*node)), &Some(*rule));
    }
}

#[test]
fn nodes_without_lists_break_their_rules(rt: HostRuntime) {
    rows_hold(&rt, &plain::DECLARATIONS);
    rows_hold(&rt, &plain::NAMES);
    rows_hold(&rt, &plain::OPERATORS);
    rows_hold(&rt, &plain::CONSTANTS);
    rows_hold(&rt, &plain::VALUES);
    rows_hold(&rt, &plain::ENDS);
    are_first(&rt, &plain::FIRST);
}

fn int_type(alloc: Global) -> Result<TypeExpr, Fail> {
    let name = name_of(alloc, "int")?;
    Ok(TypeExpr::Named(Ident { name, at: 0 }))
}

fn literal_breaks<'a>(fields: &'a [Kind<'a>], values: &'a [Shape<'a>]) -> Option<Rule> {
    broken(&Node::Literal(Some(fields), values))
}

fn literals_hold<R: Abort>(rt: &R, alloc: Global, int: &TypeExpr) -> Result<(), Fail> {
    for (fields, values, wanted) in &lists::LITERALS {
        let kinds = letters::kinds(alloc, fields, int)?;
        let shapes = letters::values(alloc, values, int)?;
        same(rt, values, &literal_breaks(&kinds, &shapes), wanted);
    }
    Ok(())
}

fn keyed_breaks<'a>(
    fields: &'a [Option<Kind<'a>>],
    twice: bool,
    values: &'a [Shape<'a>],
) -> Option<Rule> {
    broken(&Node::Keyed(Some(fields), twice, values))
}

fn keyed_hold<R: Abort>(rt: &R, alloc: Global, int: &TypeExpr) -> Result<(), Fail> {
    for (fields, twice, values, wanted) in &lists::KEYED {
        let kinds = letters::known(alloc, fields, int)?;
        let shapes = letters::values(alloc, values, int)?;
        same(rt, values, &keyed_breaks(&kinds, *twice, &shapes), wanted);
    }
    Ok(())
}

#[test]
fn literals_break_their_rules(rt: HostRuntime) -> Result<(), Fail> {
    let int = int_type(rt.alloc())?;
    literals_hold(&rt, rt.alloc(), &int)?;
    keyed_hold(&rt, rt.alloc(), &int)
}

#[test]
fn literals_of_no_struct_break_a_rule(rt: HostRuntime) {
    let rule = Some(Rule::PointerBase);
    same(&rt, "values", &broken(&Node::Literal(None, &[])), &rule);
    same(&rt, "fields", &broken(&Node::Keyed(None, true, &[])), &rule);
}

fn call_breaks<'t, 'p, 'v>(
    signature: &'p Signature<'t>,
    args: &'v [Shape<'t>],
) -> [Option<Rule>; 3] {
    [
        broken(&Node::Call(Role::Alone, signature, args)),
        broken(&Node::Call(Role::Value, signature, args)),
        broken(&Node::Go(signature, args)),
    ]
}

#[test]
fn calls_break_their_rules(rt: HostRuntime) -> Result<(), Fail> {
    for (params, has_result, args, wanted) in &lists::CALLS {
        let signature = letters::signature(rt.alloc(), params, *has_result)?;
        let shapes = letters::plain_values(rt.alloc(), args)?;
        same(&rt, args, &call_breaks(&signature, &shapes), wanted);
    }
    Ok(())
}

fn builtins_break<'a>(args: &'a [Shape<'a>]) -> [Option<Rule>; 5] {
    [
        broken(&Node::CallBuiltin(Builtin::Len, Role::Value, args)),
        broken(&Node::CallBuiltin(Builtin::Close, Role::Alone, args)),
        broken(&Node::CallBuiltin(Builtin::Close, Role::Value, args)),
        broken(&Node::CallBuiltin(Builtin::Println, Role::Alone, args)),
        broken(&Node::CallBuiltin(Builtin::Println, Role::Printed, args)),
    ]
}

fn builtins_hold<R: Abort>(rt: &R, alloc: Global, int: &TypeExpr) -> Result<(), Fail> {
    for (args, wanted) in &lists::BUILTINS {
        let shapes = letters::values(alloc, args, int)?;
        same(rt, args, &builtins_break(&shapes), wanted);
    }
    Ok(())
}

#[test]
fn calls_of_builtins_break_their_rules(rt: HostRuntime) -> Result<(), Fail> {
    let int = int_type(rt.alloc())?;
    builtins_hold(&rt, rt.alloc(), &int)
}

fn two_break<'a>(a: Shape<'a>, b: Shape<'a>) -> [Option<Rule>; 4] {
    [
        broken(&Node::Binary(BinaryOp::Eq, a, b)),
        broken(&Node::Index(a, b)),
        broken(&Node::Send(a, b)),
        broken(&Node::Assign(true, a, b)),
    ]
}

/// What the nodes with a pair of letters break.
fn pair_breaks(pair: &str, int: &TypeExpr) -> Option<[Option<Rule>; 4]> {
    match pair.as_bytes() {
        [a, b] => Some(two_break(letters::value(*a, int), letters::value(*b, int))),
        _ => None,
    }
}

fn pairs_hold<R: Abort>(rt: &R, int: &TypeExpr) {
    for (pair, wanted) in &lists::PAIRS {
        same(rt, pair, &pair_breaks(pair, int), &Some(*wanted));
    }
}

#[test]
fn pairs_break_their_rules(rt: HostRuntime) -> Result<(), Fail> {
    let int = int_type(rt.alloc())?;
    pairs_hold(&rt, &int);
    Ok(())
}

fn pointer_type(alloc: Global) -> Result<TypeExpr, Fail> {
    let name = name_of(alloc, "S")?;
    Ok(TypeExpr::Pointer(Ident { name, at: 0 }, 0))
}

fn are_identical_to_themselves_alone<R: Abort>(rt: &R, types: &[Kind<'_>]) {
    for (i, a) in types.iter().enumerate() {
        for (j, b) in types.iter().enumerate() {
            same(rt, "two types", &a.is_same(*b), &(i == j));
        }
    }
}

/// `int`, `[]int`, `chan int`, `[]chan *S1`, `[]chan *S2` and `[]*S1`, with two structs that are
/// both spelled `S`.
#[test]
fn types_are_identical_by_their_spelling(rt: HostRuntime) -> Result<(), Fail> {
    let alloc = rt.alloc();
    let int = int_type(alloc)?;
    let pointer = pointer_type(alloc)?;
    let channel = TypeExpr::Chan(Box::new(alloc, pointer_type(alloc)?)?, 0);
    let types = [
        Kind::of(&int, Base::Int),
        Kind::Slice(&int, Base::Int),
        Kind::Chan(&int, Base::Int),
        Kind::Slice(&channel, Base::Pointer(1)),
        Kind::Slice(&channel, Base::Pointer(2)),
        Kind::Slice(&pointer, Base::Pointer(1)),
    ];
    are_identical_to_themselves_alone(&rt, &types);
    Ok(())
}

/// `[]chan *S`.
#[test]
fn types_have_their_elements_and_layers(rt: HostRuntime) -> Result<(), Fail> {
    let alloc = rt.alloc();
    let channel = TypeExpr::Chan(Box::new(alloc, pointer_type(alloc)?)?, 0);
    let slice = Kind::Slice(&channel, Base::Pointer(1));
    let pointer = pointer_type(alloc)?;
    let element = Kind::Chan(&pointer, Base::Pointer(1));
    same(&rt, "element", &slice.element().is_same(element), &true);
    let ty = slice.to_type(alloc)?;
    let layers = [Layer::Slice, Layer::Chan];
    same(&rt, "layers", &ty.layers.items(), &layers.as_slice());
    same(&rt, "base", &ty.base, &Base::Pointer(1));
    Ok(())
}

/// Operations on constants, with their values.
static BINARY: [(BinaryOp, i64, i64, Option<i64>); 15] = [
    (BinaryOp::Add, i64::MAX, 0, Some(i64::MAX)),
    (BinaryOp::Add, i64::MAX, 1, None),
    (BinaryOp::Sub, i64::MIN, 1, None),
    (BinaryOp::Sub, -1, i64::MAX, Some(i64::MIN)),
    (
        BinaryOp::Mul,
        0x8000_0000,
        0x8000_0000,
        Some(0x4000_0000_0000_0000),
    ),
    (BinaryOp::Mul, 0x8000_0000, 0x1_0000_0000, None),
    (BinaryOp::Mul, i64::MIN, -1, None),
    (BinaryOp::Div, -7, 2, Some(-3)),
    (BinaryOp::Div, i64::MIN, -1, None),
    (BinaryOp::Div, 1, 0, None),
    (BinaryOp::Rem, -7, 2, Some(-1)),
    (BinaryOp::Rem, 7, -2, Some(1)),
    (BinaryOp::Rem, i64::MIN, -1, Some(0)),
    (BinaryOp::Rem, 1, 0, None),
    (BinaryOp::Lt, 1, 2, None),
];

static UNARY: [(UnaryOp, i64, Option<i64>); 5] = [
    (UnaryOp::Plus, -5, Some(-5)),
    (UnaryOp::Minus, -5, Some(5)),
    (UnaryOp::Minus, i64::MAX, Some(-9_223_372_036_854_775_807)),
    (UnaryOp::Minus, i64::MIN, None),
    (UnaryOp::Not, 1, None),
];

#[test]
fn constants_have_their_values(rt: HostRuntime) {
    for (op, a, b, value) in &BINARY {
        same(&rt, "two constants", &fold(*op, *a, *b), value);
    }
    for (op, a, value) in &UNARY {
        same(&rt, "a constant", &fold_one(*op, *a), value);
    }
}
