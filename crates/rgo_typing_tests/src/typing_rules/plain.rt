//! Nodes without lists: each row a rule, a node that breaks it first, and the nearest node that
//! breaks none. The letters of values are those of `letters`.

use super::samples::Sample::{self, *};
use rgo_ast::{BinaryOp, UnaryOp};
use rgo_typed::Base;
use rgo_typing_rules::Rule::{self, *};
use rgo_typing_rules::{Builtin, Meaning, Role};

pub(super) type Row = (Rule, Sample, Sample);

const VARIABLE: Option<Meaning> = Some(Meaning::Local(0));

const STRUCT: Option<Meaning> = Some(Meaning::Struct(0));

const FUNCTION: Option<Meaning> = Some(Meaning::Function(0));

const INT_NAME: Option<Meaning> = Some(Meaning::Basic(Base::Int));

const FMT: Option<Meaning> = Some(Meaning::Package(true));

const FMT_MISSING: Option<Meaning> = Some(Meaning::Package(false));

pub(super) static DECLARATIONS: [Row; 7] = [
    (BadImport, Import(false, "os"), Import(false, "fmt")),
    (Redeclared, Import(true, "fmt"), Import(false, "fmt")),
    (Redeclared, Declared(true, "x"), Declared(false, "x")),
    (ReservedName, Declared(false, "int"), Declared(false, "in")),
    (ReservedName, Declared(false, "cap"), Declared(false, "Cap")),
    (
        ReservedName,
        Declared(false, "init"),
        Declared(false, "main"),
    ),
    (ReservedName, Declared(false, "_"), Declared(false, "_x")),
];

pub(super) static NAMES: [Row; 14] = [
    (NoSuchName, TypeName(None), TypeName(INT_NAME)),
    (NoSuchName, BaseName(FMT_MISSING), BaseName(STRUCT)),
    (
        NoSuchName,
        Name(Role::Target, None),
        Name(Role::Target, FUNCTION),
    ),
    (
        NoSuchName,
        Name(Role::Value, FMT_MISSING),
        Name(Role::Target, FMT),
    ),
    (NotType, TypeName(VARIABLE), TypeName(INT_NAME)),
    (NotType, BaseName(Some(Meaning::Nil)), BaseName(INT_NAME)),
    (StructByValue, TypeName(STRUCT), BaseName(STRUCT)),
    (PointerBase, Pointed(INT_NAME), Pointed(STRUCT)),
    (
        NotValue,
        Name(Role::Value, FUNCTION),
        Name(Role::Value, VARIABLE),
    ),
    (
        NotValue,
        Name(Role::Value, STRUCT),
        Name(Role::Target, STRUCT),
    ),
    (
        NotValue,
        Name(Role::Printed, FMT),
        Name(Role::Printed, Some(Meaning::Nil)),
    ),
    (
        NotValue,
        Name(Role::Alone, Some(Meaning::Builtin(Builtin::Len))),
        Name(Role::Alone, VARIABLE),
    ),
    (
        NotValue,
        Name(Role::Value, INT_NAME),
        Name(Role::Value, Some(Meaning::Truth(true))),
    ),
    (StringPlace, Text(Role::Value), Text(Role::Printed)),
];

pub(super) static OPERATORS: [Row; 16] = [
    (
        Mismatch,
        Unary(UnaryOp::Plus, b'b'),
        Unary(UnaryOp::Plus, b'i'),
    ),
    (
        Mismatch,
        Unary(UnaryOp::Minus, b'p'),
        Unary(UnaryOp::Minus, b'i'),
    ),
    (
        Mismatch,
        Unary(UnaryOp::Not, b'0'),
        Unary(UnaryOp::Not, b'b'),
    ),
    (
        Mismatch,
        Binary(BinaryOp::Add, b'b', b'b'),
        Binary(BinaryOp::Add, b'i', b'1'),
    ),
    (
        Mismatch,
        Binary(BinaryOp::Lt, b'n', b'n'),
        Binary(BinaryOp::Lt, b'i', b'i'),
    ),
    (
        Mismatch,
        Binary(BinaryOp::And, b'b', b'1'),
        Binary(BinaryOp::And, b'b', b'b'),
    ),
    (
        Mismatch,
        Binary(BinaryOp::Or, b'i', b'i'),
        Binary(BinaryOp::Or, b'b', b'b'),
    ),
    (
        Mismatch,
        Binary(BinaryOp::Eq, b'b', b'1'),
        Binary(BinaryOp::Eq, b'i', b'1'),
    ),
    (
        Mismatch,
        Binary(BinaryOp::Eq, b'p', b'q'),
        Binary(BinaryOp::Eq, b'p', b'p'),
    ),
    (
        Mismatch,
        Binary(BinaryOp::Ne, b'n', b'1'),
        Binary(BinaryOp::Ne, b'n', b'q'),
    ),
    (
        Mismatch,
        Update(BinaryOp::Add, true, b'b', b'1'),
        Update(BinaryOp::Add, true, b'i', b'1'),
    ),
    (
        BareNil,
        Binary(BinaryOp::Eq, b'n', b'n'),
        Binary(BinaryOp::Eq, b'p', b'n'),
    ),
    (
        BareNil,
        Binary(BinaryOp::Ne, b'n', b'n'),
        Binary(BinaryOp::Ne, b'b', b'b'),
    ),
    (
        ConstZeroDivisor,
        Binary(BinaryOp::Div, b'i', b'0'),
        Binary(BinaryOp::Div, b'0', b'i'),
    ),
    (
        ConstZeroDivisor,
        Binary(BinaryOp::Rem, b'1', b'0'),
        Binary(BinaryOp::Mul, b'1', b'0'),
    ),
    (
        ConstZeroDivisor,
        Update(BinaryOp::Rem, true, b'i', b'0'),
        Update(BinaryOp::Rem, true, b'i', b'-'),
    ),
];

/// The constants that are in range, and the nearest that are not.
pub(super) static CONSTANTS: [Row; 8] = [
    (
        ConstRange,
        Number(9_223_372_036_854_775_808),
        Number(9_223_372_036_854_775_807),
    ),
    (
        ConstRange,
        Unary(UnaryOp::Minus, b'<'),
        Unary(UnaryOp::Minus, b'>'),
    ),
    (
        ConstRange,
        Binary(BinaryOp::Add, b'>', b'1'),
        Binary(BinaryOp::Add, b'>', b'0'),
    ),
    (
        ConstRange,
        Binary(BinaryOp::Add, b'-', b'<'),
        Binary(BinaryOp::Add, b'1', b'<'),
    ),
    (
        ConstRange,
        Binary(BinaryOp::Sub, b'<', b'1'),
        Binary(BinaryOp::Sub, b'-', b'>'),
    ),
    (
        ConstRange,
        Binary(BinaryOp::Mul, b'<', b'-'),
        Binary(BinaryOp::Mul, b'>', b'-'),
    ),
    (
        ConstRange,
        Binary(BinaryOp::Div, b'<', b'-'),
        Binary(BinaryOp::Rem, b'<', b'-'),
    ),
    (
        ConstRange,
        Binary(BinaryOp::Add, b'>', b'>'),
        Binary(BinaryOp::Add, b'>', b'i'),
    ),
];

pub(super) static VALUES: [Row; 13] = [
    (BareNil, Define(b'n'), DefineAs(b'p', b'n')),
    (NotAssignable, DefineAs(b'i', b'b'), DefineAs(b'i', b'1')),
    (NotAssignable, DefineAs(b'i', b'n'), DefineAs(b'q', b'n')),
    (NotAssignable, DefineAs(b'p', b'q'), DefineAs(b'p', b'p')),
    (
        NotAssignable,
        Assign(true, b'i', b'b'),
        Assign(true, b'b', b'b'),
    ),
    (
        NotAssignable,
        Return(Some(b'i'), Some(b'b')),
        Return(Some(b'i'), Some(b'i')),
    ),
    (
        NotPlace,
        Assign(false, b'?', b'1'),
        Assign(true, b'i', b'1'),
    ),
    (
        NotPlace,
        Update(BinaryOp::Sub, false, b'i', b'1'),
        Update(BinaryOp::Sub, true, b'i', b'1'),
    ),
    (NoSuchField, Selector(false), Selector(true)),
    (NotStatement, Alone(false), Alone(true)),
    (NotBool, Condition(b'1'), Condition(b'b')),
    (NotInt, Size(b'b'), Size(b'i')),
    (ConstSize, Size(b'-'), Size(b'0')),
];

pub(super) static ENDS: [Row; 6] = [
    (ReturnCount, Return(None, Some(b'1')), Return(None, None)),
    (
        ReturnCount,
        Return(Some(b'i'), None),
        Return(Some(b'i'), Some(b'1')),
    ),
    (MissingReturn, End(true, false), End(true, true)),
    (MissingReturn, End(true, false), End(false, false)),
    (LoopOutside, Branch(false), Branch(true)),
    (NoMain, TextEnd(false), TextEnd(true)),
];

/// Nodes that break other rules too, or would but for the first, or have no other form.
pub(super) static FIRST: [(Rule, Sample); 15] = [
    (BadImport, Import(true, "os")),
    (Redeclared, Declared(true, "len")),
    (NoSuchName, TypeName(FMT_MISSING)),
    (NoSuchName, Name(Role::Value, FMT_MISSING)),
    (NoSuchName, CallMissing),
    (Mismatch, Binary(BinaryOp::Div, b'b', b'0')),
    (Mismatch, Update(BinaryOp::Div, false, b'b', b'0')),
    (NotPlace, Update(BinaryOp::Div, false, b'i', b'0')),
    (NotPlace, Assign(false, b'i', b'b')),
    (NotCall, CallNothing),
    (GoTarget, GoNothing),
    (NotChannel, Send(b'i', b'b')),
    (NotChannel, Unary(UnaryOp::Receive, b'n')),
    (ConstZeroDivisor, Binary(BinaryOp::Rem, b'<', b'0')),
    (ReturnCount, Return(None, Some(b'n'))),
];
