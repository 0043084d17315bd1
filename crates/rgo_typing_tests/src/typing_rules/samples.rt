//! Nodes without lists, with their values as letters.

use super::letters::{plain_kind, plain_value};
use rgo_ast::{BinaryOp, UnaryOp};
use rgo_typing_rules::{Meaning, Node, Role};

/// A node: the variants are those of `Node`, with a letter for each value and for each type.
#[derive(Clone, Copy)]
pub(super) enum Sample {
    Import(bool, &'static str),
    Declared(bool, &'static str),
    End(bool, bool),
    TextEnd(bool),
    TypeName(Option<Meaning>),
    BaseName(Option<Meaning>),
    Pointed(Option<Meaning>),
    Number(u64),
    Text(Role),
    Name(Role, Option<Meaning>),
    Size(u8),
    Selector(bool),
    Unary(UnaryOp, u8),
    Binary(BinaryOp, u8, u8),
    CallMissing,
    CallNothing,
    Alone(bool),
    Send(u8, u8),
    Assign(bool, u8, u8),
    Update(BinaryOp, bool, u8, u8),
    Define(u8),
    DefineAs(u8, u8),
    Condition(u8),
    GoNothing,
    Return(Option<u8>, Option<u8>),
    Branch(bool),
}

pub(super) fn node_of(sample: Sample) -> Node<'static, 'static, 'static> {
    match sample {
        Sample::Import(again, path) => Node::Import(again, path.as_bytes()),
        Sample::Declared(again, name) => Node::Declared(again, name.as_bytes()),
        Sample::End(has_result, is_terminating) => Node::End(has_result, is_terminating),
        Sample::TextEnd(has_main) => Node::TextEnd(has_main),
        Sample::TypeName(meaning) => Node::TypeName(meaning),
        Sample::BaseName(meaning) => Node::BaseName(meaning),
        Sample::Pointed(meaning) => Node::Pointed(meaning),
        Sample::Number(n) => Node::Number(n),
        Sample::Text(role) => Node::Text(role),
        Sample::Name(role, meaning) => Node::Name(role, meaning),
        Sample::Size(value) => Node::Size(plain_value(value)),
        Sample::Selector(exists) => Node::Selector(exists),
        Sample::Unary(op, value) => Node::Unary(op, plain_value(value)),
        Sample::Binary(op, a, b) => Node::Binary(op, plain_value(a), plain_value(b)),
        Sample::CallMissing => Node::CallMissing,
        Sample::CallNothing => Node::CallNothing,
        Sample::Alone(may_stand) => Node::Alone(may_stand),
        Sample::Send(a, b) => Node::Send(plain_value(a), plain_value(b)),
        Sample::Assign(is_place, a, b) => Node::Assign(is_place, plain_value(a), plain_value(b)),
        Sample::Update(op, is_place, a, b) => {
            Node::Update(op, is_place, plain_value(a), plain_value(b))
        }
        Sample::Define(value) => Node::Define(plain_value(value)),
        Sample::DefineAs(kind, value) => Node::DefineAs(plain_kind(kind), plain_value(value)),
        Sample::Condition(value) => Node::Condition(plain_value(value)),
        Sample::GoNothing => Node::GoNothing,
        Sample::Return(kind, value) => Node::Return(kind.map(plain_kind), value.map(plain_value)),
        Sample::Branch(in_loop) => Node::Branch(in_loop),
    }
}
