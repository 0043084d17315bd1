//! The first rule that a node breaks. For each kind of node the tests come in the order of the rules' numbers, since of several
//! broken rules the one with the least number is reported. Why: docs/DECISIONS.md, "Checking: the order".
#![tactic(auto, unfolding(crate::specs::Rules::broken))]

ghost use Rattle.std.specs.Prelude.{◌≡◌};
ghost use Rattle.rgo_typing_rules.specs.Rules.{broken};
ghost use Rattle.rgo_typing_rules.specs.Views.{node_of};

use crate::builtins::builtin_called;
use crate::call_rules::{called, started};
use crate::name_rules::{base_name, declared, import, is_struct, name, type_name};
use crate::nodes::Node;
use crate::operator_rules::{binary, indexed, sized, unary};
use crate::roles::Role;
use crate::rules::Rule;
use crate::value_rules::{assigned, keyed, literal, returned, sent, updated};

/// The first rule that the node breaks; `None` if it breaks none. Each variant is listed, so that a new kind of node has to be
/// decided here.
pub fn broken(node: &Node<'_, '_, '_>) -> Option<Rule>
    ensures { result ≡ broken (node_of node.now) }
{
    match *node {
        Node::Import(again, path) => import(again, path),
        Node::Declared(again, name) => declared(again, name),
        Node::End(has_result, is_terminating) => Rule::MissingReturn.when(
            has_result && !is_terminating,
        ),
        Node::TextEnd(has_main) => Rule::NoMain.when(!has_main),
        Node::TypeName(meaning) => type_name(meaning),
        Node::BaseName(meaning) => base_name(meaning),
        Node::Pointed(meaning) => Rule::PointerBase.when(!is_struct(meaning)),
        // No text breaks it here, since the lexer refuses such numbers; the rule is about any tree.
        Node::Number(n) => Rule::ConstRange.when(n > 0x7FFF_FFFF_FFFF_FFFF),
        Node::Text(role) => Rule::StringPlace.when(!matches!(role, Role::Printed)),
        Node::Name(role, meaning) => name(role, meaning),
        Node::Size(size) => sized(size),
        Node::Selector(there) => Rule::NoSuchField.when(!there),
        Node::Index(operand, index) => indexed(operand, index),
        Node::Unary(op, operand) => unary(op, operand),
        Node::Binary(op, left, right) => binary(op, left, right),
        Node::Literal(fields, values) => literal(fields, values),
        Node::Keyed(fields, twice, values) => keyed(fields, twice, values),
        Node::CallMissing => Some(Rule::NoSuchName),
        Node::CallNothing => Some(Rule::NotCall),
        Node::Call(role, signature, args) => called(role, signature, args),
        Node::CallBuiltin(builtin, role, args) => builtin_called(builtin, role, args),
        Node::Alone(may_stand) => Rule::NotStatement.when(!may_stand),
        Node::Send(channel, value) => sent(channel, value),
        Node::Assign(at_place, left, right) => assigned(at_place, left, right),
        Node::Update(op, at_place, left, right) => updated(op, at_place, left, right),
        Node::Define(value) => Rule::BareNil.when(value.is_nil()),
        Node::DefineAs(kind, value) => Rule::NotAssignable.when(!value.fits(kind)),
        Node::Condition(test) => Rule::NotBool.when(!test.is_bool()),
        Node::Go(signature, args) => started(signature, args),
        Node::GoNothing => Some(Rule::GoTarget),
        Node::Return(wanted, given) => returned(wanted, given),
        Node::Branch(in_loop) => Rule::LoopOutside.when(!in_loop),
    }
}
