//! Which rules literals, sends, assignments and returns may break: values and where they go.
#![tactic(auto, unfolding(crate::specs::Rules::broken))]

ghost use Rattle.std.specs.Prelude.{◌≡◌, map};
ghost use Rattle.rgo_typing_rules.specs.Nodes as spec;
ghost use Rattle.rgo_typing_rules.specs.Rules.{broken, misfits_sent, misfits_assigned};
ghost use Rattle.rgo_typing_rules.specs.Views.{fields_of, known_of, optional_kind_of, optional_shape_of, shape_of};

use crate::kinds::Kind;
use crate::operator_rules::{divides, is_zero};
use crate::rules::Rule;
use crate::shapes::Shape;
use crate::values::{has_known_misfit, has_misfit, has_unknown};
use rgo_ast::BinaryOp;

pub(crate) fn literal(fields: Option<&[Kind<'_>]>, values: &[Shape<'_>]) -> Option<Rule>
    ensures { result ≡ broken (spec.Literal (fields_of fields.entry) (map shape_of values.now)) }
{
    match fields {
        None => Some(Rule::PointerBase),
        Some(fields) => {
            if has_misfit(fields, values) {
                Some(Rule::NotAssignable)
            } else {
                Rule::LiteralFields.when(!values.is_empty() && values.len() != fields.len())
            }
        }
    }
}

pub(crate) fn keyed(
    fields: Option<&[Option<Kind<'_>>]>,
    twice: bool,
    values: &[Shape<'_>],
) -> Option<Rule>
    ensures { result ≡ broken (spec.Keyed (known_of fields.entry) twice (map shape_of values.now)) }
{
    match fields {
        None => Some(Rule::PointerBase),
        Some(fields) => {
            if has_known_misfit(fields, values) {
                Some(Rule::NotAssignable)
            } else {
                Rule::LiteralFields.when(has_unknown(fields) || twice)
            }
        }
    }
}

/// Whether a value does not fit a channel's elements. The channel was checked to be one, so it has a type.
fn misfits_channel(channel: Shape<'_>, value: Shape<'_>) -> bool
    ensures { result ≡ misfits_sent (shape_of channel.entry) (shape_of value.entry) }
{
    match channel {
        Shape::Value(kind) => !value.fits(kind.element()),
        _ => false,
    }
}

pub(crate) fn sent(channel: Shape<'_>, value: Shape<'_>) -> Option<Rule>
    ensures { result ≡ broken (spec.Send (shape_of channel.entry) (shape_of value.entry)) }
{
    if !channel.is_chan() {
        Some(Rule::NotChannel)
    } else {
        Rule::NotAssignable.when(misfits_channel(channel, value))
    }
}

/// Whether a value does not fit what it is assigned to. The target was checked to be a place, so it has a type.
fn misfits_target(target: Shape<'_>, value: Shape<'_>) -> bool
    ensures { result ≡ misfits_assigned (shape_of target.entry) (shape_of value.entry) }
{
    match target {
        Shape::Value(kind) => !value.fits(kind),
        _ => false,
    }
}

pub(crate) fn assigned(at_place: bool, left: Shape<'_>, right: Shape<'_>) -> Option<Rule>
    ensures { result ≡ broken (spec.Assign at_place (shape_of left.entry) (shape_of right.entry)) }
{
    if !at_place {
        Some(Rule::NotPlace)
    } else {
        Rule::NotAssignable.when(misfits_target(left, right))
    }
}

pub(crate) fn updated(
    op: BinaryOp,
    at_place: bool,
    left: Shape<'_>,
    right: Shape<'_>,
) -> Option<Rule>
    ensures { result
        ≡ broken (spec.Update op at_place (shape_of left.entry) (shape_of right.entry)) }
{
    if !(left.is_int() && right.is_int()) {
        Some(Rule::Mismatch)
    } else if !at_place {
        Some(Rule::NotPlace)
    } else {
        Rule::ConstZeroDivisor.when(divides(op) && is_zero(right))
    }
}

pub(crate) fn returned(wanted: Option<Kind<'_>>, given: Option<Shape<'_>>) -> Option<Rule>
    ensures { result
        ≡ broken (spec.Return (optional_kind_of wanted.entry) (optional_shape_of given.entry)) }
{
    match (wanted, given) {
        (None, None) => None,
        (Some(kind), Some(shape)) => Rule::NotAssignable.when(!shape.fits(kind)),
        _ => Some(Rule::ReturnCount),
    }
}
