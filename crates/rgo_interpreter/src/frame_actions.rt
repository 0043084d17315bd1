//! What actions do to the frames of any machine: what the source machine and the three-address machine have in common.

ghost use Rattle.std.specs.Prelude.{◌≡◌, ◌<◌, ℕ, length, IfSome, MatchOption};
ghost use Rattle.rgo_memory.specs.declared.values.Value as the_value;
ghost use Rattle.rgo_interpreter.specs.Acting.{stand_of, frame_after_operation};
ghost use Rattle.rgo_machine.specs.Actions as spec;

use crate::machines::Stand;
use rgo_ast::Place;
use rgo_memory::Value;
use rgo_typed::{Action, Base, Row, Type};
use std::alloc::Global;

/// The type of an action that returns no value. Allocates nothing, so it may be made at each step.
pub fn no_type(alloc: Global) -> Type
    ensures { result ≡ spec.no_type }
{
    Type {
        layers: Row::new(Vec::new(alloc)),
        base: Base::Int,
    }
}

/// Whether a value is true. One that is not a bool counts as false, so that every branch has a way.
#[inline(always)]
pub fn is_true(value: Value) -> bool
    ensures { result ≡ spec.is_true value }
{
    match value {
        Value::Bool(b) => b,
        _ => false,
    }
}

/// Where a frame of type `F` is before this action on these values, at a place of the text: at a channel, if the action is an
/// operation on one. A closed channel returns `blank`, which depends on the type that the receiver expects, so the caller passes it.
pub fn at_channel<F>(action: Action, blank: Value, at: Place, values: &[Value]) -> Stand
    ensures { (go_on : the_value.Value → F)
        → result ≡ stand_of (spec.at_channel action blank at go_on values.now) }
{
    match (action, values) {
        (Action::Recv, [channel]) => Stand::Receive {
            channel: *channel,
            blank,
        },
        (Action::Send, [channel, value]) => Stand::Send {
            channel: *channel,
            value: *value,
            place: at,
        },
        (Action::Close, [channel]) => Stand::Close {
            channel: *channel,
            place: at,
        },
        (
            Action::Int(_)
            | Action::Bool(_)
            | Action::Nil
            | Action::Copy
            | Action::Binary(_)
            | Action::Neg
            | Action::Not
            | Action::IsNil
            | Action::Len
            | Action::Load(_)
            | Action::Store(_)
            | Action::At
            | Action::Put
            | Action::New(_)
            | Action::Slice
            | Action::Chan
            | Action::Recv
            | Action::Send
            | Action::Close
            | Action::Get(_)
            | Action::Set(_),
            _,
        ) => Stand::Elsewhere,
    }
}

/// The value with which a frame of type `F` continues after this action on these values, if it is an operation on a
/// channel that returned `value`; `None` for any other action. A send or a close returns nil, whatever `value` is.
pub fn given<F>(action: Action, values: &[Value], value: Value) -> Option<Value>
    ensures passes { (f : F) (blank : the_value.Value) (at : ℕ) (go_on : the_value.Value → F)
        → MatchOption result (frame_after_operation f value (spec.at_channel action blank at go_on values.now) ≡ f)
        (λ v. frame_after_operation f value (spec.at_channel action blank at go_on values.now) ≡ go_on v) }
    ensures some { IfSome result (λ v. 0 < length values.now) }
{
    match (action, values) {
        (Action::Recv, [_]) => Some(value),
        (Action::Send, [_, _]) => Some(Value::Nil),
        (Action::Close, [_]) => Some(Value::Nil),
        (
            Action::Int(_)
            | Action::Bool(_)
            | Action::Nil
            | Action::Copy
            | Action::Binary(_)
            | Action::Neg
            | Action::Not
            | Action::IsNil
            | Action::Len
            | Action::Load(_)
            | Action::Store(_)
            | Action::At
            | Action::Put
            | Action::New(_)
            | Action::Slice
            | Action::Chan
            | Action::Recv
            | Action::Send
            | Action::Close
            | Action::Get(_)
            | Action::Set(_),
            _,
        ) => None,
    }
}
