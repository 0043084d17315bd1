//! Which rules calls of functions and `go` may break. Arguments are compared with their parameters before they are counted: in a
//! call of `f(int, int)`, `f(true)` has a wrong type and not a wrong number.
#![tactic(auto, unfolding(crate::specs::Rules::broken))]

ghost use Rattle.std.specs.Prelude.{◌≡◌, map};
ghost use Rattle.rgo_typing_rules.specs.Nodes as spec;
ghost use Rattle.rgo_typing_rules.specs.Rules.{broken};
ghost use Rattle.rgo_typing_rules.specs.Views.{shape_of, signature_of_kinds};

use crate::meanings::Signature;
use crate::roles::Role;
use crate::rules::Rule;
use crate::shapes::Shape;
use crate::values::has_misfit;

/// Whether an expression has to have a value.
pub(crate) fn wants_value(role: Role) -> bool
    ensures { result ≡ spec.wants_value role }
{
    matches!(role, Role::Value | Role::Printed)
}

pub(crate) fn called(role: Role, signature: &Signature<'_>, args: &[Shape<'_>]) -> Option<Rule>
    ensures { result
        ≡ broken (spec.Call role (signature_of_kinds signature.now) (map shape_of args.now)) }
{
    if has_misfit(&signature.params, args) {
        Some(Rule::NotAssignable)
    } else if args.len() != signature.params.len() {
        Some(Rule::ArgCount)
    } else {
        Rule::NoResult.when(signature.result_type.is_none() && wants_value(role))
    }
}

pub(crate) fn started(signature: &Signature<'_>, args: &[Shape<'_>]) -> Option<Rule>
    ensures { result ≡ broken (spec.Go (signature_of_kinds signature.now) (map shape_of args.now)) }
{
    if has_misfit(&signature.params, args) {
        Some(Rule::NotAssignable)
    } else if args.len() != signature.params.len() {
        Some(Rule::ArgCount)
    } else {
        Rule::GoTarget.when(signature.result_type.is_some())
    }
}
