//! Names that are declared in a scope: fields, parameters, local variables, and the names of a package.
#![tactic(auto)]

ghost use Rattle.std.specs.Prelude.{◌≡◌, [], ◌∷◌, IfOk, OnOk, map, length};
ghost use Rattle.rgo_ast.specs.Views.{binding_of};
ghost use Rattle.rgo_typing_rules.specs.Checks.{Checks};
ghost use Rattle.rgo_typing_rules.specs.Views.{type_of_kind};
ghost use Rattle.rgo_typing_expressions.specs.Scopes.{no_locals, with_local};
ghost use Rattle.rgo_typing_packages.specs.Names as spec;
ghost use Rattle.rgo_typing_packages.specs.Outcomes.{ChecksInto};

use rgo_ast::{Binding, Ident};
use rgo_typing_expressions::{Checker, Scope};
use rgo_typing_nodes::check_declared;
use rgo_typing_rules::{Kind, TypeError};
use std::alloc::AllocError;

/// The number of names declared so far, and so the number of the next local variable. It never falls, also at the end of a block.
pub fn count(scope: &Scope<'_>) -> usize
    ensures { result ≡ length scope.now.types }
{
    scope.kinds().len()
}

/// Checks that the innermost block has not declared a name before, and refuses it if it has.
pub fn check_name(scope: &Scope<'_>, x: &Ident) -> Result<(), TypeError>
    ensures { Checks result (spec.name_site scope.now x.now ∷ []) }
{
    let again = scope.is_declared_here(x.name.bytes());
    check_declared(x.at, again, x.name.bytes())
}

/// Declares a name in the innermost block.
pub(crate) fn declare_name<'a>(
    scope: &mut Scope<'a>,
    kind: Kind<'a>,
    x: &'a Ident,
) -> Result<(), TypeError>
    ensures { ChecksInto result (spec.name_site scope.old x.now ∷ [])
        scope.new (with_local x.now.name (type_of_kind kind.entry) scope.old) }
{
    check_name(scope, x)?;
    scope.declare(x.name.bytes(), kind)?;
    Ok(())
}

/// Declares names one after another with one type.
pub(crate) fn declare_names<'a>(
    scope: &mut Scope<'a>,
    kind: Kind<'a>,
    names: &'a [Ident],
) -> Result<(), TypeError>
    ensures { ChecksInto result (spec.name_sites (type_of_kind kind.entry) scope.old names.now)
        scope.new (spec.with_names (type_of_kind kind.entry) scope.old names.now) }
{
    for x in names {
        declare_name(scope, kind, x)?;
    }
    Ok(())
}

/// Declares names with one type. The names are checked before the type, in the order of the text, although the meaning of the type
/// is found first: it does not depend on the names.
#[tactic(auto, using(rgo_typing_rules::proofs::Refusals::refusals))]
fn declare_binding<'a>(
    top: &Checker<'_, '_>,
    scope: &mut Scope<'a>,
    binding: &'a Binding,
) -> Result<(), TypeError>
    ensures { ChecksInto result (spec.binding_sites top.now scope.old (binding_of binding.now))
        scope.new (spec.with_binding top.now scope.old (binding_of binding.now)) }
{
    let kind = top.resolve(&binding.ty);
    declare_names(scope, kind, &binding.names)?;
    top.check_type(&binding.ty)
}

/// Declares names of several types.
fn declare_bindings<'a>(
    top: &Checker<'_, '_>,
    scope: &mut Scope<'a>,
    bindings: &'a [Binding],
) -> Result<(), TypeError>
    ensures { ChecksInto result (spec.bindings_sites top.now scope.old (map binding_of bindings.now))
        scope.new (spec.with_bindings top.now scope.old (map binding_of bindings.now)) }
{
    for binding in bindings {
        declare_binding(top, scope, binding)?;
    }
    Ok(())
}

/// The fields of a struct, or the parameters of a function.
pub(crate) fn check_bindings<'a>(
    top: &Checker<'_, '_>,
    bindings: &'a [Binding],
) -> Result<Scope<'a>, TypeError>
    ensures checked { Checks result (spec.bindings_sites top.now no_locals (map binding_of bindings.now)) }
    ensures value { IfOk result (λ g. g ≡ spec.with_bindings top.now no_locals (map binding_of bindings.now)) }
{
    let mut scope = Scope::new(top.alloc());
    declare_bindings(top, &mut scope, bindings)?;
    Ok(scope)
}

/// Adds names of one type that were checked before. So only memory can be missing, and the error is not a refusal.
fn add_names<'a>(
    scope: &mut Scope<'a>,
    kind: Kind<'a>,
    names: &'a [Ident],
) -> Result<(), AllocError>
    ensures { OnOk result (scope.new ≡ spec.with_names (type_of_kind kind.entry) scope.old names.now) }
{
    for x in names {
        scope.declare(x.name.bytes(), kind)?;
    }
    Ok(())
}

/// Adds parameters that were checked before.
pub fn add_bindings<'a>(
    top: &Checker<'_, '_>,
    scope: &mut Scope<'a>,
    bindings: &'a [Binding],
) -> Result<(), AllocError>
    ensures { OnOk result (scope.new ≡ spec.with_bindings top.now scope.old (map binding_of bindings.now)) }
{
    for binding in bindings {
        add_names(scope, top.resolve(&binding.ty), &binding.names)?;
    }
    Ok(())
}
