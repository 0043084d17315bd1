//! Declarations of local variables. A variable gets the next number of its function, also if it shadows another or is out of scope
//! later, so that a number means one variable of the function.
#![tactic(auto)]

ghost use Rattle.std.specs.Prelude.{◌≡◌, [], ◌∷◌, IfOk, map};
ghost use Rattle.rgo_ast.specs.Tree.{Zero};
ghost use Rattle.rgo_ast.specs.Views.{binding_of, local_var_of, expr_of};
ghost use Rattle.rgo_typed.specs.Tree as tree;
ghost use Rattle.rgo_typed.specs.Views.{stmt_of, term_of};
ghost use Rattle.rgo_typing_rules.specs.Checks.{Checks};
ghost use Rattle.rgo_typing_rules.specs.Views.{type_of_kind, optional_kind_of, shape_of};
ghost use Rattle.rgo_typing_expressions.specs.Terms as terms;
ghost use Rattle.rgo_typing_expressions.specs.Terms.{type_in};
ghost use Rattle.rgo_typing_packages.specs.Names.{name_site};
ghost use Rattle.rgo_typing_packages.specs.Outcomes.{ChecksInto};
ghost use Rattle.rgo_typing_statements.specs.Outcomes.{Appends, var_outcome, vars_outcome, define_outcome, zeros_outcome};
ghost use Rattle.rgo_typing_statements.specs.Statements as spec;

use rgo_ast::{Binding, Expr, Ident, LocalVar, Place};
use rgo_typed::{Base, Stmt};
use rgo_typing_expressions::{Checked, Checker, with_type};
use rgo_typing_nodes::{check_define, check_define_as};
use rgo_typing_packages::{check_name, count};
use rgo_typing_rules::{Kind, Role, Shape, TypeError};
use std::alloc::{AllocError, Global};

/// Declares a local variable in the innermost block.
fn declare_local<'a>(
    checker: &mut Checker<'_, 'a>,
    kind: Kind<'a>,
    x: &'a Ident,
) -> Result<(), TypeError>
    ensures { ChecksInto result (name_site checker.old.scope x.now ∷ [])
        checker.new (spec.with_local_variable x.now (type_of_kind kind.entry) checker.old) }
{
    check_name(checker.scope(), x)?;
    checker.declare(x.name.bytes(), kind)?;
    Ok(())
}

/// Declares local variables that begin with the zero of their type.
#[tactic(auto, using(std::proofs::lemmas::List::map_push))]
fn declare_zeros<'a>(
    checker: &mut Checker<'_, 'a>,
    out: &mut Vec<Stmt>,
    kind: Kind<'a>,
    names: &'a [Ident],
) -> Result<(), TypeError>
    ensures { Appends result (zeros_outcome checker.old (type_of_kind kind.entry) names.now)
        checker.new out.old.items out.new.items }
{
    for x in names {
        let number = count(checker.scope());
        declare_local(checker, kind, x)?;
        out.push(Stmt::Zero(number, kind.to_type(checker.alloc())?, x.at))?;
    }
    Ok(())
}

/// `var a, b T`. Faults of the names are reported before that of the type, but the names are not in the type's scope: so the type is
/// checked first, and its refusal is returned last.
#[tactic(auto, using(rgo_typing_rules::proofs::Refusals::refusals))]
fn declare_zero<'a>(
    checker: &mut Checker<'_, 'a>,
    out: &mut Vec<Stmt>,
    binding: &'a Binding,
) -> Result<(), TypeError>
    ensures { Appends result (var_outcome checker.old (Zero (binding_of binding.now)))
        checker.new out.old.items out.new.items }
{
    let kind = checker.resolve(&binding.ty);
    let ty = checker.check_type(&binding.ty);
    declare_zeros(checker, out, kind, &binding.names)?;
    ty
}

/// The type that a value of this shape has in a variable. Without a type of its own it can only be a constant, which is an `int`:
/// the rules refuse the other shapes.
pub(crate) fn kind_in(shape: Shape<'_>) -> Kind<'_>
    ensures { type_of_kind result ≡ type_in (shape_of shape.entry) }
{
    match shape {
        Shape::Value(kind) => kind,
        _ => Kind::Plain(Base::Int),
    }
}

/// The type of a variable that is declared with this type, if any, and a value of this shape.
fn kind_or<'a>(wanted: Option<Kind<'a>>, shape: Shape<'a>) -> Kind<'a>
    ensures { type_of_kind result ≡ spec.type_or (optional_kind_of wanted.entry) (shape_of shape.entry) }
{
    match wanted {
        Some(kind) => kind,
        None => kind_in(shape),
    }
}

/// Checks the declaration of a variable with a value.
fn check_definition(wanted: Option<Kind<'_>>, shape: Shape<'_>, at: Place) -> Result<(), TypeError>
    ensures { Checks result ((at, spec.define_node (optional_kind_of wanted.entry) (shape_of shape.entry)) ∷ []) }
{
    match wanted {
        None => check_define(at, shape),
        Some(kind) => check_define_as(at, kind, shape),
    }
}

/// Checks the declaration of a variable with a value of this shape, and declares it.
#[tactic(auto, using(rgo_typing_rules::proofs::Refusals::refusals))]
fn declare_defined<'a>(
    checker: &mut Checker<'_, 'a>,
    x: &'a Ident,
    wanted: Option<Kind<'a>>,
    shape: Shape<'a>,
    at: Place,
) -> Result<Kind<'a>, TypeError>
    ensures checked { ChecksInto result (name_site checker.old.scope x.now
        ∷ (at, spec.define_node (optional_kind_of wanted.entry) (shape_of shape.entry)) ∷ [])
        checker.new (spec.with_local_variable x.now (spec.type_or (optional_kind_of wanted.entry) (shape_of shape.entry)) checker.old) }
    ensures kind { IfOk result (λ k. type_of_kind k ≡ spec.type_or (optional_kind_of wanted.entry) (shape_of shape.entry)) }
{
    let kind = kind_or(wanted, shape);
    declare_local(checker, kind, x)?;
    check_definition(wanted, shape, at)?;
    Ok(kind)
}

/// The typed tree of a variable that begins with a value.
fn declared(
    alloc: Global,
    number: usize,
    kind: Kind<'_>,
    value: Checked<'_>,
    at: Place,
) -> Result<Stmt, AllocError>
    ensures { IfOk result (λ s. stmt_of s
        ≡ tree.Declare number (type_of_kind kind.entry) (terms.with_type (type_of_kind kind.entry) (term_of value.entry.term)) at) }
{
    let value = Box::new(alloc, with_type(alloc, kind, value.term)?)?;
    Ok(Stmt::Declare(number, kind.to_type(alloc)?, value, at))
}

/// `a := x`, `var a = x` and `var a T = x`, at the operator (The Go Programming Language
/// Specification, "Short variable declarations").
#[tactic(auto, using(rgo_typing_rules::proofs::Refusals::refusals, std::proofs::lemmas::List::map_push))]
pub(crate) fn define<'a>(
    checker: &mut Checker<'_, 'a>,
    out: &mut Vec<Stmt>,
    x: &'a Ident,
    wanted: Option<Kind<'a>>,
    value: &'a Expr,
    at: Place,
) -> Result<(), TypeError>
    ensures { Appends result (define_outcome checker.old x.now (optional_kind_of wanted.entry) (expr_of value.now) at)
        checker.new out.old.items out.new.items }
{
    // The value comes before the declaration: in `x := x` the right one is the `x` outside.
    let value = checker.check_expr(Role::Value, value)?;
    let number = count(checker.scope());
    let kind = declare_defined(checker, x, wanted, value.shape, at)?;
    out.push(declared(checker.alloc(), number, kind, value, at)?)?;
    Ok(())
}

/// A declaration of local variables (The Go Programming Language Specification, "Variable
/// declarations").
#[tactic(auto, using(rgo_typing_rules::proofs::Refusals::refusals))]
fn declare_var<'a>(
    checker: &mut Checker<'_, 'a>,
    out: &mut Vec<Stmt>,
    var: &'a LocalVar,
) -> Result<(), TypeError>
    ensures { Appends result (var_outcome checker.old (local_var_of var.now)) checker.new out.old.items out.new.items }
{
    match var {
        LocalVar::Zero(binding) => declare_zero(checker, out, binding),
        LocalVar::Typed(x, ty, value, at) => {
            checker.check_type(ty)?;
            let kind = checker.resolve(ty);
            define(checker, out, x, Some(kind), value, *at)
        }
        LocalVar::Inferred(x, value, at) => define(checker, out, x, None, value, *at),
    }
}

/// Declarations of local variables, in order.
pub(crate) fn declare_vars<'a>(
    checker: &mut Checker<'_, 'a>,
    out: &mut Vec<Stmt>,
    vars: &'a [LocalVar],
) -> Result<(), TypeError>
    ensures { Appends result (vars_outcome checker.old (map local_var_of vars.now)) checker.new out.old.items out.new.items }
{
    for var in vars {
        declare_var(checker, out, var)?;
    }
    Ok(())
}
