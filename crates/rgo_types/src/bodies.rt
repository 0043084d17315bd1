//! Bodies of functions. They are checked after all declarations, since a body may use what is declared after it; each begins from
//! the package alone, so no body sees the variables of another.
#![tactic(auto)]

ghost use Rattle.std.specs.Prelude.{◌≡◌, ◌++◌, IfOk, OnOk, map};
ghost use Rattle.rgo_ast.specs.Views.{decl_of, function_of};
ghost use Rattle.rgo_typed.specs.Views as typed;
ghost use Rattle.rgo_typed.specs.Views.{stmt_of};
ghost use Rattle.rgo_typing_rules.specs.Checks.{Checks};
ghost use Rattle.rgo_typing_rules.specs.Views.{type_of_kind, optional_kind_of};
ghost use Rattle.rgo_types.specs.Nested.{Makes, body_outcome, function_from};
ghost use Rattle.rgo_types.specs.Programs as spec;

use crate::flow::stmts_terminate;
use crate::statements::check_stmts;
use rgo_ast::{Decl, Function as Source};
use rgo_typed::{Function, Stmt, Type};
use rgo_typing_expressions::{Checker, Scope};
use rgo_typing_nodes::check_end;
use rgo_typing_packages::{add_bindings, copied, count, result_kind, types};
use rgo_typing_rules::{Kind, TypeError};
use rgo_typing_statements::Enclosing;
use std::alloc::{AllocError, Global};

fn optional_type(alloc: Global, kind: Option<Kind<'_>>) -> Result<Option<Type>, AllocError>
    ensures { IfOk result (λ ty. ty ≡ optional_kind_of kind.entry) }
{
    match kind {
        None => Ok(None),
        Some(kind) => Ok(Some(kind.to_type(alloc)?)),
    }
}

/// The checker at the beginning of a function's body. The parameters are declared without a check, since the check of the package
/// has refused bad ones.
fn at_body<'p, 'a>(top: &Checker<'p, 'a>, f: &'a Source) -> Result<Checker<'p, 'a>, AllocError>
    ensures { IfOk result (λ c. c ≡ spec.at_body top.now (function_of f.now)) }
{
    let mut scope = Scope::new(top.alloc());
    add_bindings(top, &mut scope, &f.params)?;
    Ok(Checker::with_scope(top.alloc(), top.globals(), scope))
}

/// Checks the statements of a function, and then its end: a missing `return` is reported only if the body breaks no other rule.
#[tactic(auto, using(rgo_typing_rules::proofs::Refusals::refusals))]
fn check_stmts_of<'a>(
    checker: &mut Checker<'_, 'a>,
    result_type: Option<Kind<'a>>,
    f: &'a Source,
) -> Result<Vec<Stmt>, TypeError>
    ensures { Makes result (body_outcome (optional_kind_of result_type.entry) checker.old (function_of f.now))
        checker.new }
{
    let around = Enclosing {
        result_type,
        in_loop: false,
    };
    let body = check_stmts(checker, around, &f.body)?;
    check_end(f.end, f.result_type.is_some(), stmts_terminate(&f.body))?;
    Ok(body)
}

/// The typed tree of a function, from its local variables, the first of them its parameters, and its
/// checked statements.
fn typed_function(
    alloc: Global,
    f: &Source,
    params: usize,
    locals: &[Kind<'_>],
    result_type: Option<Kind<'_>>,
    body: Vec<Stmt>,
) -> Result<Function, AllocError>
    ensures { IfOk result (λ t. typed.typed_function_of t ≡ record {
      name = f.now.name.name;
      params = params;
      locals = map type_of_kind locals.now;
      result_type = optional_kind_of result_type.entry;
      body = map stmt_of body.items;
      end = f.now.end;
    }) }
{
    let name = copied(alloc, &f.name.name)?;
    let locals = types(alloc, locals)?;
    let result_type = optional_type(alloc, result_type)?;
    Ok(Function {
        name,
        params,
        locals,
        result_type,
        body,
        end: f.end,
    })
}

/// Checks the body of a function from where it begins, and makes the function's typed tree.
#[tactic(auto, using(rgo_typing_rules::proofs::Refusals::refusals))]
fn check_from<'a>(
    checker: &mut Checker<'_, 'a>,
    result_type: Option<Kind<'a>>,
    f: &'a Source,
) -> Result<Function, TypeError>
    ensures checked { Checks result (body_outcome (optional_kind_of result_type.entry) checker.old (function_of f.now)).sites }
    ensures typed { IfOk result (λ t. typed.typed_function_of t
        ≡ function_from (optional_kind_of result_type.entry) checker.old (function_of f.now)) }
{
    // The scope numbers variables in the order of their declarations, and keeps them when their blocks end: before the body it has
    // the parameters, after it all local variables.
    let params = count(checker.scope());
    let body = check_stmts_of(checker, result_type, f)?;
    let locals = checker.scope().kinds();
    Ok(typed_function(checker.alloc(), f, params, locals, result_type, body)?)
}

/// Checks a function whose signature was checked, and makes its typed tree.
fn check_body<'a>(top: &Checker<'_, 'a>, f: &'a Source) -> Result<Function, TypeError>
    ensures checked { Checks result (spec.body_sites top.now (function_of f.now)) }
    ensures typed { IfOk result (λ t. typed.typed_function_of t ≡ spec.typed_function top.now (function_of f.now)) }
{
    let mut checker = at_body(top, f)?;
    check_from(&mut checker, result_kind(top, &f.result_type), f)
}

/// Checks the body of a declaration, if it has one. Types and package variables were checked with the package.
#[tactic(auto, using(std::proofs::lemmas::List::map_push))]
fn check_decl<'a>(
    top: &Checker<'_, 'a>,
    functions: &mut Vec<Function>,
    decl: &'a Decl,
) -> Result<(), TypeError>
    ensures checked { Checks result (spec.decl_body_sites top.now (decl_of decl.now)) }
    ensures typed { OnOk result (map typed.typed_function_of functions.new.items
        ≡ map typed.typed_function_of functions.old.items ++ spec.typed_decl top.now (decl_of decl.now)) }
{
    match decl {
        Decl::Types(_, _) | Decl::Vars(_, _) => Ok(()),
        Decl::Func(f) => {
            functions.push(check_body(top, f)?)?;
            Ok(())
        }
    }
}

/// Checks the bodies of all functions, in the order of the text.
pub(crate) fn check_bodies<'a>(
    top: &Checker<'_, 'a>,
    decls: &'a [Decl],
) -> Result<Vec<Function>, TypeError>
    ensures checked { Checks result (spec.bodies_sites top.now (map decl_of decls.now)) }
    ensures typed { IfOk result (λ v. map typed.typed_function_of v.items ≡ spec.typed_functions top.now (map decl_of decls.now)) }
{
    let mut functions = Vec::new(top.alloc());
    for decl in decls {
        check_decl(top, &mut functions, decl)?;
    }
    Ok(functions)
}
