//! Calls as statements: those for what they do, and `go`. A call alone is not checked as other expressions are, since a print has no
//! term: its strings are taken from its arguments as they are written.
#![tactic(auto)]

ghost use Rattle.std.specs.Prelude.{◌≡◌, [], ◌∷◌, IfOk, map};
ghost use Rattle.rgo_ast.specs.Tree as ast;
ghost use Rattle.rgo_ast.specs.Views.{expr_of};
ghost use Rattle.rgo_typed.specs.Tree as tree;
ghost use Rattle.rgo_typed.specs.Views.{stmt_of, term_of};
ghost use Rattle.rgo_typing_rules.specs.Builtins.{result_of, action_of};
ghost use Rattle.rgo_typing_rules.specs.Checks.{Checks};
ghost use Rattle.rgo_typing_rules.specs.Nodes as node;
ghost use Rattle.rgo_typing_rules.specs.Views.{shape_of};
ghost use Rattle.rgo_typing_rules.specs.declared.roles.Role.TheVariants.{Alone};
ghost use Rattle.rgo_typing_expressions.specs.Callees.{named_callee};
ghost use Rattle.rgo_typing_expressions.specs.Checking.{nodes, call_place, call_node};
ghost use Rattle.rgo_typing_expressions.specs.Scopes.{meaning_of, signature_at};
ghost use Rattle.rgo_typing_expressions.specs.Terms.{typed_term as term_in};
ghost use Rattle.rgo_typing_statements.specs.Outcomes.{Appends, ChecksStmt, simple_outcome};
ghost use Rattle.rgo_typing_statements.specs.Statements as spec;
ghost use Rattle.rgo_typing_statements.specs.TypedStatements as typed;

use crate::prints::print;
use rgo_ast::{Expr, Ident, Place};
use rgo_typed::{Stmt, Term};
use rgo_typing_expressions::{
    Callee, Checked, Checker, Package, Values, bare, call, named_callee, params_of,
};
use rgo_typing_nodes::{check_alone, check_builtin, check_go_nothing, check_missing};
use rgo_typing_rules::{Builtin, Role, Shape, Signature, TypeError};
use std::alloc::{AllocError, Global};

/// A call of a function, for what it does.
#[tactic(auto, using(rgo_typing_expressions::proofs::Trees::terms))]
fn routine(alloc: Global, called: Checked<'_>) -> Result<Stmt, AllocError>
    ensures { IfOk result (λ s. stmt_of s ≡ typed.called_stmt (shape_of called.entry.shape) (term_of called.entry.term)) }
{
    match called.shape {
        Shape::NoResult => match called.term {
            Term::Call(number, args, _, at) => Ok(Stmt::Invoke(number, args, at)),
            term => Ok(Stmt::Discard(Box::new(alloc, term)?)),
        },
        _ => Ok(Stmt::Discard(Box::new(alloc, called.term)?)),
    }
}

/// A call of a builtin as a statement. The builtin without an action is the print.
#[tactic(auto, using(rgo_typing_expressions::proofs::Trees::terms))]
fn builtin_stmt(
    alloc: Global,
    builtin: Builtin,
    args: &[Expr],
    terms: Vec<Term>,
    at: Place,
) -> Result<Stmt, AllocError>
    ensures { IfOk result (λ s. stmt_of s ≡ typed.builtin_stmt (action_of builtin) (result_of builtin)
        (ast.exprs_of (map expr_of args.now)) (tree.terms_of (map term_of terms.items)) at) }
{
    match (builtin.action(), builtin.result_type()) {
        (None, _) => print(alloc, args, terms, at),
        (Some(action), None) => Ok(Stmt::Perform(action, terms, at)),
        (Some(action), Some(kind)) => {
            let ty = kind.to_type(alloc)?;
            Ok(Stmt::Discard(Box::new(alloc, Term::Apply(action, terms, ty, at))?))
        }
    }
}

/// A call as a statement, from its checked arguments.
fn call_stmt<'a>(
    alloc: Global,
    globals: &Package<'a>,
    callee: Callee,
    args: &'a [Expr],
    values: Values<'a>,
    at: Place,
) -> Result<Stmt, TypeError>
    ensures { ChecksStmt result
        ((call_place at callee, call_node globals.now Alone callee (map shape_of values.entry.shapes.items)) ∷ [])
        (typed.call_stmt globals.now callee (ast.exprs_of (map expr_of args.now))
        (tree.terms_of (map term_of values.entry.terms.items)) at) }
{
    match callee {
        Callee::Builtin(builtin) => {
            check_builtin(at, builtin, Role::Alone, &values.shapes)?;
            Ok(builtin_stmt(alloc, builtin, args, values.terms, at)?)
        }
        _ => {
            let called = call(alloc, globals, Role::Alone, callee, values, at)?;
            Ok(routine(alloc, called)?)
        }
    }
}

/// A call as a statement. The order is that of every call: what is inside the callee, the arguments, and then the call with its
/// callee; so in `ff(zz)` with both unknown the fault is at `zz`.
#[tactic(auto, using(rgo_typing_expressions::proofs::Trees::exprs, rgo_typing_rules::proofs::Refusals::refusals))]
fn called<'a>(
    checker: &Checker<'_, 'a>,
    f: &'a Expr,
    args: &'a [Expr],
    at: Place,
) -> Result<Stmt, TypeError>
    ensures { ChecksStmt result
        (nodes checker.now Alone (ast.Called (expr_of f.now) (ast.exprs_of (map expr_of args.now)) at))
        (typed.bare_plain checker.now (ast.Called (expr_of f.now) (ast.exprs_of (map expr_of args.now)) at)) }
{
    checker.check_callee(f)?;
    let callee = checker.resolve_callee(f);
    let wanted = params_of(checker.globals(), callee);
    let values = checker.check_all(checker.args_role(f), wanted, args)?;
    call_stmt(checker.alloc(), checker.globals(), callee, args, values, at)
}

/// An expression statement whose value is not used.
fn discarded<'a>(checker: &Checker<'_, 'a>, e: &'a Expr) -> Result<Stmt, TypeError>
    ensures { ChecksStmt result (nodes checker.now Alone (expr_of e.now))
        (tree.Discard (term_in checker.now (expr_of e.now))) }
{
    let checked = checker.check_expr(Role::Alone, e)?;
    Ok(Stmt::Discard(Box::new(checker.alloc(), checked.term)?))
}

/// An expression without parentheses as a statement.
#[tactic(auto, using(rgo_typing_expressions::proofs::Trees::exprs))]
fn alone<'a>(checker: &Checker<'_, 'a>, e: &'a Expr) -> Result<Stmt, TypeError>
    ensures { ChecksStmt result (nodes checker.now Alone (expr_of e.now))
        (typed.bare_plain checker.now (expr_of e.now)) }
{
    match e {
        Expr::Call(f, args, at) => called(checker, f, args, *at),
        _ => discarded(checker, e),
    }
}

/// An expression statement (The Go Programming Language Specification, "Expression statements").
#[tactic(auto, using(rgo_typing_rules::proofs::Refusals::refusals, std::proofs::lemmas::List::map_push))]
pub(crate) fn plain<'a>(
    checker: &Checker<'_, 'a>,
    out: &mut Vec<Stmt>,
    e: &'a Expr,
) -> Result<(), TypeError>
    ensures { Appends result (simple_outcome checker.now (spec.plain_sites checker.now (expr_of e.now))
        (typed.plain_stmt checker.now (expr_of e.now))) checker.now out.old.items out.new.items }
{
    let inner = bare(e);
    let stmt = alone(checker, inner)?;
    // It is checked by itself first: `1 / 0` alone is a zero divisor, and only then no statement.
    check_alone(inner.place(), checker.may_stand(e))?;
    out.push(stmt)?;
    Ok(())
}

/// Checks `go` of a function.
fn check_go(
    alloc: Global,
    globals: &Package<'_>,
    number: usize,
    args: &[Shape<'_>],
    at: Place,
) -> Result<(), TypeError>
    ensures { Checks result ((at, node.Go (signature_at globals.now number) (map shape_of args.now)) ∷ []) }
{
    match globals.functions.get(number) {
        Some(signature) => rgo_typing_nodes::check_go(at, signature, args),
        // Every function has a signature. The definition reads a missing one as an empty one.
        None => {
            let signature = Signature {
                params: Vec::new(alloc),
                result_type: None,
            };
            rgo_typing_nodes::check_go(at, &signature, args)
        }
    }
}

/// A `go` statement, from its checked arguments.
#[tactic(auto, unfolding(rgo_typing_rules::specs::Rules::broken))]
fn started<'a>(
    alloc: Global,
    globals: &Package<'a>,
    callee: Callee,
    values: Values<'a>,
    at: Place,
) -> Result<Stmt, TypeError>
    ensures { ChecksStmt result (spec.go_site globals.now callee (map shape_of values.entry.shapes.items) at ∷ [])
        (typed.go_stmt callee (tree.terms_of (map term_of values.entry.terms.items)) at) }
{
    match callee {
        Callee::Missing(name_at) => {
            // The node of an unknown name breaks a rule whatever else holds, so the line above has returned; so below.
            check_missing(name_at)?;
            unreachable!();
        }
        Callee::Routine(number) => {
            check_go(alloc, globals, number, &values.shapes, at)?;
            Ok(Stmt::Go(number, values.terms, at))
        }
        _ => {
            check_go_nothing(at)?;
            unreachable!();
        }
    }
}

/// `go f(a, b)`, at `go` (The Go Programming Language Specification, "Go statements").
#[tactic(auto, using(rgo_typing_rules::proofs::Refusals::refusals, std::proofs::lemmas::List::map_push))]
pub(crate) fn go<'a>(
    checker: &Checker<'_, 'a>,
    out: &mut Vec<Stmt>,
    x: &Ident,
    args: &'a [Expr],
    at: Place,
) -> Result<(), TypeError>
    ensures { Appends result (simple_outcome checker.now
        (spec.go_sites checker.now x.now (ast.exprs_of (map expr_of args.now)) at)
        (typed.started checker.now (named_callee x.now.at (meaning_of checker.now x.now.name))
        (ast.exprs_of (map expr_of args.now)) at)) checker.now out.old.items out.new.items }
{
    let callee = named_callee(x.at, checker.meaning(x.name.bytes()));
    let wanted = params_of(checker.globals(), callee);
    let values = checker.check_all(Role::Value, wanted, args)?;
    out.push(started(checker.alloc(), checker.globals(), callee, values, at)?)?;
    Ok(())
}
