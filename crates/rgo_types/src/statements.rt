//! Statements: checked in the order of the text, and made typed trees.
//!
//! Only blocks, `if` and `for` contain statements: with `check_stmt` they form one cycle of functions. All other statements are in
//! rgo_typing_statements, so that the induction on the tree covers only this cycle.
//!
//! A refusal may leave blocks of the scope open. It ends the whole check, so nothing looks at the scope afterwards.
#![tactic(auto, using(rgo_typing_statements::proofs::Trees::sources, rgo_typing_rules::proofs::Refusals::refusals))]

ghost use Rattle.std.specs.Prelude.{map};
ghost use Rattle.rgo_ast.specs.Tree as ast;
ghost use Rattle.rgo_ast.specs.Views.{stmt_of, expr_of, boxed_expr_of, boxed_stmt_of};
ghost use Rattle.rgo_typing_statements.specs.Outcomes.{Appends, stmt_outcome};
ghost use Rattle.rgo_typing_statements.specs.Statements.{after_block, after_clause};
ghost use Rattle.rgo_typing_statements.specs.Views.{enclosing_of};
ghost use Rattle.rgo_types.specs.Nested.{Makes, MakesStmt, all_outcome, block_outcome, clause_outcome};
ghost use Rattle.rgo_types.specs.Nested.{if_sites, typed_if, loop_sites, typed_loop};

use crate::nested::{check_test, if_of, loop_of, push_block, push_headed};
use rgo_ast::{Expr, Place, Stmt as Source};
use rgo_typed::Stmt;
use rgo_typing_expressions::Checker;
use rgo_typing_rules::{Role, TypeError};
use rgo_typing_statements::{Enclosing, check_simple};

/// Checks a statement, and appends its typed trees.
#[cycle(statements)]
fn check_stmt<'a>(
    checker: &mut Checker<'_, 'a>,
    around: Enclosing<'a>,
    out: &mut Vec<Stmt>,
    s: &'a Source,
) -> Result<(), TypeError>
    ensures { Appends result (stmt_outcome (enclosing_of around.entry) checker.old (stmt_of s.now))
        checker.new out.old.items out.new.items }
{
    match s {
        Source::Block(all, at) => nested_block(checker, around, out, all, *at),
        Source::If {
            init,
            test,
            body,
            other,
            at,
        } => if_stmt(checker, around, out, init, test, body, other, *at),
        Source::For {
            init,
            test,
            post,
            body,
            at,
        } => for_stmt(checker, around, out, init, test, post, body, *at),
        _ => check_simple(checker, around, out, s),
    }
}

/// A block as a statement.
#[cycle(statements)]
fn nested_block<'a>(
    checker: &mut Checker<'_, 'a>,
    around: Enclosing<'a>,
    out: &mut Vec<Stmt>,
    all: &'a [Source],
    at: Place,
) -> Result<(), TypeError>
    ensures { Appends result
        (stmt_outcome (enclosing_of around.entry) checker.old (ast.Block (ast.stmts_of (map stmt_of all.now)) at))
        checker.new out.old.items out.new.items }
{
    let all = check_block(checker, around, all)?;
    push_block(out, all)?;
    Ok(())
}

/// An "if" statement (The Go Programming Language Specification, "If statements").
#[cycle(statements)]
fn if_stmt<'a>(
    checker: &mut Checker<'_, 'a>,
    around: Enclosing<'a>,
    out: &mut Vec<Stmt>,
    init: &'a Option<Box<Source>>,
    test: &'a Expr,
    body: &'a [Source],
    other: &'a Option<Box<Source>>,
    at: Place,
) -> Result<(), TypeError>
    ensures { Appends result (stmt_outcome (enclosing_of around.entry) checker.old
        (ast.If (ast.clause_of (boxed_stmt_of init.now)) (expr_of test.now)
        (ast.stmts_of (map stmt_of body.now)) (ast.clause_of (boxed_stmt_of other.now)) at))
        checker.new out.old.items out.new.items }
{
    // The header's variable is in scope in the condition and in both branches.
    checker.enter()?;
    let header = check_clause(checker, around, init)?;
    let stmt = check_if(checker, around, test, body, other, at)?;
    push_headed(out, init.is_some(), header, stmt)?;
    checker.leave();
    Ok(())
}

/// Checks what follows the first statement of an `if`.
#[cycle(statements)]
fn check_if<'a>(
    checker: &mut Checker<'_, 'a>,
    around: Enclosing<'a>,
    test: &'a Expr,
    body: &'a [Source],
    other: &'a Option<Box<Source>>,
    at: Place,
) -> Result<Stmt, TypeError>
    ensures { MakesStmt result
        (if_sites (enclosing_of around.entry) checker.old (expr_of test.now)
        (ast.stmts_of (map stmt_of body.now)) (ast.clause_of (boxed_stmt_of other.now)) at)
        (typed_if (enclosing_of around.entry) checker.old (expr_of test.now)
        (ast.stmts_of (map stmt_of body.now)) (ast.clause_of (boxed_stmt_of other.now)) at)
        checker.new
        (after_clause (after_block checker.old (ast.stmts_of (map stmt_of body.now)))
        (ast.clause_of (boxed_stmt_of other.now))) }
{
    let test = checker.check_expr(Role::Value, test)?;
    let body = check_block(checker, around, body)?;
    let other_stmts = check_clause(checker, around, other)?;
    let has_other = other.is_some();
    if_of(checker.alloc(), test, body, has_other, other_stmts, at)
}

/// A "for" statement (The Go Programming Language Specification, "For statements").
#[cycle(statements)]
fn for_stmt<'a>(
    checker: &mut Checker<'_, 'a>,
    around: Enclosing<'a>,
    out: &mut Vec<Stmt>,
    init: &'a Option<Box<Source>>,
    test: &'a Option<Box<Expr>>,
    post: &'a Option<Box<Source>>,
    body: &'a [Source],
    at: Place,
) -> Result<(), TypeError>
    ensures { Appends result (stmt_outcome (enclosing_of around.entry) checker.old
        (ast.For (ast.clause_of (boxed_stmt_of init.now)) (boxed_expr_of test.now)
        (ast.clause_of (boxed_stmt_of post.now)) (ast.stmts_of (map stmt_of body.now)) at))
        checker.new out.old.items out.new.items }
{
    checker.enter()?;
    let header = check_clause(checker, around, init)?;
    let stmt = check_loop(checker, around, test, post, body, at)?;
    push_headed(out, init.is_some(), header, stmt)?;
    checker.leave();
    Ok(())
}

/// Checks what follows the first statement of a `for`. The third part is checked before the body, as it is written, although it runs
/// after it; a condition that is not a `bool` is reported last.
#[cycle(statements)]
fn check_loop<'a>(
    checker: &mut Checker<'_, 'a>,
    around: Enclosing<'a>,
    test: &'a Option<Box<Expr>>,
    post: &'a Option<Box<Source>>,
    body: &'a [Source],
    at: Place,
) -> Result<Stmt, TypeError>
    ensures { MakesStmt result
        (loop_sites (enclosing_of around.entry) checker.old (boxed_expr_of test.now)
        (ast.clause_of (boxed_stmt_of post.now)) (ast.stmts_of (map stmt_of body.now)) at)
        (typed_loop (enclosing_of around.entry) checker.old (boxed_expr_of test.now)
        (ast.clause_of (boxed_stmt_of post.now)) (ast.stmts_of (map stmt_of body.now)) at)
        checker.new
        (after_block (after_clause checker.old (ast.clause_of (boxed_stmt_of post.now)))
        (ast.stmts_of (map stmt_of body.now))) }
{
    let test = check_test(checker, test)?;
    let post = check_clause(checker, around, post)?;
    let body = check_block(checker, around.in_a_loop(), body)?;
    loop_of(checker.alloc(), test, body, post, at)
}

/// Checks statements one after another.
#[cycle(statements)]
pub(crate) fn check_stmts<'a>(
    checker: &mut Checker<'_, 'a>,
    around: Enclosing<'a>,
    all: &'a [Source],
) -> Result<Vec<Stmt>, TypeError>
    ensures { Makes result (all_outcome (enclosing_of around.entry) checker.old (ast.stmts_of (map stmt_of all.now)))
        checker.new }
{
    let mut out = Vec::new(checker.alloc());
    for s in all {
        check_stmt(checker, around, &mut out, s)?;
    }
    Ok(out)
}

/// Checks statements in a block of their own.
#[cycle(statements)]
fn check_block<'a>(
    checker: &mut Checker<'_, 'a>,
    around: Enclosing<'a>,
    all: &'a [Source],
) -> Result<Vec<Stmt>, TypeError>
    ensures { Makes result (block_outcome (enclosing_of around.entry) checker.old (ast.stmts_of (map stmt_of all.now)))
        checker.new }
{
    checker.enter()?;
    let all = check_stmts(checker, around, all)?;
    checker.leave();
    Ok(all)
}

/// Checks a statement that may be left out.
#[cycle(statements)]
fn check_clause<'a>(
    checker: &mut Checker<'_, 'a>,
    around: Enclosing<'a>,
    s: &'a Option<Box<Source>>,
) -> Result<Vec<Stmt>, TypeError>
    ensures { Makes result (clause_outcome (enclosing_of around.entry) checker.old (ast.clause_of (boxed_stmt_of s.now)))
        checker.new }
{
    let mut out = Vec::new(checker.alloc());
    match s {
        None => Ok(out),
        Some(s) => {
            check_stmt(checker, around, &mut out, s)?;
            Ok(out)
        }
    }
}
