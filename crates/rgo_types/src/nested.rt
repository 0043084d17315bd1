//! Typed trees of statements that contain others, from their parts, which `statements` has checked. A header
//! has a block of its own in the typed tree, so that its variable goes out of scope with the statement.
#![tactic(auto)]

ghost use Rattle.std.specs.Prelude.{◌≡◌, [], ◌∷◌, ◌++◌, IfOk, OnOk, map};
ghost use Rattle.rgo_ast.specs.Views.{boxed_expr_of};
ghost use Rattle.rgo_typed.specs.Tree as tree;
ghost use Rattle.rgo_typed.specs.Views.{stmt_of, term_of, boxed_term_of};
ghost use Rattle.rgo_typing_rules.specs.Checks.{Checks};
ghost use Rattle.rgo_typing_rules.specs.Nodes.{Condition};
ghost use Rattle.rgo_typing_rules.specs.Views.{shape_of};
ghost use Rattle.rgo_typing_statements.specs.Outcomes.{ChecksStmt};
ghost use Rattle.rgo_types.specs.Nested.{ChecksToOptional};
ghost use Rattle.rgo_typing_statements.specs.Statements as spec;
ghost use Rattle.rgo_typing_statements.specs.TypedStatements as typed;
ghost use Rattle.rgo_types.specs.Views.{optional_checked_shape, optional_term_of};

use rgo_ast::{Expr, Place};
use rgo_typed::{Stmt, Term};
use rgo_typing_expressions::{Checked, Checker};
use rgo_typing_rules::{Role, TypeError};
use std::alloc::{AllocError, Global};

/// A block of these statements.
#[tactic(auto, using(rgo_typing_statements::proofs::Trees::stmts))]
fn block(all: Vec<Stmt>) -> Stmt
    ensures { stmt_of result ≡ tree.Block (tree.stmts_of (map stmt_of all.items)) }
{
    Stmt::Block(all)
}

/// Appends a block of these statements.
#[tactic(auto, using(std::proofs::lemmas::List::map_push))]
pub(crate) fn push_block(out: &mut Vec<Stmt>, all: Vec<Stmt>) -> Result<(), AllocError>
    ensures { OnOk result (map stmt_of out.new.items
        ≡ map stmt_of out.old.items ++ tree.Block (tree.stmts_of (map stmt_of all.items)) ∷ []) }
{
    out.push(block(all))?;
    Ok(())
}

/// A block of statements with one more at their end.
#[tactic(auto, using(std::proofs::lemmas::List::map_push))]
fn block_of(init: Vec<Stmt>, stmt: Stmt) -> Result<Stmt, AllocError>
    ensures { IfOk result (λ s. stmt_of s ≡ tree.Block (tree.stmts_of (map stmt_of init.items ++ stmt_of stmt ∷ []))) }
{
    let mut all = init;
    all.push(stmt)?;
    Ok(block(all))
}

/// Appends a statement, in a block with its header if it has one. Without a header it needs no block of its own.
#[tactic(auto, using(std::proofs::lemmas::List::map_push))]
pub(crate) fn push_headed(
    out: &mut Vec<Stmt>,
    has_init: bool,
    init: Vec<Stmt>,
    stmt: Stmt,
) -> Result<(), AllocError>
    ensures { OnOk result (map stmt_of out.new.items
        ≡ map stmt_of out.old.items ++ typed.headed has_init (map stmt_of init.items) (stmt_of stmt)) }
{
    let whole = if has_init {
        block_of(init, stmt)?
    } else {
        stmt
    };
    out.push(whole)?;
    Ok(())
}

/// Checks that the condition of an `if` is a `bool`, and makes the statement. That comes last, at the `if`: faults in the blocks are
/// reported first.
#[tactic(auto, using(rgo_typing_statements::proofs::Trees::stmts))]
pub(crate) fn if_of(
    alloc: Global,
    test: Checked<'_>,
    body: Vec<Stmt>,
    has_other: bool,
    other: Vec<Stmt>,
    at: Place,
) -> Result<Stmt, TypeError>
    ensures { ChecksStmt result ((at, Condition (shape_of test.entry.shape)) ∷ [])
        (typed.if_or_else has_other (term_of test.entry.term) (map stmt_of body.items) (map stmt_of other.items) at) }
{
    rgo_typing_nodes::check_condition(at, test.shape)?;
    let test = Box::new(alloc, test.term)?;
    if has_other {
        Ok(Stmt::IfElse(test, body, other, at))
    } else {
        Ok(Stmt::If(test, body, at))
    }
}

/// Checks the parts of a condition, if there is one. Whether it is a `bool` is not asked here: that rule comes after the blocks.
pub(crate) fn check_test<'a>(
    checker: &Checker<'_, 'a>,
    test: &'a Option<Box<Expr>>,
) -> Result<Option<Checked<'a>>, TypeError>
    ensures { ChecksToOptional result (spec.optional_nodes checker.now (boxed_expr_of test.now))
        (spec.optional_type checker.now (boxed_expr_of test.now))
        (typed.optional_term checker.now (boxed_expr_of test.now)) }
{
    match test {
        None => Ok(None),
        Some(test) => {
            let test = checker.check_expr(Role::Value, test)?;
            Ok(Some(test))
        }
    }
}

/// Checks that a condition is a `bool`, if there is one.
fn check_condition(test: &Option<Checked<'_>>, at: Place) -> Result<(), TypeError>
    ensures { Checks result (spec.condition_sites (optional_checked_shape test.now) at) }
{
    match test {
        None => Ok(()),
        Some(test) => rgo_typing_nodes::check_condition(at, test.shape),
    }
}

/// The term of a condition, if there is one.
fn boxed_term(alloc: Global, test: Option<Checked<'_>>) -> Result<Option<Box<Term>>, AllocError>
    ensures { IfOk result (λ t. boxed_term_of t ≡ optional_term_of test.entry) }
{
    match test {
        None => Ok(None),
        Some(test) => Ok(Some(Box::new(alloc, test.term)?)),
    }
}

/// Checks that the condition of a `for` is a `bool`, and makes the loop. As in an `if`, that comes after the blocks.
#[tactic(auto, using(rgo_typing_statements::proofs::Trees::stmts))]
pub(crate) fn loop_of(
    alloc: Global,
    test: Option<Checked<'_>>,
    body: Vec<Stmt>,
    post: Vec<Stmt>,
    at: Place,
) -> Result<Stmt, TypeError>
    ensures { ChecksStmt result (spec.condition_sites (optional_checked_shape test.entry) at)
        (tree.Loop (optional_term_of test.entry) (tree.stmts_of (map stmt_of body.items))
        (tree.stmts_of (map stmt_of post.items)) at) }
{
    check_condition(&test, at)?;
    let test = boxed_term(alloc, test)?;
    Ok(Stmt::Loop {
        test,
        body,
        post,
        at,
    })
}
