//! Statements that contain no others and declare nothing.
#![tactic(auto)]

ghost use Rattle.std.specs.Prelude.{◌≡◌, [], ◌∷◌, IfOk, pos};
ghost use Rattle.rgo_ast.specs.Views.{expr_of, boxed_expr_of};
ghost use Rattle.rgo_typed.specs.Tree as tree;
ghost use Rattle.rgo_typed.specs.Views.{stmt_of, term_of};
ghost use Rattle.rgo_typed.specs.declared.actions.Action.TheVariants.{Send as SendAction};
ghost use Rattle.rgo_typing_rules.specs.Checks.{Checks};
ghost use Rattle.rgo_typing_rules.specs.Nodes.{Branch};
ghost use Rattle.rgo_typing_rules.specs.Views.{shape_of, optional_kind_of};
ghost use Rattle.rgo_typing_expressions.specs.Terms as terms;
ghost use Rattle.rgo_typing_expressions.specs.Terms.{pair_of_terms, with_type, element_type};
ghost use Rattle.rgo_typing_statements.specs.Outcomes.{Appends, simple_outcome};
ghost use Rattle.rgo_typing_statements.specs.Statements as spec;
ghost use Rattle.rgo_typing_statements.specs.TypedStatements as typed;

use crate::assignments::{assign_op, assigned, changed, step_op};
use crate::locals::kind_in;
use rgo_ast::{AssignOp, BinaryOp, Expr, Place, StepOp};
use rgo_typed::{Action, Stmt, Term};
use rgo_typing_expressions::{Checked, Checker, constant, with_type};
use rgo_typing_nodes::{check_assign, check_branch, check_return, check_send, check_update};
use rgo_typing_rules::{Kind, Role, Shape, TypeError};
use std::alloc::{AllocError, Global};

/// A send of a value to a checked channel.
fn sent(
    alloc: Global,
    channel: Checked<'_>,
    value: Checked<'_>,
    at: Place,
) -> Result<Stmt, AllocError>
    ensures { IfOk result (λ s. stmt_of s ≡ tree.Perform SendAction (pair_of_terms (term_of channel.entry.term)
        (with_type (element_type (shape_of channel.entry.shape)) (term_of value.entry.term))) at) }
{
    let element = kind_in(channel.shape).element();
    let mut operands = Vec::new(alloc);
    operands.push(channel.term)?;
    operands.push(with_type(alloc, element, value.term)?)?;
    Ok(Stmt::Perform(Action::Send, operands, at))
}

/// `c <- x` (The Go Programming Language Specification, "Send statements").
#[tactic(auto, using(rgo_typing_rules::proofs::Refusals::refusals, std::proofs::lemmas::List::map_push))]
pub(crate) fn send<'a>(
    checker: &Checker<'_, 'a>,
    out: &mut Vec<Stmt>,
    channel: &'a Expr,
    value: &'a Expr,
    at: Place,
) -> Result<(), TypeError>
    ensures { Appends result (simple_outcome checker.now
        (spec.send_sites checker.now (expr_of channel.now) (expr_of value.now) at)
        (typed.send_stmt checker.now (expr_of channel.now) (expr_of value.now) at))
        checker.now out.old.items out.new.items }
{
    let channel = checker.check_expr(Role::Value, channel)?;
    let value = checker.check_expr(Role::Value, value)?;
    check_send(at, channel.shape, value.shape)?;
    out.push(sent(checker.alloc(), channel, value, at)?)?;
    Ok(())
}

/// What the left side of an assignment is checked as: `=` does not read it, all other assignments do, so for them it also has to be
/// a value.
fn left_role(op: Option<BinaryOp>) -> Role
    ensures { result ≡ spec.left_role op }
{
    match op {
        None => Role::Target,
        Some(_) => Role::Value,
    }
}

/// Checks an assignment, after its sides.
fn check_assignment(
    op: Option<BinaryOp>,
    at_place: bool,
    left: Shape<'_>,
    right: Shape<'_>,
    at: Place,
) -> Result<(), TypeError>
    ensures { Checks result ((at, spec.assign_node op at_place (shape_of left.entry) (shape_of right.entry)) ∷ []) }
{
    match op {
        None => check_assign(at, at_place, left, right),
        Some(op) => check_update(at, op, at_place, left, right),
    }
}

/// `x = y`, or an assignment that computes first (The Go Programming Language Specification,
/// "Assignment statements").
#[tactic(auto, using(rgo_typing_rules::proofs::Refusals::refusals, std::proofs::lemmas::List::map_push))]
pub(crate) fn assign<'a>(
    checker: &Checker<'_, 'a>,
    out: &mut Vec<Stmt>,
    op: AssignOp,
    left: &'a Expr,
    right: &'a Expr,
    at: Place,
) -> Result<(), TypeError>
    ensures { Appends result (simple_outcome checker.now
        (spec.assign_sites checker.now (spec.assign_op op) (expr_of left.now) (expr_of right.now) at)
        (typed.assign_stmt checker.now (spec.assign_op op) (expr_of left.now) (expr_of right.now) at))
        checker.now out.old.items out.new.items }
{
    let op = assign_op(op);
    // Whether it is a place is a question to the source: `f()` and a variable may have terms of the same type.
    let at_place = checker.is_place(left);
    let left = checker.check_expr(left_role(op), left)?;
    let right = checker.check_expr(Role::Value, right)?;
    check_assignment(op, at_place, left.shape, right.shape, at)?;
    out.push(assigned(checker.alloc(), op, left, right, at)?)?;
    Ok(())
}

/// One is added to the checked left side, or subtracted.
fn stepped(alloc: Global, op: BinaryOp, left: Checked<'_>, at: Place) -> Result<Stmt, AllocError>
    ensures { IfOk result (λ s. stmt_of s
        ≡ typed.changed op (term_of left.entry.term) (terms.int_constant (pos 1) at) at) }
{
    let one = constant(alloc, 1, at);
    changed(alloc, op, left.term, one, at)
}

/// `x++` and `x--`: as `x += 1` and `x -= 1` (The Go Programming Language Specification, "IncDec
/// statements").
#[tactic(auto, using(rgo_typing_rules::proofs::Refusals::refusals, std::proofs::lemmas::List::map_push))]
pub(crate) fn step<'a>(
    checker: &Checker<'_, 'a>,
    out: &mut Vec<Stmt>,
    op: StepOp,
    e: &'a Expr,
    at: Place,
) -> Result<(), TypeError>
    ensures { Appends result (simple_outcome checker.now
        (spec.step_sites checker.now (spec.step_op op) (expr_of e.now) at)
        (typed.step_stmt checker.now (spec.step_op op) (expr_of e.now) at))
        checker.now out.old.items out.new.items }
{
    let op = step_op(op);
    let at_place = checker.is_place(e);
    let left = checker.check_expr(Role::Value, e)?;
    check_update(at, op, at_place, left.shape, Shape::Constant(1))?;
    out.push(stepped(checker.alloc(), op, left, at)?)?;
    Ok(())
}

/// A value as a function's result.
fn as_result(alloc: Global, result_type: Option<Kind<'_>>, value: Term) -> Result<Term, AllocError>
    ensures { IfOk result (λ t. term_of t ≡ typed.with_result (optional_kind_of result_type.entry) (term_of value)) }
{
    match result_type {
        None => Ok(value),
        Some(kind) => with_type(alloc, kind, value),
    }
}

/// A "return" statement (The Go Programming Language Specification, "Return statements").
#[tactic(auto, using(rgo_typing_rules::proofs::Refusals::refusals, std::proofs::lemmas::List::map_push))]
pub(crate) fn return_value<'a>(
    checker: &Checker<'_, 'a>,
    out: &mut Vec<Stmt>,
    result_type: Option<Kind<'a>>,
    value: &'a Option<Box<Expr>>,
    at: Place,
) -> Result<(), TypeError>
    ensures { Appends result (simple_outcome checker.now
        (spec.return_sites (optional_kind_of result_type.entry) checker.now (boxed_expr_of value.now) at)
        (tree.Return (typed.returned (optional_kind_of result_type.entry) checker.now (boxed_expr_of value.now)) at))
        checker.now out.old.items out.new.items }
{
    match value {
        None => {
            check_return(at, result_type, None)?;
            out.push(Stmt::Return(None, at))?;
            Ok(())
        }
        Some(value) => {
            let value = checker.check_expr(Role::Value, value)?;
            check_return(at, result_type, Some(value.shape))?;
            let value = as_result(checker.alloc(), result_type, value.term)?;
            out.push(Stmt::Return(Some(Box::new(checker.alloc(), value)?), at))?;
            Ok(())
        }
    }
}

/// A "break" or a "continue" statement. The checker is passed for the contract alone, which says that nothing in it changes.
#[tactic(auto, using(std::proofs::lemmas::List::map_push))]
pub(crate) fn branch(
    checker: &Checker<'_, '_>,
    out: &mut Vec<Stmt>,
    in_loop: bool,
    stmt: Stmt,
    at: Place,
) -> Result<(), TypeError>
    ensures { Appends result (simple_outcome checker.now ((at, Branch in_loop) ∷ []) (stmt_of stmt))
        checker.now out.old.items out.new.items }
{
    check_branch(at, in_loop)?;
    out.push(stmt)?;
    Ok(())
}
