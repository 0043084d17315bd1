//! The code of statements. A block, an `if` and a loop contain statements, so their functions and `lower_stmt` call each
//! other: one cycle, with nothing else in it.

ghost use Rattle.std.specs.Prelude.{◌≡◌, ◌+◌, ◌<◌, ◌^◌, IfOk, map, length, is_some, true};
ghost use Rattle.rgo_typed.specs.Tree as tree;
ghost use Rattle.rgo_typed.specs.Tree.{stmts_of};
ghost use Rattle.rgo_typed.specs.Views.{term_of, boxed_term_of, stmt_of};
ghost use Rattle.rgo_lower.specs.Sizes.{stmt_size, stmts_size};
ghost use Rattle.rgo_lower.specs.Emitted.{builder_size, made_of, StmtIsEmitted, StmtsAreEmitted};
ghost use Rattle.rgo_lower.specs.Shapes.{stmt_fits, stmts_fit};

use crate::builder::{Builder, Loop};
use crate::statements::{
    Change, assign, break_out, continue_on, declare, declare_zero, discard, invoke,
    lower_condition, lower_test, perform, print, return_with, start, update,
};
use rgo_ast::Place;
use rgo_typed::{Stmt, Term};
use std::alloc::AllocError;

/// The code of a statement, where `innermost` is the loop around it, if there is one.
#[cycle(statements)]
#[tactic(auto, using(rgo_typed::proofs::Rows::rows))]
pub fn lower_stmt(b: &mut Builder, innermost: Option<Loop>, stmt: &Stmt) -> Result<(), AllocError>
    requires room { builder_size (made_of b.now) + stmt_size (stmt_of stmt.now) < 2 ^ 32 }
    requires shape { stmt_fits (length b.now.slots.items) (is_some innermost) (stmt_of stmt.now) ≡ true }
    ensures { IfOk result (λ done. StmtIsEmitted (stmt_of stmt.now) innermost (made_of b.old) (made_of b.new)) }
{
    match stmt {
        Stmt::Block(all) => lower_stmts(b, innermost, all),
        Stmt::Declare(n, ty, value, place) => declare(b, *n, ty, value, *place),
        Stmt::Zero(n, ty, place) => declare_zero(b, *n, ty, *place),
        Stmt::Assign(n, value, place) => assign(b, *n, value, *place),
        Stmt::Perform(action, operands, place) => perform(b, *action, operands, *place),
        Stmt::Update {
            operands,
            read,
            ty,
            read_at,
            op,
            value,
            write,
            at,
        } => {
            let change = Change {
                operands,
                read: *read,
                ty,
                read_at: *read_at,
                op: *op,
                value,
                write: *write,
                at: *at,
            };
            update(b, &change)
        }
        Stmt::Discard(value) => discard(b, value),
        Stmt::Invoke(function, arguments, place) => invoke(b, *function, arguments, *place),
        Stmt::Go(function, arguments, place) => start(b, *function, arguments, *place),
        Stmt::Print(pieces, values, place) => print(b, pieces.items(), values, *place),
        Stmt::If(test, body, place) => lower_if(b, innermost, test, body, *place),
        Stmt::IfElse(test, body, other, place) => {
            lower_if_else(b, innermost, test, body, other, *place)
        }
        Stmt::Loop {
            test,
            body,
            post,
            at,
        } => lower_loop(b, innermost, test, body, post, *at),
        Stmt::Break(place) => break_out(b, innermost, *place),
        Stmt::Continue(place) => continue_on(b, innermost, *place),
        Stmt::Return(value, place) => return_with(b, value, *place),
    }
}

/// The code of several statements, one after the other.
#[cycle(statements)]
pub fn lower_stmts(
    b: &mut Builder,
    innermost: Option<Loop>,
    stmts: &Vec<Stmt>,
) -> Result<(), AllocError>
    requires room { builder_size (made_of b.now) + stmts_size (stmts_of (map stmt_of stmts.now.items)) < 2 ^ 32 }
    requires shape { stmts_fit (length b.now.slots.items) (is_some innermost) (stmts_of (map stmt_of stmts.now.items)) ≡ true }
    ensures { IfOk result (λ done. StmtsAreEmitted (stmts_of (map stmt_of stmts.now.items)) innermost
        (made_of b.old)
        (made_of b.new)) }
{
    for stmt in stmts {
        lower_stmt(b, innermost, stmt)?;
    }
    Ok(())
}

/// `if` without `else`.
#[cycle(statements)]
fn lower_if(
    b: &mut Builder,
    innermost: Option<Loop>,
    test: &Term,
    body: &Vec<Stmt>,
    place: Place,
) -> Result<(), AllocError>
    requires room { builder_size (made_of b.now) + stmt_size (tree.If (term_of test.now) (stmts_of (map stmt_of body.now.items)) place) < 2 ^ 32 }
    requires shape { stmt_fits (length b.now.slots.items) (is_some innermost) (tree.If (term_of test.now) (stmts_of (map stmt_of body.now.items)) place) ≡ true }
    ensures { IfOk result (λ done. StmtIsEmitted
        (tree.If (term_of test.now) (stmts_of (map stmt_of body.now.items)) place) innermost (made_of b.old)
        (made_of b.new)) }
{
    let end = b.label()?;
    lower_test(b, test, end, place)?;
    lower_stmts(b, innermost, body)?;
    b.place(end)
}

/// `if` with `else`. The block of the `if` ends with a jump over the other one.
#[cycle(statements)]
fn lower_if_else(
    b: &mut Builder,
    innermost: Option<Loop>,
    test: &Term,
    body: &Vec<Stmt>,
    other: &Vec<Stmt>,
    place: Place,
) -> Result<(), AllocError>
    requires room { builder_size (made_of b.now) + stmt_size (tree.IfElse (term_of test.now) (stmts_of (map stmt_of body.now.items)) (stmts_of (map stmt_of other.now.items)) place) < 2 ^ 32 }
    requires shape { stmt_fits (length b.now.slots.items) (is_some innermost) (tree.IfElse (term_of test.now) (stmts_of (map stmt_of body.now.items))
        (stmts_of (map stmt_of other.now.items)) place) ≡ true }
    ensures { IfOk result (λ done. StmtIsEmitted (tree.IfElse (term_of test.now)
        (stmts_of (map stmt_of body.now.items))
        (stmts_of (map stmt_of other.now.items)) place) innermost (made_of b.old) (made_of b.new)) }
{
    let away = b.label()?;
    let end = b.label()?;
    lower_test(b, test, away, place)?;
    lower_stmts(b, innermost, body)?;
    b.jump(end, place)?;
    b.place(away)?;
    lower_stmts(b, innermost, other)?;
    b.place(end)
}

/// A loop. `continue` leads to the post statement and not to the test. The post statement is lowered as one outside of the
/// loop, since neither `break` nor `continue` is a post statement.
#[cycle(statements)]
fn lower_loop(
    b: &mut Builder,
    innermost: Option<Loop>,
    test: &Option<Box<Term>>,
    body: &Vec<Stmt>,
    post: &Vec<Stmt>,
    place: Place,
) -> Result<(), AllocError>
    requires room { builder_size (made_of b.now) + stmt_size (tree.Loop (boxed_term_of test.now) (stmts_of (map stmt_of body.now.items)) (stmts_of (map stmt_of post.now.items)) place) < 2 ^ 32 }
    requires shape { stmt_fits (length b.now.slots.items) (is_some innermost) (tree.Loop (boxed_term_of test.now) (stmts_of (map stmt_of body.now.items))
        (stmts_of (map stmt_of post.now.items)) place) ≡ true }
    ensures { IfOk result (λ done. StmtIsEmitted (tree.Loop (boxed_term_of test.now)
        (stmts_of (map stmt_of body.now.items)) (stmts_of (map stmt_of post.now.items)) place) innermost
        (made_of b.old)
        (made_of b.new)) }
{
    let start = b.label()?;
    b.place(start)?;
    let labels = Loop {
        break_to: b.label()?,
        continue_to: b.label()?,
    };
    lower_condition(b, test, labels.break_to, place)?;
    lower_stmts(b, Some(labels), body)?;
    b.place(labels.continue_to)?;
    lower_stmts(b, innermost, post)?;
    b.jump(start, place)?;
    b.place(labels.break_to)
}
