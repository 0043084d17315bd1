//! What statements leave to do.

ghost use Rattle.std.specs.Prelude.{◌≡◌, [], ◌∷◌, drop, map};
ghost use Rattle.rgo_typed.specs.Views as typed;
ghost use Rattle.rgo_typed.specs.Tree.{stmts_of};
ghost use Rattle.rgo_machine.specs.Actions as actions;
ghost use Rattle.rgo_source_interpreter.specs.Changes.{Changes};
ghost use Rattle.rgo_meaning.specs.Frames.{frame_with_todo, newest_value, Sequence, Onward, Turn};
ghost use Rattle.rgo_meaning.specs.Steps as spec;
ghost use Rattle.rgo_meaning.specs.Todos as todos;

use crate::frames::{Frame, Todo};
use crate::terms::is_newest_true;
use rgo_typed::{Action, Stmt, Term};
use std::alloc::AllocError;

/// Statements, one after the other.
pub fn sequence<'a>(frame: &mut Frame<'a>, stmts: &'a [Stmt]) -> Result<(), AllocError>
    ensures { Changes result frame.old frame.new (frame_with_todo frame.old 0 []
        (spec.sequence (stmts_of (map typed.stmt_of stmts.now)) (drop 1 frame.old.todo))) }
{
    match stmts.split_first() {
        Some((first, rest)) => frame.expand(&[Todo::Execute(first), Todo::Sequence(rest)]),
        None => {
            frame.advance(0);
            Ok(())
        }
    }
}

/// `if` without `else`.
pub fn when<'a>(frame: &mut Frame<'a>, body: &'a [Stmt]) -> Result<(), AllocError>
    ensures { Changes result frame.old frame.new (frame_with_todo frame.old 1 []
        (spec.when (stmts_of (map typed.stmt_of body.now)) (drop 1 frame.old.todo)
        (actions.is_true (newest_value frame.old.values)))) }
{
    if is_newest_true(frame) {
        frame.advance_to(1, &[Todo::Sequence(body), Todo::Close])
    } else {
        frame.advance(1);
        Ok(())
    }
}

/// `if` with `else`.
pub fn choose<'a>(
    frame: &mut Frame<'a>,
    body: &'a [Stmt],
    other: &'a [Stmt],
) -> Result<(), AllocError>
    ensures { Changes result frame.old frame.new (frame_with_todo frame.old 1 []
        (spec.chosen (stmts_of (map typed.stmt_of body.now)) (stmts_of (map typed.stmt_of other.now))
        (drop 1 frame.old.todo) (actions.is_true (newest_value frame.old.values)))) }
{
    if is_newest_true(frame) {
        frame.advance_to(1, &[Todo::Sequence(body), Todo::Onward])
    } else {
        frame.advance_to(1, &[Todo::Sequence(other), Todo::Close])
    }
}

/// A loop from its condition on.
pub fn turn<'a>(
    frame: &mut Frame<'a>,
    test: &'a Option<Box<Term>>,
    body: &'a [Stmt],
    post: &'a [Stmt],
) -> Result<(), AllocError>
    ensures { Changes result frame.old frame.new (frame_with_todo frame.old 0 []
        (todos.turn_todo (typed.boxed_term_of test.now) (stmts_of (map typed.stmt_of body.now))
        (stmts_of (map typed.stmt_of post.now)) (drop 1 frame.old.todo))) }
{
    match test {
        None => frame.expand(&[Todo::Sequence(body), Todo::Again(test, body, post)]),
        Some(condition) => {
            frame.expand(&[Todo::Evaluate(condition), Todo::Test(test, body, post)])
        }
    }
}

/// The body of a loop whose condition holds.
pub fn test_loop<'a>(
    frame: &mut Frame<'a>,
    test: &'a Option<Box<Term>>,
    body: &'a [Stmt],
    post: &'a [Stmt],
) -> Result<(), AllocError>
    ensures { Changes result frame.old frame.new (frame_with_todo frame.old 1 []
        (spec.tested (typed.boxed_term_of test.now) (stmts_of (map typed.stmt_of body.now))
        (stmts_of (map typed.stmt_of post.now)) (drop 1 frame.old.todo)
        (actions.is_true (newest_value frame.old.values)))) }
{
    if is_newest_true(frame) {
        frame.advance_to(1, &[Todo::Sequence(body), Todo::Again(test, body, post)])
    } else {
        frame.advance(1);
        Ok(())
    }
}

/// The post statement of a loop, and the loop again.
pub fn again<'a>(
    frame: &mut Frame<'a>,
    test: &'a Option<Box<Term>>,
    body: &'a [Stmt],
    post: &'a [Stmt],
) -> Result<(), AllocError>
    ensures { Changes result frame.old frame.new (frame_with_todo frame.old 0 []
        (Sequence (stmts_of (map typed.stmt_of post.now)) ∷ Onward
        ∷ Turn (typed.boxed_term_of test.now) (stmts_of (map typed.stmt_of body.now))
        (stmts_of (map typed.stmt_of post.now)) ∷ drop 1 frame.old.todo)) }
{
    frame.expand(&[
        Todo::Sequence(post),
        Todo::Onward,
        Todo::Turn(test, body, post),
    ])
}

/// Drops what is to do in the innermost loop, and the loop itself. `Again` is its end: the first one on the way belongs to the
/// innermost loop.
fn leave_loop(frame: &mut Frame<'_>)
    ensures { frame.new ≡ frame_with_todo frame.old 0 [] (todos.after_break frame.old.todo) }
{
    loop {
        let item = frame.first();
        frame.advance(0);
        match item {
            None | Some(Todo::Again(_, _, _)) => return,
            Some(_) => {}
        }
    }
}

/// Drops what is to do in the innermost loop before its post statement, which `Again` still does.
fn next_turn(frame: &mut Frame<'_>)
    ensures { frame.new ≡ frame_with_todo frame.old 0 [] (todos.after_continue frame.old.todo) }
{
    loop {
        match frame.first() {
            None | Some(Todo::Again(_, _, _)) => return,
            Some(_) => frame.advance(0),
        }
    }
}

/// Replaces all that is to do in the function by its return.
fn return_with<'a>(frame: &mut Frame<'a>, value: &'a Option<Box<Term>>) -> Result<(), AllocError>
    ensures { Changes result frame.old frame.new (frame_with_todo frame.old 0 []
        (todos.return_todo (typed.boxed_term_of value.now))) }
{
    match value {
        None => frame.end_with(&[]),
        Some(value) => frame.end_with(&[Todo::Evaluate(value), Todo::Leave]),
    }
}

/// A statement that branches, jumps or contains statements.
#[tactic(auto, using(rgo_typed::proofs::Rows::rows))]
fn execute_flow<'a>(frame: &mut Frame<'a>, stmt: &'a Stmt) -> Result<(), AllocError>
    ensures { Changes result frame.old frame.new (frame_with_todo frame.old 0 []
        (todos.flow_todo (typed.stmt_of stmt.now) (drop 1 frame.old.todo))) }
{
    match stmt {
        Stmt::Block(all) => frame.expand(&[Todo::Sequence(all), Todo::Close]),
        Stmt::If(test, body, _) => frame.expand(&[Todo::Evaluate(test), Todo::When(body)]),
        Stmt::IfElse(test, body, other, _) => {
            frame.expand(&[Todo::Evaluate(test), Todo::Choose(body, other)])
        }
        Stmt::Loop {
            test,
            body,
            post,
            at: _,
        } => frame.expand(&[Todo::Turn(test, body, post)]),
        Stmt::Break(_) => {
            frame.advance(0);
            leave_loop(frame);
            Ok(())
        }
        Stmt::Continue(_) => {
            frame.advance(0);
            next_turn(frame);
            Ok(())
        }
        Stmt::Return(value, _) => return_with(frame, value),
        Stmt::Declare(_, _, _, _)
        | Stmt::Assign(_, _, _)
        | Stmt::Zero(_, _, _)
        | Stmt::Perform(_, _, _)
        | Stmt::Update { .. }
        | Stmt::Discard(_)
        | Stmt::Invoke(_, _, _)
        | Stmt::Go(_, _, _)
        | Stmt::Print(_, _, _) => {
            frame.advance(0);
            Ok(())
        }
    }
}

/// Executes a statement: its parts come first.
#[tactic(auto, using(rgo_typed::proofs::Rows::rows, crate::proofs::Counts::counted))]
pub fn execute<'a>(frame: &mut Frame<'a>, stmt: &'a Stmt) -> Result<(), AllocError>
    ensures { Changes result frame.old frame.new (frame_with_todo frame.old 0 []
        (todos.statement_todo (typed.stmt_of stmt.now) (drop 1 frame.old.todo))) }
{
    match stmt {
        Stmt::Declare(n, _, value, _) | Stmt::Assign(n, value, _) => {
            frame.expand(&[Todo::Evaluate(value), Todo::Give(*n)])
        }
        Stmt::Zero(n, ty, _) => frame.expand(&[Todo::Clear(*n, ty)]),
        Stmt::Perform(action, operands, at) => frame.expand(&[
            Todo::Each(operands),
            Todo::Affect(*action, operands.len(), *at),
        ]),
        Stmt::Update {
            operands,
            read,
            ty,
            read_at,
            op,
            value,
            write,
            at,
        } => frame.expand(&[
            Todo::Each(operands),
            Todo::Repeat(operands.len()),
            Todo::Perform(*read, operands.len(), ty, *read_at),
            Todo::Evaluate(value),
            Todo::Perform(Action::Binary(*op), 2, ty, *at),
            Todo::Affect(*write, operands.len() + 1, *at),
        ]),
        Stmt::Discard(value) => frame.expand(&[Todo::Evaluate(value), Todo::Forget]),
        Stmt::Invoke(function, arguments, _) => frame.expand(&[
            Todo::Each(arguments),
            Todo::Enter(*function, arguments.len()),
        ]),
        Stmt::Go(function, arguments, _) => frame.expand(&[
            Todo::Each(arguments),
            Todo::Start(*function, arguments.len()),
        ]),
        Stmt::Print(pieces, values, _) => frame.expand(&[
            Todo::Each(values),
            Todo::Write(pieces.items(), values.len()),
        ]),
        Stmt::Block(_)
        | Stmt::If(_, _, _)
        | Stmt::IfElse(_, _, _, _)
        | Stmt::Loop { .. }
        | Stmt::Break(_)
        | Stmt::Continue(_)
        | Stmt::Return(_, _) => execute_flow(frame, stmt),
    }
}
