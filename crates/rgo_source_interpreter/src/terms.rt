//! What terms leave to do: their parts first, in order, and then what is done with the values.

ghost use Rattle.std.specs.Prelude.{◌≡◌, [], drop, map};
ghost use Rattle.rgo_typed.specs.Views as typed;
ghost use Rattle.rgo_typed.specs.Tree.{terms_of};
ghost use Rattle.rgo_machine.specs.Actions as actions;
ghost use Rattle.rgo_source_interpreter.specs.Changes.{Changes};
ghost use Rattle.rgo_meaning.specs.Frames.{frame_with_todo, newest_value};
ghost use Rattle.rgo_meaning.specs.Steps as spec;

use crate::frames::{Frame, Todo};
use rgo_interpreter::is_true;
use rgo_typed::{Logical, Term};
use std::alloc::AllocError;

/// Evaluates a term: a local variable at once, any other term after its parts.
#[tactic(auto, using(rgo_typed::proofs::Rows::rows, crate::proofs::Counts::counted))]
pub fn evaluate<'a>(frame: &mut Frame<'a>, term: &'a Term) -> Result<(), AllocError>
    ensures { Changes result frame.old frame.new
        (spec.evaluated (typed.term_of term.now) (drop 1 frame.old.todo) frame.old) }
{
    match term {
        Term::Local(n) => {
            frame.push(frame.local(*n))?;
            frame.advance(0);
            Ok(())
        }
        Term::Apply(action, parts, ty, at) => frame.expand(&[
            Todo::Each(parts),
            Todo::Perform(*action, parts.len(), ty, *at),
        ]),
        Term::Logic(op, left, right, _) => frame.expand(&[
            Todo::Evaluate(left),
            Todo::Settle,
            Todo::Decide(*op, right),
        ]),
        Term::Build(number, parts, fields, at) => frame.expand(&[
            Todo::Each(parts),
            Todo::Create(*number),
            Todo::Fill(parts.len(), fields.items(), *at),
        ]),
        Term::Call(function, arguments, _, _) => frame.expand(&[
            Todo::Each(arguments),
            Todo::Enter(*function, arguments.len()),
        ]),
    }
}

/// The terms of a list, one after the other.
pub fn each<'a>(frame: &mut Frame<'a>, terms: &'a [Term]) -> Result<(), AllocError>
    ensures { Changes result frame.old frame.new (frame_with_todo frame.old 0 []
        (spec.each (terms_of (map typed.term_of terms.now)) (drop 1 frame.old.todo))) }
{
    match terms.split_first() {
        Some((first, rest)) => frame.expand(&[Todo::Evaluate(first), Todo::Each(rest)]),
        None => {
            frame.advance(0);
            Ok(())
        }
    }
}

/// Whether the newest value is true.
pub fn is_newest_true(frame: &Frame<'_>) -> bool
    ensures { result ≡ actions.is_true (newest_value frame.now.values) }
{
    is_true(frame.value(0))
}

/// The right side of `&&` or `||`, or nothing: if the left side decides, its value stays as that of the whole.
pub fn decide<'a>(frame: &mut Frame<'a>, op: Logical, right: &'a Term) -> Result<(), AllocError>
    ensures { Changes result frame.old frame.new
        (spec.decided op (typed.term_of right.now) (drop 1 frame.old.todo) frame.old
        (actions.is_true (newest_value frame.old.values))) }
{
    let truth = is_newest_true(frame);
    let goes_right = match op {
        Logical::And => truth,
        Logical::Or => !truth,
    };
    if goes_right {
        frame.advance_to(1, &[Todo::Evaluate(right), Todo::Settle])
    } else {
        frame.advance(0);
        Ok(())
    }
}
