//! Frames: a function that was called, with what it has still to do.

ghost use Rattle.std.specs.Prelude.{◌≡◌, ◌<◌, [], ◌∷◌, ◌++◌, drop, take, length, map, MatchOption};
ghost use Rattle.rgo_source_interpreter.specs.Changes.{Changes};
ghost use Rattle.rgo_meaning.specs.Frames as spec;
ghost use Rattle.rgo_source_interpreter.specs.Views.{todo_of};

use crate::locals::{local, set_local};
use crate::stack::Stack;
use rgo_ast::Place;
use rgo_memory::Value;
use rgo_typed::{Action, Logical, Piece, Stmt, Term, Type};
use std::alloc::AllocError;
use std::marker::Model;

/// One thing to do. What produces a value pushes it on the frame's values; what takes n values takes the newest n.
#[derive(Clone, Copy)]
pub enum Todo<'a> {
    /// Evaluates a term.
    Evaluate(&'a Term),
    /// Evaluates several terms.
    Each(&'a [Term]),
    /// An action on this number of values, with a result of this type.
    Perform(Action, usize, &'a Type, Place),
    /// An action on this number of values, without a result.
    Affect(Action, usize, Place),
    /// The value of a right side is the value of the whole: nothing is done.
    Settle,
    /// The right side of `&&` or `||`, where the left side does not decide.
    Decide(Logical, &'a Term),
    /// A new object of the struct of this number.
    Create(usize),
    /// This number of values below the newest are stored in these fields of its object, one by one.
    Fill(usize, &'a [usize], Place),
    /// This number of values once more.
    Repeat(usize),
    /// The local variable of this number is assigned the newest value.
    Give(usize),
    /// The newest value is dropped.
    Forget,
    /// The local variable of this number is set to the zero of its type.
    Clear(usize, &'a Type),
    /// The function of this number is called with a number of values.
    Enter(usize, usize),
    /// The function of this number is started as a goroutine with a number of values.
    Start(usize, usize),
    /// A line with this number of values is printed.
    Write(&'a [Piece], usize),
    /// A statement.
    Execute(&'a Stmt),
    /// Statements, one after the other.
    Sequence(&'a [Stmt]),
    /// Statements, where the value is true.
    When(&'a [Stmt]),
    /// The first statements where the value is true, else the others.
    Choose(&'a [Stmt], &'a [Stmt]),
    /// The end of a block: nothing is done.
    Close,
    /// The end of the first of two branches, or of a loop's turn: nothing is done.
    Onward,
    /// A loop from its condition on: the condition, the body, the post statement.
    Turn(&'a Option<Box<Term>>, &'a [Stmt], &'a [Stmt]),
    /// What the value of a loop's condition decides.
    Test(&'a Option<Box<Term>>, &'a [Stmt], &'a [Stmt]),
    /// After a loop's body: the post statement, and the loop again.
    Again(&'a Option<Box<Term>>, &'a [Stmt], &'a [Stmt]),
    /// The function returns, with a value.
    Leave,
    /// The end of a function with a result, which no valid program reaches: the frame stays here.
    Stay,
}

/// The local variables by number, the values that are not used yet, and what is to do. If nothing is to do, the
/// function returns. What is to do refers into the typed tree: with copies a step would cost more in a large program.
#[derive(Drop)]
pub struct Frame<'a> {
    pub(crate) locals: Vec<Value>,
    pub(crate) values: Stack<Value>,
    pub(crate) todo: Stack<Todo<'a>>,
}

impl<'a> Model for Frame<'a> {
    ghost use Rattle.std.specs.Prelude.{map};
    ghost use Rattle.rgo_source_interpreter.specs.Codes.{coded_frame};
    ghost use Rattle.rgo_meaning.specs.Frames.{SourceFrame as Meaning};
    ghost use Rattle.rgo_source_interpreter.specs.Views.{todo_of};

    ghost Value = { Meaning };

    ghost coded = { coded_frame };

    ghost view = { λ f. record { locals = f.locals.items; values = f.values; todo = map todo_of f.todo } };
}

impl<'a> Frame<'a> {
    /// The first thing to do. It is copied out, so that the frame can be changed while it is done.
    pub(crate) fn first(&self) -> Option<Todo<'a>>
        ensures { MatchOption result (self.now.todo ≡ [])
            (λ item. self.now.todo ≡ todo_of item ∷ drop 1 self.now.todo) }
    {
        self.todo.first()
    }

    /// The value of a local variable.
    pub(crate) fn local(&self, n: usize) -> Value
        ensures { result ≡ spec.local_value self.now.locals n }
    {
        local(&self.locals, n)
    }

    /// The value below `newer` newer ones; nil if there is none.
    pub(crate) fn value(&self, newer: usize) -> Value
        ensures { result ≡ spec.value_below self.now.values newer }
    {
        match self.values.below(newer) {
            Some(value) => value,
            None => Value::Nil,
        }
    }

    /// The newest values, up to `count`, in the order in which they came.
    pub(crate) fn last(&self, count: usize) -> &[Value]
        ensures { result.now ≡ spec.last_values count self.now.values }
    {
        self.values.last(count)
    }

    /// The values below the newest, up to `count`, in the order in which they came.
    pub(crate) fn below_first(&self, count: usize) -> &[Value]
        ensures { result.now ≡ spec.last_values count (drop 1 self.now.values) }
    {
        self.values.below_first(count)
    }

    /// Drops the first thing, and the newest values, up to `count`.
    pub(crate) fn advance(&mut self, count: usize)
        ensures { self.new ≡ spec.frame_with_todo self.old count [] (drop 1 self.old.todo) }
    {
        self.todo.remove(1);
        self.values.remove(count);
    }

    /// Replaces the first thing by these. On allocation failure nothing changes.
    pub(crate) fn expand(&mut self, items: &[Todo<'a>]) -> Result<(), AllocError>
        ensures { Changes result self.old self.new
            (spec.frame_with_todo self.old 0 [] (map todo_of items.now ++ drop 1 self.old.todo)) }
    {
        self.todo.put(1, items)
    }

    /// Replaces the first thing by these, and drops the newest values, up to `count`. On allocation failure nothing
    /// changes.
    pub(crate) fn advance_to(&mut self, count: usize, items: &[Todo<'a>]) -> Result<(), AllocError>
        ensures { Changes result self.old self.new
            (spec.frame_with_todo self.old count [] (map todo_of items.now ++ drop 1 self.old.todo)) }
    {
        self.todo.put(1, items)?;
        self.values.remove(count);
        Ok(())
    }

    /// Replaces the first thing by this one. It needs no memory: callers have changed the memory of the run by then, and must not fail.
    pub(crate) fn set_first(&mut self, item: Todo<'a>)
        requires { 0 < length self.old.todo }
        ensures { self.new ≡ spec.frame_with_todo self.old 0 [] (todo_of item.entry ∷ drop 1 self.old.todo) }
    {
        self.todo.replace(0, item);
    }

    /// Replaces all things to do by these. On allocation failure nothing changes.
    pub(crate) fn end_with(&mut self, items: &[Todo<'a>]) -> Result<(), AllocError>
        ensures { Changes result self.old self.new (spec.frame_with_todo self.old 0 [] (map todo_of items.now)) }
    {
        let all = self.todo.len();
        self.todo.put(all, items)
    }

    /// Pushes a value. On allocation failure nothing changes.
    pub(crate) fn push(&mut self, value: Value) -> Result<(), AllocError>
        ensures { Changes result self.old self.new (spec.frame_with_todo self.old 0 (value ∷ []) self.old.todo) }
    {
        self.values.push(value)
    }

    /// Pushes the newest values, up to `count`, once more. On allocation failure nothing changes.
    pub(crate) fn repeat(&mut self, count: usize) -> Result<(), AllocError>
        ensures { Changes result self.old self.new
            (spec.frame_with_todo self.old 0 (take count self.old.values) self.old.todo) }
    {
        self.values.repeat(count)
    }

    /// Drops the newest value: the place that was made for a result, after a trap or an allocation failure.
    pub(crate) fn pop(&mut self)
        ensures { self.new ≡ spec.frame_with_todo self.old 1 [] self.old.todo }
    {
        self.values.remove(1);
    }

    /// Replaces the newest value, and up to `count` below it, by this one.
    pub(crate) fn replace(&mut self, count: usize, value: Value)
        ensures { self.new ≡ record self.old { values = spec.replaced value count self.old.values } }
    {
        self.values.replace(count, value);
    }

    /// Sets a local variable. On allocation failure nothing changes.
    pub(crate) fn set_local(&mut self, n: usize, value: Value) -> Result<(), AllocError>
        ensures { Changes result self.old self.new
            (record self.old { locals = spec.with_local_value self.old.locals n value }) }
    {
        set_local(&mut self.locals, n, value)
    }
}
