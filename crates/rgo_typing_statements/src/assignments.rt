//! Typed trees of assignments, from their checked sides.
//!
//! The left side is checked as an expression first, so its term is a read; the assignment turns this read into the write of the
//! same place. Only places come here, since the rules have refused other left sides. The definitions are total nevertheless, and
//! keep only the value if the term is not a place.
#![tactic(auto)]

ghost use Rattle.std.specs.Prelude.{◌≡◌, IfOk, map};
ghost use Rattle.rgo_typed.specs.Tree.{terms_of};
ghost use Rattle.rgo_typed.specs.Views.{term_of, stmt_of};
ghost use Rattle.rgo_typing_rules.specs.Views.{shape_of};
ghost use Rattle.rgo_typing_expressions.specs.Terms as terms;
ghost use Rattle.rgo_typing_statements.specs.Statements.{assign_op, step_op};
ghost use Rattle.rgo_typing_statements.specs.TypedStatements as spec;

use crate::locals::kind_in;
use rgo_ast::{AssignOp, BinaryOp, Place, StepOp};
use rgo_typed::{Action, Base, Stmt, Term};
use rgo_typing_expressions::{Checked, apply_two, plain, with_type};
use std::alloc::{AllocError, Global};

/// The operator of an assignment that computes first.
pub(crate) fn assign_op(op: AssignOp) -> Option<BinaryOp>
    ensures { result ≡ assign_op op }
{
    match op {
        AssignOp::Plain => None,
        AssignOp::Add => Some(BinaryOp::Add),
        AssignOp::Sub => Some(BinaryOp::Sub),
        AssignOp::Mul => Some(BinaryOp::Mul),
        AssignOp::Div => Some(BinaryOp::Div),
        AssignOp::Rem => Some(BinaryOp::Rem),
    }
}

/// The operator of `++` and `--`.
pub(crate) fn step_op(op: StepOp) -> BinaryOp
    ensures { result ≡ step_op op }
{
    match op {
        StepOp::Increment => BinaryOp::Add,
        StepOp::Decrement => BinaryOp::Sub,
    }
}

/// The write that belongs to a read. All actions are listed, so that a new one has to be decided here.
fn write_of(read: Action) -> Option<Action>
    ensures { result ≡ spec.write_of read }
{
    match read {
        Action::Get(number) => Some(Action::Set(number)),
        Action::Load(number) => Some(Action::Store(number)),
        Action::At => Some(Action::Put),
        Action::Int(_)
        | Action::Bool(_)
        | Action::Nil
        | Action::Copy
        | Action::Binary(_)
        | Action::Neg
        | Action::Not
        | Action::IsNil
        | Action::Len
        | Action::Store(_)
        | Action::Put
        | Action::New(_)
        | Action::Slice
        | Action::Chan
        | Action::Recv
        | Action::Send
        | Action::Close
        | Action::Set(_) => None,
    }
}

/// The operands with one more at their end.
fn ended(operands: Vec<Term>, value: Term) -> Result<Vec<Term>, AllocError>
    ensures { IfOk result (λ all. terms_of (map term_of all.items)
        ≡ spec.with_last (terms_of (map term_of operands.items)) (term_of value)) }
{
    let mut all = operands;
    all.push(value)?;
    Ok(all)
}

/// A value is assigned to the left side.
#[tactic(auto, using(rgo_typing_expressions::proofs::Trees::terms))]
fn stored(alloc: Global, left: Term, value: Term, at: Place) -> Result<Stmt, AllocError>
    ensures { IfOk result (λ s. stmt_of s ≡ spec.store_stmt (term_of left) (term_of value) at) }
{
    match left {
        Term::Local(number) => Ok(Stmt::Assign(number, Box::new(alloc, value)?, at)),
        Term::Apply(read, parts, _, _) => match write_of(read) {
            Some(write) => Ok(Stmt::Perform(write, ended(parts, value)?, at)),
            None => Ok(Stmt::Discard(Box::new(alloc, value)?)),
        },
        _ => Ok(Stmt::Discard(Box::new(alloc, value)?)),
    }
}

/// The left side is read, computed with and written. Its operands appear once in the tree, since Go evaluates them once: `s[f()] += 1`
/// calls `f` once. A local variable has no operands, so for it an ordinary assignment is enough.
#[tactic(auto, using(rgo_typing_expressions::proofs::Trees::terms))]
pub(crate) fn changed(
    alloc: Global,
    op: BinaryOp,
    left: Term,
    value: Term,
    at: Place,
) -> Result<Stmt, AllocError>
    ensures { IfOk result (λ s. stmt_of s ≡ spec.changed op (term_of left) (term_of value) at) }
{
    match left {
        Term::Local(number) => {
            // Operators that an assignment may compute with are those of `int`.
            let ty = plain(alloc, Base::Int);
            let read = Term::Local(number);
            let value = apply_two(alloc, Action::Binary(op), read, value, ty, at)?;
            Ok(Stmt::Assign(number, Box::new(alloc, value)?, at))
        }
        Term::Apply(read, operands, ty, read_at) => match write_of(read) {
            Some(write) => Ok(Stmt::Update {
                operands,
                read,
                ty,
                read_at,
                op,
                value: Box::new(alloc, value)?,
                write,
                at,
            }),
            None => Ok(Stmt::Discard(Box::new(alloc, value)?)),
        },
        _ => Ok(Stmt::Discard(Box::new(alloc, value)?)),
    }
}

/// A value is assigned to a checked left side, as a value of its type.
fn stored_as(alloc: Global, left: Checked<'_>, value: Term, at: Place) -> Result<Stmt, AllocError>
    ensures { IfOk result (λ s. stmt_of s ≡ spec.store_stmt (term_of left.entry.term)
        (terms.with_type (terms.type_in (shape_of left.entry.shape)) (term_of value)) at) }
{
    let value = with_type(alloc, kind_in(left.shape), value)?;
    stored(alloc, left.term, value, at)
}

/// An assignment to a checked left side.
pub(crate) fn assigned(
    alloc: Global,
    op: Option<BinaryOp>,
    left: Checked<'_>,
    value: Checked<'_>,
    at: Place,
) -> Result<Stmt, AllocError>
    ensures { IfOk result (λ s. stmt_of s
        ≡ spec.assigned_stmt op (shape_of left.entry.shape) (term_of left.entry.term) (term_of value.entry.term) at) }
{
    match op {
        None => stored_as(alloc, left, value.term, at),
        Some(op) => changed(alloc, op, left.term, value.term, at),
    }
}
