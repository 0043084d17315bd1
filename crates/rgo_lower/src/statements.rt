//! The code of statements that contain no others.

ghost use Rattle.std.specs.Prelude.{◌≡◌, ◌+◌, ◌<◌, ◌^◌, IfOk, map, Some, length, true, is_some};
ghost use Rattle.rgo_typed.specs.Tree as tree;
ghost use Rattle.rgo_typed.specs.Tree.{terms_of};
ghost use Rattle.rgo_typed.specs.Views.{term_of, boxed_term_of};
ghost use Rattle.rgo_lower.specs.Sizes.{term_size, value_size, stmt_size};
ghost use Rattle.rgo_lower.specs.Emitted.{builder_size, made_of, IsEmitted, StmtIsEmitted, TestIsEmitted, ConditionIsEmitted};
ghost use Rattle.rgo_lower.specs.Shapes.{term_fits, terms_fit, value_fits, returns_nothing, how_many, change_fits};

use crate::builder::{Builder, Loop};
use crate::encode::zero_action;
use crate::terms::{lower_term, lower_terms};
use rgo_ast::{BinaryOp, Place};
use rgo_typed::{Action, Logical, Piece, Term, Type};
use std::alloc::AllocError;

/// An assignment that reads its place before it writes it, as `p.v += 7`.
#[derive(Clone, Copy)]
pub struct Change<'a> {
    pub operands: &'a Vec<Term>,
    pub read: Action,
    pub ty: &'a Type,
    pub read_at: Place,
    pub op: BinaryOp,
    pub value: &'a Term,
    pub write: Action,
    pub at: Place,
}

/// A local variable begins with a value. It is a copy, since the value may be that of another local variable.
pub fn declare(
    b: &mut Builder,
    n: usize,
    ty: &Type,
    value: &Term,
    place: Place,
) -> Result<(), AllocError>
    requires room { builder_size (made_of b.now) + stmt_size (tree.Declare n ty.now (term_of value.now) place) < 2 ^ 32 }
    requires shape { term_fits (term_of value.now) ≡ true }
    requires number { n < length b.now.slots.items }
    ensures { IfOk result (λ done. IsEmitted (tree.Declare n ty.now (term_of value.now) place)
        (made_of b.old) (made_of b.new)) }
{
    let d = lower_term(b, value)?;
    let variable = b.give(Action::Copy, &[d], ty, place)?;
    b.declare(n, variable);
    Ok(())
}

/// A local variable begins with the zero of its type.
pub fn declare_zero(b: &mut Builder, n: usize, ty: &Type, place: Place) -> Result<(), AllocError>
    requires room { builder_size (made_of b.now) + 3 < 2 ^ 32 }
    requires number { n < length b.now.slots.items }
    ensures { IfOk result (λ done. IsEmitted (tree.Zero n ty.now place) (made_of b.old) (made_of b.new)) }
{
    let variable = b.give(zero_action(ty), &[], ty, place)?;
    b.declare(n, variable);
    Ok(())
}

/// An assignment to a local variable.
pub fn assign(b: &mut Builder, n: usize, value: &Term, place: Place) -> Result<(), AllocError>
    requires room { builder_size (made_of b.now) + term_size (term_of value.now) + 3 < 2 ^ 32 }
    requires shape { term_fits (term_of value.now) ≡ true }
    ensures { IfOk result (λ done. IsEmitted (tree.Assign n (term_of value.now) place)
        (made_of b.old) (made_of b.new)) }
{
    let d = lower_term(b, value)?;
    let variable = b.variable_of(n);
    b.copy_to(variable, d, place)
}

/// An action without a value.
pub fn perform(
    b: &mut Builder,
    action: Action,
    operands: &Vec<Term>,
    place: Place,
) -> Result<(), AllocError>
    requires room { builder_size (made_of b.now) + stmt_size (tree.Perform action (terms_of (map term_of operands.now.items)) place) < 2 ^ 32 }
    requires shape { terms_fit (terms_of (map term_of operands.now.items)) ≡ true }
    requires operands { returns_nothing action (how_many (terms_of (map term_of operands.now.items))) ≡ true }
    ensures { IfOk result (λ done. IsEmitted (tree.Perform action (terms_of (map term_of operands.now.items)) place)
        (made_of b.old) (made_of b.new)) }
{
    let from = lower_terms(b, operands)?;
    b.act(action, &from, place)
}

/// An assignment that reads its place before it writes it. In the order of the language: the operands of the place, which are
/// evaluated once, the read, the value, the operation, the write.
pub fn update(b: &mut Builder, change: &Change<'_>) -> Result<(), AllocError>
    requires room { builder_size (made_of b.now) + stmt_size (tree.Update (record {
      operands = terms_of (map term_of change.now.operands.now.items);
      read = change.now.read;
      ty = change.now.ty.now;
      read_at = change.now.read_at;
      op = change.now.op;
      value = term_of change.now.value.now;
      write = change.now.write;
      at = change.now.at;
    })) < 2 ^ 32 }
    requires shape { change_fits (record {
      operands = terms_of (map term_of change.now.operands.now.items);
      read = change.now.read;
      ty = change.now.ty.now;
      read_at = change.now.read_at;
      op = change.now.op;
      value = term_of change.now.value.now;
      write = change.now.write;
      at = change.now.at;
    }) ≡ true }
    ensures { IfOk result (λ done. IsEmitted (tree.Update (record {
      operands = terms_of (map term_of change.now.operands.now.items);
      read = change.now.read;
      ty = change.now.ty.now;
      read_at = change.now.read_at;
      op = change.now.op;
      value = term_of change.now.value.now;
      write = change.now.write;
      at = change.now.at;
    })) (made_of b.old) (made_of b.new)) }
{
    let mut from = lower_terms(b, change.operands)?;
    let before = b.give(change.read, &from, change.ty, change.read_at)?;
    let d = lower_term(b, change.value)?;
    let operation = Action::Binary(change.op);
    let after = b.give(operation, &[before, d], change.ty, change.at)?;
    from.push(after)?;
    b.act(change.write, &from, change.at)
}

/// A value that is not used. Its code is still needed: the term may call or trap.
pub fn discard(b: &mut Builder, value: &Term) -> Result<(), AllocError>
    requires room { builder_size (made_of b.now) + term_size (term_of value.now) < 2 ^ 32 }
    requires shape { term_fits (term_of value.now) ≡ true }
    ensures { IfOk result (λ done. IsEmitted (tree.Discard (term_of value.now)) (made_of b.old) (made_of b.new)) }
{
    lower_term(b, value)?;
    Ok(())
}

/// A call of a function without result.
pub fn invoke(
    b: &mut Builder,
    function: usize,
    arguments: &Vec<Term>,
    place: Place,
) -> Result<(), AllocError>
    requires room { builder_size (made_of b.now) + stmt_size (tree.Invoke function (terms_of (map term_of arguments.now.items)) place) < 2 ^ 32 }
    requires shape { terms_fit (terms_of (map term_of arguments.now.items)) ≡ true }
    requires number { function < 2 ^ 32 }
    ensures { IfOk result (λ done. IsEmitted (tree.Invoke function (terms_of (map term_of arguments.now.items)) place)
        (made_of b.old) (made_of b.new)) }
{
    let from = lower_terms(b, arguments)?;
    b.invoke(function, from, place)
}

/// The start of a goroutine.
pub fn start(
    b: &mut Builder,
    function: usize,
    arguments: &Vec<Term>,
    place: Place,
) -> Result<(), AllocError>
    requires room { builder_size (made_of b.now) + stmt_size (tree.Go function (terms_of (map term_of arguments.now.items)) place) < 2 ^ 32 }
    requires shape { terms_fit (terms_of (map term_of arguments.now.items)) ≡ true }
    requires number { function < 2 ^ 32 }
    ensures { IfOk result (λ done. IsEmitted (tree.Go function (terms_of (map term_of arguments.now.items)) place)
        (made_of b.old) (made_of b.new)) }
{
    let from = lower_terms(b, arguments)?;
    b.start(function, from, place)
}

/// A line of text.
pub fn print(
    b: &mut Builder,
    pieces: &[Piece],
    values: &Vec<Term>,
    place: Place,
) -> Result<(), AllocError>
    requires room { builder_size (made_of b.now) + stmt_size (tree.Print pieces.now (terms_of (map term_of values.now.items)) place) < 2 ^ 32 }
    requires shape { terms_fit (terms_of (map term_of values.now.items)) ≡ true }
    ensures { IfOk result (λ done. IsEmitted (tree.Print pieces.now (terms_of (map term_of values.now.items)) place)
        (made_of b.old) (made_of b.new)) }
{
    let from = lower_terms(b, values)?;
    b.print(pieces, from, place)
}

/// A jump out of the innermost loop. A tree that is lowered has a loop around each `break`.
pub fn break_out(b: &mut Builder, innermost: Option<Loop>, place: Place) -> Result<(), AllocError>
    requires { is_some innermost ≡ true }
    ensures { IfOk result (λ done. StmtIsEmitted (tree.Break place) innermost (made_of b.old) (made_of b.new)) }
{
    match innermost {
        Some(labels) => b.jump(labels.break_to, place),
        None => unreachable!(),
    }
}

/// A jump to the post statement of the innermost loop. A tree that is lowered has a loop around each `continue`.
pub fn continue_on(b: &mut Builder, innermost: Option<Loop>, place: Place) -> Result<(), AllocError>
    requires { is_some innermost ≡ true }
    ensures { IfOk result (λ done. StmtIsEmitted (tree.Continue place) innermost (made_of b.old) (made_of b.new)) }
{
    match innermost {
        Some(labels) => b.jump(labels.continue_to, place),
        None => unreachable!(),
    }
}

/// A return.
pub fn return_with(
    b: &mut Builder,
    value: &Option<Box<Term>>,
    place: Place,
) -> Result<(), AllocError>
    requires room { builder_size (made_of b.now) + value_size (boxed_term_of value.now) + 3 < 2 ^ 32 }
    requires shape { value_fits (boxed_term_of value.now) ≡ true }
    ensures { IfOk result (λ done. IsEmitted (tree.Return (boxed_term_of value.now) place)
        (made_of b.old) (made_of b.new)) }
{
    match value {
        None => b.leave(place),
        Some(term) => {
            let d = lower_term(b, term)?;
            b.return_from(d, place)
        }
    }
}

/// A condition, and the branch to a label where it is false.
pub fn lower_test(b: &mut Builder, test: &Term, other: u32, place: Place) -> Result<(), AllocError>
    requires room { builder_size (made_of b.now) + term_size (term_of test.now) + 3 < 2 ^ 32 }
    requires shape { term_fits (term_of test.now) ≡ true }
    ensures { IfOk result (λ done. TestIsEmitted (term_of test.now) other place (made_of b.old) (made_of b.new)) }
{
    let d = lower_term(b, test)?;
    // As after the left side of `&&`: what follows is done only if the value is true.
    b.branch_on(Logical::And, d, other, place)
}

/// The same of a loop's condition, if there is one.
pub fn lower_condition(
    b: &mut Builder,
    test: &Option<Box<Term>>,
    other: u32,
    place: Place,
) -> Result<(), AllocError>
    requires room { builder_size (made_of b.now) + value_size (boxed_term_of test.now) + 3 < 2 ^ 32 }
    requires shape { value_fits (boxed_term_of test.now) ≡ true }
    ensures { IfOk result (λ done. ConditionIsEmitted (boxed_term_of test.now) other place (made_of b.old)
        (made_of b.new)) }
{
    match test {
        Some(term) => lower_test(b, term, other, place),
        None => Ok(()),
    }
}
