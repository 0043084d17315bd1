//! Prints. All bytes of a print are there before its ticket is drawn, which decides its place among all prints: bytes for which
//! memory ran out after the draw would be missing in the output. Why: docs/DECISIONS.md, "Tables of words".
ghost use Rattle.std.specs.Prelude.{◌≡◌, ◌<◌, ◌∷◌, [], Contains, IfOk, MatchOption, None, OnErr, Some, slice_get};
ghost use Rattle.rgo_core.specs.Frames.steps.Prints.{typed_in};
ghost use Rattle.rgo_core_steps.specs.After.{piece as piece_of};
ghost use Rattle.rgo_sound.specs.Tac.Code.{Print as PrintOp};
ghost use Rattle.rgo_sound.specs.Tac.Flow.{reads};
ghost use Rattle.rgo_sound.specs.Tac.Ops.{operation_of};
ghost use Rattle.rgo_body.specs.Bodies.{frames_of_body};
ghost use Rattle.rgo_acts.specs.Actors.{ActorActed, now};
ghost use Rattle.rgo_acts.specs.Prints.{PrintExamples, drawn_of, value_in, values_in};
ghost use Rattle.rgo_acts.specs.Ready.{ActorIsBefore};

use crate::actors::Actor;
use crate::runs::Run;
use rgo_body::Next;
use rgo_core_steps::clock;
use rgo_sound::machine::write_line;
use rgo_sound::memory::Value;
use rgo_sound::typed::{Base, Piece, Type};
use std::alloc::{AllocError, Global};

/// A print with its ticket.
#[derive(Drop)]
pub struct Print {
    pub ticket: u64,
    pub bytes: Vec<u8>,
    /// The run had ended before: these bytes are not part of what it prints.
    pub is_void: bool,
}

/// The int or bool that a word shows. A word alone does not say which it is; the type of its variable does.
fn value(ty: &Type, word: u64) -> Value
    ensures { result ≡ typed_in ty.now.layers ty.now.base word }
{
    // A print has ints and bools only; for a slice, a channel or a pointer any value will do.
    if !ty.layers.items().is_empty() {
        return Value::Nil;
    }
    match ty.base {
        Base::Int => Value::Int(word.cast_signed()),
        Base::Bool => Value::Bool(word != 0),
        Base::Pointer(_) => Value::Nil,
    }
}

/// The type of this number.
fn type_at(types: &[Type], n: u32) -> Option<&Type>
    ensures { MatchOption result (slice_get types.now n ≡ None) (λ ty. slice_get types.now n ≡ Some ty.now) }
{
    match types.get(n as usize) {
        Some(ty) => Some(ty),
        None => None,
    }
}

/// The value of a variable that the next instruction reads.
fn operand(actor: &Actor, run: &Run<'_, '_>, next: &Next<'_>, variable: u32) -> Value
    requires before { ActorIsBefore run.now actor.now next.now }
    requires reads { Contains (reads (operation_of next.now.op)) variable }
    ensures { result ≡ value_in next.now.function (frames_of_body actor.now.body) variable }
{
    match type_at(next.function.tac().variables(), variable) {
        Some(ty) => value(ty, actor.body.word(variable)),
        None => Value::Nil,
    }
}

/// The values of the operands of a print. They are read before anything is drawn, as only memory can be refused here.
fn operands(
    alloc: Global,
    actor: &Actor,
    run: &Run<'_, '_>,
    next: &Next<'_>,
    from: &[u32],
) -> Result<Vec<Value>, AllocError>
    requires before { ActorIsBefore run.now actor.now next.now }
    requires reads { reads (operation_of next.now.op) ≡ from.now }
    ensures { IfOk result (λ values. values.items ≡ values_in next.now.function (frames_of_body actor.now.body) from.now) }
{
    let mut values = Vec::with_capacity(alloc, from.len())?;
    for i in 0..from.len() {
        values.push(operand(actor, run, next, from[i]))?;
    }
    Ok(values)
}

/// The bytes that the next instruction prints.
fn line(
    alloc: Global,
    actor: &Actor,
    run: &Run<'_, '_>,
    next: &Next<'_>,
    pieces: &[Piece],
    from: &[u32],
) -> Result<Vec<u8>, AllocError>
    requires before { ActorIsBefore run.now actor.now next.now }
    requires is { operation_of next.now.op ≡ PrintOp pieces.now from.now }
    ensures { IfOk result (λ bytes. bytes.items ≡ piece_of run.now.setup.code (now run.now.setup actor.now)) }
{
    let values = operands(alloc, actor, run, next, from)?;
    let mut bytes = Vec::new(alloc);
    write_line(&mut bytes, pieces, &values)?;
    Ok(bytes)
}

/// Prints a line: its operands with one space between each two, and a newline at the end.
///
/// # Errors
///
/// On allocation failure. Then nothing has changed.
pub fn print_line(
    alloc: Global,
    actor: &mut Actor,
    run: &Run<'_, '_>,
    next: &Next<'_>,
    pieces: &[Piece],
    from: &[u32],
) -> Result<Print, AllocError>
    requires before { ActorIsBefore run.now actor.old next.now }
    requires is { operation_of next.now.op ≡ PrintOp pieces.now from.now }
    requires few { actor.old.body.prints < 8796093022208 }
    ensures printed { IfOk result (λ print. ActorActed run.now actor.old actor.new 1 (drawn_of print ∷ []) []) }
    ensures same { OnErr result (actor.new ≡ actor.old) }
{
    let bytes = line(alloc, actor, run, next, pieces, from)?;
    let drawn = clock::ticket(run.table, &mut actor.seat, actor.behind, &bytes);
    actor.behind = 0;
    actor.body.printed(run.program, next);
    Ok(Print {
        ticket: drawn.ticket,
        bytes,
        is_void: drawn.is_void,
    })
}

/// Values of operands, by their types.
pub fn examples()
    ensures { PrintExamples }
{}
