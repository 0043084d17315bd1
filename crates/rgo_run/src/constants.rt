//! Whether a code text can express the constants and places of some code; `emit` asks this before it prints.
//!
//! Only places are tested at run time: integers have 64 bits and strings consist of bytes in the compiler's own types, so the
//! functions without a result are proofs of that.

ghost use Rattle.std.specs.Prelude.{◌≡◌, ◌<◌, ◌^◌, All, IfSome, slice_get, Decides};
ghost use Rattle.rgo_code_words.specs.Worded.{IsSmallNumber, PieceFits};
ghost use Rattle.rgo_tac.specs.Ops.{operation_of};
ghost use Rattle.rgo_run.specs.Constants.{TacActionFits, TacOpFits, TacInstrFits, TacFnFits, TacConstantsFit};

use rgo_tac::{Op, Tac, TacFn};
use rgo_typed::{Action, Piece};

fn byte_fits(byte: u8)
    ensures { byte < 2 ^ 8 }
{}

fn bytes_fit(bytes: &[u8])
    ensures { All (λ b. b < 2 ^ 8) bytes.now }
{
    for i in 0..bytes.len() {
        byte_fits(bytes[i]);
    }
}

fn piece_fits(piece: &Piece)
    ensures { PieceFits piece.now }
{
    match piece {
        Piece::Text(bytes) => bytes_fit(bytes.bytes()),
        Piece::Value => {}
    }
}

fn pieces_fit(pieces: &[Piece])
    ensures { All PieceFits pieces.now }
{
    for i in 0..pieces.len() {
        piece_fits(&pieces[i]);
    }
}

fn action_fits(action: Action)
    ensures { TacActionFits action }
{
    match action {
        Action::Int(_)
        | Action::Bool(_)
        | Action::Nil
        | Action::Copy
        | Action::Binary(_)
        | Action::Neg
        | Action::Not
        | Action::IsNil
        | Action::Len
        | Action::Load(_)
        | Action::Store(_)
        | Action::At
        | Action::Put
        | Action::New(_)
        | Action::Slice
        | Action::Chan
        | Action::Recv
        | Action::Send
        | Action::Close
        | Action::Get(_)
        | Action::Set(_) => {}
    }
}

fn op_fits(op: Op<'_>)
    ensures { TacOpFits (operation_of op.entry) }
{
    match op {
        Op::Do { action, .. } => action_fits(action),
        Op::Print { pieces, .. } => pieces_fit(pieces),
        Op::Call { .. } | Op::Go { .. } | Op::Jump(_) | Op::Branch { .. } | Op::Return(_) => {}
    }
}

/// Whether the place of an instruction fits 32 bits. An index past the end has no place, so nothing is wrong with it.
fn instr_fits(f: &TacFn, n: usize) -> bool
    ensures { Decides result (IfSome (slice_get f.now.body n) TacInstrFits) }
{
    match f.op(n) {
        Some(op) => {
            op_fits(op);
            f.place(n) <= u32::MAX as usize
        }
        None => true,
    }
}

/// Whether the places of a function's instructions fit 32 bits.
fn function_fits(f: &TacFn) -> bool
    ensures { Decides result (TacFnFits f.now) }
{
    for n in 0..f.len() {
        if !instr_fits(f, n) {
            return false;
        }
    }
    true
}

/// Whether all places of the code fit 32 bits. Code of a text of at most 1,048,576 bytes always passes, since a place is an offset
/// in that text; the function is total so that its callers need no proof of where code came from.
pub(crate) fn constants_fit(code: &Tac) -> bool
    ensures { Decides result (TacConstantsFit code.now) }
{
    let functions = code.functions();
    for n in 0..functions.len() {
        if !function_fits(&functions[n]) {
            return false;
        }
    }
    true
}
