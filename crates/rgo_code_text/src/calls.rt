//! Calls and goroutines' starts in a code text, as they are read.

ghost use Rattle.std.specs.Prelude.{◌≡◌, ℕ, List, [], IfOk};
ghost use Rattle.std.specs.Option.{option_map};
ghost use Rattle.rgo_typed.specs.declared.statements.Piece.{Piece};
ghost use Rattle.rgo_tac.specs.Code as tac;
ghost use Rattle.rgo_code_words.specs.Cuts.{nows};
ghost use Rattle.rgo_code.specs.Views.{code_op};
ghost use Rattle.rgo_code_text.specs.Ops as spec;
ghost use Rattle.rgo_code_text.specs.Ops.{of_length, read_call, read_go, removing};
ghost use Rattle.rgo_code_text.specs.Views.{named_callee_of, named_op_of, own_op};

use crate::ops::{NamedOp, no_numbers};
use rgo_code::{Class, Note};
use rgo_code_words::{inside, is_name, len_to, numbers, passes, regions, removes, value, word_at};
use rgo_tac::Instr;
use rgo_typed::Row;
use std::alloc::{AllocError, Global};

/// A name and its arguments.
#[derive(Drop)]
pub(crate) struct Callee<'t> {
    name: &'t [u8],
    from: Row<u32>,
}

fn read_callee(alloc: Global, word: &[u8]) -> Result<Option<Callee<'_>>, AllocError>
    ensures { IfOk result (λ r. option_map named_callee_of r ≡ spec.read_callee word.now) }
{
    let len = len_to(word, b'(');
    let name = &word[..len];
    if !is_name(name) {
        return Ok(None);
    }
    let Some(list) = inside(&word[len..], b"(", b')') else {
        return Ok(None);
    };
    match numbers(alloc, list, b'v')? {
        Some(from) => Ok(Some(Callee { name, from })),
        None => Ok(None),
    }
}

/// The function and the list have number 0 until all names of the text are known.
fn call_instr(to: Option<u32>) -> Instr
    ensures { (from : List ℕ) (pieces : List Piece) → own_op from pieces result ≡ tac.Call to 0 from }
{
    match to {
        Some(d) => Instr::Call(d, 0, 0),
        None => Instr::Invoke(0, 0),
    }
}

/// A note of what is passed, kept and removed.
fn passing(alloc: Global, passes: Row<Class>, protects: Row<u32>, removes: Row<u32>) -> Note
    ensures { result ≡ record (removing removes) { passes = passes; protects = protects } }
{
    Note {
        creates: no_numbers(alloc),
        passes,
        protects,
        removes,
        otherwise: no_numbers(alloc),
    }
}

/// What a call says of regions, by its words.
fn call_note(alloc: Global, words: &[&[u8]]) -> Result<Option<Note>, AllocError>
    ensures { IfOk result (λ r. r ≡ spec.call_note (nows words.now)) }
{
    let Some(passes) = passes(alloc, word_at(words, 3))? else {
        return Ok(None);
    };
    let Some(protects) = regions(alloc, word_at(words, 4), b'P')? else {
        return Ok(None);
    };
    match removes(alloc, word_at(words, 5))? {
        Some(removes) => Ok(Some(passing(alloc, passes, protects, removes))),
        None => Ok(None),
    }
}

/// What the start of a goroutine says of regions, by its words.
fn go_note(alloc: Global, words: &[&[u8]]) -> Result<Option<Note>, AllocError>
    ensures { IfOk result (λ r. r ≡ spec.go_note (nows words.now)) }
{
    let Some(passes) = passes(alloc, word_at(words, 2))? else {
        return Ok(None);
    };
    match removes(alloc, word_at(words, 3))? {
        Some(removes) => Ok(Some(passing(alloc, passes, no_numbers(alloc), removes))),
        None => Ok(None),
    }
}

/// An instruction with the arguments of a callee.
fn with_callee<'t>(alloc: Global, instr: Instr, callee: Callee<'t>, note: Note) -> NamedOp<'t>
    ensures { named_op_of result ≡ record {
      op = code_op (own_op callee.entry.from [] instr) note;
      name = callee.entry.name.now;
    } }
{
    let Callee { name, from } = callee;
    NamedOp {
        instr,
        name,
        from: from.into_items(),
        pieces: Vec::new(alloc),
        note,
    }
}

/// `call d f(..) R[..] P[..] -[..]`.
pub(crate) fn call<'t>(alloc: Global, words: &[&'t [u8]]) -> Result<Option<NamedOp<'t>>, AllocError>
    ensures { IfOk result (λ r. option_map named_op_of r
        ≡ of_length 6 (nows words.now) (read_call (nows words.now))) }
{
    if words.len() != 6 {
        return Ok(None);
    }
    let Some(to) = value(word_at(words, 1)) else {
        return Ok(None);
    };
    let Some(callee) = read_callee(alloc, word_at(words, 2))? else {
        return Ok(None);
    };
    match call_note(alloc, words)? {
        Some(note) => Ok(Some(with_callee(alloc, call_instr(to), callee, note))),
        None => Ok(None),
    }
}

/// `go f(..) R[..] -[..]`.
pub(crate) fn go<'t>(alloc: Global, words: &[&'t [u8]]) -> Result<Option<NamedOp<'t>>, AllocError>
    ensures { IfOk result (λ r. option_map named_op_of r
        ≡ of_length 4 (nows words.now) (read_go (nows words.now))) }
{
    if words.len() != 4 {
        return Ok(None);
    }
    let Some(callee) = read_callee(alloc, word_at(words, 1))? else {
        return Ok(None);
    };
    match go_note(alloc, words)? {
        Some(note) => Ok(Some(with_callee(alloc, Instr::Go(0, 0), callee, note))),
        None => Ok(None),
    }
}
