//! Operations in a code text, as they are read. The numbers of what they name are not known yet.

ghost use Rattle.std.specs.Prelude.{◌≡◌, [], bytes_eq, codes, take, IfOk};
ghost use Rattle.std.specs.Option.{option_map};
ghost use Rattle.rgo_code.specs.Views.{code_op};
ghost use Rattle.rgo_code_words.specs.Cuts.{nows};
ghost use Rattle.rgo_code_text.specs.Ops.{read_action_op, read_op, removing, op_text, NamedOpFits};
ghost use Rattle.rgo_code_words.specs.Readers.{IsReadFromBytes};
ghost use Rattle.rgo_code_text.specs.Views.{named_action_of, named_op_of};

use crate::actions::{Action, read_action};
use crate::calls::{call, go};
use crate::jumps::{branch, give_back, jump};
use crate::prints::print;
use rgo_code::{Class, Note};
use rgo_code_words::{cut, is, removes, word_at};
use rgo_tac::Instr;
use rgo_typed::{Piece, Row};
use std::alloc::{AllocError, Global};

/// An operation, whose numbers in a function are not known yet.
#[derive(Drop)]
pub(crate) struct NamedOp<'t> {
    /// What it does, with 0 for the number of what it names. The numbers of its variables and its pieces mean nothing.
    pub(crate) instr: Instr,
    /// What it names; empty if it names nothing.
    pub(crate) name: &'t [u8],
    pub(crate) from: Vec<u32>,
    pub(crate) pieces: Vec<Piece>,
    pub(crate) note: Note,
}

pub(crate) fn no_numbers(alloc: Global) -> Row<u32>
    ensures { result ≡ [] }
{
    Row::new(Vec::new(alloc))
}

fn no_classes(alloc: Global) -> Row<Class>
    ensures { result ≡ [] }
{
    Row::new(Vec::new(alloc))
}

/// A note that says nothing but these removals.
pub(crate) fn removals(alloc: Global, removes: Row<u32>) -> Note
    ensures { result ≡ removing removes }
{
    Note {
        creates: no_numbers(alloc),
        passes: no_classes(alloc),
        protects: no_numbers(alloc),
        removes,
        otherwise: no_numbers(alloc),
    }
}

/// An operation that removes nothing and has no variables and pieces of its own.
pub(crate) fn simple<'t>(alloc: Global, instr: Instr, name: &'t [u8], note: Note) -> NamedOp<'t>
    ensures instr { result.instr ≡ instr }
    ensures name { result.name.now ≡ name.entry.now }
    ensures from { result.from.items ≡ [] }
    ensures pieces { result.pieces.items ≡ [] }
    ensures note { result.note ≡ note }
{
    NamedOp {
        instr,
        name,
        from: Vec::new(alloc),
        pieces: Vec::new(alloc),
        note,
    }
}

/// The operation that is an action with these removals.
fn action_op<'t>(alloc: Global, done: Action<'t>, removes: Row<u32>) -> NamedOp<'t>
    ensures { named_op_of result
        ≡ record { op = code_op (named_action_of done.entry).op (removing removes); name = (named_action_of done.entry).name } }
{
    let note = removals(alloc, removes);
    simple(alloc, done.instr, done.name, note)
}

/// An action with its removals, which are the last word. The number of words before them selects the actions.
fn act<'t>(alloc: Global, words: &[&'t [u8]]) -> Result<Option<NamedOp<'t>>, AllocError>
    ensures { IfOk result (λ r. option_map named_op_of r ≡ read_action_op (nows words.now)) }
{
    let last = words.len().saturating_sub(1);
    let Some(done) = read_action(&words[..last]) else {
        return Ok(None);
    };
    match removes(alloc, word_at(words, last))? {
        Some(removes) => Ok(Some(action_op(alloc, done, removes))),
        None => Ok(None),
    }
}

/// An operation that prints nothing, by its words.
fn op<'t>(alloc: Global, words: &[&'t [u8]]) -> Result<Option<NamedOp<'t>>, AllocError>
    ensures { IfOk result (λ r. option_map named_op_of r ≡ read_op (nows words.now)) }
{
    let word = word_at(words, 0);
    if is(word, "call") {
        call(alloc, words)
    } else if is(word, "go") {
        go(alloc, words)
    } else if is(word, "jump") {
        jump(alloc, words)
    } else if is(word, "branch") {
        branch(alloc, words)
    } else if is(word, "return") {
        Ok(give_back(alloc, words))
    } else {
        act(alloc, words)
    }
}

/// With the space after it, so that a longer word does not pass for `print`.
fn is_print(text: &[u8]) -> bool
    ensures { result ≡ bytes_eq (take 6 text.now) (codes "print ") }
{
    text.starts_with(b"print ")
}

/// The operation of which these bytes are the words. A print is tried first, since its strings may contain spaces; any other
/// operation has at most six words.
pub(crate) fn named_op(alloc: Global, text: &[u8]) -> Result<Option<NamedOp<'_>>, AllocError>
    ensures { IfOk result (λ r. IsReadFromBytes NamedOpFits op_text text.now (option_map named_op_of r)) }
{
    if is_print(text) {
        return print(alloc, &text[6..]);
    }
    let words = cut(alloc, text, 5)?;
    op(alloc, &words)
}
