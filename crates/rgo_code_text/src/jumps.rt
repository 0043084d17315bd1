//! Jumps, branches and returns in a code text, as they are read.

ghost use Rattle.std.specs.Prelude.{◌≡◌, ℕ, List, [], IfOk};
ghost use Rattle.std.specs.Option.{option_map};
ghost use Rattle.rgo_typed.specs.declared.statements.Piece.{Piece};
ghost use Rattle.rgo_tac.specs.Code as tac;
ghost use Rattle.rgo_tac.specs.Views.{op_of};
ghost use Rattle.rgo_code_words.specs.Cuts.{nows};
ghost use Rattle.rgo_code_text.specs.Ops as spec;
ghost use Rattle.rgo_code_text.specs.Ops.{of_length, read_jump, read_branch, read_return};
ghost use Rattle.rgo_code_text.specs.Views.{named_op_of, own_op};

use crate::ops::{NamedOp, removals, simple};
use rgo_code_words::{number, removes, value, variable, word_at};
use rgo_tac::Instr;
use rgo_typed::Row;
use std::alloc::{AllocError, Global};

/// `jump t -[..]`.
pub(crate) fn jump<'t>(alloc: Global, words: &[&'t [u8]]) -> Result<Option<NamedOp<'t>>, AllocError>
    ensures { IfOk result (λ r. option_map named_op_of r
        ≡ of_length 3 (nows words.now) (read_jump (nows words.now))) }
{
    if words.len() != 3 {
        return Ok(None);
    }
    let Some(target) = number(word_at(words, 1)) else {
        return Ok(None);
    };
    match removes(alloc, word_at(words, 2))? {
        Some(removes) => {
            let note = removals(alloc, removes);
            Ok(Some(simple(alloc, Instr::Jump(target), &[], note)))
        }
        None => Ok(None),
    }
}

/// The variable and the targets of a branch.
fn branch_instr(words: &[&[u8]]) -> Option<Instr>
    ensures { option_map (op_of [] []) result ≡ spec.branch_of (nows words.now) }
{
    let test = variable(word_at(words, 1))?;
    let target = number(word_at(words, 2))?;
    let other = number(word_at(words, 4))?;
    Some(Instr::Branch(test, target, other))
}

/// `branch a t -[..] e -[..]`.
pub(crate) fn branch<'t>(
    alloc: Global,
    words: &[&'t [u8]],
) -> Result<Option<NamedOp<'t>>, AllocError>
    ensures { IfOk result (λ r. option_map named_op_of r
        ≡ of_length 6 (nows words.now) (read_branch (nows words.now))) }
{
    if words.len() != 6 {
        return Ok(None);
    }
    let Some(instr) = branch_instr(words) else {
        return Ok(None);
    };
    let Some(first) = removes(alloc, word_at(words, 3))? else {
        return Ok(None);
    };
    match removes(alloc, word_at(words, 5))? {
        Some(otherwise) => {
            let mut note = removals(alloc, first);
            note.otherwise = otherwise;
            Ok(Some(simple(alloc, instr, &[], note)))
        }
        None => Ok(None),
    }
}

/// The instruction that returns a value, or nothing.
fn return_instr(value: Option<u32>) -> Instr
    ensures { (from : List ℕ) (pieces : List Piece) → own_op from pieces result ≡ tac.Return value }
{
    match value {
        Some(v) => Instr::Return(v),
        None => Instr::Leave,
    }
}

/// `return a` or `return -`. A return has no word for removals: only the region of the result may be live there, which the caller keeps.
pub(crate) fn give_back<'t>(alloc: Global, words: &[&'t [u8]]) -> Option<NamedOp<'t>>
    ensures { option_map named_op_of result
        ≡ of_length 2 (nows words.now) (read_return (nows words.now)) }
{
    if words.len() != 2 {
        return None;
    }
    let instr = return_instr(value(word_at(words, 1))?);
    let note = removals(alloc, Row::new(Vec::new(alloc)));
    Some(simple(alloc, instr, &[], note))
}
