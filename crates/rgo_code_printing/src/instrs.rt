//! The lines of instructions.

ghost use Rattle.std.specs.Prelude.{◌≡◌, ◌++◌, ◌∷◌, [], decimal, slice_get, OnOk};
ghost use Rattle.std.specs.List.{flat_map};
ghost use Rattle.rgo_tac.specs.Ops.{operation_of};
ghost use Rattle.rgo_code.specs.Views.{code_instr};
ghost use Rattle.rgo_code_printing.specs.Words.{place_word, creates_word};
ghost use Rattle.rgo_code_printing.specs.Printing.{words_after_spaces, note_of, note_in, instr_lines};
ghost use Rattle.rgo_code_printing.specs.Text.{names_of, line, instr_words, body_lines};

use crate::lists::print_regions;
use crate::ops::{Lists, print_op};
use crate::words::{print, print_lettered, print_number};
use rgo_code::{Code, CodeFn};
use rgo_tac::Op;
use std::alloc::AllocError;

fn lists_at<'a>(f: &CodeFn<'a>, i: usize) -> Lists<'a>
    ensures { note_of result ≡ note_in (slice_get f.now.body i) }
{
    Lists {
        creates: f.creates(i),
        passes: f.passes(i),
        protects: f.protects(i),
        removes: f.removes(i),
        otherwise: f.otherwise(i),
    }
}

/// The words of an instruction before its operation.
fn print_front(out: &mut Vec<u8>, i: usize, place: usize, creates: &[u32]) -> Result<(), AllocError>
    ensures { OnOk result (out.new.items ≡ out.old.items
        ++ (decimal i ++ words_after_spaces (place_word place ∷ creates_word creates.now ∷ []))) }
{
    print_number(out, i)?;
    print(out, b" ")?;
    print_lettered(out, b'@', place)?;
    print(out, b" ")?;
    print_regions(out, b'+', creates)
}

#[tactic(auto, using(crate::proofs::Printing::line_is))]
fn print_instr(
    out: &mut Vec<u8>,
    code: &Code,
    i: usize,
    place: usize,
    op: Op<'_>,
    lists: &Lists<'_>,
) -> Result<(), AllocError>
    ensures { OnOk result (out.new.items ≡ out.old.items ++ line (instr_words (names_of code.now) i
        (code_instr (record { op = operation_of op.entry; place = place }) (note_of lists.now)))) }
{
    print_front(out, i, place, lists.creates)?;
    print_op(out, code, op, lists)?;
    print(out, b"\n")
}

/// The instruction of number i.
fn print_instr_at(
    out: &mut Vec<u8>,
    code: &Code,
    f: &CodeFn<'_>,
    i: usize,
) -> Result<(), AllocError>
    ensures { OnOk result (out.new.items ≡ out.old.items
        ++ flat_map line (instr_lines (names_of code.now) i (slice_get f.now.body i))) }
{
    match f.tac().op(i) {
        Some(op) => print_instr(out, code, i, f.tac().place(i), op, &lists_at(f, i)),
        // Only numbers of instructions are printed.
        None => Ok(()),
    }
}

pub(crate) fn print_body(out: &mut Vec<u8>, code: &Code, f: &CodeFn<'_>) -> Result<(), AllocError>
    ensures { OnOk result (out.new.items ≡ out.old.items
        ++ flat_map line (body_lines (names_of code.now) 0 f.now.body)) }
{
    for i in 0..f.tac().len() {
        print_instr_at(out, code, f, i)?;
    }
    Ok(())
}
