//! The lines of a function before its instructions.

ghost use Rattle.std.specs.Prelude.{◌≡◌, ◌++◌, ◌∷◌, [], map, slice_get, OnOk, IfOk};
ghost use Rattle.std.specs.List.{flat_map};
ghost use Rattle.rgo_code.specs.Views.{slot};
ghost use Rattle.rgo_code_printing.specs.Words.{class_word, type_word};
ghost use Rattle.rgo_code_printing.specs.Printing.{words_after_spaces, slot_lines};
ghost use Rattle.rgo_code_printing.specs.Text.{names_of, line, result_words, head_words, slot_words, entry_words};

use crate::declarations::print_type_word;
use crate::items::item_at;
use crate::lists::print_regions;
use crate::words::{print, print_class, print_number};
use rgo_code::{Class, Code, CodeFn};
use rgo_typed::Type;
use std::alloc::AllocError;

/// A type and a class.
fn print_slot(out: &mut Vec<u8>, code: &Code, ty: &Type, class: Class) -> Result<(), AllocError>
    ensures { OnOk result (out.new.items ≡ out.old.items
        ++ words_after_spaces (type_word (names_of code.now).structs ty.now ∷ class_word class ∷ [])) }
{
    print_type_word(out, code, ty)?;
    print(out, b" ")?;
    print_class(out, class)
}

fn print_result(out: &mut Vec<u8>, code: &Code, f: &CodeFn<'_>) -> Result<(), AllocError>
    ensures { OnOk result (out.new.items ≡ out.old.items
        ++ words_after_spaces (result_words (names_of code.now) f.now.result)) }
{
    match f.tac().result_type() {
        Some(ty) => print_slot(out, code, ty, f.result_class()),
        None => print(out, b" - -"),
    }
}

#[tactic(auto, using(crate::proofs::Printing::line_is))]
pub(crate) fn print_head(out: &mut Vec<u8>, code: &Code, f: &CodeFn<'_>) -> Result<(), AllocError>
    ensures { OnOk result (out.new.items ≡ out.old.items ++ line (head_words (names_of code.now) f.now)) }
{
    print(out, b"func")?;
    print(out, b" ")?;
    print(out, f.tac().name().bytes())?;
    print(out, b" ")?;
    print_number(out, f.tac().params())?;
    print_result(out, code, f)?;
    print(out, b"\n")
}

#[tactic(auto, using(crate::proofs::Printing::line_is))]
fn print_variable_line(
    out: &mut Vec<u8>,
    code: &Code,
    ty: &Type,
    class: Class,
) -> Result<(), AllocError>
    ensures { OnOk result (out.new.items ≡ out.old.items
        ++ line (slot_words (names_of code.now) (slot ty.now class))) }
{
    print(out, b"var")?;
    print_slot(out, code, ty, class)?;
    print(out, b"\n")
}

/// The line of the variable of number i.
fn print_variable_at(
    out: &mut Vec<u8>,
    code: &Code,
    f: &CodeFn<'_>,
    i: u32,
) -> Result<(), AllocError>
    ensures { OnOk result (out.new.items ≡ out.old.items
        ++ flat_map line (slot_lines (names_of code.now) (slice_get f.now.variables i))) }
{
    match item_at(f.tac().variables(), i as usize) {
        Some(ty) => print_variable_line(out, code, ty, f.class_of(i)),
        // Only numbers of variables are printed.
        None => Ok(()),
    }
}

pub(crate) fn print_variables(
    out: &mut Vec<u8>,
    code: &Code,
    f: &CodeFn<'_>,
) -> Result<(), AllocError>
    ensures { OnOk result (out.new.items ≡ out.old.items
        ++ flat_map line (map (slot_words (names_of code.now)) f.now.variables)) }
{
    for i in 0..f.tac().variable_count() {
        print_variable_at(out, code, f, i)?;
    }
    Ok(())
}

#[tactic(auto, using(crate::proofs::Printing::line_is))]
pub(crate) fn print_entry(out: &mut Vec<u8>, names: &[u32]) -> Result<(), AllocError>
    ensures { OnOk result (out.new.items ≡ out.old.items ++ line (entry_words names.now)) }
{
    print(out, b"entry")?;
    print(out, b" ")?;
    print_regions(out, b'-', names)?;
    print(out, b"\n")
}
