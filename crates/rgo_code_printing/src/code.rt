//! Code as text: all its lines.

ghost use Rattle.std.specs.Prelude.{◌≡◌, ◌++◌, slice_get, OnOk, IfOk};
ghost use Rattle.std.specs.List.{flat_map};
ghost use Rattle.rgo_code_printing.specs.Printing.{lines_of_fn};
ghost use Rattle.rgo_code_printing.specs.Text.{names_of, line, text_of, fn_lines};

use crate::declarations::{print_globals, print_structs};
use crate::functions::{print_entry, print_head, print_variables};
use crate::instrs::print_body;
use crate::words::print;
use rgo_code::{Code, CodeFn};
use std::alloc::{AllocError, Global};

#[tactic(auto, using(crate::proofs::Printing::lines_append))]
fn print_function(out: &mut Vec<u8>, code: &Code, f: &CodeFn<'_>) -> Result<(), AllocError>
    ensures { OnOk result (out.new.items ≡ out.old.items
        ++ flat_map line (fn_lines (names_of code.now) f.now)) }
{
    print_head(out, code, f)?;
    print_variables(out, code, f)?;
    print_entry(out, f.entry())?;
    print_body(out, code, f)?;
    print(out, b"end\n")
}

/// The lines of the function of number n.
fn print_function_at(out: &mut Vec<u8>, code: &Code, n: usize) -> Result<(), AllocError>
    ensures { OnOk result (out.new.items ≡ out.old.items
        ++ flat_map line (lines_of_fn (names_of code.now) (slice_get code.now.functions n))) }
{
    match code.function(n) {
        Some(f) => print_function(out, code, &f),
        // Only numbers of functions are printed.
        None => Ok(()),
    }
}

fn print_functions(out: &mut Vec<u8>, code: &Code) -> Result<(), AllocError>
    ensures { OnOk result (out.new.items ≡ out.old.items
        ++ flat_map line (flat_map (fn_lines (names_of code.now)) code.now.functions)) }
{
    for n in 0..code.len() {
        print_function_at(out, code, n)?;
    }
    Ok(())
}

/// The text of code.
///
/// # Errors
///
/// On allocation failure.
#[tactic(auto, unfolding(crate::specs::Text::text_of))]
pub fn print_code(alloc: Global, code: &Code) -> Result<Vec<u8>, AllocError>
    ensures { IfOk result (λ text. text.items ≡ text_of code.now) }
{
    let mut out = Vec::from_slice(alloc, b"rgo code 1\n")?;
    print_structs(&mut out, code, code.tac().structs())?;
    print_globals(&mut out, code, code.tac().variables())?;
    print_functions(&mut out, code)?;
    Ok(out)
}
