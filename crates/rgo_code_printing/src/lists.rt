//! Lists, with commas between their words.

ghost use Rattle.std.specs.Prelude.{◌≡◌, ◌++◌, ◌∷◌, map, decimal, OnOk};
ghost use Rattle.rgo_code_printing.specs.Words.{region_word, class_word};
ghost use Rattle.rgo_code_printing.specs.Words.{comma_separated, bracketed, passes_word, callee_word};
ghost use Rattle.rgo_code_printing.specs.Printing.{comma};

use crate::words::{print, print_byte, print_class, print_lettered};
use rgo_tac::Class;
use std::alloc::AllocError;

/// The comma before a word that is not the first one of its list.
pub(crate) fn print_comma(out: &mut Vec<u8>, i: usize) -> Result<(), AllocError>
    ensures { OnOk result (out.new.items ≡ out.old.items ++ comma i) }
{
    if i == 0 {
        return Ok(());
    }
    print(out, b",")
}

/// Numbers, each after a letter.
fn print_list(out: &mut Vec<u8>, letter: u8, numbers: &[u32]) -> Result<(), AllocError>
    ensures { OnOk result (out.new.items
        ≡ out.old.items ++ comma_separated (map (λ n. letter ∷ decimal n) numbers.now)) }
{
    for (i, n) in numbers.iter().enumerate() {
        print_comma(out, i)?;
        print_lettered(out, letter, *n as usize)?;
    }
    Ok(())
}

/// Names of regions in brackets, after a byte that says what is done to them.
pub(crate) fn print_regions(out: &mut Vec<u8>, sign: u8, names: &[u32]) -> Result<(), AllocError>
    ensures { OnOk result (out.new.items
        ≡ out.old.items ++ sign ∷ bracketed (map region_word names.now)) }
{
    print_byte(out, sign)?;
    print(out, b"[")?;
    print_list(out, b'r', names)?;
    print(out, b"]")
}

fn print_class_list(out: &mut Vec<u8>, classes: &[Class]) -> Result<(), AllocError>
    ensures { OnOk result (out.new.items ≡ out.old.items ++ comma_separated (map class_word classes.now)) }
{
    for (i, class) in classes.iter().enumerate() {
        print_comma(out, i)?;
        print_class(out, *class)?;
    }
    Ok(())
}

pub(crate) fn print_passes(out: &mut Vec<u8>, classes: &[Class]) -> Result<(), AllocError>
    ensures { OnOk result (out.new.items ≡ out.old.items ++ passes_word classes.now) }
{
    print(out, b"R[")?;
    print_class_list(out, classes)?;
    print(out, b"]")
}

/// A function and its arguments.
pub(crate) fn print_callee(out: &mut Vec<u8>, name: &[u8], from: &[u32]) -> Result<(), AllocError>
    ensures { OnOk result (out.new.items ≡ out.old.items ++ callee_word name.now from.now) }
{
    print(out, name)?;
    print(out, b"(")?;
    print_list(out, b'v', from)?;
    print(out, b")")
}
