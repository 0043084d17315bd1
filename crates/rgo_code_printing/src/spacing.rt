//! Words of a line, each after a space.

ghost use Rattle.std.specs.Prelude.{◌≡◌, ◌++◌, ◌∷◌, [], decimal, OnOk};
ghost use Rattle.rgo_code_printing.specs.Words.{variable_word};
ghost use Rattle.rgo_code_printing.specs.Printing.{words_after_spaces};

use crate::words::{print, print_number, print_variable};
use std::alloc::AllocError;

pub(crate) fn print_word(out: &mut Vec<u8>, word: &[u8]) -> Result<(), AllocError>
    ensures { OnOk result (out.new.items ≡ out.old.items ++ words_after_spaces (word.now ∷ [])) }
{
    print(out, b" ")?;
    print(out, word)
}

pub(crate) fn print_number_word(out: &mut Vec<u8>, n: usize) -> Result<(), AllocError>
    ensures { OnOk result (out.new.items ≡ out.old.items ++ words_after_spaces (decimal n ∷ [])) }
{
    print(out, b" ")?;
    print_number(out, n)
}

pub(crate) fn print_variable_word(out: &mut Vec<u8>, v: u32) -> Result<(), AllocError>
    ensures { OnOk result (out.new.items ≡ out.old.items ++ words_after_spaces (variable_word v ∷ [])) }
{
    print(out, b" ")?;
    print_variable(out, v)
}

/// A word, and a variable.
pub(crate) fn print_one(out: &mut Vec<u8>, word: &[u8], a: u32) -> Result<(), AllocError>
    ensures { OnOk result (out.new.items ≡ out.old.items ++ words_after_spaces (word.now ∷ variable_word a ∷ [])) }
{
    print_word(out, word)?;
    print_variable_word(out, a)
}
