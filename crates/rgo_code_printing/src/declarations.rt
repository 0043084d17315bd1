//! The lines of structs and package variables.

ghost use Rattle.std.specs.Prelude.{◌≡◌, ◌++◌, ◌∷◌, [], map, OnOk};
ghost use Rattle.std.specs.List.{flat_map};
ghost use Rattle.rgo_code_printing.specs.Words.{type_word};
ghost use Rattle.rgo_code_printing.specs.Printing.{words_after_spaces};
ghost use Rattle.rgo_code_printing.specs.Text.{names_of, line, struct_line_words, global_words};

use crate::types::print_type;
use crate::words::print;
use rgo_code::Code;
use rgo_typed::{Struct, Type, Variable};
use std::alloc::AllocError;

/// A type, after a space.
pub(crate) fn print_type_word(out: &mut Vec<u8>, code: &Code, ty: &Type) -> Result<(), AllocError>
    ensures { OnOk result (out.new.items
        ≡ out.old.items ++ words_after_spaces (type_word (names_of code.now).structs ty.now ∷ [])) }
{
    print(out, b" ")?;
    print_type(out, code, ty)
}

/// The types of a struct's fields.
fn print_fields(out: &mut Vec<u8>, code: &Code, types: &[Type]) -> Result<(), AllocError>
    ensures { OnOk result (out.new.items
        ≡ out.old.items ++ words_after_spaces (map (type_word (names_of code.now).structs) types.now)) }
{
    for ty in types {
        print_type_word(out, code, ty)?;
    }
    Ok(())
}

#[tactic(auto, using(crate::proofs::Printing::line_is))]
fn print_struct(out: &mut Vec<u8>, code: &Code, s: &Struct) -> Result<(), AllocError>
    ensures { OnOk result (out.new.items ≡ out.old.items ++ line (struct_line_words (names_of code.now) s.now)) }
{
    print(out, b"struct")?;
    print(out, b" ")?;
    print(out, s.name.bytes())?;
    print_fields(out, code, s.fields.items())?;
    print(out, b"\n")
}

pub(crate) fn print_structs(
    out: &mut Vec<u8>,
    code: &Code,
    structs: &[Struct],
) -> Result<(), AllocError>
    ensures { OnOk result (out.new.items
        ≡ out.old.items ++ flat_map line (map (struct_line_words (names_of code.now)) structs.now)) }
{
    for s in structs {
        print_struct(out, code, s)?;
    }
    Ok(())
}

#[tactic(auto, using(crate::proofs::Printing::line_is))]
fn print_global(out: &mut Vec<u8>, code: &Code, v: &Variable) -> Result<(), AllocError>
    ensures { OnOk result (out.new.items ≡ out.old.items ++ line (global_words (names_of code.now) v.now)) }
{
    print(out, b"global")?;
    print(out, b" ")?;
    print(out, v.name.bytes())?;
    print_type_word(out, code, &v.ty)?;
    print(out, b"\n")
}

pub(crate) fn print_globals(
    out: &mut Vec<u8>,
    code: &Code,
    variables: &[Variable],
) -> Result<(), AllocError>
    ensures { OnOk result (out.new.items
        ≡ out.old.items ++ flat_map line (map (global_words (names_of code.now)) variables.now)) }
{
    for v in variables {
        print_global(out, code, v)?;
    }
    Ok(())
}
