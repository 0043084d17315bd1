//! Names and types.

ghost use Rattle.std.specs.Prelude.{◌≡◌, ◌++◌, OnOk};
ghost use Rattle.rgo_code_printing.specs.Words.{base_word, layer_word, type_word, name_at};
ghost use Rattle.rgo_code_printing.specs.Text.{names_of};

use crate::items::item_at;
use crate::words::print;
use rgo_ast::Name;
use rgo_code::Code;
use rgo_typed::{Base, Layer, Type};
use std::alloc::AllocError;

/// The name of this number among those that are used and not declared, whose numbers follow those of the declared ones; empty if
/// there is none.
fn unknown_name(names: &[Name], n: usize) -> &[u8]
    ensures { result.now ≡ name_at names.now n }
{
    match names.get(n) {
        Some(name) => name.bytes(),
        None => &[],
    }
}

pub(crate) fn struct_name(code: &Code, n: usize) -> &[u8]
    ensures { result.now ≡ name_at (names_of code.now).structs n }
{
    let structs = code.tac().structs();
    match structs.get(n) {
        Some(found) => found.name.bytes(),
        None => unknown_name(code.undeclared().structs.items(), n - structs.len()),
    }
}

pub(crate) fn variable_name(code: &Code, n: usize) -> &[u8]
    ensures { result.now ≡ name_at (names_of code.now).variables n }
{
    let variables = code.tac().variables();
    match variables.get(n) {
        Some(found) => found.name.bytes(),
        None => unknown_name(code.undeclared().variables.items(), n - variables.len()),
    }
}

pub(crate) fn function_name(code: &Code, n: usize) -> &[u8]
    ensures { result.now ≡ name_at (names_of code.now).functions n }
{
    let functions = code.tac().functions();
    match item_at(functions, n) {
        Some(found) => found.name().bytes(),
        None => unknown_name(code.undeclared().functions.items(), n - functions.len()),
    }
}

fn print_base(out: &mut Vec<u8>, code: &Code, base: Base) -> Result<(), AllocError>
    ensures { OnOk result (out.new.items ≡ out.old.items ++ base_word (names_of code.now).structs base) }
{
    match base {
        Base::Int => print(out, b"int"),
        Base::Bool => print(out, b"bool"),
        Base::Pointer(n) => {
            print(out, b"*")?;
            print(out, struct_name(code, n))
        }
    }
}

fn print_layer(out: &mut Vec<u8>, layer: Layer) -> Result<(), AllocError>
    ensures { OnOk result (out.new.items ≡ out.old.items ++ layer_word layer) }
{
    match layer {
        Layer::Slice => print(out, b"[]"),
        Layer::Chan => print(out, b"chan."),
    }
}

pub(crate) fn print_type(out: &mut Vec<u8>, code: &Code, ty: &Type) -> Result<(), AllocError>
    ensures { OnOk result (out.new.items ≡ out.old.items ++ type_word (names_of code.now).structs ty.now) }
{
    for layer in ty.layers.items() {
        print_layer(out, *layer)?;
    }
    print_base(out, code, ty.base)
}
