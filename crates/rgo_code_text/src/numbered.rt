//! Types and operations with the numbers of what they name.

ghost use Rattle.std.specs.Prelude.{◌≡◌, ◌<◌, ◌^◌, length, map, IfOk};
ghost use Rattle.rgo_code_text.specs.Building as spec;
ghost use Rattle.rgo_code_text.specs.Building.{names_now};
ghost use Rattle.rgo_code_text.specs.Opened.{IsCopy, IsNumberedInstr};
ghost use Rattle.rgo_code_text.specs.Sizes.{HaveNumbers};
ghost use Rattle.rgo_code_text.specs.Written.{number_of_name};
ghost use Rattle.rgo_code_words.specs.Views.{named_type_of};

use crate::numbers::{Numbers, Tables};
use crate::ops::NamedOp;
use rgo_code_words::NamedType;
use rgo_tac::Instr;
use rgo_typed::{Base, Type};
use std::alloc::{AllocError, Global};

pub(crate) fn numbered_type(tables: &Tables<'_>, named: NamedType<'_>) -> Type
    ensures { result ≡ spec.numbered_type (names_now tables.now) (named_type_of named.entry) }
{
    let NamedType { ty, name } = named;
    let Type { layers, base } = ty;
    match base {
        Base::Pointer(_) => Type {
            layers,
            base: Base::Pointer(tables.structs.number(name)),
        },
        _ => Type { layers, base },
    }
}

pub(crate) fn numbered_types(
    alloc: Global,
    tables: &Tables<'_>,
    named: Vec<NamedType<'_>>,
) -> Result<Vec<Type>, AllocError>
    ensures { IfOk result (λ types. types.items
        ≡ map (spec.numbered_type (names_now tables.now)) (map named_type_of named.entry.items)) }
{
    let mut types = Vec::new(alloc);
    for ty in named {
        types.push(numbered_type(tables, ty))?;
    }
    Ok(types)
}

/// The number of a name, in 32 bits: there are fewer names than bytes in the text.
fn small_number(numbers: &Numbers<'_>, name: &[u8]) -> u32
    requires { length numbers.now < 2 ^ 32 }
    ensures { result ≡ number_of_name numbers.now name.now }
{
    numbers.number(name) as u32
}

/// Whether a variable has this base and no layers. A number without a variable has not; its copy is then of the general kind, which
/// means the same.
fn is_plain(types: &[Type], v: u32, base: Base) -> bool {
    match types.get(v as usize) {
        Some(ty) => ty.layers.items().is_empty() && ty.base == base,
        None => false,
    }
}

/// A copy between variables of these types. Integers and truth values are copied faster.
fn copy(types: &[Type], d: u32, a: u32) -> Instr
    ensures { IsCopy d a result }
{
    if is_plain(types, d, Base::Int) && is_plain(types, a, Base::Int) {
        Instr::CopyInt(d, a)
    } else if is_plain(types, d, Base::Bool) && is_plain(types, a, Base::Bool) {
        Instr::CopyBool(d, a)
    } else {
        Instr::Copy(d, a)
    }
}

/// The instruction with the number of what it names, and with that of its list of variables and its pieces.
pub(crate) fn numbered_instr(
    tables: &Tables<'_>,
    types: &[Type],
    op: &NamedOp<'_>,
    list: u32,
) -> Instr
    requires { HaveNumbers (names_now tables.now) }
    ensures { IsNumberedInstr (names_now tables.now) op.now list result }
{
    let name = op.name;
    match op.instr {
        Instr::Copy(d, a) => copy(types, d, a),
        Instr::New(d, _) => Instr::New(d, small_number(&tables.structs, name)),
        Instr::Get(d, _) => Instr::Get(d, small_number(&tables.globals, name)),
        Instr::Set(_, a) => Instr::Set(small_number(&tables.globals, name), a),
        Instr::Call(d, _, _) => Instr::Call(d, small_number(&tables.functions, name), list),
        Instr::Invoke(_, _) => Instr::Invoke(small_number(&tables.functions, name), list),
        Instr::Go(_, _) => Instr::Go(small_number(&tables.functions, name), list),
        Instr::Print(_, _) => Instr::Print(list, list),
        Instr::Int(..)
        | Instr::Bool(..)
        | Instr::Nil(..)
        | Instr::CopyInt(..)
        | Instr::CopyBool(..)
        | Instr::Add(..)
        | Instr::Sub(..)
        | Instr::Mul(..)
        | Instr::Div(..)
        | Instr::Rem(..)
        | Instr::Eq(..)
        | Instr::Ne(..)
        | Instr::Lt(..)
        | Instr::Le(..)
        | Instr::Gt(..)
        | Instr::Ge(..)
        | Instr::Neg(..)
        | Instr::Not(..)
        | Instr::IsNil(..)
        | Instr::Len(..)
        | Instr::Load(..)
        | Instr::Store(..)
        | Instr::At(..)
        | Instr::Put(..)
        | Instr::Slice(..)
        | Instr::Chan(..)
        | Instr::Recv(..)
        | Instr::Send(..)
        | Instr::Close(..)
        | Instr::Jump(..)
        | Instr::Branch(..)
        | Instr::Return(..)
        | Instr::Leave => op.instr,
    }
}
