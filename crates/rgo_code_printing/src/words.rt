//! Words of a code text.

ghost use Rattle.std.specs.Prelude.{◌≡◌, ◌++◌, ◌∷◌, [], decimal, OnOk};
ghost use Rattle.std.specs.Fmt.{signed_decimal};
ghost use Rattle.rgo_code_printing.specs.Words.{variable_word, bool_word, class_word, operator_word};

use itoa::Buffer;
use rgo_ast::BinaryOp;
use rgo_tac::Class;
use std::alloc::AllocError;

pub(crate) fn print(out: &mut Vec<u8>, bytes: &[u8]) -> Result<(), AllocError>
    ensures { OnOk result (out.new.items ≡ out.old.items ++ bytes.now) }
{
    out.extend_from_slice(bytes)
}

pub(crate) fn print_byte(out: &mut Vec<u8>, byte: u8) -> Result<(), AllocError>
    ensures { OnOk result (out.new.items ≡ out.old.items ++ byte ∷ []) }
{
    out.push(byte)?;
    Ok(())
}

pub(crate) fn print_number(out: &mut Vec<u8>, n: usize) -> Result<(), AllocError>
    ensures { OnOk result (out.new.items ≡ out.old.items ++ decimal n) }
{
    let mut buffer = Buffer::new();
    out.extend_from_slice(buffer.format(n).as_bytes())
}

pub(crate) fn print_int(out: &mut Vec<u8>, n: i64) -> Result<(), AllocError>
    ensures { OnOk result (out.new.items ≡ out.old.items ++ signed_decimal n) }
{
    let mut buffer = Buffer::new();
    out.extend_from_slice(buffer.format(n).as_bytes())
}

/// A number after a byte that says what it is a number of.
pub(crate) fn print_lettered(out: &mut Vec<u8>, letter: u8, n: usize) -> Result<(), AllocError>
    ensures { OnOk result (out.new.items ≡ out.old.items ++ letter ∷ decimal n) }
{
    print_byte(out, letter)?;
    print_number(out, n)
}

pub(crate) fn print_variable(out: &mut Vec<u8>, v: u32) -> Result<(), AllocError>
    ensures { OnOk result (out.new.items ≡ out.old.items ++ variable_word v) }
{
    print_lettered(out, b'v', v as usize)
}

pub(crate) fn print_bool(out: &mut Vec<u8>, b: bool) -> Result<(), AllocError>
    ensures { OnOk result (out.new.items ≡ out.old.items ++ bool_word b) }
{
    if b {
        print(out, b"true")
    } else {
        print(out, b"false")
    }
}

pub(crate) fn print_class(out: &mut Vec<u8>, class: Class) -> Result<(), AllocError>
    ensures { OnOk result (out.new.items ≡ out.old.items ++ class_word class) }
{
    match class {
        Class::NoClass => print(out, b"-"),
        Class::Global => print(out, b"G"),
        Class::Name(k) => print_lettered(out, b'r', k as usize),
    }
}

/// `&&` and `||` have no word: they are not operators of three-address code.
pub(crate) fn print_operator(out: &mut Vec<u8>, op: BinaryOp) -> Result<(), AllocError>
    ensures { OnOk result (out.new.items ≡ out.old.items ++ operator_word op) }
{
    match op {
        BinaryOp::Mul => print(out, b"mul"),
        BinaryOp::Div => print(out, b"div"),
        BinaryOp::Rem => print(out, b"rem"),
        BinaryOp::Add => print(out, b"add"),
        BinaryOp::Sub => print(out, b"sub"),
        BinaryOp::Eq => print(out, b"eq"),
        BinaryOp::Ne => print(out, b"ne"),
        BinaryOp::Lt => print(out, b"lt"),
        BinaryOp::Le => print(out, b"le"),
        BinaryOp::Gt => print(out, b"gt"),
        BinaryOp::Ge => print(out, b"ge"),
        BinaryOp::And | BinaryOp::Or => Ok(()),
    }
}
