//! The pieces of a print: strings, and variables among them.

ghost use Rattle.std.specs.Prelude.{◌≡◌, ◌++◌, ◌∷◌, [], ◌+◌, ◌/◌, ◌%◌, ◌<◌, ◌^◌, get_or, OnOk, IfOk};
ghost use Rattle.std.specs.List.{flat_map};
ghost use Rattle.rgo_code_printing.specs.Words.{hex_digit, byte_word, string_word, comma_separated};
ghost use Rattle.rgo_code_printing.specs.Words.{value_count, piece_word, piece_words};

use crate::lists::print_comma;
use crate::words::{print, print_byte, print_variable};
use rgo_typed::Piece;
use std::alloc::AllocError;

/// A digit in base 16, as `0` to `9` or `a` to `f`.
fn hex_digit(d: u8) -> u8
    requires { d < 16 }
    ensures { result ≡ hex_digit d }
{
    if d < 10 { 48 + d } else { 87 + d }
}

fn print_hex(out: &mut Vec<u8>, byte: u8) -> Result<(), AllocError>
    ensures { OnOk result (out.new.items
        ≡ out.old.items ++ 92 ∷ 120 ∷ hex_digit (byte / 16) ∷ hex_digit (byte % 16) ∷ []) }
{
    print(out, b"\\x")?;
    print_byte(out, hex_digit(byte / 16))?;
    print_byte(out, hex_digit(byte % 16))
}

/// A byte of a string. A space is printed as it is, so a reader must not cut a print into words.
fn print_string_byte(out: &mut Vec<u8>, byte: u8) -> Result<(), AllocError>
    ensures { OnOk result (out.new.items ≡ out.old.items ++ byte_word byte) }
{
    if byte == b'"' {
        print(out, b"\\\"")
    } else if byte == b'\\' {
        print(out, b"\\\\")
    } else if byte == b'\n' {
        print(out, b"\\n")
    } else if byte < 32 || 126 < byte {
        print_hex(out, byte)
    } else {
        print_byte(out, byte)
    }
}

fn print_string_bytes(out: &mut Vec<u8>, bytes: &[u8]) -> Result<(), AllocError>
    ensures { OnOk result (out.new.items ≡ out.old.items ++ flat_map byte_word bytes.now) }
{
    for byte in bytes {
        print_string_byte(out, *byte)?;
    }
    Ok(())
}

fn print_string(out: &mut Vec<u8>, bytes: &[u8]) -> Result<(), AllocError>
    ensures { OnOk result (out.new.items ≡ out.old.items ++ string_word bytes.now) }
{
    print(out, b"\"")?;
    print_string_bytes(out, bytes)?;
    print(out, b"\"")
}

/// The variable of this number among those that are printed. A print of a program has as many as its pieces print.
fn printed_variable(from: &[u32], n: usize) -> u32
    ensures { result ≡ get_or from.now n 0 }
{
    from.get(n).copied().unwrap_or(0)
}

/// A piece, where `n` variables were printed before. Returns how many were printed then.
fn print_piece(
    out: &mut Vec<u8>,
    piece: &Piece,
    from: &[u32],
    n: usize,
) -> Result<usize, AllocError>
    requires { n < 2 ^ 63 }
    ensures { IfOk result (λ m. (out.new.items ≡ out.old.items ++ piece_word piece.now from.now n)
        × (m ≡ n + value_count piece.now)) }
{
    match piece {
        Piece::Text(bytes) => {
            print_string(out, bytes.bytes())?;
            Ok(n)
        }
        Piece::Value => {
            print_variable(out, printed_variable(from, n))?;
            Ok(n + 1)
        }
    }
}

/// Strings, and the variables that are printed among them.
pub(crate) fn print_pieces(
    out: &mut Vec<u8>,
    pieces: &[Piece],
    from: &[u32],
) -> Result<(), AllocError>
    ensures { OnOk result (out.new.items ≡ out.old.items ++ comma_separated (piece_words pieces.now from.now 0)) }
{
    let mut n = 0;
    for (i, piece) in pieces.iter().enumerate() {
        print_comma(out, i)?;
        n = print_piece(out, piece, from, n)?;
    }
    Ok(())
}
