//! What a line prints, as it is read.

ghost use Rattle.std.specs.Prelude.{◌≡◌, ◌≢◌, ◌<◌, ◌++◌, ◌∷◌, [], get_or, OnOk, IfOk, IfSome, MatchOption};
ghost use Rattle.std.specs.Option.{option_map};
ghost use Rattle.rgo_code_words.specs.Pieces as spec;
ghost use Rattle.rgo_code_words.specs.Pieces.{IsStringInside, Fronts, NoneFronts, ArePieces, value_list};
ghost use Rattle.rgo_code_words.specs.Views.{pieces_of};

use crate::cuts::len_to;
use crate::words::variable;
use rgo_ast::Name;
use rgo_typed::Piece;
use std::alloc::{AllocError, Global};

/// The value of a digit in base 16.
fn hex_value(digit: u8) -> Option<u8>
    ensures value { result ≡ spec.hex_value digit }
    ensures small { IfSome result (λ v. v < 16) }
{
    if b'0' <= digit && digit <= b'9' {
        Some(digit - 48)
    } else if b'a' <= digit && digit <= b'f' {
        Some(digit - 87)
    } else {
        None
    }
}

/// Whether a byte is printed by its number. A newline is not, since it has a form of its own and each byte has only one.
fn is_numbered(byte: u8) -> bool
    ensures { result ≡ spec.is_numbered byte }
{
    byte != b'\n' && (byte < 32 || 126 < byte)
}

/// Whether a byte is printed as it is.
fn is_plain(byte: u8) -> bool
    ensures { result ≡ spec.is_plain byte }
{
    byte != b'"' && byte != b'\\' && 32 <= byte && byte <= 126
}

/// A byte that is printed by its number, after `\x`.
fn numbered(high: u8, low: u8) -> Option<u8>
    ensures { result ≡ spec.numbered high low }
{
    let byte = hex_value(high)? * 16 + hex_value(low)?;
    if is_numbered(byte) { Some(byte) } else { None }
}

/// The byte of this number, or 0 past the end.
fn byte_at(bytes: &[u8], n: usize) -> u8
    ensures { result ≡ get_or bytes.now n 0 }
{
    match bytes.get(n) {
        Some(byte) => *byte,
        None => 0,
    }
}

/// An escaped byte by what follows the backslash, and how many bytes it takes with that.
fn escaped(kind: u8, high: u8, low: u8) -> Option<(u8, usize)>
    ensures { result ≡ spec.escaped_byte kind high low }
{
    if kind == b'"' || kind == b'\\' {
        Some((kind, 2))
    } else if kind == b'n' {
        Some((b'\n', 2))
    } else if kind == b'x' {
        match numbered(high, low) {
            Some(byte) => Some((byte, 4)),
            None => None,
        }
    } else {
        None
    }
}

/// The byte of a string at the front of these bytes, and how many of them it takes.
fn string_byte(bytes: &[u8]) -> Option<(u8, usize)>
    ensures { result ≡ spec.string_byte bytes.now }
{
    let first = byte_at(bytes, 0);
    if is_plain(first) {
        Some((first, 1))
    } else if first == b'\\' {
        escaped(byte_at(bytes, 1), byte_at(bytes, 2), byte_at(bytes, 3))
    } else {
        None
    }
}

/// The inside of a string, and how many bytes it takes. It ends before the first byte that is neither plain nor an escape, where the
/// caller looks for the quote.
fn string_inside(alloc: Global, bytes: &[u8]) -> Result<(Name, usize), AllocError>
    ensures { IfOk result (λ r. IsStringInside bytes.now r.0 r.1) }
{
    let mut inside = Vec::new(alloc);
    let mut at = 0;
    while let Some((byte, len)) = string_byte(&bytes[at..]) {
        inside.push(byte)?;
        at = at + len;
    }
    Ok((Name::new(inside), at))
}

/// A piece at the front of some bytes, the variable that it prints, and how many bytes it takes.
#[derive(Drop)]
struct FirstPiece {
    piece: Piece,
    value: Option<u32>,
    len: usize,
}

/// The string at the front of these bytes, which begin with a quote.
fn string_first(alloc: Global, bytes: &[u8]) -> Result<Option<FirstPiece>, AllocError>
    requires { get_or bytes.now 0 0 ≡ 34 }
    ensures { IfOk result (λ r. MatchOption r (NoneFronts bytes.now) (λ f. Fronts bytes.now f.piece f.value f.len)) }
{
    let (inside, len) = string_inside(alloc, &bytes[1..])?;
    if byte_at(bytes, 1 + len) != b'"' {
        return Ok(None);
    }
    Ok(Some(FirstPiece {
        piece: Piece::Text(inside),
        value: None,
        len: len + 2,
    }))
}

/// The variable at the front of these bytes.
fn variable_first(bytes: &[u8]) -> Option<FirstPiece>
    requires { get_or bytes.now 0 0 ≢ 34 }
    ensures { MatchOption result (NoneFronts bytes.now) (λ f. Fronts bytes.now f.piece f.value f.len) }
{
    let len = len_to(bytes, b',');
    let v = variable(&bytes[..len])?;
    Some(FirstPiece {
        piece: Piece::Value,
        value: Some(v),
        len,
    })
}

/// The piece at the front of these bytes.
fn first_piece(alloc: Global, bytes: &[u8]) -> Result<Option<FirstPiece>, AllocError>
    ensures { IfOk result (λ r. MatchOption r (NoneFronts bytes.now) (λ f. Fronts bytes.now f.piece f.value f.len)) }
{
    if byte_at(bytes, 0) == b'"' {
        string_first(alloc, bytes)
    } else {
        Ok(variable_first(bytes))
    }
}

/// Pieces, and the variables that are printed among them.
#[derive(Drop)]
pub struct Pieces {
    pub pieces: Vec<Piece>,
    pub from: Vec<u32>,
}

/// Adds a piece.
fn add(all: &mut Pieces, piece: Piece, value: Option<u32>) -> Result<(), AllocError>
    ensures pieces { OnOk result (all.new.pieces.items ≡ all.old.pieces.items ++ piece ∷ []) }
    ensures from { OnOk result (all.new.from.items ≡ all.old.from.items ++ value_list value) }
{
    if let Some(v) = value {
        all.from.push(v)?;
    }
    all.pieces.push(piece)?;
    Ok(())
}

/// Pieces with commas between them, at least one.
pub fn read_pieces(alloc: Global, list: &[u8]) -> Result<Option<Pieces>, AllocError>
    ensures { IfOk result (λ r. ArePieces list.now (option_map pieces_of r)) }
{
    let mut all = Pieces {
        pieces: Vec::new(alloc),
        from: Vec::new(alloc),
    };
    let mut at = 0;
    'pieces: loop {
        let Some(first) = first_piece(alloc, &list[at..])? else {
            return Ok(None);
        };
        let FirstPiece { piece, value, len } = first;
        add(&mut all, piece, value)?;
        at = at + len;
        if at == list.len() {
            return Ok(Some(all));
        }
        if list[at] != b',' {
            return Ok(None);
        }
        at = at + 1;
    }
}
