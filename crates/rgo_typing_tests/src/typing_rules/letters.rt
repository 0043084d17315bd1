//! Types and values as letters, and lists of them as words.

use rgo_ast::TypeExpr;
use rgo_typed::Base;
use rgo_typing_rules::{Kind, Shape, Signature};
use std::alloc::Global;
use std::test::Fail;

/// The type of a letter: `i` is `int`, `b` `bool`, and `p` and `q` are pointers to two structs.
pub(super) fn plain_kind(letter: u8) -> Kind<'static> {
    Kind::Plain(match letter {
        b'i' => Base::Int,
        b'p' => Base::Pointer(0),
        b'q' => Base::Pointer(1),
        _ => Base::Bool,
    })
}

/// The value of a letter: a constant for `0`, `1`, `-` (-1), `<` (the least), `>` (the greatest);
/// `n` is `nil`, `t` a string, `?` has no type, and a type's letter is a value of that type.
pub(super) fn plain_value(letter: u8) -> Shape<'static> {
    match letter {
        b'0' => Shape::Constant(0),
        b'1' => Shape::Constant(1),
        b'-' => Shape::Constant(-1),
        b'<' => Shape::Constant(i64::MIN),
        b'>' => Shape::Constant(i64::MAX),
        b'n' => Shape::Nil,
        b't' => Shape::Text,
        b'?' => Shape::Untyped,
        _ => Shape::Value(plain_kind(letter)),
    }
}

/// The same with types around `int`: `s` is `[]int`, `u` `[]bool`, and `c` `chan int`.
fn kind<'a>(letter: u8, int: &'a TypeExpr) -> Kind<'a> {
    match letter {
        b's' => Kind::Slice(int, Base::Int),
        b'u' => Kind::Slice(int, Base::Bool),
        b'c' => Kind::Chan(int, Base::Int),
        _ => plain_kind(letter),
    }
}

pub(super) fn value<'a>(letter: u8, int: &'a TypeExpr) -> Shape<'a> {
    match letter {
        b's' | b'u' | b'c' => Shape::Value(kind(letter, int)),
        _ => plain_value(letter),
    }
}

pub(super) fn kinds<'a>(
    alloc: Global,
    word: &str,
    int: &'a TypeExpr,
) -> Result<Vec<Kind<'a>>, Fail> {
    let mut kinds = Vec::new(alloc);
    for letter in word.as_bytes() {
        kinds.push(kind(*letter, int))?;
    }
    Ok(kinds)
}

/// Types of fields; `?` is a field that does not exist.
pub(super) fn known<'a>(
    alloc: Global,
    word: &str,
    int: &'a TypeExpr,
) -> Result<Vec<Option<Kind<'a>>>, Fail> {
    let mut kinds = Vec::new(alloc);
    for letter in word.as_bytes() {
        let kind = if *letter == b'?' {
            None
        } else {
            Some(kind(*letter, int))
        };
        kinds.push(kind)?;
    }
    Ok(kinds)
}

pub(super) fn values<'a>(
    alloc: Global,
    word: &str,
    int: &'a TypeExpr,
) -> Result<Vec<Shape<'a>>, Fail> {
    let mut values = Vec::new(alloc);
    for letter in word.as_bytes() {
        values.push(value(*letter, int))?;
    }
    Ok(values)
}

pub(super) fn plain_values(alloc: Global, word: &str) -> Result<Vec<Shape<'static>>, Fail> {
    let mut values = Vec::new(alloc);
    for letter in word.as_bytes() {
        values.push(plain_value(*letter))?;
    }
    Ok(values)
}

/// A signature with these parameters, and with the result `int` or none.
pub(super) fn signature(
    alloc: Global,
    word: &str,
    has_result: bool,
) -> Result<Signature<'static>, Fail> {
    let mut params = Vec::new(alloc);
    for letter in word.as_bytes() {
        params.push(plain_kind(*letter))?;
    }
    let result_type = if has_result {
        Some(Kind::Plain(Base::Int))
    } else {
        None
    };
    Ok(Signature {
        params,
        result_type,
    })
}
