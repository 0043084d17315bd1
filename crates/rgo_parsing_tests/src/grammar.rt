//! Texts with the lexemes at which they nest too deep, worked out by hand.

mod nesting;

use crate::checks::same;
use rgo_ast::BinaryOp;
use rgo_grammar::deep_at;
use rgo_lexer::{Lexeme, Terminal, lex};
use std::alloc::{AllocError, Global};
use std::process::Abort;
use std::test::Fail;

/// `count` lexemes of one terminal.
fn repeated(
    alloc: Global,
    terminal: Terminal,
    count: usize,
) -> Result<Vec<Lexeme<'static>>, AllocError> {
    let mut lexemes = Vec::new(alloc);
    for at in 0..count {
        let word = b"".as_slice();
        lexemes.push(Lexeme { terminal, at, word })?;
    }
    Ok(lexemes)
}

fn nests<R: Abort + AllocGlobal>(
    rt: &R,
    text: &str,
    limit: usize,
    wanted: Option<usize>,
) -> Result<(), Fail> {
    assert!(rt; limit < 1000);
    let lexemes = lex(rt.alloc(), text.as_bytes())?;
    let found = deep_at(rt.alloc(), limit, &lexemes)?;
    same(rt, text, &found, &wanted);
    Ok(())
}

#[test]
fn texts_nest_too_deep_from_their_limits_on(rt: HostRuntime) -> Result<(), Fail> {
    for (text, wanted) in &nesting::TEXTS {
        for (limit, at) in wanted.iter().enumerate() {
            nests(&rt, text, limit, *at)?;
        }
    }
    Ok(())
}

#[test]
fn each_joint_nests_deeper_by_one(rt: HostRuntime) -> Result<(), Fail> {
    for limit in 0..18 {
        nests(&rt, nesting::JOINTS, limit, Some(limit))?;
    }
    nests(&rt, nesting::JOINTS, 18, None)?;
    nests(&rt, nesting::NO_JOINTS, 0, None)
}

static DEEPER: [Terminal; 7] = [
    Terminal::OpenParen,
    Terminal::OpenBracket,
    Terminal::OpenBrace,
    Terminal::Binary(BinaryOp::Add),
    Terminal::Dot,
    Terminal::Chan,
    Terminal::Else,
];

/// Limits, how many lexemes nest deeper by one each, and which is the first too deep.
static GREAT: [(usize, usize, Option<usize>); 5] = [
    (200, 200, None),
    (200, 201, Some(200)),
    (200, 202, Some(200)),
    (201, 201, None),
    (201, 202, Some(201)),
];

fn great_limit_is_kept<R: Abort + AllocGlobal>(rt: &R, terminal: Terminal) -> Result<(), Fail> {
    for (limit, count, wanted) in &GREAT {
        assert!(rt; *limit < 1000);
        let lexemes = repeated(rt.alloc(), terminal, *count)?;
        let found = deep_at(rt.alloc(), *limit, &lexemes)?;
        same(rt, "a great limit", &found, wanted);
    }
    Ok(())
}

#[test]
fn great_limits_are_kept(rt: HostRuntime) -> Result<(), Fail> {
    for terminal in &DEEPER {
        great_limit_is_kept(&rt, *terminal)?;
    }
    Ok(())
}
