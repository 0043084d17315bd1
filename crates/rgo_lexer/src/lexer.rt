//! The loop of the lexer: takes one front after another from the text, and inserts semicolons at the ends of lines.
//! Why: docs/DECISIONS.md, "Tokens".

ghost use Rattle.std.specs.Prelude.{◌≡◌, ◌≤◌, None, All, IfErr, IfOk, drop, length};
ghost use Rattle.rgo_lexer.specs.Lexing.{text_start, LexesAs, LexesFrom, with_package_name, IsLexemeOf};
ghost use Rattle.rgo_lexer.specs.Refusals.{LexFails, FailsFrom, IsPlacedIn};

use crate::front::{Front, read_front};
use crate::lexemes::Lexeme;
use crate::refusals::{LexError, LexRefusal, LexicalKind};
use crate::semicolons::{ending_after, insert_semicolon};
use crate::terminals::Terminal;
use std::alloc::Global;

/// The byte order mark in UTF-8.
const BYTE_ORDER_MARK: &[u8] = b"\xEF\xBB\xBF";

// The lexemes of the text from byte `start` on. Places are counted from the text's first byte, also if a byte order mark is skipped.
fn lexemes_from<'a>(
    alloc: Global,
    text: &'a [u8],
    start: usize,
) -> Result<Vec<Lexeme<'a>>, LexError>
    requires { start ≤ length text.now }
    ensures ok { IfOk result (λ lexemes. LexesFrom start None (drop start text.now) lexemes.items) }
    ensures refused { IfErr result (FailsFrom start (drop start text.now)) }
{
    let mut lexemes = Vec::new(alloc);
    let mut ending = None;
    let mut at = start;
    'pieces: loop {
        match read_front(&text[at..]) {
            Front::End => {
                insert_semicolon(&mut lexemes, ending)?;
                return Ok(lexemes);
            }
            Front::Blank(width) => at += width,
            Front::Newline(width) => {
                insert_semicolon(&mut lexemes, ending)?;
                ending = None;
                at += width;
            }
            Front::Piece(terminal, width) => {
                let end = at + width;
                let word = &text[at..end];
                lexemes.push(Lexeme { terminal, at, word })?;
                ending = ending_after(terminal, word, end);
                at = end;
            }
            Front::Refused(kind, offset) => {
                return Err(LexError::Refused(LexRefusal {
                    kind,
                    at: at + offset,
                }));
            }
        }
    }
}

// Where lexing begins: after a byte order mark at the very front. Anywhere else a mark is a byte that begins no token.
fn start_of(text: &[u8]) -> usize
    ensures value { result ≡ text_start text.now }
    ensures within { result ≤ length text.now }
{
    if text.starts_with(BYTE_ORDER_MARK) {
        BYTE_ORDER_MARK.len()
    } else {
        0
    }
}

// Makes the word `main`, if it is the second lexeme, the terminal of the package's name. This depends on the position of a lexeme
// and not on its bytes alone, so it is done when all lexemes are known.
fn name_package<'a>(lexemes: &mut Vec<Lexeme<'a>>)
    ensures { lexemes.new.items ≡ with_package_name lexemes.old.items }
{
    if let [_, second, ..] = lexemes.as_mut_slice() {
        if second.word == b"main".as_slice() {
            second.terminal = Terminal::Main;
        }
    }
}

/// The lexemes of the text in order, including the inserted `;` (The Go Programming Language Specification, "Lexical elements").
///
/// The whole text is tested for UTF-8 before anything else, so that error precedes every other one, wherever it is.
///
/// # Errors
///
/// `Refused`, with the first lexical error and its place in bytes; `NoMemory` if an allocation failed.
#[tactic(auto, using(crate::proofs::Placing::placed))]
pub fn lex<'a>(alloc: Global, text: &'a [u8]) -> Result<Vec<Lexeme<'a>>, LexError>
    ensures ok { IfOk result (λ lexemes. LexesAs text.now lexemes.items) }
    ensures refused { IfErr result (LexFails text.now) }
    ensures of_text { IfOk result (λ lexemes. All (IsLexemeOf text.now) lexemes.items) }
    ensures placed { IfErr result (IsPlacedIn text.now) }
{
    match str::from_utf8(text) {
        Ok(_) => match lexemes_from(alloc, text, start_of(text)) {
            Ok(lexemes) => {
                let mut lexemes = lexemes;
                name_package(&mut lexemes);
                Ok(lexemes)
            }
            Err(error) => Err(error),
        },
        Err(error) => Err(LexError::Refused(LexRefusal {
            kind: LexicalKind::BadUtf8,
            at: error.valid_up_to(),
        })),
    }
}
