//! Lexemes: the tokens with their places that `lex` returns and the parser reads.

use crate::terminals::Terminal;
use std::marker::Model;

/// A token of a text with its place.
///
/// An inserted `;` has the place where the token before it ends, and an empty word: no byte of the text belongs to it.
#[derive(Drop)]
pub struct Lexeme<'a> {
    pub terminal: Terminal,
    /// Its place: the number of bytes of the text before it.
    pub at: usize,
    /// Its bytes, borrowed from the text, so that a list of lexemes copies none.
    pub word: &'a [u8],
}

impl<'a> Model for Lexeme<'a> {
    ghost use Rattle.rgo_lexer.specs.Lexemes.{Lexeme, leaf, tok};

    ghost Value = { Lexeme };

    ghost view = { λ l. tok l.terminal (leaf l.at l.word.now) };
}
