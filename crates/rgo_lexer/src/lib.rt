//! The lexer: cuts the text of a program into lexemes, including the inserted semicolons.
//!
//! The pipeline in rgo_run calls `lex`. The grammar and the parser work on `Lexeme`. `unquoted` evaluates a string literal: the lexer
//! only checks literals, so that a lexeme borrows its bytes and needs no memory of its own. The laws are about the definitions alone.
#![tactic(auto)]

mod bytes;
mod comments;
mod front;
mod laws;
mod lexemes;
mod lexer;
mod numbers;
mod operators;
mod refusals;
mod semicolons;
mod strings;
mod terminals;
mod words;

pub use laws::{longest_match, one_reading};
pub use lexemes::Lexeme;
pub use lexer::lex;
pub use refusals::{LexError, LexRefusal, LexicalKind};
pub use strings::unquoted;
pub use terminals::Terminal;
