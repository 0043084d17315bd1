//! The front of a text: the one separator, comment, token or error that it begins with. `lexer` repeats [`read_front`] to the end;
//! the modules of the forms (`words`, `numbers`, `strings`, `comments`, `operators`) each recognise one.
//! Why: docs/DECISIONS.md, "Tokens".

ghost use Rattle.std.specs.Prelude.{◌≡◌};
ghost use Rattle.rgo_lexer.specs.Front.{front_of, FitsIn};

use crate::bytes::{is_blank, is_digit, is_letter};
use crate::comments::{begins_comment, comment};
use crate::numbers::number;
use crate::operators::operator;
use crate::refusals::LexicalKind;
use crate::strings::string;
use crate::terminals::Terminal;
use crate::words::word;

/// The front of a text; widths and offsets are in bytes.
#[derive(Clone, Copy, Debug, PartialEq, Eq)]
pub enum Front {
    /// The text is empty.
    End,
    /// A separator of this width that acts as a space.
    Blank(usize),
    /// A separator of this width that acts as a newline, so that it may insert a `;`.
    Newline(usize),
    /// A token of this width.
    Piece(Terminal, usize),
    /// A lexical error: its kind, and the offset of the byte that is reported.
    Refused(LexicalKind, usize),
}

/// The front of the text, as long as its form allows. The first bytes determine the form. Operators come last, so that `//` and `/*`
/// begin comments and not a `/`.
#[tactic(auto, using(crate::proofs::Fronts::fits), unfolding(crate::specs::Front::front_of))]
pub(crate) fn read_front(text: &[u8]) -> Front
    ensures value { result ≡ front_of text.now }
    ensures within { FitsIn text.now result }
{
    let Some(first) = text.first() else {
        return Front::End;
    };
    let first = *first;
    if is_blank(first) {
        Front::Blank(1)
    } else if first == b'\n' {
        Front::Newline(1)
    } else if is_letter(first) {
        word(text)
    } else if is_digit(first) {
        number(text)
    } else if first == b'"' {
        string(text)
    } else if begins_comment(text) {
        comment(text)
    } else {
        operator(text)
    }
}
