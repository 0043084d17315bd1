//! Operators and punctuation: the last of the forms at the front of a text (`front`).

ghost use Rattle.std.specs.Prelude.{◌≡◌, IsTrue};
ghost use Rattle.rgo_lexer.specs.Operators.{longer_first, longest_front, operator_entry, operator_at};
ghost use Rattle.rgo_lexer.specs.Words.{entries};

use crate::front::Front;
use crate::refusals::LexicalKind;
use crate::terminals::Terminal;
use rgo_ast::{AssignOp, BinaryOp, StepOp};

// All operators of The Go Programming Language Specification, "Operators and punctuation", also those that no production uses: the
// longest match has to know them. The longer ones come first, which `longest_front` relies on.
const OPERATORS: [(&[u8], Terminal); 48] = [
    (b"<<=", Terminal::Other),
    (b">>=", Terminal::Other),
    (b"&^=", Terminal::Other),
    (b"...", Terminal::Other),
    (b"<<", Terminal::Other),
    (b">>", Terminal::Other),
    (b"&^", Terminal::Other),
    (b"+=", Terminal::Assign(AssignOp::Add)),
    (b"-=", Terminal::Assign(AssignOp::Sub)),
    (b"*=", Terminal::Assign(AssignOp::Mul)),
    (b"/=", Terminal::Assign(AssignOp::Div)),
    (b"%=", Terminal::Assign(AssignOp::Rem)),
    (b"&=", Terminal::Other),
    (b"|=", Terminal::Other),
    (b"^=", Terminal::Other),
    (b"&&", Terminal::Binary(BinaryOp::And)),
    (b"||", Terminal::Binary(BinaryOp::Or)),
    (b"<-", Terminal::Arrow),
    (b"++", Terminal::Step(StepOp::Increment)),
    (b"--", Terminal::Step(StepOp::Decrement)),
    (b"==", Terminal::Binary(BinaryOp::Eq)),
    (b"!=", Terminal::Binary(BinaryOp::Ne)),
    (b"<=", Terminal::Binary(BinaryOp::Le)),
    (b">=", Terminal::Binary(BinaryOp::Ge)),
    (b":=", Terminal::Define),
    (b"+", Terminal::Binary(BinaryOp::Add)),
    (b"-", Terminal::Binary(BinaryOp::Sub)),
    (b"*", Terminal::Binary(BinaryOp::Mul)),
    (b"/", Terminal::Binary(BinaryOp::Div)),
    (b"%", Terminal::Binary(BinaryOp::Rem)),
    (b"&", Terminal::Ampersand),
    (b"|", Terminal::Other),
    (b"^", Terminal::Other),
    (b"<", Terminal::Binary(BinaryOp::Lt)),
    (b">", Terminal::Binary(BinaryOp::Gt)),
    (b"=", Terminal::Assign(AssignOp::Plain)),
    (b"!", Terminal::Bang),
    (b"~", Terminal::Other),
    (b"(", Terminal::OpenParen),
    (b")", Terminal::CloseParen),
    (b"[", Terminal::OpenBracket),
    (b"]", Terminal::CloseBracket),
    (b"{", Terminal::OpenBrace),
    (b"}", Terminal::CloseBrace),
    (b",", Terminal::Comma),
    (b";", Terminal::Semicolon),
    (b".", Terminal::Dot),
    (b":", Terminal::Colon),
];

// The first word of a table that the text begins with: its width and its terminal. If no word of the table comes after a shorter one,
// this is the longest match.
fn longest_front(table: &[(&[u8], Terminal)], text: &[u8]) -> Option<(usize, Terminal)>
    requires { IsTrue (longer_first (entries table.now)) }
    ensures { result ≡ longest_front (entries table.now) text.now }
{
    for entry in table {
        if text.starts_with(entry.0) {
            return Some((entry.0.len(), entry.1));
        }
    }
    None
}

// The longest operator that the text begins with: its width and its terminal.
#[tactic(auto, unfolding(crate::specs::Operators::operator_entry))]
fn operator_entry(text: &[u8]) -> Option<(usize, Terminal)>
    ensures { result ≡ operator_entry text.now }
{
    longest_front(&OPERATORS, text)
}

/// The operator at the front of a text that begins with no other form. If there is none, the first byte begins no token.
#[tactic(auto, unfolding(crate::specs::Operators::operator_at))]
pub(crate) fn operator(text: &[u8]) -> Front
    ensures { result ≡ operator_at text.now }
{
    match operator_entry(text) {
        Some((width, terminal)) => Front::Piece(terminal, width),
        None => Front::Refused(LexicalKind::BadByte, 0),
    }
}
