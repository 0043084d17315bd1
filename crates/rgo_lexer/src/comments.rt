//! Comments: one of the forms at the front of a text (`front`). They produce no token, but may act as a newline.
//! Why: docs/DECISIONS.md, "Tokens".

ghost use Rattle.std.specs.Prelude.{◌≡◌, ◌≤◌, ◌+◌, ◌<◌, length, IfSome};
ghost use Rattle.std.specs.List.{position_or_len};
ghost use Rattle.rgo_lexer.specs.Comments.{is_newline, first_close, acts_as, comment_at};
ghost use Rattle.rgo_lexer.specs.Comments.{begins_line_comment, begins_comment};

use crate::front::Front;
use crate::refusals::LexicalKind;

// Where the first `*/` begins.
fn first_close(text: &[u8]) -> Option<usize>
    ensures place { result ≡ first_close text.now }
    ensures within { IfSome result (λ at. at + 2 ≤ length text.now) }
{
    for at in 0..text.len() {
        if text[at..].starts_with(b"*/") {
            return Some(at);
        }
    }
    None
}

// The number of bytes before the first newline.
fn line_len(text: &[u8]) -> usize
    ensures value { result ≡ position_or_len is_newline text.now }
    ensures within { result ≤ length text.now }
{
    text.iter().take_while(|b| **b != b'\n').count()
}

// Whether the text begins with a comment to the end of the line.
fn begins_line_comment(text: &[u8]) -> bool
    ensures { result ≡ begins_line_comment text.now }
{
    text.starts_with(b"//")
}

/// Whether the text begins with a comment (The Go Programming Language Specification, "Comments").
pub(crate) fn begins_comment(text: &[u8]) -> bool
    ensures { result ≡ begins_comment text.now }
{
    begins_line_comment(text) || text.starts_with(b"/*")
}

// A general comment acts as a newline if it contains one, else as a space (The Go Programming Language Specification, "Comments").
fn acts_as(text: &[u8], len: usize) -> Front
    requires { len ≤ length text.now }
    ensures { result ≡ acts_as text.now len }
{
    if text[..len].contains(&b'\n') {
        Front::Newline(len)
    } else {
        Front::Blank(len)
    }
}

/// The comment at the front of a text that begins with one. A comment to the end of the line does not include the newline, which may
/// have to insert a `;`.
#[tactic(auto, unfolding(crate::specs::Comments::comment_at))]
pub(crate) fn comment(text: &[u8]) -> Front
    requires { 2 ≤ length text.now }
    ensures { result ≡ comment_at text.now }
{
    if begins_line_comment(text) {
        return Front::Blank(line_len(text));
    }
    match first_close(&text[2..]) {
        Some(at) => acts_as(text, at + 4),
        None => Front::Refused(LexicalKind::OpenComment, 0),
    }
}
