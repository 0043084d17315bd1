//! The `;` that the end of a line inserts (The Go Programming Language Specification, "Semicolons"). The lexer's loop keeps the place
//! where the last token ended if a `;` may follow it, and resolves that at the next newline or at the end of the text.

ghost use Rattle.std.specs.Prelude.{◌≡◌, ◌++◌, IfErr, OnOk};
ghost use Rattle.rgo_lexer.specs.Semicolons as semicolons;
ghost use Rattle.rgo_lexer.specs.Semicolons.{inserted};
ghost use Rattle.rgo_lexer.specs.declared.refusals.LexError.TheVariants.{NoMemory};

use crate::lexemes::Lexeme;
use crate::refusals::LexError;
use crate::terminals::Terminal;

// Whether a statement may end after a token.
#[tactic(auto, unfolding(crate::specs::Semicolons::may_end))]
fn may_end(terminal: Terminal, word: &[u8]) -> bool
    ensures { result ≡ semicolons.may_end terminal word.now }
{
    match terminal {
        Terminal::Name
        | Terminal::Main
        | Terminal::New
        | Terminal::Make
        | Terminal::Number(_)
        | Terminal::Text
        | Terminal::Step(_)
        | Terminal::CloseParen
        | Terminal::CloseBracket
        | Terminal::CloseBrace
        | Terminal::Return
        | Terminal::Break
        | Terminal::Continue => true,
        Terminal::Other => word == b"fallthrough".as_slice(),
        _ => false,
    }
}

/// `end`, the place where a token ends, if a statement may end there; the loop keeps it until the line is over.
pub(crate) fn ending_after(terminal: Terminal, word: &[u8], end: usize) -> Option<usize>
    ensures { result ≡ semicolons.ending_after terminal word.now end }
{
    if may_end(terminal, word) {
        Some(end)
    } else {
        None
    }
}

/// At the end of a line, appends a `;` at `ending`, where the last token ended, if a statement may end there.
pub(crate) fn insert_semicolon<'a>(
    lexemes: &mut Vec<Lexeme<'a>>,
    ending: Option<usize>,
) -> Result<(), LexError>
    ensures ok { OnOk result (lexemes.new.items ≡ lexemes.old.items ++ inserted ending) }
    ensures memory { IfErr result (λ e. e ≡ NoMemory) }
{
    if let Some(at) = ending {
        lexemes.push(Lexeme {
            terminal: Terminal::Semicolon,
            at,
            word: b"",
        })?;
    }
    Ok(())
}
