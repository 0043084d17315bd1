//! Words, that is, names and keywords: one of the forms at the front of a text (`front`).

ghost use Rattle.std.specs.Prelude.{◌≡◌};
ghost use Rattle.rgo_lexer.specs.Words as words;
ghost use Rattle.rgo_lexer.specs.Words.{entries, looked_up, word_terminal};

use crate::bytes::run_len;
use crate::front::Front;
use crate::terminals::Terminal;

// The words that are not names: all keywords (The Go Programming Language Specification, "Keywords"), also those that no production
// uses, and `new` and `make`, whose first operand is a type. Why: docs/DECISIONS.md, "Grammar".
const WORDS: [(&[u8], Terminal); 27] = [
    (b"break", Terminal::Break),
    (b"case", Terminal::Other),
    (b"chan", Terminal::Chan),
    (b"const", Terminal::Other),
    (b"continue", Terminal::Continue),
    (b"default", Terminal::Other),
    (b"defer", Terminal::Other),
    (b"else", Terminal::Else),
    (b"fallthrough", Terminal::Other),
    (b"for", Terminal::For),
    (b"func", Terminal::Func),
    (b"go", Terminal::Go),
    (b"goto", Terminal::Other),
    (b"if", Terminal::If),
    (b"import", Terminal::Import),
    (b"interface", Terminal::Other),
    (b"map", Terminal::Other),
    (b"package", Terminal::Package),
    (b"range", Terminal::Other),
    (b"return", Terminal::Return),
    (b"select", Terminal::Other),
    (b"struct", Terminal::Struct),
    (b"switch", Terminal::Other),
    (b"type", Terminal::TypeWord),
    (b"var", Terminal::Var),
    (b"new", Terminal::New),
    (b"make", Terminal::Make),
];

// The terminal of a word in a table, or the default.
fn looked_up(table: &[(&[u8], Terminal)], default: Terminal, word: &[u8]) -> Terminal
    ensures { result ≡ looked_up (entries table.now) default word.now }
{
    for entry in table {
        if word == entry.0 {
            return entry.1;
        }
    }
    default
}

// The terminal of a word.
#[tactic(auto, unfolding(crate::specs::Words::word_terminal))]
fn word_terminal(word: &[u8]) -> Terminal
    ensures { result ≡ word_terminal word.now }
{
    looked_up(&WORDS, Terminal::Name, word)
}

/// The word at the front of a text that begins with a letter; it extends over all bytes that may occur in a word.
#[tactic(auto, unfolding(crate::specs::Words::word_at_front))]
pub(crate) fn word(text: &[u8]) -> Front
    ensures { result ≡ words.word_at_front text.now }
{
    let width = run_len(text);
    Front::Piece(word_terminal(&text[..width]), width)
}
