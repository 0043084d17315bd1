//! Lists and groups of items that are read one by one: parameters, fields, and the declarations between parentheses. Lists of
//! expressions and of statements are in the files of their cycles.

ghost use Rattle.std.specs.Prelude.{◌≡◌, [], map, ℕ, List};
ghost use Rattle.rgo_grammar.specs.reading.Read as reading;
ghost use Rattle.rgo_grammar.specs.reading.Declarations as reading_decls;
ghost use Rattle.rgo_lexer.specs.Lexemes as lexemes;
ghost use Rattle.rgo_reader.specs.Agrees.{Agrees};
ghost use Rattle.rgo_parser.specs.Items.{listed_by};

use rgo_lexer::{Lexeme, Terminal};
use rgo_reader::{Fault, Read, Reader, closes, separated};
use std::alloc::Global;

/// The items of a list, and the lexeme that closes it.
pub(crate) type Listed<'r, 'a, T> = Read<(Vec<T>, &'r Lexeme<'a>)>;

/// What a list consists of: `reads` is the reading function of the grammar that `read` agrees with.
pub(crate) trait Item: Drop {
    ghost Tree: { Type 0 };

    ghost tree_of: { Self → Tree };

    ghost reads: { ℕ → List lexemes.Lexeme → reading.Read Tree };

    /// Reads one item.
    fn read(alloc: Global, reader: &mut Reader<'_, '_>, turns: usize) -> Read<Self>
        ensures { Agrees tree_of result reader.new (reads turns reader.old) };
}

/// Items up to the lexeme that closes them; the last separator may be missing. `Starved` is never reached with the parser's bound,
/// since each item takes at least one lexeme.
#[tactic(auto, using(crate::proofs::ListTurns::list_turns))]
pub(crate) fn list<'r, 'a, T: Item>(
    alloc: Global,
    reader: &mut Reader<'r, 'a>,
    turns: usize,
    separator: Terminal,
    closer: Terminal,
) -> Listed<'r, 'a, T>
    ensures { Agrees (listed_by T.tree_of) result reader.new
        (reading.several separator closer (T.reads turns) turns [] reader.old) }
{
    let mut found = Vec::new(alloc);
    for turn in 0..turns {
        if let Some(closing) = closes(reader, closer)? {
            return Ok((found, closing));
        }
        let item = T::read(alloc, reader, turns)?;
        found.push(item)?;
        if let Some(closing) = separated(reader, separator, closer)? {
            return Ok((found, closing));
        }
    }
    Err(Fault::Starved)
}

/// One item, or a group of items in parentheses. A group of one has the same tree as that item alone.
/// Why: docs/DECISIONS.md, "Grammar".
pub(crate) fn group<T: Item>(
    alloc: Global,
    reader: &mut Reader<'_, '_>,
    turns: usize,
) -> Read<Vec<T>>
    ensures { Agrees (λ x. map T.tree_of x.items) result reader.new
        (reading_decls.group (T.reads turns) turns reader.old) }
{
    let Some(lexeme) = reader.peek() else {
        return Err(Fault::Syntax);
    };
    match lexeme.terminal {
        Terminal::OpenParen => {
            reader.pass();
            let (found, _) = list::<T>(
                alloc,
                reader,
                turns,
                Terminal::Semicolon,
                Terminal::CloseParen,
            )?;
            Ok(found)
        }
        _ => {
            let mut found = Vec::new(alloc);
            let item = T::read(alloc, reader, turns)?;
            found.push(item)?;
            Ok(found)
        }
    }
}
