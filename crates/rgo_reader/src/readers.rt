//! The reader of a text's lexemes, and how it reads single ones.
//!
//! Each function that reads moves the reader past what it has read. After a failure the reader is at the first bad lexeme, which is
//! how the parser learns its number. Functions that repeat or recur take `turns`, a bound that decreases with each part; the parser
//! passes a bound that no list of lexemes exhausts.

ghost use Rattle.std.specs.Prelude.{◌≡◌, ◌++◌, ◌∷◌, [], true, drop, length, IfOk, MatchOption, None, Some};
ghost use Rattle.rgo_grammar.specs.reading.Read as reading;
ghost use Rattle.rgo_grammar.specs.reading.Read.{next_lexeme};
ghost use Rattle.rgo_lexer.specs.declared.terminals.Terminal.TheVariants as terminal;
ghost use Rattle.rgo_reader.specs.Agrees.{Agrees, leaf_of, leaf_in};

use rgo_ast::{Ident, Name};
use rgo_lexer::{Lexeme, Terminal};
use std::alloc::{AllocError, AllocFailed, Global};
use std::marker::Model;

/// Why nothing was read.
#[derive(Drop)]
pub enum Fault {
    /// Memory ran out.
    NoMemory,
    /// The next lexeme is not allowed.
    Syntax,
    /// The bound on the turns was too small. The parser proves that it never sees this.
    Starved,
}

impl From<AllocError> for Fault {
    ghost use Rattle.rgo_reader.specs.declared.readers.Fault.TheVariants.{NoMemory};

    ghost from_gives = { λ _ e. e ≡ NoMemory };

    fn from(_: AllocError) -> Fault {
        Fault::NoMemory
    }
}

impl<T: Drop> From<AllocFailed<T>> for Fault {
    ghost use Rattle.rgo_reader.specs.declared.readers.Fault.TheVariants.{NoMemory};

    ghost from_gives = { λ _ e. e ≡ NoMemory };

    fn from(_: AllocFailed<T>) -> Fault {
        Fault::NoMemory
    }
}

/// What was read, or why nothing was.
pub type Read<T> = Result<T, Fault>;

/// The lexemes of a text from the next one on. In contracts a reader is the list of the lexemes that are left.
#[derive(Drop)]
pub struct Reader<'r, 'a> {
    lexemes: &'r [Lexeme<'a>],
    at: usize,
}

impl<'r, 'a> Model for Reader<'r, 'a> {
    ghost use Rattle.std.specs.Prelude.{List, drop};
    ghost use Rattle.rgo_lexer.specs.Lexemes.{Lexeme};

    ghost Value = { List Lexeme };

    ghost view = { λ r. drop r.at r.lexemes.now };
}

impl<'r, 'a> Reader<'r, 'a> {
    /// A reader at the first of these lexemes.
    pub fn new(lexemes: &'r [Lexeme<'a>]) -> Reader<'r, 'a>
        ensures { result ≡ lexemes.now }
    {
        Reader { lexemes, at: 0 }
    }

    /// The number of lexemes that are left.
    pub fn left(&self) -> usize
        ensures { result ≡ length self.now }
    {
        self.lexemes.len().saturating_sub(self.at)
    }

    /// The next lexeme, without reading it.
    pub fn peek(&self) -> Option<&'r Lexeme<'a>>
        ensures { MatchOption result (next_lexeme self.now ≡ None)
            (λ l. next_lexeme self.now ≡ Some (l.now, drop 1 self.now)) }
    {
        self.lexemes.get(self.at)
    }

    /// The lexeme after the next, without reading either. No production needs to look further ahead.
    pub fn peek_second(&self) -> Option<&'r Lexeme<'a>>
        ensures { MatchOption result (next_lexeme (drop 1 self.now) ≡ None)
            (λ l. next_lexeme (drop 1 self.now) ≡ Some (l.now, drop 2 self.now)) }
    {
        self.lexemes.get(self.at..)?.get(1)
    }

    /// Passes the next lexeme, if there is one.
    pub fn pass(&mut self)
        ensures { self.new ≡ drop 1 self.old }
    {
        if self.at < self.lexemes.len() {
            self.at += 1;
        }
    }

    /// Reads one lexeme, which must have this terminal; otherwise it reads nothing and fails.
    pub fn take(&mut self, terminal: Terminal) -> Read<&'r Lexeme<'a>>
        ensures { Agrees leaf_in result self.new (reading.token terminal self.old) }
    {
        match self.peek() {
            Some(lexeme) if lexeme.terminal.stands_as(terminal) => {
                self.pass();
                Ok(lexeme)
            }
            _ => Err(Fault::Syntax),
        }
    }

    /// Reads a name.
    pub fn name(&mut self, alloc: Global) -> Read<Ident>
        ensures { Agrees leaf_of result self.new (reading.token terminal.Name self.old) }
    {
        let lexeme = self.take(Terminal::Name)?;
        Ok(ident(alloc, lexeme)?)
    }
}

/// The name that a lexeme spells.
pub fn ident(alloc: Global, lexeme: &Lexeme<'_>) -> Result<Ident, AllocError>
    ensures { IfOk result (λ i. leaf_of i ≡ lexeme.now.leaf) }
{
    Ok(Ident {
        name: Name::new(lexeme.word.to_vec(alloc)?),
        at: lexeme.at,
    })
}
