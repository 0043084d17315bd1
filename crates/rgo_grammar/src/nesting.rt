//! How deeply lexemes nest, by their terminals alone, so that it is known before the parser recurs. Whatever makes the parser recur,
//! brackets, operators and `else`, counts, and the sum over all open levels is the depth. Why: docs/DECISIONS.md, "Grammar".

ghost use Rattle.std.specs.Prelude.{◌≡◌, ◌<◌, ◌^◌, ◌∷◌, [], IfOk};
ghost use Rattle.rgo_grammar.specs.Nesting.{nesting, weight, outermost, inner, at_innermost, outside_level};
ghost use Rattle.rgo_grammar.specs.Nesting.{with_joint, branched, separated, ended_level, after_semicolon};
ghost use Rattle.rgo_grammar.specs.Nesting.{levels_after, deep_at};

use rgo_lexer::{Lexeme, Terminal};
use std::alloc::{AllocError, AllocFailed, Global};
use std::collections::VecDeque;

/// An open level: the text itself, or the inside of a bracket.
#[derive(Clone, Copy)]
pub struct Level {
    /// 1 if it is the inside of a bracket, 0 if it is the text.
    pub brackets: usize,
    /// The number of joints (operators, suffixes, `chan`) since its last `;` or `,`, which end an expression.
    pub joints: usize,
    /// The number of `else` since its last `;` after a `}`, which ends an `if`.
    pub elses: usize,
}

impl Level {
    fn weight(&self) -> usize
        requires { weight self.now < 2 ^ 63 }
        ensures { result ≡ weight self.now }
    {
        self.brackets + self.joints + self.elses
    }
}

// The open levels, innermost first. Invariant: `total` is the sum of their weights, so that the depth needs no pass over them.
#[derive(Drop)]
struct Nesting {
    levels: VecDeque<Level>,
    total: usize,

    ghost sum: { total ≡ nesting levels.items },
}

impl Nesting {
    fn new(alloc: Global) -> Result<Nesting, AllocError>
        ensures { IfOk result (λ n. n.levels.items ≡ outermost ∷ []) }
    {
        let mut levels = VecDeque::new(alloc);
        levels.push_front(Level {
            brackets: 0,
            joints: 0,
            elses: 0,
        })?;
        Ok(Nesting { levels, total: 0 })
    }

    fn open(&mut self) -> Result<(), AllocError>
        requires { self.old.total < 2 ^ 63 }
        ensures { IfOk result (λ _. self.new.levels.items ≡ inner ∷ self.old.levels.items) }
    {
        self.levels.push_front(Level {
            brackets: 1,
            joints: 0,
            elses: 0,
        })?;
        self.total += 1;
        Ok(())
    }

    fn close(&mut self)
        requires { self.old.total < 2 ^ 63 }
        ensures { self.new.levels.items ≡ outside_level self.old.levels.items }
    {
        if let Some(level) = self.levels.pop_front() {
            self.total -= level.weight();
        }
    }

    fn join(&mut self)
        requires { self.old.total < 2 ^ 63 }
        ensures { self.new.levels.items ≡ at_innermost with_joint self.old.levels.items }
    {
        if let Some(level) = self.levels.front_mut() {
            level.joints += 1;
            self.total += 1;
        }
    }

    fn branch(&mut self)
        requires { self.old.total < 2 ^ 63 }
        ensures { self.new.levels.items ≡ at_innermost branched self.old.levels.items }
    {
        if let Some(level) = self.levels.front_mut() {
            level.elses += 1;
            self.total += 1;
        }
    }

    fn separate(&mut self)
        requires { self.old.total < 2 ^ 63 }
        ensures { self.new.levels.items ≡ at_innermost separated self.old.levels.items }
    {
        if let Some(level) = self.levels.front_mut() {
            self.total -= level.joints;
            level.joints = 0;
        }
    }

    fn end(&mut self)
        requires { self.old.total < 2 ^ 63 }
        ensures { self.new.levels.items ≡ at_innermost ended_level self.old.levels.items }
    {
        if let Some(level) = self.levels.front_mut() {
            self.total -= level.joints + level.elses;
            level.joints = 0;
            level.elses = 0;
        }
    }

    // Takes the next terminal into account, by the one before it.
    fn pass(&mut self, before: Terminal, terminal: Terminal) -> Result<(), AllocError>
        requires { self.old.total < 2 ^ 63 }
        ensures { IfOk result (λ _. self.new.levels.items
            ≡ levels_after before terminal self.old.levels.items) }
    {
        match terminal {
            Terminal::OpenParen | Terminal::OpenBracket | Terminal::OpenBrace => self.open()?,
            Terminal::CloseParen | Terminal::CloseBracket => {
                self.close();
                self.join();
            }
            Terminal::CloseBrace => self.close(),
            Terminal::Binary(_)
            | Terminal::Bang
            | Terminal::Ampersand
            | Terminal::Arrow
            | Terminal::Dot
            | Terminal::Chan => self.join(),
            Terminal::Else => self.branch(),
            Terminal::Comma => self.separate(),
            Terminal::Semicolon => match before {
                Terminal::CloseBrace => self.end(),
                _ => self.separate(),
            },
            _ => {}
        }
        Ok(())
    }
}

/// The number, from 0, of the first lexeme after which the lexemes nest deeper than the limit; `None` if they never do.
///
/// # Errors
///
/// If an allocation failed.
pub fn deep_at<'a>(
    alloc: Global,
    limit: usize,
    lexemes: &[Lexeme<'a>],
) -> Result<Option<usize>, AllocError>
    requires { limit < 2 ^ 32 }
    ensures { IfOk result (λ at. at ≡ deep_at limit lexemes.now) }
{
    let mut nesting = Nesting::new(alloc)?;
    let mut before = Terminal::Other;
    for (at, lexeme) in lexemes.iter().enumerate() {
        nesting.pass(before, lexeme.terminal)?;
        if nesting.total > limit {
            return Ok(Some(at));
        }
        before = lexeme.terminal;
    }
    Ok(None)
}
