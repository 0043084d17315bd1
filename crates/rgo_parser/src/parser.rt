//! The parser's entry: checks the nesting of the lexemes, reads them as a program, and turns a failure into a refusal.
//!
//! Nesting comes first because the parser recurs: what it reads is nested at most `LIMIT` deep, so its recursion stays within the
//! stack. Why: docs/DECISIONS.md, "Grammar".

ghost use Rattle.std.specs.Prelude.{◌≡◌, IfErr, IfOk, MatchResult, Some, map};
ghost use Rattle.rgo_ast.specs.Views.{decl_of, import_of, program_of};
ghost use Rattle.rgo_grammar.specs.FirstBad.{IsFirstBad};
ghost use Rattle.rgo_grammar.specs.Grammar.{IsProgram};
ghost use Rattle.rgo_grammar.specs.Nesting.{deep_at};
ghost use Rattle.rgo_parser.specs.Parsing.{limit, IsParsed, RefusesLexemes, Fails};
ghost use Rattle.rgo_parser.specs.declared.parser.ParseError.TheVariants.{NoMemory};

use crate::programs::program;
use rgo_ast::{Decl, Import, Place, Program};
use rgo_grammar::deep_at;
use rgo_lexer::Lexeme;
use rgo_reader::{Fault, Reader};
use std::alloc::{AllocError, Global};
use thiserror::Error;

/// The greatest depth of nesting: brackets, joints and `else` of all open levels, as rgo_grammar counts them.
const LIMIT: usize = 200;

/// Why lexemes are not a program, with the number, from 0, of the first lexeme that is wrong. The number of all lexemes means the
/// end of the text.
#[derive(Clone, Copy, Debug, PartialEq, Eq, Error)]
pub enum ParseRefusal {
    /// No program begins with the lexemes up to and including this one.
    #[error("wrong syntax at token {at}")]
    Syntax { at: usize },
    /// The nesting exceeds the limit after this lexeme.
    #[error("too deep at token {at}")]
    TooDeep { at: usize },
}

/// Why there is no tree: memory ran out, or the lexemes are not a program.
#[derive(Clone, Copy, Debug, PartialEq, Eq, Error)]
pub enum ParseError {
    #[error("out of memory")]
    NoMemory,
    #[error("refused: {0}")]
    Refused(ParseRefusal),
}

impl From<AllocError> for ParseError {
    ghost from_gives = { λ _ e. e ≡ NoMemory };

    fn from(_e: AllocError) -> ParseError {
        ParseError::NoMemory
    }
}

// The imports and declarations of a whole list of lexemes, or the number of the first bad one. The outer error means that memory ran
// out. `Starved` cannot occur: the bound grows with the number of lexemes, and reading them takes fewer turns.
fn whole(
    alloc: Global,
    lexemes: &[Lexeme<'_>],
) -> Result<Result<(Vec<Import>, Vec<Decl>), usize>, AllocError>
    ensures { IfOk result (λ read. MatchResult read
        (λ x. IsProgram lexemes.now (map import_of x.0.items) (map decl_of x.1.items))
        (IsFirstBad lexemes.now)) }
{
    let mut reader = Reader::new(lexemes);
    match program(alloc, &mut reader, 4 * lexemes.len() + 4) {
        Ok(found) => Ok(Ok(found)),
        Err(Fault::NoMemory) => Err(AllocError),
        Err(Fault::Syntax) => Ok(Err(lexemes.len() - reader.left())),
        Err(Fault::Starved) => unreachable!(),
    }
}

// The refusal of lexemes of which the one with number `deep` is the first that nests too deep. Only those up to it are parsed, which
// is safe. If one of them is bad, syntax is reported and not nesting. An error means that memory ran out.
fn refusal(alloc: Global, lexemes: &[Lexeme<'_>], deep: usize) -> Result<ParseRefusal, AllocError>
    requires { Some deep ≡ deep_at limit lexemes.now }
    ensures { IfOk result (RefusesLexemes lexemes.now) }
{
    prove!(deep < lexemes.len());
    let read = whole(alloc, &lexemes[..deep + 1])?;
    let Err(at) = read else {
        return Ok(ParseRefusal::TooDeep { at: deep });
    };
    if at > deep {
        return Ok(ParseRefusal::TooDeep { at: deep });
    }
    Ok(ParseRefusal::Syntax { at })
}

/// The program of a list of lexemes; `end` is the length of the text, where a missing `main` is reported.
///
/// # Errors
///
/// `Refused`, with the number of the first lexeme that is wrong; `NoMemory` if an allocation failed.
pub fn parse(alloc: Global, end: Place, lexemes: &[Lexeme<'_>]) -> Result<Program, ParseError>
    ensures parsed { IfOk result (λ program. IsParsed end lexemes.now (program_of program)) }
    ensures refused { IfErr result (Fails lexemes.now) }
{
    if let Some(deep) = deep_at(alloc, LIMIT, lexemes)? {
        return Err(ParseError::Refused(refusal(alloc, lexemes, deep)?));
    }
    match whole(alloc, lexemes)? {
        Ok((imports, decls)) => Ok(Program {
            imports,
            decls,
            end,
        }),
        Err(at) => Err(ParseError::Refused(ParseRefusal::Syntax { at })),
    }
}
