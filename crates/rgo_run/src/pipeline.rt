//! The compiler's stages in their order: a text becomes tokens, a tree, a typed program, three-address code, and code with regions.
//! A code text becomes checked code by two stages.
//!
//! The types fix the order: each stage takes what the one before it returns. The first stage that fails determines the refusal.
//! Why: docs/DECISIONS.md, "Refusals".

ghost use Rattle.std.specs.Prelude.{◌≡◌, ◌≤◌, length, IfErr, IfOk};
ghost use Rattle.rgo_lexer.specs.Lexing.{LexesAs};
ghost use Rattle.rgo_ast.specs.Views.{program_of};
ghost use Rattle.rgo_typed.specs.Views.{typed_of};
ghost use Rattle.rgo_parser.specs.Parsing.{Fails as ParseFails};
ghost use Rattle.rgo_run.specs.Compiled.{IsCompiled};
ghost use Rattle.rgo_run.specs.CodeVerdicts.{IsCheckedText};
ghost use Rattle.rgo_run.specs.Positions.{lexeme_place};
ghost use Rattle.rgo_run.specs.Runs.{IsCodeOf};
ghost use Rattle.rgo_run.specs.Texts.{CodeFails, SourceFailsAs, byte_limit};
ghost use Rattle.rgo_run.specs.Verdicts.{IsTree, IsTypedProgram, text_limit};

use crate::endings::TextKind;
use crate::refusals::{CodeTextError, CodeTextRefusal, TextError, TextRefusal};
use rgo_ast::{Place, Program};
use rgo_checker::check_code;
use rgo_code::Checked;
use rgo_code_text::read_code;
use rgo_insert::insert;
use rgo_lexer::{Lexeme, lex};
use rgo_lower::{LowerError, lower};
use rgo_parser::{ParseError, ParseRefusal, parse};
use rgo_summaries::summaries;
use rgo_tac::Tac;
use rgo_typed::Typed;
use rgo_types::check;
use std::alloc::Global;

/// The greatest length of a text, in bytes.
const TEXT_LIMIT: usize = 1_048_576;

/// The greatest length of a code text, in bytes.
const CODE_LIMIT: usize = 67_108_864;

/// The greatest length of a text of this kind, in bytes. [`crate::top`] reads no more than one byte beyond it.
pub(crate) fn limit_of(kind: TextKind) -> usize
    ensures { result ≡ byte_limit kind }
{
    match kind {
        TextKind::Go => TEXT_LIMIT,
        TextKind::Code => CODE_LIMIT,
    }
}

// The place of the lexeme with this number. The parser reports an unexpected end as the number of all lexemes; its place is the end
// of the text.
fn place_of(text: &[u8], lexemes: &[Lexeme<'_>], k: usize) -> Place
    ensures { result ≡ lexeme_place text.now lexemes.now k }
{
    match lexemes.get(k) {
        Some(lexeme) => lexeme.at,
        None => text.len(),
    }
}

// The parser counts lexemes, and a report needs places: translates a parser's error.
fn parse_error(text: &[u8], lexemes: &[Lexeme<'_>], error: ParseError) -> TextError
    requires lexed { LexesAs text.now lexemes.now }
    requires fails { ParseFails lexemes.now error }
    requires within { length text.now ≤ text_limit }
    ensures { SourceFailsAs text.now result }
{
    match error {
        ParseError::NoMemory => TextError::NoMemory,
        ParseError::Refused(ParseRefusal::Syntax { at }) => TextError::Refused(
            TextRefusal::Syntax {
                at: place_of(text, lexemes, at),
            },
        ),
        ParseError::Refused(ParseRefusal::TooDeep { at }) => TextError::Refused(
            TextRefusal::Nesting {
                at: place_of(text, lexemes, at),
            },
        ),
    }
}

// Parses the lexemes of a text. Not a `?` with a `From`, since translating the error needs the text and its lexemes.
fn tree_of(alloc: Global, text: &[u8], lexemes: &[Lexeme<'_>]) -> Result<Program, TextError>
    requires lexed { LexesAs text.now lexemes.now }
    requires within { length text.now ≤ text_limit }
    ensures ok { IfOk result (λ tree. IsTree text.now (program_of tree)) }
    ensures err { IfErr result (SourceFailsAs text.now) }
{
    match parse(alloc, text.len(), lexemes) {
        Ok(tree) => Ok(tree),
        Err(error) => Err(parse_error(text, lexemes, error)),
    }
}

/// The typed program of a text. The length comes first: the bounds of all later stages rely on it.
pub(crate) fn check_text(alloc: Global, text: &[u8]) -> Result<Typed, TextError>
    ensures ok { IfOk result (λ program. IsTypedProgram text.now (typed_of program)) }
    ensures err { IfErr result (SourceFailsAs text.now) }
{
    if text.len() > TEXT_LIMIT {
        return Err(TextError::Refused(TextRefusal::TooLong));
    }
    let lexemes = lex(alloc, text)?;
    let tree = tree_of(alloc, text, &lexemes)?;
    Ok(check(alloc, &tree)?)
}

/// The three-address code of a text's program, without regions. `replay` runs this code; [`compile`] adds the regions to it.
///
/// `LowerError::TooLarge` cannot occur: the program of a text within the limit fits numbers of 32 bits
/// (`no_program_is_too_large`).
///
/// # Errors
///
/// `Refused`, with the reason and its place in bytes, if the text is not a valid program; `NoMemory` if an allocation failed.
pub fn lower_text(alloc: Global, text: &[u8]) -> Result<Tac, TextError>
    ensures ok { IfOk result (IsCodeOf text.now) }
    ensures err { IfErr result (SourceFailsAs text.now) }
{
    let program = check_text(alloc, text)?;
    match lower(alloc, &program) {
        Ok(code) => Ok(code),
        Err(LowerError::NoMemory) => Err(TextError::NoMemory),
        Err(LowerError::TooLarge) => unreachable!(),
    }
}

/// The code of a text's program with regions: it states where regions are created, passed, protected and removed.
///
/// The summaries of all functions come before the insertion, since what a call does with regions is in its callee's summary.
///
/// # Errors
///
/// `Refused`, with the reason and its place in bytes, if the text is not a valid program; `NoMemory` if an allocation failed.
pub fn compile(alloc: Global, text: &[u8]) -> Result<Checked, TextError>
    ensures ok { IfOk result (IsCompiled text.now) }
    ensures err { IfErr result (SourceFailsAs text.now) }
{
    let tac = lower_text(alloc, text)?;
    let summaries = summaries(alloc, &tac)?;
    let code = insert(alloc, &tac, &summaries)?;
    code.ascends();
    Ok(Checked::new(code))
}

/// The checked code of a code text. Any code text may come here, also one that no compiler wrote; nothing is run that has not
/// passed `check_code`.
pub(crate) fn read_checked(alloc: Global, text: &[u8]) -> Result<Checked, CodeTextError>
    ensures ok { IfOk result (IsCheckedText text.now) }
    ensures err { IfErr result (CodeFails text.now) }
{
    if text.len() > CODE_LIMIT {
        return Err(CodeTextError::Refused(CodeTextRefusal::TooLong));
    }
    let code = read_code(alloc, text)?;
    check_code(alloc, &code)?;
    code.ascends();
    Ok(Checked::new(code))
}
