//! Operations with what they say of regions, each word after a space.

ghost use Rattle.std.specs.Prelude.{◌≡◌, ◌++◌, ◌∷◌, [], codes, decimal, OnOk};
ghost use Rattle.rgo_tac.specs.Ops.{numbers_of, operation_of};
ghost use Rattle.rgo_code.specs.Views.{code_op};
ghost use Rattle.rgo_code_printing.specs.Words.{variable_word, piece_words, in_one};
ghost use Rattle.rgo_code_printing.specs.Words.{callee_word, passes_word, protects_word, removes_word};
ghost use Rattle.rgo_code_printing.specs.Printing.{words_after_spaces, note_of};
ghost use Rattle.rgo_code_printing.specs.Text.{names_of, action_words, value_word, op_words};

use crate::actions::print_action;
use crate::lists::{print_callee, print_passes, print_regions};
use crate::pieces::print_pieces;
use crate::spacing::{print_number_word, print_one, print_variable_word, print_word};
use crate::types::function_name;
use crate::words::print;
use rgo_code::{Class, Code};
use rgo_tac::{Op, Operands};
use rgo_typed::{Action, Piece};
use std::alloc::AllocError;

/// What an instruction says of regions.
#[derive(Clone, Copy)]
pub(crate) struct Lists<'a> {
    pub(crate) creates: &'a [u32],
    pub(crate) passes: &'a [Class],
    pub(crate) protects: &'a [u32],
    pub(crate) removes: &'a [u32],
    pub(crate) otherwise: &'a [u32],
}

fn print_removes(out: &mut Vec<u8>, names: &[u32]) -> Result<(), AllocError>
    ensures { OnOk result (out.new.items ≡ out.old.items ++ words_after_spaces (removes_word names.now ∷ [])) }
{
    print(out, b" ")?;
    print_regions(out, b'-', names)
}

/// The variable of a call's result, or of a returned value.
fn print_value(out: &mut Vec<u8>, value: Option<u32>) -> Result<(), AllocError>
    ensures { OnOk result (out.new.items ≡ out.old.items ++ words_after_spaces (value_word value ∷ [])) }
{
    match value {
        Some(v) => print_variable_word(out, v),
        None => print_word(out, b"-"),
    }
}

fn print_callee_word(out: &mut Vec<u8>, name: &[u8], from: &[u32]) -> Result<(), AllocError>
    ensures { OnOk result (out.new.items ≡ out.old.items ++ words_after_spaces (callee_word name.now from.now ∷ [])) }
{
    print(out, b" ")?;
    print_callee(out, name, from)
}

fn print_passes_word(out: &mut Vec<u8>, classes: &[Class]) -> Result<(), AllocError>
    ensures { OnOk result (out.new.items ≡ out.old.items ++ words_after_spaces (passes_word classes.now ∷ [])) }
{
    print(out, b" ")?;
    print_passes(out, classes)
}

fn print_call(
    out: &mut Vec<u8>,
    to: Option<u32>,
    name: &[u8],
    from: &[u32],
    lists: &Lists<'_>,
) -> Result<(), AllocError>
    ensures { OnOk result (out.new.items ≡ out.old.items ++ words_after_spaces (codes "call" ∷ value_word to
        ∷ callee_word name.now from.now ∷ passes_word lists.now.passes.now
        ∷ protects_word lists.now.protects.now ∷ removes_word lists.now.removes.now ∷ [])) }
{
    print_word(out, b"call")?;
    print_value(out, to)?;
    print_callee_word(out, name, from)?;
    print_passes_word(out, lists.passes)?;
    print(out, b" ")?;
    print_regions(out, b'P', lists.protects)?;
    print_removes(out, lists.removes)
}

fn print_go(
    out: &mut Vec<u8>,
    name: &[u8],
    from: &[u32],
    lists: &Lists<'_>,
) -> Result<(), AllocError>
    ensures { OnOk result (out.new.items ≡ out.old.items ++ words_after_spaces (codes "go"
        ∷ callee_word name.now from.now ∷ passes_word lists.now.passes.now
        ∷ removes_word lists.now.removes.now ∷ [])) }
{
    print_word(out, b"go")?;
    print_callee_word(out, name, from)?;
    print_passes_word(out, lists.passes)?;
    print_removes(out, lists.removes)
}

/// The pieces of a print as one word, if there are any.
fn print_pieces_word(out: &mut Vec<u8>, pieces: &[Piece], from: &[u32]) -> Result<(), AllocError>
    ensures { OnOk result (out.new.items
        ≡ out.old.items ++ words_after_spaces (in_one (piece_words pieces.now from.now 0))) }
{
    if pieces.is_empty() {
        return Ok(());
    }
    print(out, b" ")?;
    print_pieces(out, pieces, from)
}

#[tactic(auto, using(crate::proofs::Printing::spaced_append))]
fn print_print(
    out: &mut Vec<u8>,
    pieces: &[Piece],
    from: &[u32],
    removes: &[u32],
) -> Result<(), AllocError>
    ensures { OnOk result (out.new.items ≡ out.old.items
        ++ words_after_spaces (codes "print" ∷ (in_one (piece_words pieces.now from.now 0) ++ removes_word removes.now ∷ []))) }
{
    print_word(out, b"print")?;
    print_pieces_word(out, pieces, from)?;
    print_removes(out, removes)
}

fn print_jump(out: &mut Vec<u8>, target: u32, removes: &[u32]) -> Result<(), AllocError>
    ensures { OnOk result (out.new.items ≡ out.old.items
        ++ words_after_spaces (codes "jump" ∷ decimal target ∷ removes_word removes.now ∷ [])) }
{
    print_word(out, b"jump")?;
    print_number_word(out, target as usize)?;
    print_removes(out, removes)
}

fn print_branch(
    out: &mut Vec<u8>,
    test: u32,
    target: u32,
    other: u32,
    lists: &Lists<'_>,
) -> Result<(), AllocError>
    ensures { OnOk result (out.new.items ≡ out.old.items
        ++ words_after_spaces (codes "branch" ∷ variable_word test ∷ decimal target ∷ removes_word lists.now.removes.now
        ∷ decimal other ∷ removes_word lists.now.otherwise.now ∷ [])) }
{
    print_one(out, b"branch", test)?;
    print_number_word(out, target as usize)?;
    print_removes(out, lists.removes)?;
    print_number_word(out, other as usize)?;
    print_removes(out, lists.otherwise)
}

fn print_return(out: &mut Vec<u8>, value: Option<u32>) -> Result<(), AllocError>
    ensures { OnOk result (out.new.items ≡ out.old.items
        ++ words_after_spaces (codes "return" ∷ value_word value ∷ [])) }
{
    print_word(out, b"return")?;
    print_value(out, value)
}

#[tactic(auto, using(crate::proofs::Printing::spaced_append))]
fn print_do(
    out: &mut Vec<u8>,
    code: &Code,
    action: Action,
    to: Option<u32>,
    from: Operands,
    removes: &[u32],
) -> Result<(), AllocError>
    ensures { OnOk result (out.new.items ≡ out.old.items
        ++ words_after_spaces (action_words (names_of code.now) action to (numbers_of from) ++ removes_word removes.now ∷ [])) }
{
    print_action(out, code, action, to, from)?;
    print_removes(out, removes)
}

/// The words of an operation.
pub(crate) fn print_op(
    out: &mut Vec<u8>,
    code: &Code,
    op: Op<'_>,
    lists: &Lists<'_>,
) -> Result<(), AllocError>
    ensures { OnOk result (out.new.items ≡ out.old.items
        ++ words_after_spaces (op_words (names_of code.now) (code_op (operation_of op.entry) (note_of lists.now)))) }
{
    match op {
        Op::Do { to, action, from } => print_do(out, code, action, to, from, lists.removes),
        Op::Call { to, function, from } => {
            print_call(out, to, function_name(code, function as usize), from, lists)
        }
        Op::Go { function, from } => print_go(
            out,
            function_name(code, function as usize),
            from,
            lists,
        ),
        Op::Print { pieces, from } => print_print(out, pieces, from, lists.removes),
        Op::Jump(target) => print_jump(out, target, lists.removes),
        Op::Branch {
            test,
            target,
            other,
        } => print_branch(out, test, target, other, lists),
        Op::Return(value) => print_return(out, value),
    }
}
