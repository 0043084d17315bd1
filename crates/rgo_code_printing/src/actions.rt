//! Actions with their operands, each word after a space.

ghost use Rattle.std.specs.Prelude.{◌≡◌, ◌++◌, ◌∷◌, [], codes, decimal, OnOk};
ghost use Rattle.std.specs.Fmt.{signed_decimal};
ghost use Rattle.rgo_tac.specs.Ops.{numbers_of};
ghost use Rattle.rgo_code_printing.specs.Words.{variable_word, bool_word, operator_word};
ghost use Rattle.rgo_code_printing.specs.Printing.{words_after_spaces};
ghost use Rattle.rgo_code_printing.specs.Text.{names_of, action_words};

use crate::spacing::{print_number_word, print_one, print_variable_word, print_word};
use crate::types::{struct_name, variable_name};
use crate::words::{print, print_bool, print_int, print_operator};
use rgo_ast::BinaryOp;
use rgo_code::Code;
use rgo_tac::Operands;
use rgo_typed::Action;
use std::alloc::AllocError;

/// A word, and two variables.
fn print_two(out: &mut Vec<u8>, word: &[u8], a: u32, b: u32) -> Result<(), AllocError>
    ensures { OnOk result (out.new.items
        ≡ out.old.items ++ words_after_spaces (word.now ∷ variable_word a ∷ variable_word b ∷ [])) }
{
    print_one(out, word, a)?;
    print_variable_word(out, b)
}

/// A word, and three variables.
fn print_three(out: &mut Vec<u8>, word: &[u8], a: u32, b: u32, c: u32) -> Result<(), AllocError>
    ensures { OnOk result (out.new.items
        ≡ out.old.items ++ words_after_spaces (word.now ∷ variable_word a ∷ variable_word b ∷ variable_word c ∷ [])) }
{
    print_two(out, word, a, b)?;
    print_variable_word(out, c)
}

/// A word, a variable, and another word.
fn print_named(out: &mut Vec<u8>, word: &[u8], a: u32, name: &[u8]) -> Result<(), AllocError>
    ensures { OnOk result (out.new.items
        ≡ out.old.items ++ words_after_spaces (word.now ∷ variable_word a ∷ name.now ∷ [])) }
{
    print_one(out, word, a)?;
    print_word(out, name)
}

fn print_int_line(out: &mut Vec<u8>, d: u32, k: i64) -> Result<(), AllocError>
    ensures { OnOk result (out.new.items
        ≡ out.old.items ++ words_after_spaces (codes "int" ∷ variable_word d ∷ signed_decimal k ∷ [])) }
{
    print_one(out, b"int", d)?;
    print(out, b" ")?;
    print_int(out, k)
}

fn print_bool_line(out: &mut Vec<u8>, d: u32, b: bool) -> Result<(), AllocError>
    ensures { OnOk result (out.new.items
        ≡ out.old.items ++ words_after_spaces (codes "bool" ∷ variable_word d ∷ bool_word b ∷ [])) }
{
    print_one(out, b"bool", d)?;
    print(out, b" ")?;
    print_bool(out, b)
}

fn print_binary(out: &mut Vec<u8>, op: BinaryOp, d: u32, a: u32, b: u32) -> Result<(), AllocError>
    ensures { OnOk result (out.new.items ≡ out.old.items
        ++ words_after_spaces (codes "bin" ∷ variable_word d ∷ operator_word op ∷ variable_word a ∷ variable_word b ∷ [])) }
{
    print_one(out, b"bin", d)?;
    print(out, b" ")?;
    print_operator(out, op)?;
    print_variable_word(out, a)?;
    print_variable_word(out, b)
}

fn print_store(out: &mut Vec<u8>, a: u32, k: usize, b: u32) -> Result<(), AllocError>
    ensures { OnOk result (out.new.items ≡ out.old.items
        ++ words_after_spaces (codes "store" ∷ variable_word a ∷ decimal k ∷ variable_word b ∷ [])) }
{
    print_one(out, b"store", a)?;
    print_number_word(out, k)?;
    print_variable_word(out, b)
}

fn print_load(out: &mut Vec<u8>, d: u32, a: u32, k: usize) -> Result<(), AllocError>
    ensures { OnOk result (out.new.items ≡ out.old.items
        ++ words_after_spaces (codes "load" ∷ variable_word d ∷ variable_word a ∷ decimal k ∷ [])) }
{
    print_two(out, b"load", d, a)?;
    print_number_word(out, k)
}

fn print_set(out: &mut Vec<u8>, name: &[u8], a: u32) -> Result<(), AllocError>
    ensures { OnOk result (out.new.items ≡ out.old.items
        ++ words_after_spaces (codes "set" ∷ name.now ∷ variable_word a ∷ [])) }
{
    print_word(out, b"set")?;
    print_word(out, name)?;
    print_variable_word(out, a)
}

/// An action with its operands. An action with other operands than it takes has no words, so nothing is printed of it; code
/// that keeps the second rule has none.
pub(crate) fn print_action(
    out: &mut Vec<u8>,
    code: &Code,
    action: Action,
    to: Option<u32>,
    from: Operands,
) -> Result<(), AllocError>
    ensures { OnOk result (out.new.items ≡ out.old.items
        ++ words_after_spaces (action_words (names_of code.now) action to (numbers_of from))) }
{
    match (action, to, from) {
        (Action::Int(k), Some(d), Operands::Zero) => print_int_line(out, d, k),
        (Action::Bool(b), Some(d), Operands::Zero) => print_bool_line(out, d, b),
        (Action::Nil, Some(d), Operands::Zero) => print_one(out, b"nil", d),
        (Action::Copy, Some(d), Operands::One(a)) => print_two(out, b"copy", d, a),
        (Action::Binary(op), Some(d), Operands::Two(a, b)) => print_binary(out, op, d, a, b),
        (Action::Neg, Some(d), Operands::One(a)) => print_two(out, b"neg", d, a),
        (Action::Not, Some(d), Operands::One(a)) => print_two(out, b"not", d, a),
        (Action::IsNil, Some(d), Operands::One(a)) => print_two(out, b"isnil", d, a),
        (Action::Len, Some(d), Operands::One(a)) => print_two(out, b"len", d, a),
        (Action::Load(k), Some(d), Operands::One(a)) => print_load(out, d, a, k),
        (Action::Store(k), None, Operands::Two(a, b)) => print_store(out, a, k, b),
        (Action::At, Some(d), Operands::Two(a, i)) => print_three(out, b"at", d, a, i),
        (Action::Put, None, Operands::Three(a, i, b)) => print_three(out, b"put", a, i, b),
        (Action::New(n), Some(d), Operands::Zero) => print_named(
            out,
            b"new",
            d,
            struct_name(code, n),
        ),
        (Action::Slice, Some(d), Operands::One(a)) => print_two(out, b"slice", d, a),
        (Action::Chan, Some(d), Operands::One(a)) => print_two(out, b"chan", d, a),
        (Action::Recv, Some(d), Operands::One(a)) => print_two(out, b"recv", d, a),
        (Action::Send, None, Operands::Two(a, b)) => print_two(out, b"send", a, b),
        (Action::Close, None, Operands::One(a)) => print_one(out, b"close", a),
        (Action::Get(n), Some(d), Operands::Zero) => print_named(
            out,
            b"get",
            d,
            variable_name(code, n),
        ),
        (Action::Set(n), None, Operands::One(a)) => print_set(out, variable_name(code, n), a),
        (
            Action::Int(_)
            | Action::Bool(_)
            | Action::Nil
            | Action::Copy
            | Action::Binary(_)
            | Action::Neg
            | Action::Not
            | Action::IsNil
            | Action::Len
            | Action::Load(_)
            | Action::Store(_)
            | Action::At
            | Action::Put
            | Action::New(_)
            | Action::Slice
            | Action::Chan
            | Action::Recv
            | Action::Send
            | Action::Close
            | Action::Get(_)
            | Action::Set(_),
            _,
            _,
        ) => Ok(()),
    }
}
