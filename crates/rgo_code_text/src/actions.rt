//! Actions in a code text, as they are read: each by its word and its operands. The words are strings, so the compiler does not
//! report an action whose word is missing here; the proof that each action is read back does (`proofs/op_lines/ActionsBack.antt`).

ghost use Rattle.std.specs.Prelude.{◌≡◌, [], Some};
ghost use Rattle.std.specs.Option.{option_map};
ghost use Rattle.rgo_tac.specs.Views.{op_of};
ghost use Rattle.rgo_code_text.specs.Actions as spec;
ghost use Rattle.rgo_code_words.specs.Cuts.{nows};
ghost use Rattle.rgo_code_text.specs.Views.{named_action_of};

use rgo_ast::BinaryOp;
use rgo_code_words::{int, is, is_name, number, operator, truth, variable, word_at};
use rgo_tac::Instr;

/// An instruction without lists, and what it names.
#[derive(Clone, Copy)]
pub(crate) struct Action<'t> {
    pub(crate) instr: Instr,
    pub(crate) name: &'t [u8],
}

fn nameless<'t>(instr: Instr) -> Option<Action<'t>>
    ensures { option_map named_action_of result ≡ Some (record { op = op_of [] [] instr; name = [] }) }
{
    Some(Action { instr, name: &[] })
}

fn with_one<'t>(word: &[u8], a: u32) -> Option<Action<'t>>
    ensures { option_map named_action_of result ≡ spec.with_one word.now a }
{
    if is(word, "nil") {
        nameless(Instr::Nil(a))
    } else if is(word, "close") {
        nameless(Instr::Close(a))
    } else {
        None
    }
}

fn with_two<'t>(word: &[u8], a: u32, b: u32) -> Option<Action<'t>>
    ensures { option_map named_action_of result ≡ spec.with_two word.now a b }
{
    if is(word, "copy") {
        nameless(Instr::Copy(a, b))
    } else if is(word, "neg") {
        nameless(Instr::Neg(a, b))
    } else if is(word, "not") {
        nameless(Instr::Not(a, b))
    } else if is(word, "isnil") {
        nameless(Instr::IsNil(a, b))
    } else if is(word, "len") {
        nameless(Instr::Len(a, b))
    } else if is(word, "slice") {
        nameless(Instr::Slice(a, b))
    } else if is(word, "chan") {
        nameless(Instr::Chan(a, b))
    } else if is(word, "recv") {
        nameless(Instr::Recv(a, b))
    } else if is(word, "send") {
        nameless(Instr::Send(a, b))
    } else {
        None
    }
}

fn with_three<'t>(word: &[u8], a: u32, b: u32, c: u32) -> Option<Action<'t>>
    ensures { option_map named_action_of result ≡ spec.with_three word.now a b c }
{
    if is(word, "at") {
        nameless(Instr::At(a, b, c))
    } else if is(word, "put") {
        nameless(Instr::Put(a, b, c))
    } else {
        None
    }
}

fn with_operator<'t>(op: BinaryOp, d: u32, a: u32, b: u32) -> Option<Action<'t>>
    ensures { option_map named_action_of result ≡ spec.with_operator op d a b }
{
    match op {
        BinaryOp::Mul => nameless(Instr::Mul(d, a, b)),
        BinaryOp::Div => nameless(Instr::Div(d, a, b)),
        BinaryOp::Rem => nameless(Instr::Rem(d, a, b)),
        BinaryOp::Add => nameless(Instr::Add(d, a, b)),
        BinaryOp::Sub => nameless(Instr::Sub(d, a, b)),
        BinaryOp::Eq => nameless(Instr::Eq(d, a, b)),
        BinaryOp::Ne => nameless(Instr::Ne(d, a, b)),
        BinaryOp::Lt => nameless(Instr::Lt(d, a, b)),
        BinaryOp::Le => nameless(Instr::Le(d, a, b)),
        BinaryOp::Gt => nameless(Instr::Gt(d, a, b)),
        BinaryOp::Ge => nameless(Instr::Ge(d, a, b)),
        BinaryOp::And | BinaryOp::Or => None,
    }
}

fn named<'t>(instr: Instr, name: &'t [u8]) -> Option<Action<'t>>
    ensures { option_map named_action_of result ≡ spec.named_action (op_of [] [] instr) name.now }
{
    if is_name(name) {
        Some(Action { instr, name })
    } else {
        None
    }
}

fn two_words<'t>(words: &[&'t [u8]]) -> Option<Action<'t>>
    ensures { option_map named_action_of result ≡ spec.two_words (nows words.now) }
{
    with_one(word_at(words, 0), variable(word_at(words, 1))?)
}

fn three_words<'t>(words: &[&'t [u8]]) -> Option<Action<'t>>
    ensures { option_map named_action_of result ≡ spec.three_words (nows words.now) }
{
    let word = word_at(words, 0);
    let second = word_at(words, 1);
    let third = word_at(words, 2);
    // The only action with three words that has no variable in second place.
    if is(word, "set") {
        return named(Instr::Set(0, variable(third)?), second);
    }
    let d = variable(second)?;
    if is(word, "int") {
        nameless(Instr::Int(d, int(third)?))
    } else if is(word, "bool") {
        nameless(Instr::Bool(d, truth(third)?))
    } else if is(word, "new") {
        named(Instr::New(d, 0), third)
    } else if is(word, "get") {
        named(Instr::Get(d, 0), third)
    } else {
        with_two(word, d, variable(third)?)
    }
}

fn four_words<'t>(words: &[&'t [u8]]) -> Option<Action<'t>>
    ensures { option_map named_action_of result ≡ spec.four_words (nows words.now) }
{
    let word = word_at(words, 0);
    let a = variable(word_at(words, 1))?;
    if is(word, "load") {
        let b = variable(word_at(words, 2))?;
        nameless(Instr::Load(a, b, number(word_at(words, 3))?))
    } else if is(word, "store") {
        let k = number(word_at(words, 2))?;
        nameless(Instr::Store(a, k, variable(word_at(words, 3))?))
    } else {
        let b = variable(word_at(words, 2))?;
        with_three(word, a, b, variable(word_at(words, 3))?)
    }
}

fn five_words<'t>(words: &[&'t [u8]]) -> Option<Action<'t>>
    ensures { option_map named_action_of result ≡ spec.five_words (nows words.now) }
{
    if !is(word_at(words, 0), "bin") {
        return None;
    }
    let d = variable(word_at(words, 1))?;
    let op = operator(word_at(words, 2))?;
    let a = variable(word_at(words, 3))?;
    with_operator(op, d, a, variable(word_at(words, 4))?)
}

pub(crate) fn read_action<'t>(words: &[&'t [u8]]) -> Option<Action<'t>>
    ensures { option_map named_action_of result ≡ spec.read_action (nows words.now) }
{
    match words.len() {
        2 => two_words(words),
        3 => three_words(words),
        4 => four_words(words),
        5 => five_words(words),
        _ => None,
    }
}
