//! Lines of a code text, as they are read. What they name is not resolved yet.

ghost use Rattle.std.specs.Prelude.{◌≡◌, ℕ, List, IfOk};
ghost use Rattle.std.specs.Option.{option_map};
ghost use Rattle.rgo_code_words.specs.Cuts as cuts;
ghost use Rattle.rgo_code_words.specs.Cuts.{nows};
ghost use Rattle.rgo_code_text.specs.Items.{ItemFits, item_line};
ghost use Rattle.rgo_code_text.specs.Lines as lines;
ghost use Rattle.rgo_code_text.specs.Lines.{read_fields, read_slot, read_result, instr_with, IsFittingInstr, IsCut};
ghost use Rattle.rgo_code_text.specs.Lines.{struct_item, global_item, function_item, slot_item, entry_item};
ghost use Rattle.rgo_code_words.specs.Readers.{IsReadFromBytes};
ghost use Rattle.rgo_code_text.specs.Views.{item_of, code_instr_of, named_op_of, named_slot_of};
ghost use Rattle.rgo_code_words.specs.Views.{named_types_of};

use crate::ops::{NamedOp, named_op};
use rgo_code::Class;
use rgo_code_words::{
    NamedType, class, cut, is, is_name, len_to, lettered, named_type, number, regions, removes,
    word_at,
};
use rgo_typed::Row;
use std::alloc::{AllocError, Global};

/// A type with a class.
#[derive(Drop)]
pub(crate) struct NamedSlot<'t> {
    pub(crate) ty: NamedType<'t>,
    pub(crate) class: Class,
}

/// An instruction with its number and its place.
#[derive(Drop)]
pub(crate) struct NamedInstr<'t> {
    pub(crate) index: u32,
    pub(crate) place: u32,
    pub(crate) op: NamedOp<'t>,
}

/// A line. Instructions are boxed, which keeps the others small.
#[derive(Drop)]
pub(crate) enum Item<'t> {
    Head,
    Struct(&'t [u8], Vec<NamedType<'t>>),
    Global(&'t [u8], NamedType<'t>),
    Function(&'t [u8], u32, Option<NamedSlot<'t>>),
    Slot(NamedSlot<'t>),
    Entry(Vec<u32>),
    Instr(Box<NamedInstr<'t>>),
    End,
}

/// The types of a struct's fields, at least one.
fn fields(alloc: Global, list: &[u8]) -> Result<Option<Vec<NamedType<'_>>>, AllocError>
    ensures { IfOk result (λ r. option_map named_types_of r ≡ read_fields list.now) }
{
    let mut types = Vec::new(alloc);
    let mut at = 0;
    'types: loop {
        let rest = &list[at..];
        let len = len_to(rest, b' ');
        match named_type(alloc, &rest[..len])? {
            Some(ty) => types.push(ty)?,
            None => return Ok(None),
        }
        if len == rest.len() {
            return Ok(Some(types));
        }
        at = at + len + 1;
    }
}

/// `struct NAME TYPE..`.
fn a_struct<'t>(alloc: Global, words: &[&'t [u8]]) -> Result<Option<Item<'t>>, AllocError>
    ensures { IfOk result (λ r. option_map item_of r ≡ struct_item (nows words.now)) }
{
    let name = word_at(words, 1);
    if !is_name(name) {
        return Ok(None);
    }
    if words.len() == 2 {
        return Ok(Some(Item::Struct(name, Vec::new(alloc))));
    }
    match fields(alloc, word_at(words, 2))? {
        Some(types) => Ok(Some(Item::Struct(name, types))),
        None => Ok(None),
    }
}

/// `global NAME TYPE`.
fn a_global<'t>(alloc: Global, words: &[&'t [u8]]) -> Result<Option<Item<'t>>, AllocError>
    ensures { IfOk result (λ r. option_map item_of r ≡ global_item (nows words.now)) }
{
    let name = word_at(words, 1);
    if words.len() != 3 || !is_name(name) {
        return Ok(None);
    }
    match named_type(alloc, word_at(words, 2))? {
        Some(ty) => Ok(Some(Item::Global(name, ty))),
        None => Ok(None),
    }
}

/// `TYPE CLASS`.
fn slot<'t>(alloc: Global, ty: &'t [u8], word: &[u8]) -> Result<Option<NamedSlot<'t>>, AllocError>
    ensures { IfOk result (λ r. option_map named_slot_of r ≡ read_slot ty.entry.now word.now) }
{
    let Some(class) = class(word) else {
        return Ok(None);
    };
    match named_type(alloc, ty)? {
        Some(ty) => Ok(Some(NamedSlot { ty, class })),
        None => Ok(None),
    }
}

/// `TYPE CLASS`, or `- -` for a function without a result.
fn result<'t>(
    alloc: Global,
    ty: &'t [u8],
    word: &[u8],
) -> Result<Option<Option<NamedSlot<'t>>>, AllocError>
    ensures { IfOk result (λ r. option_map (option_map named_slot_of) r ≡ read_result ty.entry.now word.now) }
{
    if is(ty, "-") && is(word, "-") {
        return Ok(Some(None));
    }
    match slot(alloc, ty, word)? {
        Some(slot) => Ok(Some(Some(slot))),
        None => Ok(None),
    }
}

/// `func NAME COUNT TYPE CLASS`.
fn a_function<'t>(alloc: Global, words: &[&'t [u8]]) -> Result<Option<Item<'t>>, AllocError>
    ensures { IfOk result (λ r. option_map item_of r ≡ function_item (nows words.now)) }
{
    let name = word_at(words, 1);
    if words.len() != 5 || !is_name(name) {
        return Ok(None);
    }
    let Some(params) = number(word_at(words, 2)) else {
        return Ok(None);
    };
    match result(alloc, word_at(words, 3), word_at(words, 4))? {
        Some(result) => Ok(Some(Item::Function(name, params, result))),
        None => Ok(None),
    }
}

/// `var TYPE CLASS`.
fn a_slot<'t>(alloc: Global, words: &[&'t [u8]]) -> Result<Option<Item<'t>>, AllocError>
    ensures { IfOk result (λ r. option_map item_of r ≡ slot_item (nows words.now)) }
{
    if words.len() != 3 {
        return Ok(None);
    }
    match slot(alloc, word_at(words, 1), word_at(words, 2))? {
        Some(slot) => Ok(Some(Item::Slot(slot))),
        None => Ok(None),
    }
}

/// `entry -[..]`.
fn an_entry<'t>(alloc: Global, words: &[&'t [u8]]) -> Result<Option<Item<'t>>, AllocError>
    ensures { IfOk result (λ r. option_map item_of r ≡ entry_item (nows words.now)) }
{
    if words.len() != 2 {
        return Ok(None);
    }
    match removes(alloc, word_at(words, 1))? {
        Some(names) => Ok(Some(Item::Entry(names.into_items()))),
        None => Ok(None),
    }
}

/// An instruction that creates these regions first. Their word precedes the operation, whose note has no creations yet.
fn with_creates<'t>(index: u32, place: u32, creates: Row<u32>, op: NamedOp<'t>) -> NamedInstr<'t>
    ensures index { result.index ≡ index }
    ensures instr { code_instr_of result
        ≡ record { creates = creates; op = (named_op_of op.entry).op; place = place } }
    ensures name { result.op.name.now ≡ op.entry.name.now }
{
    let NamedOp {
        instr,
        name,
        from,
        pieces,
        note,
    } = op;
    let mut note = note;
    note.creates = creates;
    let op = NamedOp {
        instr,
        name,
        from,
        pieces,
        note,
    };
    NamedInstr { index, place, op }
}

/// The line of an instruction.
fn instr_item<'t>(
    alloc: Global,
    index: u32,
    place: u32,
    creates: Row<u32>,
    op: NamedOp<'t>,
) -> Result<Item<'t>, AllocError>
    ensures { IfOk result (λ x. item_of x ≡ instr_with index place creates (named_op_of op.entry)) }
{
    let instr = with_creates(index, place, creates, op);
    Ok(Item::Instr(Box::new(alloc, instr)?))
}

/// `INDEX @PLACE +[..]`, and an operation.
fn an_instr<'t>(alloc: Global, words: &[&'t [u8]]) -> Result<Option<Item<'t>>, AllocError>
    ensures { IfOk result (λ r. (line : List ℕ) → nows words.now ≡ cuts.cut_line 3 line
        → IsReadFromBytes IsFittingInstr item_line line (option_map item_of r)) }
{
    if words.len() != 4 {
        return Ok(None);
    }
    let Some(index) = number(word_at(words, 0)) else {
        return Ok(None);
    };
    let Some(place) = lettered(word_at(words, 1), b'@') else {
        return Ok(None);
    };
    let Some(creates) = regions(alloc, word_at(words, 2), b'+')? else {
        return Ok(None);
    };
    match named_op(alloc, word_at(words, 3))? {
        Some(op) => Ok(Some(instr_item(alloc, index, place, creates, op)?)),
        None => Ok(None),
    }
}

/// At how many spaces a line with this first word is cut.
fn spaces(word: &[u8]) -> usize
    ensures { result ≡ lines.spaces word.now }
{
    if is(word, "func") {
        4
    } else if is(word, "entry") {
        1
    } else if is(word, "struct") || is(word, "global") || is(word, "var") {
        2
    } else {
        3
    }
}

/// What a line is by its first word and its words, if it is neither the first line nor the end of a function.
fn worded_item<'t>(
    alloc: Global,
    word: &[u8],
    words: &[&'t [u8]],
) -> Result<Option<Item<'t>>, AllocError>
    ensures { IfOk result (λ r. (line : List ℕ) → IsCut line word.now (nows words.now)
        → IsReadFromBytes ItemFits item_line line (option_map item_of r)) }
{
    if is(word, "struct") {
        a_struct(alloc, words)
    } else if is(word, "global") {
        a_global(alloc, words)
    } else if is(word, "func") {
        a_function(alloc, words)
    } else if is(word, "var") {
        a_slot(alloc, words)
    } else if is(word, "entry") {
        an_entry(alloc, words)
    } else {
        an_instr(alloc, words)
    }
}

/// What a line is, if it has a form.
pub(crate) fn read_item(alloc: Global, line: &[u8]) -> Result<Option<Item<'_>>, AllocError>
    ensures { IfOk result (λ r. IsReadFromBytes ItemFits item_line line.now (option_map item_of r)) }
{
    if is(line, "rgo code 1") {
        return Ok(Some(Item::Head));
    }
    if is(line, "end") {
        return Ok(Some(Item::End));
    }
    let word = &line[..len_to(line, b' ')];
    let words = cut(alloc, line, spaces(word))?;
    worded_item(alloc, word, &words)
}
