//! Functions of code with regions.

ghost use Rattle.std.specs.Prelude.{◌≡◌, Some, None, get_or, slice_get, MatchOption};
ghost use Rattle.rgo_tac.specs.declared.regions.Class.TheVariants.{NoClass};
ghost use Rattle.rgo_tac.specs.Code.{Op};
ghost use Rattle.rgo_tac.specs.Ops.{kind_of};
ghost use Rattle.rgo_code.specs.Erasure.{erased_fn};
ghost use Rattle.rgo_code.specs.Lists.{creates_in, passes_in, protects_in, removes_in, otherwise_in, passes_of, protects_of, removes_of, otherwise_of};
ghost use Rattle.rgo_code.specs.Noted.{IsNoted, SaysNothing};
ghost use Rattle.rgo_code.specs.Views.{code_fn, code_op, no_note};
ghost use Rattle.rgo_code.specs.Names as names;

use crate::notes::{Note, Regions};
use rgo_tac::{Class, Kind, TacFn};
use std::marker::Model;

/// The kind of an instruction, and its note.
#[derive(Clone, Copy)]
struct Noted<'a> {
    kind: Kind,
    note: &'a Note,
}

/// The item of this number.
pub(crate) fn item_at<T>(items: &[T], n: usize) -> Option<&T>
    ensures { MatchOption result (slice_get items.now n ≡ None) (λ item. slice_get items.now n ≡ Some item.now) }
{
    match items.get(n) {
        Some(item) => Some(item),
        None => None,
    }
}

fn note_at(notes: &[Note], n: usize) -> Option<&Note>
    ensures { MatchOption result (get_or notes.now n no_note ≡ no_note)
        (λ note. get_or notes.now n no_note ≡ note.now) }
{
    match notes.get(n) {
        Some(note) => Some(note),
        None => None,
    }
}

fn class_at(classes: &[Class], n: usize) -> Class
    ensures { result ≡ get_or classes.now n NoClass }
{
    classes.get(n).copied().unwrap_or(Class::NoClass)
}

/// A note has every list, whatever its instruction. A list that the instruction's kind does not have is ignored, here and below.
fn passes_by<'a>(kind: Kind, note: &'a Note) -> &'a [Class]
    ensures { (op : Op) → kind_of op ≡ kind → result.now ≡ passes_of (code_op op note.now) }
{
    match kind {
        Kind::Call | Kind::Go => note.passes.items(),
        Kind::Branch | Kind::Return | Kind::Other => &[],
    }
}

fn protects_by<'a>(kind: Kind, note: &'a Note) -> &'a [u32]
    ensures { (op : Op) → kind_of op ≡ kind → result.now ≡ protects_of (code_op op note.now) }
{
    match kind {
        Kind::Call => note.protects.items(),
        Kind::Go | Kind::Branch | Kind::Return | Kind::Other => &[],
    }
}

fn removes_by<'a>(kind: Kind, note: &'a Note) -> &'a [u32]
    ensures { (op : Op) → kind_of op ≡ kind → result.now ≡ removes_of (code_op op note.now) }
{
    match kind {
        Kind::Call | Kind::Go | Kind::Branch | Kind::Other => note.removes.items(),
        Kind::Return => &[],
    }
}

fn otherwise_by<'a>(kind: Kind, note: &'a Note) -> &'a [u32]
    ensures { (op : Op) → kind_of op ≡ kind → result.now ≡ otherwise_of (code_op op note.now) }
{
    match kind {
        Kind::Branch => note.otherwise.items(),
        Kind::Call | Kind::Go | Kind::Return | Kind::Other => &[],
    }
}

/// A function, with its regions.
#[derive(Drop)]
pub struct CodeFn<'a> {
    pub(crate) tac: &'a TacFn,
    pub(crate) regions: &'a Regions,
}

impl<'a> Model for CodeFn<'a> {
    ghost use Rattle.rgo_code.specs.Code as spec;
    ghost use Rattle.rgo_code.specs.Views.{code_fn};

    ghost Value = { spec.CodeFn };

    ghost view = { λ f. code_fn f.tac.now f.regions.now };
}

impl<'a> CodeFn<'a> {
    /// The function with this code and these regions.
    pub fn new(tac: &'a TacFn, regions: &'a Regions) -> CodeFn<'a>
        ensures { result ≡ code_fn tac.now regions.now }
    {
        CodeFn { tac, regions }
    }

    /// The function without its regions.
    pub fn tac(&self) -> &'a TacFn
        ensures { result.now ≡ erased_fn self.now }
    {
        self.tac
    }

    /// The class of a variable; `NoClass` if the function does not have the variable.
    pub fn class_of(&self, variable: u32) -> Class
        ensures { result ≡ names.class_of self.now variable }
    {
        match item_at(self.tac.variables(), variable as usize) {
            Some(_) => class_at(self.regions.classes.items(), variable as usize),
            None => Class::NoClass,
        }
    }

    /// The class of the result; `NoClass` for a function without a result.
    pub fn result_class(&self) -> Class
        ensures { result ≡ names.result_class self.now }
    {
        match self.tac.result_type() {
            Some(_) => self.regions.result,
            None => Class::NoClass,
        }
    }

    /// The names that are removed before the first instruction.
    pub fn entry(&self) -> &'a [u32]
        ensures { result.now ≡ self.now.entry }
    {
        self.regions.entry.items()
    }

    /// The kind of the instruction of this number, with its note. Code may have fewer notes than instructions; an instruction
    /// without one says nothing of regions.
    fn noted(&self, at: usize) -> Option<Noted<'a>>
        ensures { MatchOption result (SaysNothing (slice_get self.now.body at))
            (λ n. IsNoted (slice_get self.now.body at) n.kind n.note.now) }
    {
        match self.tac.kind(at) {
            Some(kind) => match note_at(self.regions.notes.items(), at) {
                Some(note) => Some(Noted { kind, note }),
                None => None,
            },
            None => None,
        }
    }

    /// The names that are created before an instruction.
    pub fn creates(&self, at: usize) -> &'a [u32]
        ensures { result.now ≡ creates_in (slice_get self.now.body at) }
    {
        match self.noted(at) {
            Some(noted) => noted.note.creates.items(),
            None => &[],
        }
    }

    /// What a call or a goroutine's start passes, for each region parameter of the callee; nothing at other
    /// instructions.
    pub fn passes(&self, at: usize) -> &'a [Class]
        ensures { result.now ≡ passes_in (slice_get self.now.body at) }
    {
        match self.noted(at) {
            Some(noted) => passes_by(noted.kind, noted.note),
            None => &[],
        }
    }

    /// The names that a call protects; none at other instructions.
    pub fn protects(&self, at: usize) -> &'a [u32]
        ensures { result.now ≡ protects_in (slice_get self.now.body at) }
    {
        match self.noted(at) {
            Some(noted) => protects_by(noted.kind, noted.note),
            None => &[],
        }
    }

    /// The names that are removed after an instruction; after a branch, where the variable is true.
    pub fn removes(&self, at: usize) -> &'a [u32]
        ensures { result.now ≡ removes_in (slice_get self.now.body at) }
    {
        match self.noted(at) {
            Some(noted) => removes_by(noted.kind, noted.note),
            None => &[],
        }
    }

    /// The names that are removed after a branch where the variable is false; none at other instructions.
    pub fn otherwise(&self, at: usize) -> &'a [u32]
        ensures { result.now ≡ otherwise_in (slice_get self.now.body at) }
    {
        match self.noted(at) {
            Some(noted) => otherwise_by(noted.kind, noted.note),
            None => &[],
        }
    }
}
