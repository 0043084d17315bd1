//! The numbers of names: in the order of their declarations, and then of the first uses of those that are not declared. A line
//! may use what a later line declares, so all lines are read before any name gets its number.

ghost use Rattle.std.specs.Prelude.{◌≡◌, ◌++◌, ◌∷◌, [], drop, length, map, OnOk, IfOk};
ghost use Rattle.std.specs.List.{flat_map};
ghost use Rattle.std.specs.Option.{option_map};
ghost use Rattle.rgo_code_text.specs.Building.{names_now, with_struct_names, with_declared, with_used, all_declared, all_used};
ghost use Rattle.rgo_code_text.specs.Building.{names_in, declared_in, CountsAre, type_names, result_names};
ghost use Rattle.rgo_code_text.specs.Building.{op_structs, op_variables, op_functions, with_all_names};
ghost use Rattle.rgo_code_text.specs.Numbers.{with_name};
ghost use Rattle.rgo_code_text.specs.Views.{item_of, named_slot_of, named_op_of};
ghost use Rattle.rgo_code_words.specs.Views.{named_type_of};
ghost use Rattle.rgo_code_text.specs.Written.{empty_names, number_of_name};

use crate::items::{Item, NamedSlot};
use crate::ops::NamedOp;
use indexmap::IndexMap;
use rgo_ast::Name;
use rgo_code_words::NamedType;
use rgo_tac::Instr;
use rgo_typed::{Base, Row};
use std::alloc::{AllocError, Global};
use std::marker::Model;

/// Names of one kind, by number. A name that occurs twice has the number of its first place.
#[derive(Drop)]
pub(crate) struct Numbers<'t> {
    numbers: IndexMap<&'t [u8], usize>,
    names: Vec<&'t [u8]>,
}

impl<'t> Model for Numbers<'t> {
    ghost use Rattle.std.specs.Prelude.{◌≡◌, ℕ, List, bytes_eq};
    ghost use Rattle.indexmap.specs.IndexMap.{get_by};
    ghost use Rattle.rgo_code_words.specs.Cuts.{nows};
    ghost use Rattle.rgo_code_text.specs.Numbers.{number_if_known};

    ghost Value = { List (List ℕ) };

    ghost view = { λ n. nows n.names.items };

    ghost invariant = { λ n. (name : List ℕ)
        → get_by (λ known. bytes_eq name known.now) n.numbers ≡ number_if_known (nows n.names.items) name };
}

impl<'t> Numbers<'t> {
    fn new(alloc: Global) -> Numbers<'t>
        ensures { result ≡ [] }
    {
        Numbers {
            numbers: IndexMap::new(alloc),
            names: Vec::new(alloc),
        }
    }

    /// Adds a name, which may be there already. Room in the list is taken first, so that the map and the list change together
    /// or not at all.
    fn declare(&mut self, name: &'t [u8]) -> Result<(), AllocError>
        ensures { OnOk result (self.new ≡ self.old ++ name.now ∷ []) }
    {
        let n = self.names.len();
        self.names.reserve(1)?;
        if self.numbers.get(name).is_none() {
            self.numbers.insert(name, n)?;
        }
        self.names.push_reserved(name);
        Ok(())
    }

    /// Adds a name, unless it is there already.
    fn note(&mut self, name: &'t [u8]) -> Result<(), AllocError>
        ensures { OnOk result (self.new ≡ with_name self.old name.now) }
    {
        if self.numbers.get(name).is_none() {
            let n = self.names.len();
            self.names.reserve(1)?;
            self.numbers.insert(name, n)?;
            self.names.push_reserved(name);
        }
        Ok(())
    }

    /// The number of a name. Callers ask for names that were declared or noted.
    pub(crate) fn number(&self, name: &[u8]) -> usize
        ensures { result ≡ number_of_name self.now name.now }
    {
        match self.numbers.get(name) {
            Some(n) => *n,
            None => self.names.len(),
        }
    }

    /// How many names there are.
    fn len(&self) -> usize
        ensures { result ≡ length self.now }
    {
        self.names.len()
    }

    /// The names from a number on.
    pub(crate) fn names_from(&self, alloc: Global, first: usize) -> Result<Row<Name>, AllocError>
        ensures { IfOk result (λ names. names ≡ drop first self.now) }
    {
        let mut names = Vec::new(alloc);
        for n in first..self.names.len() {
            names.push(Name::new(Vec::from_slice(alloc, self.names[n])?))?;
        }
        Ok(Row::new(names))
    }
}

/// The numbers of structs, package variables and functions.
#[derive(Drop)]
pub(crate) struct Tables<'t> {
    pub(crate) structs: Numbers<'t>,
    pub(crate) globals: Numbers<'t>,
    pub(crate) functions: Numbers<'t>,
}

/// How many of each kind are declared.
#[derive(Clone, Copy)]
pub(crate) struct Counts {
    pub(crate) structs: usize,
    pub(crate) globals: usize,
    pub(crate) functions: usize,
}

/// Adds the name that a line declares, if any.
fn declare<'t>(tables: &mut Tables<'t>, item: &Item<'t>) -> Result<(), AllocError>
    ensures { OnOk result (names_now tables.new ≡ with_declared (names_now tables.old) (item_of item.now)) }
{
    match item {
        Item::Struct(name, _) => tables.structs.declare(*name),
        Item::Global(name, _) => tables.globals.declare(*name),
        Item::Function(name, _, _) => tables.functions.declare(*name),
        Item::Head | Item::Slot(_) | Item::Entry(_) | Item::Instr(_) | Item::End => Ok(()),
    }
}

/// Adds the struct that a type names; only pointers name one.
fn note_type<'t>(tables: &mut Tables<'t>, named: &NamedType<'t>) -> Result<(), AllocError>
    ensures { OnOk result (names_now tables.new
        ≡ with_struct_names (names_now tables.old) (type_names (named_type_of named.now))) }
{
    match named.ty.base {
        Base::Pointer(_) => tables.structs.note(named.name),
        _ => Ok(()),
    }
}

fn note_types<'t>(tables: &mut Tables<'t>, types: &[NamedType<'t>]) -> Result<(), AllocError>
    ensures { OnOk result (names_now tables.new
        ≡ with_struct_names (names_now tables.old) (flat_map type_names (map named_type_of types.now))) }
{
    for named in types {
        note_type(tables, named)?;
    }
    Ok(())
}

fn note_result<'t>(tables: &mut Tables<'t>, slot: &Option<NamedSlot<'t>>) -> Result<(), AllocError>
    ensures { OnOk result (names_now tables.new
        ≡ with_struct_names (names_now tables.old) (result_names (option_map named_slot_of slot.now))) }
{
    match slot {
        Some(slot) => note_type(tables, &slot.ty),
        None => Ok(()),
    }
}

/// Adds what an operation names. Its variables and targets are numbers already in the text.
fn note_op<'t>(tables: &mut Tables<'t>, op: &NamedOp<'t>) -> Result<(), AllocError>
    ensures { OnOk result (names_now tables.new ≡ record {
      structs = with_all_names tables.old.structs (op_structs (named_op_of op.now).op op.now.name.now);
      variables = with_all_names tables.old.globals (op_variables (named_op_of op.now).op op.now.name.now);
      functions = with_all_names tables.old.functions (op_functions (named_op_of op.now).op op.now.name.now);
    }) }
{
    match op.instr {
        Instr::New(..) => tables.structs.note(op.name),
        Instr::Get(..) | Instr::Set(..) => tables.globals.note(op.name),
        Instr::Call(..) | Instr::Invoke(..) | Instr::Go(..) => tables.functions.note(op.name),
        Instr::Int(..)
        | Instr::Bool(..)
        | Instr::Nil(..)
        | Instr::Copy(..)
        | Instr::CopyInt(..)
        | Instr::CopyBool(..)
        | Instr::Add(..)
        | Instr::Sub(..)
        | Instr::Mul(..)
        | Instr::Div(..)
        | Instr::Rem(..)
        | Instr::Eq(..)
        | Instr::Ne(..)
        | Instr::Lt(..)
        | Instr::Le(..)
        | Instr::Gt(..)
        | Instr::Ge(..)
        | Instr::Neg(..)
        | Instr::Not(..)
        | Instr::IsNil(..)
        | Instr::Len(..)
        | Instr::Load(..)
        | Instr::Store(..)
        | Instr::At(..)
        | Instr::Put(..)
        | Instr::Slice(..)
        | Instr::Chan(..)
        | Instr::Recv(..)
        | Instr::Send(..)
        | Instr::Close(..)
        | Instr::Print(..)
        | Instr::Jump(..)
        | Instr::Branch(..)
        | Instr::Return(..)
        | Instr::Leave => Ok(()),
    }
}

/// Adds the names that a line uses.
fn note<'t>(tables: &mut Tables<'t>, item: &Item<'t>) -> Result<(), AllocError>
    ensures { OnOk result (names_now tables.new ≡ with_used (names_now tables.old) (item_of item.now)) }
{
    match item {
        Item::Struct(_, types) => note_types(tables, types),
        Item::Global(_, ty) => note_type(tables, ty),
        Item::Function(_, _, result) => note_result(tables, result),
        Item::Slot(slot) => note_type(tables, &slot.ty),
        Item::Instr(instr) => note_op(tables, &instr.op),
        Item::Head | Item::Entry(_) | Item::End => Ok(()),
    }
}

fn declare_all<'t>(tables: &mut Tables<'t>, items: &[Item<'t>]) -> Result<(), AllocError>
    ensures { OnOk result (names_now tables.new ≡ all_declared (names_now tables.old) (map item_of items.now)) }
{
    for item in items {
        declare(tables, item)?;
    }
    Ok(())
}

fn note_all<'t>(tables: &mut Tables<'t>, items: &[Item<'t>]) -> Result<(), AllocError>
    ensures { OnOk result (names_now tables.new ≡ all_used (names_now tables.old) (map item_of items.now)) }
{
    for item in items {
        note(tables, item)?;
    }
    Ok(())
}

pub(crate) fn no_tables<'t>(alloc: Global) -> Tables<'t>
    ensures { names_now result ≡ empty_names }
{
    Tables {
        structs: Numbers::new(alloc),
        globals: Numbers::new(alloc),
        functions: Numbers::new(alloc),
    }
}

fn counts_of(tables: &Tables<'_>) -> Counts
    ensures { CountsAre result (names_now tables.now) }
{
    Counts {
        structs: tables.structs.len(),
        globals: tables.globals.len(),
        functions: tables.functions.len(),
    }
}

/// Numbers all names, in tables that have none yet, and returns how many of them are declared.
pub(crate) fn number_names<'t>(
    tables: &mut Tables<'t>,
    items: &[Item<'t>],
) -> Result<Counts, AllocError>
    requires { names_now tables.old ≡ empty_names }
    ensures names { OnOk result (names_now tables.new ≡ names_in (map item_of items.now)) }
    ensures counts { IfOk result (λ counts. CountsAre counts (declared_in (map item_of items.now))) }
{
    declare_all(tables, items)?;
    // Between the two passes: the names that are declared come first, and those from these counts on are undeclared.
    let counts = counts_of(tables);
    note_all(tables, items)?;
    Ok(counts)
}
