//! Code, made of the items of its text. The items are in an order that `Place` admits, so each one is added to what is open.

ghost use Rattle.std.specs.Prelude.{◌≡◌, ◌+◌, ◌<◌, ◌^◌, ◌++◌, ◌∷◌, [], length, map, drop, All, OnOk, IfOk};
ghost use Rattle.std.specs.Option.{option_map};
ghost use Rattle.rgo_code.specs.Views.{slot, code_fn};
ghost use Rattle.rgo_tac.specs.Views.{body_of};
ghost use Rattle.rgo_code_text.specs.Building as spec;
ghost use Rattle.rgo_code_text.specs.Building.{names_now, names_in, declared_in, CountsAre, code_of_items, line_of_item};
ghost use Rattle.rgo_code_text.specs.CodeLines as lines;
ghost use Rattle.rgo_code_text.specs.CodeLines.{no_function, empty_building, with_line, with_lines};
ghost use Rattle.rgo_code_text.specs.Items.{ItemFits};
ghost use Rattle.rgo_code_text.specs.Opened.{open_of, IsAligned, IsNumberedInstr, building_of, AllAligned};
ghost use Rattle.rgo_code_text.specs.Opened.{HasCode, HasOneMore, FunctionHasRoom, with_slot, with_instr};
ghost use Rattle.rgo_code_text.specs.Sizes.{AreFew, HaveNumbers};
ghost use Rattle.rgo_code_text.specs.Views.{item_of, code_instr_of, named_slot_of};
ghost use Rattle.rgo_code_words.specs.Views.{named_type_of};

use crate::items::{Item, NamedInstr, NamedSlot};
use crate::numbered::{numbered_instr, numbered_type, numbered_types};
use crate::numbers::{Counts, Tables};
use crate::ops::NamedOp;
use rgo_ast::{Name, Place};
use rgo_code::{Class, Code, Note, Regions, Undeclared};
use rgo_code_words::NamedType;
use rgo_tac::{Body, FunctionError, Instr, Tac, TacFn};
use rgo_typed::{Piece, Row, Struct, Type, Variable};
use std::alloc::{AllocError, Global};
use std::mem;

/// A function whose end is not read yet. Each instruction has a list of variables and one of pieces, which may be empty: so the
/// lists of an instruction have its own number, and no second counter is needed.
#[derive(Drop)]
struct Open {
    name: Name,
    params: usize,
    result_type: Option<Type>,
    result: Class,
    types: Vec<Type>,
    classes: Vec<Class>,
    entry: Vec<u32>,
    instrs: Vec<Instr>,
    places: Vec<Place>,
    lists: Vec<Row<u32>>,
    pieces: Vec<Row<Piece>>,
    notes: Vec<Note>,
}

/// The code that the lines so far make.
#[derive(Drop)]
struct Building {
    structs: Vec<Struct>,
    variables: Vec<Variable>,
    functions: Vec<TacFn>,
    regions: Vec<Regions>,
    current: Open,
}

/// A function without variables and instructions.
fn opened(alloc: Global, name: Name, params: usize, result_type: Option<Type>, class: Class) -> Open
    ensures function { open_of result ≡ record no_function {
      name = name;
      params = params;
      result = option_map (λ ty. slot ty class) result_type;
    } }
    ensures aligned { IsAligned result }
{
    Open {
        name,
        params,
        result_type,
        result: class,
        types: Vec::new(alloc),
        classes: Vec::new(alloc),
        entry: Vec::new(alloc),
        instrs: Vec::new(alloc),
        places: Vec::new(alloc),
        lists: Vec::new(alloc),
        pieces: Vec::new(alloc),
        notes: Vec::new(alloc),
    }
}

/// Holds the place before the first head and after each `end`. No line is ever added to it, since `Place` admits the lines of a
/// function only after its head.
fn none_open(alloc: Global) -> Open
    ensures function { open_of result ≡ no_function }
    ensures aligned { IsAligned result }
{
    opened(alloc, Name::new(Vec::new(alloc)), 0, None, Class::NoClass)
}

fn copied(alloc: Global, name: &[u8]) -> Result<Name, AllocError>
    ensures { IfOk result (λ n. n ≡ name.now) }
{
    Ok(Name::new(Vec::from_slice(alloc, name)?))
}

/// The function of a head.
fn head(
    alloc: Global,
    tables: &Tables<'_>,
    name: &[u8],
    params: u32,
    slot: Option<NamedSlot<'_>>,
) -> Result<Open, AllocError>
    ensures function { IfOk result (λ o. open_of o ≡ record no_function {
      name = name.now;
      params = params;
      result = option_map (spec.numbered_slot (names_now tables.now)) (option_map named_slot_of slot.entry);
    }) }
    ensures aligned { IfOk result (λ o. IsAligned o) }
{
    let name = copied(alloc, name)?;
    match slot {
        Some(slot) => {
            let NamedSlot { ty, class } = slot;
            let ty = numbered_type(tables, ty);
            Ok(opened(alloc, name, params as usize, Some(ty), class))
        }
        None => Ok(opened(alloc, name, params as usize, None, Class::NoClass)),
    }
}

fn add_struct(
    alloc: Global,
    tables: &Tables<'_>,
    structs: &mut Vec<Struct>,
    name: &[u8],
    types: Vec<NamedType<'_>>,
) -> Result<(), AllocError>
    ensures { OnOk result (structs.new.items ≡ structs.old.items ++ record {
      name = name.now;
      fields = map (spec.numbered_type (names_now tables.now)) (map named_type_of types.entry.items);
    } ∷ []) }
{
    let name = copied(alloc, name)?;
    let fields = Row::new(numbered_types(alloc, tables, types)?);
    structs.push(Struct { name, fields })?;
    Ok(())
}

fn add_variable(
    alloc: Global,
    tables: &Tables<'_>,
    variables: &mut Vec<Variable>,
    name: &[u8],
    ty: NamedType<'_>,
) -> Result<(), AllocError>
    ensures { OnOk result (variables.new.items ≡ variables.old.items ++ record {
      name = name.now;
      ty = spec.numbered_type (names_now tables.now) (named_type_of ty.entry);
    } ∷ []) }
{
    let name = copied(alloc, name)?;
    let ty = numbered_type(tables, ty);
    variables.push(Variable { name, ty })?;
    Ok(())
}

fn add_slot(tables: &Tables<'_>, current: &mut Open, slot: NamedSlot<'_>) -> Result<(), AllocError>
    requires { IsAligned current.old }
    ensures function { OnOk result (open_of current.new
        ≡ with_slot (open_of current.old) (spec.numbered_slot (names_now tables.now) (named_slot_of slot.entry))) }
    ensures aligned { OnOk result (IsAligned current.new) }
{
    let NamedSlot { ty, class } = slot;
    current.types.push(numbered_type(tables, ty))?;
    current.classes.push(class)?;
    Ok(())
}

/// Adds the lists of an instruction.
fn push_lists(
    lists: &mut Vec<Row<u32>>,
    pieces: &mut Vec<Row<Piece>>,
    from: Vec<u32>,
    printed: Vec<Piece>,
) -> Result<(), AllocError>
    ensures lists { OnOk result (lists.new.items ≡ lists.old.items ++ from.items ∷ []) }
    ensures pieces { OnOk result (pieces.new.items ≡ pieces.old.items ++ printed.items ∷ []) }
{
    lists.push(Row::new(from))?;
    pieces.push(Row::new(printed))?;
    Ok(())
}

/// Adds an instruction without its lists, and its place.
fn push_code(current: &mut Open, instr: Instr, place: u32) -> Result<(), AllocError>
    ensures { OnOk result (HasCode current.old current.new instr place) }
{
    current.instrs.push(instr)?;
    current.places.push(place as usize)?;
    Ok(())
}

/// Adds an instruction, with what else its operation has.
fn push_op(current: &mut Open, instr: Instr, named: NamedInstr<'_>) -> Result<(), AllocError>
    ensures { OnOk result (HasOneMore current.old current.new instr named.entry) }
{
    let NamedInstr { place, op, .. } = named;
    let NamedOp {
        from,
        pieces,
        note,
        ..
    } = op;
    push_code(current, instr, place)?;
    push_lists(&mut current.lists, &mut current.pieces, from, pieces)?;
    current.notes.push(note)?;
    Ok(())
}

/// The next instruction of a function, with the numbers of what it names and of its lists.
fn next_instr(tables: &Tables<'_>, current: &Open, op: &NamedOp<'_>) -> Instr
    requires names { HaveNumbers (names_now tables.now) }
    requires room { FunctionHasRoom current.now }
    ensures { IsNumberedInstr (names_now tables.now) op.now (length current.now.instrs.items) result }
{
    let list = current.instrs.len() as u32;
    numbered_instr(tables, &current.types, op, list)
}

fn add_instr(
    tables: &Tables<'_>,
    current: &mut Open,
    named: NamedInstr<'_>,
) -> Result<(), AllocError>
    requires names { HaveNumbers (names_now tables.now) }
    requires aligned { IsAligned current.old }
    requires room { FunctionHasRoom current.old }
    ensures function { OnOk result (open_of current.new
        ≡ with_instr (open_of current.old)
        (spec.numbered_instr (names_now tables.now) (code_instr_of named.entry) named.entry.op.name.now)) }
    ensures aligned { OnOk result (IsAligned current.new) }
{
    let instr = next_instr(tables, current, &named.op);
    push_op(current, instr, named)
}

/// The function with these parts. It cannot be too large: each variable and each instruction takes a byte of the text, which
/// has at most `MOST_BYTES`.
fn made(
    alloc: Global,
    name: Name,
    params: usize,
    result_type: Option<Type>,
    types: Row<Type>,
    body: Body,
) -> Result<TacFn, AllocError>
    requires variables { length types + 2 < 2 ^ 32 }
    requires instrs { length body.instrs + 1 < 2 ^ 32 }
    ensures { IfOk result (λ f. f ≡ record {
      name = name;
      params = params;
      result_type = result_type;
      variables = types;
      body = body_of body.lists body.pieces body.instrs body.places;
    }) }
{
    match TacFn::new(alloc, name, params, result_type, types, body) {
        Ok(function) => Ok(function),
        Err(FunctionError::NoMemory) => Err(AllocError),
        Err(FunctionError::TooLarge) => unreachable!(),
    }
}

/// A function that is complete, and what it says of regions.
fn completed(alloc: Global, current: Open) -> Result<(TacFn, Regions), AllocError>
    requires { FunctionHasRoom current }
    ensures { IfOk result (λ f. code_fn f.0 f.1 ≡ open_of current) }
{
    let Open {
        name,
        params,
        result_type,
        result,
        types,
        classes,
        entry,
        instrs,
        places,
        lists,
        pieces,
        notes,
    } = current;
    let body = Body {
        instrs: Row::new(instrs),
        places: Row::new(places),
        lists: Row::new(lists),
        pieces: Row::new(pieces),
    };
    let function = made(alloc, name, params, result_type, Row::new(types), body)?;
    let regions = Regions {
        classes: Row::new(classes),
        result,
        entry: Row::new(entry),
        notes: Row::new(notes),
    };
    Ok((function, regions))
}

/// Ends the open function.
fn close(alloc: Global, building: &mut Building) -> Result<(), AllocError>
    requires aligned { AllAligned building.old }
    requires room { FunctionHasRoom building.old.current }
    ensures ended { OnOk result (building_of building.new ≡ with_line (building_of building.old) lines.End) }
    ensures aligned { OnOk result (AllAligned building.new) }
{
    let complete = mem::replace(&mut building.current, none_open(alloc));
    let (function, regions) = completed(alloc, complete)?;
    building.functions.push(function)?;
    building.regions.push(regions)?;
    Ok(())
}

/// Adds a line.
fn add(
    alloc: Global,
    tables: &Tables<'_>,
    building: &mut Building,
    item: Item<'_>,
) -> Result<(), AllocError>
    requires names { HaveNumbers (names_now tables.now) }
    requires aligned { AllAligned building.old }
    requires room { FunctionHasRoom building.old.current }
    ensures line { OnOk result (building_of building.new
        ≡ with_line (building_of building.old) (line_of_item (names_now tables.now) (item_of item.entry))) }
    ensures aligned { OnOk result (AllAligned building.new) }
{
    match item {
        Item::Head => Ok(()),
        Item::Struct(name, types) => add_struct(alloc, tables, &mut building.structs, name, types),
        Item::Global(name, ty) => add_variable(alloc, tables, &mut building.variables, name, ty),
        Item::Function(name, params, result) => {
            building.current = head(alloc, tables, name, params, result)?;
            Ok(())
        }
        Item::Slot(slot) => add_slot(tables, &mut building.current, slot),
        Item::Entry(names) => {
            building.current.entry = names;
            Ok(())
        }
        Item::Instr(instr) => add_instr(tables, &mut building.current, Box::into_inner(instr)),
        Item::End => close(alloc, building),
    }
}

/// All lines.
fn collected(
    alloc: Global,
    tables: &Tables<'_>,
    items: Vec<Item<'_>>,
) -> Result<Building, AllocError>
    requires names { HaveNumbers (names_now tables.now) }
    requires few { length items.items + 2 < 2 ^ 32 }
    ensures built { IfOk result (λ b. building_of b
        ≡ with_lines empty_building (map (line_of_item (names_now tables.now)) (map item_of items.entry.items))) }
    ensures aligned { IfOk result (λ b. AllAligned b) }
{
    let mut building = Building {
        structs: Vec::new(alloc),
        variables: Vec::new(alloc),
        functions: Vec::new(alloc),
        regions: Vec::new(alloc),
        current: none_open(alloc),
    };
    for item in items {
        add(alloc, tables, &mut building, item)?;
    }
    Ok(building)
}

fn undeclared(alloc: Global, tables: &Tables<'_>, counts: Counts) -> Result<Undeclared, AllocError>
    ensures { IfOk result (λ u. u ≡ record {
      structs = drop counts.structs tables.now.structs;
      variables = drop counts.globals tables.now.globals;
      functions = drop counts.functions tables.now.functions;
    }) }
{
    Ok(Undeclared {
        structs: tables.structs.names_from(alloc, counts.structs)?,
        variables: tables.globals.names_from(alloc, counts.globals)?,
        functions: tables.functions.names_from(alloc, counts.functions)?,
    })
}

/// The code with these lines.
pub(crate) fn code(
    alloc: Global,
    tables: &Tables<'_>,
    counts: Counts,
    items: Vec<Item<'_>>,
) -> Result<Code, AllocError>
    requires fit { All ItemFits (map item_of items.items) }
    requires names { names_now tables.now ≡ names_in (map item_of items.items) }
    requires counts { CountsAre counts (declared_in (map item_of items.items)) }
    requires few { AreFew (map item_of items.items) }
    ensures { IfOk result (λ c. c ≡ code_of_items (map item_of items.entry.items)) }
{
    let undeclared = undeclared(alloc, tables, counts)?;
    let building = collected(alloc, tables, items)?;
    let Building {
        structs,
        variables,
        functions,
        regions,
        ..
    } = building;
    let tac = Tac::new(Row::new(structs), Row::new(variables), Row::new(functions));
    Ok(Code::new(tac, undeclared, Row::new(regions)))
}
