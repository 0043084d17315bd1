//! A code text, read line by line.

ghost use Rattle.std.specs.Prelude.{◌≡◌, ◌↔◌, ◌+◌, ◌<◌, ◌^◌, Err, length, map, All, IfOk, MatchResult};
ghost use Rattle.std.specs.Option.{option_map};
ghost use Rattle.rgo_code_printing.specs.Text.{text_of};
ghost use Rattle.rgo_code_text.specs.declared.refusals.ReadError.TheVariants.{TooLarge};
ghost use Rattle.rgo_code_text.specs.Building.{code_of_items, names_now};
ghost use Rattle.rgo_code_text.specs.Items.{ItemFits};
ghost use Rattle.rgo_code_text.specs.Sizes.{AreFew, IsTooLongText};
ghost use Rattle.rgo_code_text.specs.Walk.{AreItems, StepIs, StopsIn, RefusesCodeText};
ghost use Rattle.rgo_code_text.specs.Views.{item_of};
ghost use Rattle.rgo_code_text.specs.Written.{HasCodeText, empty_names};

use crate::building::code;
use crate::items::{Item, read_item};
use crate::numbers::{Tables, no_tables, number_names};
use crate::places::Place;
use crate::refusals::{CodeText, ReadError};
use rgo_code::Code;
use rgo_code_words::len_to;
use std::alloc::{AllocError, Global};

/// The item of a line and the place after it, if the line has a form in its place.
fn step<'t>(
    alloc: Global,
    place: Place,
    line: &'t [u8],
) -> Result<Option<(Item<'t>, Place)>, AllocError>
    ensures { IfOk result (λ r. StepIs place line.now (option_map (λ s. (item_of s.0, s.1)) r)) }
{
    let Some(item) = read_item(alloc, line)? else {
        return Ok(None);
    };
    match place.after(&item) {
        Some(next) => Ok(Some((item, next))),
        None => Ok(None),
    }
}

/// The items of a text's lines. The text has to end with a newline, which refuses a text that was cut off, and it may not end where
/// more lines have to follow.
pub(crate) fn items(alloc: Global, text: &[u8]) -> Result<Vec<Item<'_>>, ReadError>
    requires { length text.now + 2 < 2 ^ 32 }
    ensures { MatchResult result (λ items. AreItems text.now (map item_of items.items)) (λ e. StopsIn text.now e) }
{
    let mut items = Vec::new(alloc);
    let mut place = Place::First;
    let mut at = 0;
    let mut line: u32 = 1;
    'lines: loop {
        let rest = &text[at..];
        let len = len_to(rest, b'\n');
        if len == rest.len() {
            if len == 0 && place.is_last() {
                return Ok(items);
            }
            return Err(ReadError::Refused(CodeText { line }));
        }
        match step(alloc, place, &rest[..len])? {
            Some((item, next)) => {
                items.push(item)?;
                place = next;
            }
            None => return Err(ReadError::Refused(CodeText { line })),
        }
        at = at + len + 1;
        // Cannot overflow, since each line takes a byte of the text.
        line = line + 1;
    }
}

/// The code of these lines, whose names are numbered in tables that have none yet.
fn assembled<'t>(
    alloc: Global,
    tables: &mut Tables<'t>,
    items: Vec<Item<'t>>,
) -> Result<Code, AllocError>
    requires fit { All ItemFits (map item_of items.items) }
    requires few { AreFew (map item_of items.items) }
    requires empty { names_now tables.old ≡ empty_names }
    ensures { IfOk result (λ c. c ≡ code_of_items (map item_of items.entry.items)) }
{
    let counts = number_names(tables, &items)?;
    code(alloc, tables, counts, items)
}

/// The code of these lines.
fn code_in(alloc: Global, items: Vec<Item<'_>>) -> Result<Code, AllocError>
    requires fit { All ItemFits (map item_of items.items) }
    requires few { AreFew (map item_of items.items) }
    ensures { IfOk result (λ c. c ≡ code_of_items (map item_of items.entry.items)) }
{
    let mut tables = no_tables(alloc);
    assembled(alloc, &mut tables, items)
}

/// The code of a text that is not too large.
fn read_few(alloc: Global, text: &[u8]) -> Result<Code, ReadError>
    requires { length text.now + 2 < 2 ^ 32 }
    ensures { MatchResult result (λ code. (text.now ≡ text_of code) × HasCodeText code) (λ e. RefusesCodeText text.now e) }
{
    let items = items(alloc, text)?;
    match code_in(alloc, items) {
        Ok(code) => Ok(code),
        Err(_) => Err(ReadError::NoMemory),
    }
}

/// The most bytes that a code text may have. Why: docs/DECISIONS.md, "Three-address code".
const MOST_BYTES: usize = u32::MAX as usize - 2;

/// The code of which this is the text.
///
/// # Errors
///
/// `TooLarge` if it has 2³² - 2 bytes or more, which is known before anything is read. Else, if it is not the text of code,
/// the number of the first line that has no form in its place; `NoMemory` on allocation failure.
pub fn read_code(alloc: Global, text: &[u8]) -> Result<Code, ReadError>
    ensures read { MatchResult result (λ code. (text.now ≡ text_of code) × HasCodeText code) (λ e. RefusesCodeText text.now e) }
    ensures large { (result ≡ Err TooLarge) ↔ IsTooLongText text.now }
{
    if text.len() > MOST_BYTES {
        return Err(ReadError::TooLarge);
    }
    read_few(alloc, text)
}
