//! Journals, read line by line. Each line has one form only, without leading zeros or blanks, so that a text has one journal at most
//! and printing is the inverse of reading.

ghost use Rattle.std.specs.Prelude.{◌≡◌, ◌<◌, length, MatchResult};
ghost use Rattle.rgo_code_words.specs.Readers as words;
ghost use Rattle.rgo_journal.specs.Forms.{RefusesJournal};
ghost use Rattle.rgo_journal.specs.Reading as spec;
ghost use Rattle.rgo_journal.specs.Reading.{seen_one, seen_two, seen_three};
ghost use Rattle.rgo_journal.specs.Text.{IsJournal};

use crate::errors::{PicksError, PicksText};
use crate::picks::TacPick;
use rgo_code_words::{len_to, number};
use rgo_typed::Row;
use std::alloc::Global;

/// The picks of a journal, which contracts see as a list.
pub type PickList = Row<TacPick>;

/// A journal at the beginning of a text.
#[derive(Drop)]
pub struct Picks {
    pub list: PickList,
    /// How many bytes it takes: the text that it belongs to begins there, and places are counted from there.
    pub rest: usize,
}

/// What follows `front`, if the bytes begin with it.
fn after<'t>(bytes: &'t [u8], front: &[u8]) -> Option<&'t [u8]>
    ensures { words.bytes_now result ≡ spec.after_front front.now bytes.now }
{
    if bytes.starts_with(front) {
        Some(&bytes[front.len()..])
    } else {
        None
    }
}

/// The number before the first such byte, and what follows that byte; none if the byte is missing, since a line without its
/// newline has no form.
fn number_to<'t>(bytes: &'t [u8], byte: u8) -> Option<(u32, &'t [u8])>
    ensures { seen_one result ≡ spec.number_to byte bytes.now }
{
    let len = len_to(bytes, byte);
    if len == bytes.len() {
        return None;
    }
    match number(&bytes[..len]) {
        Some(n) => Some((n, &bytes[len + 1..])),
        None => None,
    }
}

fn two_numbers<'t>(bytes: &'t [u8]) -> Option<(u32, u32, &'t [u8])>
    ensures { seen_two result ≡ spec.two_numbers bytes.now }
{
    let Some((a, rest)) = number_to(bytes, b' ') else {
        return None;
    };
    match number_to(rest, b'\n') {
        Some((b, rest)) => Some((a, b, rest)),
        None => None,
    }
}

fn three_numbers<'t>(bytes: &'t [u8]) -> Option<(u32, u32, u32, &'t [u8])>
    ensures { seen_three result ≡ spec.three_numbers bytes.now }
{
    let Some((a, rest)) = number_to(bytes, b' ') else {
        return None;
    };
    match two_numbers(rest) {
        Some((b, c, rest)) => Some((a, b, c, rest)),
        None => None,
    }
}

fn read_one<'t>(bytes: &'t [u8]) -> Option<(TacPick, &'t [u8])>
    ensures { seen_one result ≡ spec.read_one bytes.now }
{
    match number_to(bytes, b'\n') {
        Some((g, rest)) => Some((TacPick::One(g), rest)),
        None => None,
    }
}

fn read_meet<'t>(bytes: &'t [u8]) -> Option<(TacPick, &'t [u8])>
    ensures { seen_one result ≡ spec.read_meet bytes.now }
{
    match two_numbers(bytes) {
        Some((receiver, sender, rest)) => Some((TacPick::Meet(receiver, sender), rest)),
        None => None,
    }
}

fn read_case<'t>(bytes: &'t [u8]) -> Option<(TacPick, &'t [u8])>
    ensures { seen_one result ≡ spec.read_case bytes.now }
{
    match two_numbers(bytes) {
        Some((g, case, rest)) => Some((TacPick::Case(g, case), rest)),
        None => None,
    }
}

fn read_case_meet<'t>(bytes: &'t [u8]) -> Option<(TacPick, &'t [u8])>
    ensures { seen_one result ≡ spec.read_case_meet bytes.now }
{
    match three_numbers(bytes) {
        Some((g, case, sender, rest)) => Some((TacPick::CaseMeet(g, case, sender), rest)),
        None => None,
    }
}

/// The pick whose line the bytes begin with, and what follows the line.
fn read_pick<'t>(bytes: &'t [u8]) -> Option<(TacPick, &'t [u8])>
    ensures { seen_one result ≡ spec.read_pick bytes.now }
{
    if let Some(rest) = after(bytes, b"one ") {
        return read_one(rest);
    }
    if let Some(rest) = after(bytes, b"meet ") {
        return read_meet(rest);
    }
    if let Some(rest) = after(bytes, b"case ") {
        return read_case(rest);
    }
    match after(bytes, b"casemeet ") {
        Some(rest) => read_case_meet(rest),
        None => None,
    }
}

/// The picks of the journal with which a text begins, and where it ends. What follows may be anything.
///
/// # Errors
///
/// If the text does not begin with a journal, with the number of the first line that has no form; on allocation failure.
pub fn read_picks(alloc: Global, bytes: &[u8]) -> Result<Picks, PicksError>
    ensures { MatchResult result (λ picks. IsJournal bytes.now picks.list picks.rest) (λ e. RefusesJournal bytes.now e) }
{
    let Some(lines) = after(bytes, b"rgo picks 1\n") else {
        return Err(PicksError::Refused(PicksText { line: 1 }));
    };
    let mut picks = Vec::new(alloc);
    let mut rest = lines;
    'lines: loop {
        // The last line first: no pick's line begins like it, so the order does not matter for what is read.
        if let Some(text) = after(rest, b"text\n") {
            return Ok(Picks {
                list: Row::new(picks),
                rest: bytes.len() - text.len(),
            });
        }
        match read_pick(rest) {
            Some((pick, next)) => {
                picks.push(pick)?;
                rest = next;
            }
            None => {
                return Err(PicksError::Refused(PicksText {
                    // Lines count from 1, and the first line is before those of the picks.
                    line: picks.len() + 2,
                }));
            }
        }
    }
}
