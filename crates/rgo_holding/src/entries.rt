//! Entries of regions that a goroutine knows. Only the goroutine itself reads and writes them, so none is an atomic word: the table has
//! what others need, its counts.

ghost use Rattle.std.specs.Prelude.{◌≡◌, IfOk, slice_set};
ghost use Rattle.rgo_holding.specs.Changes.{IsSpareKey};
ghost use Rattle.rgo_holding.specs.Entries as spec;
ghost use Rattle.rgo_holding.specs.Known.{entry_of as entry_is};

use crate::keys::Key;
use std::alloc::AllocError;

/// An own page of a goroutine: its number, and how many of its words are filled. No other goroutine fills this page, so the number of
/// words needs no access to the table.
#[derive(Clone, Copy, Debug, PartialEq, Eq)]
pub struct Page {
    pub page: u32,
    pub fill: u32,
}

/// What a goroutine knows of a region.
#[derive(Clone, Copy)]
pub(crate) struct Entry {
    pub(crate) slot: u32,
    pub(crate) page: Option<Page>,
    /// How often the goroutine protects it, in all frames and since its start. A sum is enough: whether a stake ends depends only on
    /// whether any protection is left.
    pub(crate) protections: u32,
    /// Entries of regions that were left are used again, so the list stays as long as the regions known at one time.
    pub(crate) used: bool,
    /// The last round in which a stake was taken for a coming child; 0 for none. So a start ends all pending stakes by a new round,
    /// without a walk over the entries.
    pub(crate) shared: u64,
}

/// The entry of a region that the goroutine has just come to know.
pub(crate) fn new_entry(slot: u32) -> Entry
    ensures { result ≡ spec.new_entry slot }
{
    Entry {
        slot,
        page: None,
        protections: 0,
        used: true,
        shared: 0,
    }
}

/// An entry that is not in use.
fn no_entry() -> Entry
    ensures { result ≡ spec.no_entry }
{
    Entry {
        slot: 0,
        page: None,
        protections: 0,
        used: false,
        shared: 0,
    }
}

/// The entry of a key, if it is in use.
#[inline(always)]
pub(crate) fn entry_of(entries: &[Entry], key: Key) -> Option<Entry>
    ensures { result ≡ entry_is entries.now key }
{
    match entries.get(key.0 as usize) {
        Some(entry) => if entry.used { Some(*entry) } else { None },
        None => None,
    }
}

/// Writes the entry of a key. A key without a place is none that this goroutine was given, and nothing happens.
#[inline(always)]
pub(crate) fn put(entries: &mut Vec<Entry>, key: Key, entry: Entry)
    ensures { entries.new.items ≡ slice_set entries.old.items key.0 entry }
{
    if let Some(place) = entries.get_mut(key.0 as usize) {
        *place = entry;
    }
}

/// Whether a key has an entry that is not in use.
fn is_spare(entries: &[Entry], key: Key) -> bool
    ensures { result ≡ spec.is_spare entries.now key }
{
    match entries.get(key.0 as usize) {
        Some(entry) => !entry.used,
        None => false,
    }
}

/// The key of a new entry that is not in use.
///
/// # Errors
///
/// On allocation failure, or if keys run out.
fn add_spare(entries: &mut Vec<Entry>) -> Result<Key, AllocError>
    ensures same { (key : spec.Key) → entry_is entries.new.items key ≡ entry_is entries.old.items key }
    ensures spare { IfOk result (IsSpareKey entries.new.items) }
{
    let Ok(place) = u32::try_from(entries.len()) else {
        return Err(AllocError);
    };
    entries.push(no_entry())?;
    Ok(Key(place))
}

/// A key with an entry that is not in use: the last that was given up, or a new one. It stays unused until the caller writes its
/// entry, so it may be taken long before, and left if memory runs out.
///
/// # Errors
///
/// On allocation failure, or if keys run out. Then no entry has changed.
pub(crate) fn spare_key(entries: &mut Vec<Entry>, free: &mut Vec<Key>) -> Result<Key, AllocError>
    ensures same { (key : spec.Key) → entry_is entries.new.items key ≡ entry_is entries.old.items key }
    ensures spare { IfOk result (IsSpareKey entries.new.items) }
{
    if let Some(key) = free.pop() {
        if is_spare(entries, key) {
            return Ok(key);
        }
    }
    add_spare(entries)
}

/// The entries as they are in the first round: no stake is taken for a child. Needed when the number of rounds begins again, since an
/// old number would otherwise seem to be of the new round.
pub(crate) fn forget_rounds(entries: &mut Vec<Entry>)
    ensures { (key : spec.Key) → entry_is entries.new.items key ≡ spec.forgotten (entry_is entries.old.items key) }
{
    for i in 0..entries.len() {
        entries[i].shared = 0;
    }
}
