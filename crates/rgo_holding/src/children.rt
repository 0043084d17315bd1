//! What a goroutine that is started has of regions. It is made from the holding of its parent, before the access that starts the
//! goroutine: afterwards it exists, and memory must not run out. It shares nothing with the parent, since both may run at once.

ghost use Rattle.std.specs.HashMap.{get};
ghost use Rattle.std.specs.Option.{option_map};
ghost use Rattle.std.specs.Prelude.{◌≡◌, ◌≢◌, ◌∷◌, ℕ, [], List, Option, OnOk, Some, IfOk, map, nat_eq, reverse, true};
ghost use Rattle.rgo_core_memory.specs.Records.{Fill};
ghost use Rattle.rgo_sound.specs.RegionMachine.Owed as owed;
ghost use Rattle.rgo_sound.specs.RegionMachine.Regions.{class_region};
ghost use Rattle.rgo_sound.specs.RegionMachine.States.{Holder, top_names};
ghost use Rattle.rgo_sound.specs.RegionMachine.declared.regions.Region.{Region as RegionRecord};
ghost use Rattle.rgo_sound.specs.RegionMachine.declared.regions.Region.TheVariants.{Numbered};
ghost use Rattle.rgo_sound.specs.Stakes.{is_in};
ghost use Rattle.rgo_holding.specs.Changes.{SameRegions};
ghost use Rattle.rgo_holding.specs.Entries.{Key as KeyRecord};
ghost use Rattle.rgo_holding.specs.Holds.{IsHoldingOf, region_of_key};
ghost use Rattle.rgo_holding.specs.Learning as spec;
ghost use Rattle.rgo_holding.specs.Passing.{AreRegionsPassed, ChildHoldingBegins};

use crate::calls::pass;
use crate::entries::{entry_of, new_entry, put, spare_key};
use crate::frames::Frames;
use crate::holding::Holding;
use crate::keys::{Key, global};
use rgo_sound::region_machine::Region;
use rgo_sound::tac::Class;
use std::alloc::{AllocError, Global};
use std::collections::HashMap;

/// The keys of the regions that a goroutine has come to know, by their slots. It exists during a start alone: a running goroutine goes
/// from names to keys, and never from slots.
type Known = HashMap<usize, Key>;

/// The key of the region of a slot, if it is known.
fn key_of(known: &Known, slot: usize) -> Option<Key>
    ensures { result ≡ get nat_eq known.now slot }
{
    match known.get(&slot) {
        Some(key) => Some(*key),
        None => None,
    }
}

/// The regions that are given at two positions, each once, the last first. A goroutine protects these from its start to its end,
/// since each of two names would otherwise end its one stake. It goes from the back because the base is kept with its first region last.
///
/// # Errors
///
/// On allocation failure.
fn twice(alloc: Global, regions: &[Option<Region>]) -> Result<Vec<usize>, AllocError>
    ensures { IfOk result (λ found. map Numbered (reverse found.items) ≡ owed.twice regions.now) }
{
    let mut seen: HashMap<usize, bool> = HashMap::new(alloc);
    let mut found = Vec::new(alloc);
    let mut i = regions.len();
    while i > 0 {
        i -= 1;
        let Some(region) = regions[i] else {
            continue;
        };
        let Region::Numbered(r) = region else {
            continue;
        };
        match seen.get(&r) {
            Some(true) => {}
            Some(false) => {
                found.push(r)?;
                if seen.insert(r, true).is_err() {
                    return Err(AllocError);
                }
            }
            None => {
                if seen.insert(r, false).is_err() {
                    return Err(AllocError);
                }
            }
        }
    }
    Ok(found)
}

impl Holding {
    /// The region of a class of the newest frame.
    fn region_of(&self, class: Class) -> Option<Region>
        ensures { (slots : ℕ) (h : Holder) (fills : List Fill) → IsHoldingOf slots self.now h fills
            → result ≡ class_region (top_names h.environments) class }
    {
        match self.key_of(class) {
            Some(key) => Some(self.region(key)),
            None => None,
        }
    }

    /// The regions that are passed.
    ///
    /// # Errors
    ///
    /// On allocation failure.
    fn passed_regions(
        &self,
        alloc: Global,
        passes: &[Class],
    ) -> Result<Vec<Option<Region>>, AllocError>
        ensures { IfOk result (λ v. (slots : ℕ) (h : Holder) (fills : List Fill) → IsHoldingOf slots self.now h fills
            → v.items ≡ owed.passed_regions (top_names h.environments) passes.now) }
    {
        let mut regions = Vec::new(alloc);
        for class in passes {
            regions.push(self.region_of(*class))?;
        }
        Ok(regions)
    }

    /// The key of the region of a slot, which a goroutine before its start comes to know if it did not. One key for each slot, so that
    /// protections of one region are counted in one entry.
    ///
    /// # Errors
    ///
    /// On allocation failure, or if keys run out.
    fn learn(&mut self, known: &mut Known, slot: usize) -> Result<Key, AllocError>
        ensures tracks { OnOk result (spec.Tracks self.old (get nat_eq known.old) → spec.Tracks self.new (get nat_eq known.new)) }
        ensures shows { OnOk result ((slots : ℕ) (stakes : List ℕ) → spec.Tracks self.old (get nat_eq known.old)
            → spec.ShowsFresh slots self.old [] stakes → slot ≢ slots → is_in slot stakes ≡ true
            → spec.ShowsFresh slots self.new [] stakes) }
        ensures key { IfOk result (λ key. spec.Tracks self.old (get nat_eq known.old) → slot ≢ self.old.slots
            → region_of_key self.new key ≡ Some (Numbered slot)) }
        ensures still { OnOk result (spec.StillOf self.old self.new) }
        ensures kept { (self.new.slots ≡ self.old.slots) × (self.new.frames ≡ self.old.frames) }
    {
        if let Some(key) = key_of(known, slot) {
            return Ok(key);
        }
        let Ok(number) = u32::try_from(slot) else {
            return Err(AllocError);
        };
        let key = spare_key(&mut self.entries, &mut self.free)?;
        if known.insert(slot, key).is_err() {
            return Err(AllocError);
        }
        put(&mut self.entries, key, new_entry(number));
        Ok(key)
    }

    /// The key of a region that a goroutine is given before its start. Global needs no entry: each goroutine has it.
    ///
    /// # Errors
    ///
    /// On allocation failure, or if keys run out.
    fn learn_given(
        &mut self,
        known: &mut Known,
        given: Option<Region>,
    ) -> Result<Option<Key>, AllocError>
        ensures tracks { OnOk result (spec.Tracks self.old (get nat_eq known.old) → spec.Tracks self.new (get nat_eq known.new)) }
        ensures shows { OnOk result ((slots : ℕ) (stakes : List ℕ) → spec.Tracks self.old (get nat_eq known.old)
            → spec.ShowsFresh slots self.old [] stakes → spec.MayBeGiven slots stakes given
            → spec.ShowsFresh slots self.new [] stakes) }
        ensures key { IfOk result (λ key. (slots : ℕ) (stakes : List ℕ) → spec.Tracks self.old (get nat_eq known.old)
            → spec.ShowsFresh slots self.old [] stakes → spec.MayBeGiven slots stakes given
            → option_map (region_of_key self.new) key ≡ option_map Some given) }
        ensures still { OnOk result (spec.StillOf self.old self.new) }
        ensures kept { (self.new.slots ≡ self.old.slots) × (self.new.frames ≡ self.old.frames) }
    {
        let Some(region) = given else {
            return Ok(None);
        };
        match region {
            Region::Global => Ok(Some(global())),
            Region::Numbered(slot) => Ok(Some(self.learn(known, slot)?)),
        }
    }

    /// The keys of the regions that a goroutine is given before its start.
    ///
    /// # Errors
    ///
    /// On allocation failure, or if keys run out.
    fn learn_all(
        &mut self,
        alloc: Global,
        known: &mut Known,
        given: &[Option<Region>],
    ) -> Result<Vec<Option<Key>>, AllocError>
        ensures learns { IfOk result (λ keys. (slots : ℕ) (stakes : List ℕ) → spec.Tracks self.old (get nat_eq known.old)
            → spec.ShowsFresh slots self.old [] stakes → spec.AreGiven slots stakes given.now
            → spec.Learned slots stakes self.new (get nat_eq known.new) keys.items given.now) }
        ensures kept { (self.new.slots ≡ self.old.slots) × (self.new.frames ≡ self.old.frames) }
    {
        let mut keys = Vec::new(alloc);
        for region in given {
            keys.push(self.learn_given(known, *region)?)?;
        }
        Ok(keys)
    }

    /// One more region is protected since the start, before the others. The goroutine has not started, so it takes no access.
    ///
    /// # Errors
    ///
    /// On allocation failure, or if the count of protections of the region would overflow.
    fn add_base(&mut self, key: Key) -> Result<(), AllocError>
        ensures adds { OnOk result ((slots : ℕ) (h : Holder) (fills : List Fill) (r : RegionRecord) → IsHoldingOf slots self.old h fills
            → region_of_key self.old key ≡ Some r → IsHoldingOf slots self.new (record h { base = r ∷ h.base }) fills) }
        ensures tracks { OnOk result ((known : ℕ → Option KeyRecord) → spec.Tracks self.old known → spec.Tracks self.new known) }
        ensures regions { OnOk result (SameRegions self.old self.new) }
        ensures kept { (self.new.slots ≡ self.old.slots) × (self.new.frames ≡ self.old.frames) }
    {
        let Some(mut entry) = entry_of(&self.entries, key) else {
            return Ok(());
        };
        let Some(protections) = entry.protections.checked_add(1) else {
            return Err(AllocError);
        };
        self.base.push(key)?;
        entry.protections = protections;
        put(&mut self.entries, key, entry);
        Ok(())
    }

    /// These regions are protected since the start, the last of them first. The goroutine knows them.
    ///
    /// # Errors
    ///
    /// On allocation failure.
    fn add_bases(&mut self, known: &Known, found: &[usize]) -> Result<(), AllocError>
        ensures adds { OnOk result ((slots : ℕ) (stakes : List ℕ) → spec.Tracks self.old (get nat_eq known.now)
            → spec.ShowsFresh slots self.old [] stakes → spec.SlotsKnown slots (get nat_eq known.now) found.now
            → spec.ShowsFresh slots self.new (map Numbered (reverse found.now)) stakes) }
        ensures regions { OnOk result (SameRegions self.old self.new) }
        ensures kept { (self.new.slots ≡ self.old.slots) × (self.new.frames ≡ self.old.frames) }
    {
        for slot in found {
            // Never taken: each region that is given was learned before.
            let Some(key) = key_of(known, *slot) else {
                continue;
            };
            self.add_base(key)?;
        }
        Ok(())
    }

    /// The goroutine that is about to start: it is given what is passed, and the pending stakes are its own. The parent is only read: if
    /// this fails, nothing has happened.
    ///
    /// # Errors
    ///
    /// On allocation failure, or if keys run out.
    pub fn child(
        &self,
        alloc: Global,
        formals: &[Class],
        passes: &[Class],
    ) -> Result<Holding, AllocError>
        ensures { IfOk result (λ k. (slots : ℕ) (h : Holder) (fills : List Fill) → IsHoldingOf slots self.now h fills
            → AreRegionsPassed h.pending (owed.passed_regions (top_names h.environments) passes.now)
            → ChildHoldingBegins slots k h.pending formals.now (owed.passed_regions (top_names h.environments) passes.now)) }
    {
        let given = self.passed_regions(alloc, passes)?;
        let found = twice(alloc, &given)?;
        let mut child = Holding::bare(alloc, self.slots)?;
        let mut known = HashMap::new(alloc);
        let keys = child.learn_all(alloc, &mut known, &given)?;
        child.add_bases(&known, &found)?;
        let mut names = Vec::new(alloc);
        pass(&mut names, formals, &keys)?;
        child.frames.name_first(names)?;
        Ok(child)
    }
}
