//! What a goroutine has of regions. It is the goroutine's own, and no other thread sees it. Where an operation stands for an access to the
//! table (`create`, `leave`, `add_pending`, `claimed`), it is called directly after that access, which may not fail any more.
//!
//! The clauses cover keys of regions that the goroutine knows, whose entries are in use. So the early returns for a key without
//! such an entry are never taken by a goroutine at the table.

ghost use Rattle.std.specs.List.{list_any};
ghost use Rattle.std.specs.Option.{option_map};
ghost use Rattle.std.specs.Prelude.{◌≡◌, ◌<◌, ◌∷◌, ℕ, [], List, None, Some, IfOk, OnOk, OnErr, length, nat_eq, slice_get};
ghost use Rattle.rgo_sound.specs.Code.Code.{Code as CodeRecord};
ghost use Rattle.rgo_core_memory.specs.Records.{Fill, dropped, page_of, raised};
ghost use Rattle.rgo_sound.specs.RegionMachine.Duties.{guards as guards_in, unprotected};
ghost use Rattle.rgo_sound.specs.RegionMachine.Machine.{main_holder};
ghost use Rattle.rgo_sound.specs.RegionMachine.Regions.{bound, class_region};
ghost use Rattle.rgo_sound.specs.RegionMachine.States.{RegionEnvironment, Holder, below, top_names};
ghost use Rattle.rgo_sound.specs.RegionMachine.declared.regions.Region.{Region as RegionRecord};
ghost use Rattle.rgo_sound.specs.RegionMachine.declared.regions.Region.TheVariants.{Numbered};
ghost use Rattle.rgo_sound.specs.Tac.Frames.{TacFrame};
ghost use Rattle.rgo_holding.specs.Changes as spec;
ghost use Rattle.rgo_holding.specs.Holds.{IsHoldingOf, region_of_key};
ghost use Rattle.rgo_holding.specs.Learning.{ShowsFresh, Tracks};
ghost use Rattle.rgo_holding.specs.Known.{own_page, slot_or_global};

use crate::entries::{Entry, Page, entry_of, forget_rounds, new_entry, put, spare_key};
use crate::frames::{Frames, key_of};
use crate::keys::{Key, global};
use rgo_sound::region_machine::Region;
use rgo_sound::tac::Class;
use std::alloc::{AllocError, Global};

/// What a goroutine has of regions.
#[derive(Drop)]
pub struct Holding {
    pub(crate) frames: Frames,
    /// The entries of the regions that it knows, at their keys. That of Global is the first.
    pub(crate) entries: Vec<Entry>,
    /// Keys of entries that were given up.
    pub(crate) free: Vec<Key>,
    /// The key of the next region that is created.
    next: Option<Key>,
    /// The regions that are protected since its start, the first of them last, since they end from the first one on.
    pub(crate) base: Vec<Key>,
    /// What is passed at the next call, and the names of the function that is called.
    pub(crate) passed: Vec<Option<Key>>,
    pub(crate) callee: Vec<Option<Key>>,
    /// One more than the goroutines that it has started; after the largest number it begins again at 1. A stake is pending for the
    /// next child if its entry has this number, so that a start makes all of them the child's at once.
    round: u64,
    /// The slot of Global.
    pub(crate) slots: u32,
}

impl Holding {
    /// What `main` has: one frame, which knows Global. It holds for every holder of `main` before its first instruction.
    ///
    /// # Errors
    ///
    /// On allocation failure.
    pub fn new(alloc: Global, slots: u32) -> Result<Holding, AllocError>
        ensures { IfOk result (λ k. (code : CodeRecord) (frames : List TacFrame) → IsHoldingOf slots k (main_holder code frames) []) }
    {
        Holding::bare(alloc, slots)
    }

    /// One frame, which knows Global, whatever stakes the goroutine has. `main` and every child begin with it.
    ///
    /// # Errors
    ///
    /// On allocation failure.
    pub(crate) fn bare(alloc: Global, slots: u32) -> Result<Holding, AllocError>
        ensures shows { IfOk result (λ k. (stakes : List ℕ) → ShowsFresh slots k [] stakes) }
        ensures known { IfOk result (λ k. Tracks k (λ s. None)) }
        ensures slots { IfOk result (λ k. k.slots ≡ slots) }
        ensures tables { IfOk result (λ k. k.frames.tables.items ≡ []) }
    {
        // Most goroutines know one region beside Global, and many wait in it: a list that grew by itself would have room for four.
        let mut entries = Vec::with_capacity(alloc, 2)?;
        entries.push(new_entry(slots))?;
        Ok(Holding {
            frames: Frames::new(alloc),
            entries,
            free: Vec::new(alloc),
            next: None,
            base: Vec::new(alloc),
            passed: Vec::new(alloc),
            callee: Vec::new(alloc),
            round: 1,
            slots,
        })
    }

    /// The key of the region that a name of the newest frame is bound to. It is good until the stake in the region ends, also after the
    /// name is unbound.
    #[inline(always)]
    pub fn key(&self, name: u32) -> Option<Key>
        ensures { (slots : ℕ) (h : Holder) (fills : List Fill) → IsHoldingOf slots self.now h fills
            → option_map (region_of_key self.now) result ≡ option_map Some (bound (top_names h.environments) name) }
    {
        key_of(self.frames.newest(), name)
    }

    /// The key of the region of a class of the newest frame.
    pub fn key_of(&self, class: Class) -> Option<Key>
        ensures { (slots : ℕ) (h : Holder) (fills : List Fill) → IsHoldingOf slots self.now h fills
            → option_map (region_of_key self.now) result ≡ option_map Some (class_region (top_names h.environments) class) }
    {
        match class {
            Class::NoClass => None,
            Class::Global => Some(global()),
            Class::Name(name) => self.key(name),
        }
    }

    /// The slot of a region, by which the table's words of it are found. Another region may get it after the stake has ended.
    #[inline(always)]
    pub fn slot(&self, key: Key) -> u32
        ensures any { (slots : ℕ) (h : Holder) (fills : List Fill) (r : RegionRecord) → IsHoldingOf slots self.now h fills
            → region_of_key self.now key ≡ Some r → result ≡ slot_or_global slots r }
        ensures numbered { (p : ℕ) → region_of_key self.now key ≡ Some (Numbered p) → result ≡ p }
    {
        match entry_of(&self.entries, key) {
            Some(entry) => entry.slot,
            None => self.slots,
        }
    }

    /// A region, by its slot.
    pub fn region(&self, key: Key) -> Region
        ensures { (r : RegionRecord) → region_of_key self.now key ≡ Some r → result ≡ r }
    {
        match entry_of(&self.entries, key) {
            Some(entry) => if entry.slot == self.slots {
                Region::Global
            } else {
                Region::Numbered(entry.slot as usize)
            },
            None => Region::Global,
        }
    }

    // ---- protections

    /// One more protection of a region, by the newest frame. It takes no access: a protection only stops this goroutine's own removals.
    ///
    /// # Errors
    ///
    /// If the count of protections of the region would overflow. Then nothing has changed.
    pub fn protect(&mut self, key: Key) -> Result<(), AllocError>
        ensures protects { OnOk result ((slots : ℕ) (h : Holder) (fills : List Fill) (r : RegionRecord)
            → IsHoldingOf slots self.old h fills → region_of_key self.old key ≡ Some r → 0 < length h.environments
            → IsHoldingOf slots self.new (spec.protecting h r) fills) }
        ensures kept { OnErr result (spec.KeepsHolding self.old self.new) }
        ensures regions { spec.SameRegions self.old self.new }
    {
        let Some(mut entry) = entry_of(&self.entries, key) else {
            return Ok(());
        };
        let Some(protections) = entry.protections.checked_add(1) else {
            return Err(AllocError);
        };
        entry.protections = protections;
        put(&mut self.entries, key, entry);
        Ok(())
    }

    /// The newest frame ends one of its protections of a region.
    pub fn unprotect(&mut self, key: Key)
        ensures unprotects { (slots : ℕ) (h : Holder) (fills : List Fill) (r : RegionRecord) → IsHoldingOf slots self.old h fills
            → region_of_key self.old key ≡ Some r → spec.IsProtectedLast h r → IsHoldingOf slots self.new (unprotected h r) fills }
        ensures regions { spec.SameRegions self.old self.new }
    {
        let Some(mut entry) = entry_of(&self.entries, key) else {
            return;
        };
        entry.protections = entry.protections.saturating_sub(1);
        put(&mut self.entries, key, entry);
    }

    /// Whether a region is protected. If so, a removal ends no stake, and takes no access.
    pub fn guards(&self, key: Key) -> bool
        ensures { (slots : ℕ) (h : Holder) (fills : List Fill) (r : RegionRecord) → IsHoldingOf slots self.now h fills
            → region_of_key self.now key ≡ Some r → result ≡ guards_in h.base h.environments r }
    {
        match entry_of(&self.entries, key) {
            Some(entry) => entry.protections > 0,
            None => false,
        }
    }

    /// The first region that is protected since the start is no longer so; `None` if none is left. Called when the last frame has returned.
    /// Its stake ends only if `guards` is false afterwards.
    pub fn end_base(&mut self) -> Option<Key>
        ensures ends { spec.HoldingEndsBase self.old self.new result }
        ensures regions { spec.SameRegions self.old self.new }
    {
        let key = self.base.pop()?;
        if let Some(mut entry) = entry_of(&self.entries, key) {
            entry.protections = entry.protections.saturating_sub(1);
            put(&mut self.entries, key, entry);
        }
        Some(key)
    }

    /// The first region that is protected since the start; `None` if none is left.
    pub fn first_base(&self) -> Option<Key>
        ensures { spec.FirstBase self.now result }
    {
        match self.base.last() {
            Some(key) => Some(*key),
            None => None,
        }
    }

    /// Whether the first region that is protected since the start is protected otherwise, too. By this the caller knows before `end_base`
    /// whether an access will be needed.
    pub fn guards_beyond_base(&self, key: Key) -> bool
        ensures { (slots : ℕ) (h : Holder) (fills : List Fill) (r : RegionRecord) (rest : List RegionRecord)
            → IsHoldingOf slots self.now h fills → region_of_key self.now key ≡ Some r → h.base ≡ r ∷ rest
            → result ≡ guards_in rest h.environments r }
    {
        match entry_of(&self.entries, key) {
            Some(entry) => entry.protections > 1,
            None => false,
        }
    }

    /// How many regions are protected since the start.
    pub fn base_len(&self) -> usize
        ensures { (slots : ℕ) (h : Holder) (fills : List Fill) → IsHoldingOf slots self.now h fills → result ≡ length h.base }
    {
        self.base.len()
    }

    /// The region that is `i`-th among those that are protected since the start.
    pub fn base_region(&self, i: usize) -> Option<Region>
        ensures { (slots : ℕ) (h : Holder) (fills : List Fill) → IsHoldingOf slots self.now h fills → result ≡ slice_get h.base i }
    {
        let last = self.base.len();
        if last <= i {
            return None;
        }
        Some(self.region(self.base[last - 1 - i]))
    }

    // ---- names

    /// A name of the newest frame is no longer bound to a region. The stake stays until `leave`.
    pub fn unbind(&mut self, name: u32)
        ensures unbinds { (slots : ℕ) (h : Holder) (fills : List Fill) → IsHoldingOf slots self.old h fills
            → IsHoldingOf slots self.new (spec.without_name h name) fills }
        ensures regions { spec.SameRegions self.old self.new }
    {
        self.frames.set(name, None);
    }

    /// Memory for a region that is about to be created, by a name of the newest frame. Taken before the access that creates it.
    ///
    /// # Errors
    ///
    /// On allocation failure, or if there is no frame. Nothing has changed, whatever the result.
    pub fn reserve(&mut self, name: u32) -> Result<(), AllocError>
        ensures kept { spec.KeepsHolding self.old self.new }
        ensures room { OnOk result (spec.HoldingHasRoom self.new name) }
        ensures regions { spec.SameRegions self.old self.new }
    {
        if self.frames.depth == 0 {
            return Err(AllocError);
        }
        self.frames.reserve_name(name)?;
        let key = spare_key(&mut self.entries, &mut self.free)?;
        self.next = Some(key);
        Ok(())
    }

    /// A region was created in this slot, by a name of the newest frame. The exchange has just found the slot free, so no entry has it.
    /// This must not fail: the region exists for all.
    pub fn create(&mut self, name: u32, slot: u32)
        requires room { spec.HoldingHasRoom self.old name }
        ensures { (slots : ℕ) (h : Holder) (fills : List Fill) → IsHoldingOf slots self.old h fills
            → spec.IsNewSlot slots h fills slot → IsHoldingOf slots self.new (spec.creating h name slot) fills }
    {
        // The caller has taken memory by `reserve`, so there is a key.
        let Some(key) = self.next else {
            return;
        };
        self.next = None;
        put(&mut self.entries, key, new_entry(slot));
        self.frames.set(name, Some(key));
    }

    // ---- stakes

    /// The stake in a region has ended, by a subtraction from its count. The key must not be used any more: its entry may come to be that
    /// of another region. No name may lead to it (`IsUnknown`).
    pub fn leave(&mut self, key: Key)
        ensures { (slots : ℕ) (h : Holder) (fills : List Fill) (p : ℕ) → IsHoldingOf slots self.old h fills
            → region_of_key self.old key ≡ Some (Numbered p) → spec.IsUnknown h p
            → IsHoldingOf slots self.new (spec.ending_stake h p) (dropped p fills) }
    {
        let Some(mut entry) = entry_of(&self.entries, key) else {
            return;
        };
        entry.used = false;
        put(&mut self.entries, key, entry);
        // Without memory the entry is merely not used again.
        let _ = self.free.push(key);
    }

    /// Whether a stake in a region is taken for the next goroutine that is started. If so, a further share takes no access.
    pub fn is_pending(&self, key: Key) -> bool
        ensures { (slots : ℕ) (h : Holder) (fills : List Fill) (p : ℕ) → IsHoldingOf slots self.now h fills
            → region_of_key self.now key ≡ Some (Numbered p) → result ≡ list_any (nat_eq p) h.pending }
    {
        match entry_of(&self.entries, key) {
            Some(entry) => entry.shared == self.round,
            None => false,
        }
    }

    /// A stake in a region is taken for the next goroutine that is started, by an addition to its count.
    pub fn add_pending(&mut self, key: Key)
        ensures adds { (slots : ℕ) (h : Holder) (fills : List Fill) (p : ℕ) → IsHoldingOf slots self.old h fills
            → region_of_key self.old key ≡ Some (Numbered p) → IsHoldingOf slots self.new (spec.sharing_stake h p) fills }
        ensures regions { spec.SameRegions self.old self.new }
    {
        let Some(mut entry) = entry_of(&self.entries, key) else {
            return;
        };
        entry.shared = self.round;
        put(&mut self.entries, key, entry);
    }

    /// A goroutine was started: the pending stakes are its own now, so they are no longer this goroutine's.
    pub fn clear_pending(&mut self)
        ensures clears { (slots : ℕ) (h : Holder) (fills : List Fill) → IsHoldingOf slots self.old h fills
            → IsHoldingOf slots self.new (record h { pending = [] }) fills }
        ensures regions { spec.SameRegions self.old self.new }
    {
        match self.round.checked_add(1) {
            Some(round) => self.round = round,
            None => {
                forget_rounds(&mut self.entries);
                self.round = 1;
            }
        }
    }

    // ---- own pages

    /// The goroutine's own page in a region.
    #[inline(always)]
    pub fn page(&self, key: Key) -> Option<Page>
        ensures { (slots : ℕ) (h : Holder) (fills : List Fill) (r : RegionRecord) → IsHoldingOf slots self.now h fills
            → region_of_key self.now key ≡ Some r → option_map (own_page (slot_or_global slots r)) result ≡ page_of (slot_or_global slots r) fills }
    {
        match entry_of(&self.entries, key) {
            Some(entry) => entry.page,
            None => None,
        }
    }

    /// A page was claimed for a region; no word of it is filled. It takes the place of the goroutine's old page there, whose rest stays
    /// unused.
    pub fn claimed(&mut self, key: Key, page: u32)
        ensures claims { (slots : ℕ) (h : Holder) (fills : List Fill) (r : RegionRecord) → IsHoldingOf slots self.old h fills
            → region_of_key self.old key ≡ Some r → IsHoldingOf slots self.new h
            (record { slot = slot_or_global slots r; page = page; fill = 0 } ∷ dropped (slot_or_global slots r) fills) }
        ensures regions { spec.SameRegions self.old self.new }
    {
        let Some(mut entry) = entry_of(&self.entries, key) else {
            return;
        };
        entry.page = Some(Page { page, fill: 0 });
        put(&mut self.entries, key, entry);
    }

    /// `words` words of the own page in a region are filled now. Called after the last word of the object was stored.
    #[inline(always)]
    pub fn fill(&mut self, key: Key, words: u32)
        ensures fills { (slots : ℕ) (h : Holder) (fills : List Fill) (r : RegionRecord) → IsHoldingOf slots self.old h fills
            → region_of_key self.old key ≡ Some r → IsHoldingOf slots self.new h (raised (slot_or_global slots r) words fills) }
        ensures regions { spec.SameRegions self.old self.new }
    {
        let Some(mut entry) = entry_of(&self.entries, key) else {
            return;
        };
        let Some(page) = entry.page else {
            return;
        };
        entry.page = Some(Page {
            page: page.page,
            fill: words,
        });
        put(&mut self.entries, key, entry);
    }

    // ---- returns

    /// The newest function has returned. It protects nothing: its protections were ended by duties before.
    pub fn come_back(&mut self)
        ensures returns { (slots : ℕ) (h : Holder) (fills : List Fill) → IsHoldingOf slots self.old h fills
            → spec.top_protections h.environments ≡ [] → IsHoldingOf slots self.new (record h { environments = below h.environments }) fills }
        ensures regions { spec.SameRegions self.old self.new }
    {
        self.frames.come_back();
    }

    /// After local steps in a row, in which the frames above the oldest `kept` have returned and others were entered, which
    /// know no region. There are now `depth` frames.
    #[inline(always)]
    pub fn settle(&mut self, kept: usize, depth: usize)
        ensures settles { (slots : ℕ) (h : Holder) (fills : List Fill) (es : List RegionEnvironment) → IsHoldingOf slots self.old h fills
            → spec.EnvironmentsSettle kept depth h.environments es → IsHoldingOf slots self.new (record h { environments = es }) fills }
        ensures regions { spec.SameRegions self.old self.new }
    {
        self.frames.settle(kept, depth);
    }
}
