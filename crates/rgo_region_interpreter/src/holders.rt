//! What a goroutine has of the regions. The machine keeps lists of bindings and of protections; here names are indices, and protections
//! are counted by region, so no look-up goes through a list.

ghost use Rattle.std.specs.Prelude.{◌≡◌, ◌<◌, ◌+◌, ◌-◌, ◌∷◌, [], ℕ, List, Bool, Option, Some, None, true, unwrap_or, IfOk, OnOk, OnErr, length, nat_lt};
ghost use Rattle.rgo_region_machine.specs.Regions.{Bindings, bound, unbind};
ghost use Rattle.rgo_region_machine.specs.declared.regions.Region.TheVariants.{Global as GlobalRegion, Numbered};
ghost use Rattle.rgo_region_interpreter.specs.Holders as spec;

use rgo_region_machine::Region;
use std::alloc::{AllocError, Global};
use std::collections::HashMap;

/// The regions that the names of a frame are bound to, by the numbers of the names.
pub(crate) type Names = Vec<Option<Region>>;

/// What a goroutine has of the regions. Stakes are not stored: a goroutine removes only regions it names, and each such name
/// implies a stake.
#[derive(Drop)]
pub(crate) struct Holder {
    /// The regions that the names of each frame are bound to, the newest frame last.
    pub(crate) frames: Vec<Names>,
    /// Lists of names that frames which have returned no longer need, for those to come.
    spare: Vec<Names>,
    /// How many protections each region has, in its frames and by its base.
    pub(crate) protections: HashMap<usize, usize>,
    /// The regions that were passed at two positions when it started, in the order in which they end.
    pub(crate) base: Vec<usize>,
    /// How many words are used of the page that it fills in each region.
    pub(crate) fills: HashMap<usize, usize>,
    /// The same for Global, if it has a page there.
    pub(crate) global_fill: Option<usize>,
    /// How many pages it has taken so far for the spread object that its next instruction makes.
    pub(crate) reserved: usize,
    /// How many of the steps are done that it owes before its next instruction. A turn may end between two of them for want of room,
    /// and a later turn continues after these.
    pub(crate) done: usize,
}

/// The region that one of these names is bound to.
pub(crate) fn region_of(names: &[Option<Region>], name: u32) -> Option<Region>
    ensures { result ≡ spec.bound_in names.now name }
{
    match names.get(name as usize) {
        Some(region) => *region,
        None => None,
    }
}

/// Binds a name to a region.
///
/// # Errors
///
/// On allocation failure. Then the names are as before.
pub(crate) fn bind(names: &mut Names, name: u32, region: Region) -> Result<(), AllocError>
    ensures binds { OnOk result ((k : ℕ) → spec.bound_in names.new.items k
        ≡ spec.bound_with names.old.items name region k) }
    ensures kept { OnErr result ((k : ℕ) → spec.bound_in names.new.items k ≡ spec.bound_in names.old.items k) }
{
    let name = name as usize;
    if names.len() <= name {
        names.resize(name + 1, None)?;
    }
    names[name] = Some(region);
    Ok(())
}

/// A name is no longer bound to a region.
fn unbind(names: &mut Names, name: u32)
    ensures { (k : ℕ) → spec.bound_in names.new.items k ≡ spec.bound_without names.old.items name k }
{
    if let Some(region) = names.get_mut(name as usize) {
        *region = None;
    }
}

impl Holder {
    /// The holder of a goroutine that starts with one frame: its names, and the regions that were passed at two positions, which it
    /// protects until it ends.
    ///
    /// # Errors
    ///
    /// On allocation failure.
    pub(crate) fn new(alloc: Global, names: Names, base: Vec<usize>) -> Result<Holder, AllocError>
        ensures { IfOk result (λ h. spec.HolderBegins h names.items base.items) }
    {
        let mut protections = HashMap::new(alloc);
        for r in base.iter() {
            protections.insert(*r, 1)?;
        }
        let mut frames = Vec::new(alloc);
        frames.push(names)?;
        Ok(Holder {
            frames,
            spare: Vec::new(alloc),
            protections,
            base,
            fills: HashMap::new(alloc),
            global_fill: None,
            reserved: 0,
            done: 0,
        })
    }

    /// The regions that the names of the newest frame are bound to.
    pub(crate) fn names(&self) -> &[Option<Region>]
        ensures { result.now ≡ spec.newest_frame_names (spec.frame_names_of self.now) }
    {
        match self.frames.last() {
            Some(names) => names,
            None => &[],
        }
    }

    /// The region that a name of the newest frame is bound to.
    pub(crate) fn region(&self, name: u32) -> Option<Region>
        ensures { result ≡ spec.region_in self.now name }
    {
        match self.frames.last() {
            Some(names) => region_of(names, name),
            None => None,
        }
    }

    /// Binds a name of the newest frame to a region, in place of any other.
    ///
    /// # Errors
    ///
    /// On allocation failure.
    pub(crate) fn bind(&mut self, name: u32, region: Region) -> Result<(), AllocError>
        ensures binds { OnOk result (spec.Binds self.old self.new name region) }
    {
        if let Some(names) = self.frames.last_mut() {
            bind(names, name, region)?;
        }
        Ok(())
    }

    /// A name of the newest frame is no longer bound to a region.
    pub(crate) fn unbind(&mut self, name: u32)
        ensures { spec.Unbinds self.old self.new name }
    {
        if let Some(names) = self.frames.last_mut() {
            unbind(names, name);
        }
    }

    /// A list without names for a function that is called, from those that are spare: calls in a loop then allocate nothing.
    pub(crate) fn take_spare(&mut self, alloc: Global) -> Names
        ensures empty { result.items ≡ [] }
        ensures kept { spec.Same self.old self.new }
    {
        match self.spare.pop() {
            Some(mut names) => {
                names.clear();
                names
            }
            None => Vec::new(alloc),
        }
    }

    /// A function is called, with these names.
    ///
    /// # Errors
    ///
    /// On allocation failure. Then nothing changed.
    pub(crate) fn enter(&mut self, names: Names) -> Result<(), AllocError>
        ensures enters { OnOk result (spec.HolderEnters self.old self.new names.items) }
        ensures kept { OnErr result (spec.Same self.old self.new) }
    {
        self.frames.push(names)?;
        Ok(())
    }

    /// The newest function returns. Its list of names is spare; without memory to keep it, it is dropped.
    pub(crate) fn come_back(&mut self)
        ensures { spec.HolderReturns self.old self.new }
    {
        let Some(names) = self.frames.pop() else {
            return;
        };
        if self.frames.is_empty() {
            // The goroutine has ended, so it enters no other function.
            self.spare.clear();
        } else {
            let _ = self.spare.push(names);
        }
    }

    /// One more protection of a region. Global is left out, since nothing removes it.
    ///
    /// # Errors
    ///
    /// On allocation failure. Then nothing changed.
    pub(crate) fn protect(&mut self, region: Region) -> Result<(), AllocError>
        ensures protects { OnOk result (spec.HolderProtects self.old self.new region) }
        ensures kept { OnErr result (spec.Same self.old self.new) }
    {
        let Region::Numbered(r) = region else {
            return Ok(());
        };
        let count = self.protections.entry(r)?.or_insert(0);
        let Some(more) = count.checked_add(1) else {
            return Err(AllocError);
        };
        *count = more;
        Ok(())
    }

    /// One protection of a region ends. The entry goes with the last one, so the map has only what is protected.
    pub(crate) fn unprotect(&mut self, region: Region)
        ensures { spec.Unprotects self.old self.new region }
    {
        let Region::Numbered(r) = region else {
            return;
        };
        let Some(count) = self.protections.get_mut(&r) else {
            return;
        };
        if *count > 1 {
            *count -= 1;
        } else {
            self.protections.remove(&r);
        }
    }

    /// Ends the protection of the first region that was passed at two positions, and returns it; `None` if none is left.
    pub(crate) fn end_base(&mut self) -> Option<usize>
        ensures { spec.HolderEndsBase self.old self.new result }
    {
        if self.base.is_empty() {
            return None;
        }
        let r = self.base.remove(0);
        self.unprotect(Region::Numbered(r));
        Some(r)
    }

    /// Whether it protects a region.
    pub(crate) fn guards(&self, r: usize) -> bool
        ensures { result ≡ nat_lt 0 (spec.protections_in self.now r) }
    {
        match self.protections.get(&r) {
            Some(count) => *count > 0,
            None => false,
        }
    }

    /// How many words are used of the page that it fills in a region; `None` if it has none.
    pub(crate) fn fill(&self, region: Region) -> Option<usize>
        ensures { result ≡ spec.fill_in self.now region }
    {
        match region {
            Region::Global => self.global_fill,
            Region::Numbered(r) => self.fills.get(&r).copied(),
        }
    }

    /// Records how many words of that page are used.
    ///
    /// # Errors
    ///
    /// On allocation failure. Then nothing changed.
    pub(crate) fn set_fill(&mut self, region: Region, used: usize) -> Result<(), AllocError>
        ensures fills { OnOk result (spec.Fills self.old self.new region used) }
        ensures kept { OnErr result (spec.Same self.old self.new) }
    {
        match region {
            Region::Global => {
                self.global_fill = Some(used);
                Ok(())
            }
            Region::Numbered(r) => match self.fills.insert(r, used) {
                Ok(_) => Ok(()),
                Err(_) => Err(AllocError),
            },
        }
    }

    /// Records that `words` more words of that page are used.
    ///
    /// # Errors
    ///
    /// On allocation failure.
    pub(crate) fn fill_more(&mut self, region: Region, words: usize) -> Result<(), AllocError>
        ensures { OnOk result (spec.Fills self.old self.new region (unwrap_or (spec.fill_in self.old region) 0 + words)) }
    {
        match region {
            Region::Global => {
                let Some(used) = self.global_fill.unwrap_or(0).checked_add(words) else {
                    return Err(AllocError);
                };
                self.global_fill = Some(used);
                Ok(())
            }
            Region::Numbered(r) => {
                let used = self.fills.entry(r)?.or_insert(0);
                let Some(more) = used.checked_add(words) else {
                    return Err(AllocError);
                };
                *used = more;
                Ok(())
            }
        }
    }

    /// Its stake in a region has ended: it fills no page there. The number is never used again, so to keep the entry would only take
    /// memory.
    pub(crate) fn leave(&mut self, r: usize)
        ensures { spec.HolderLeaves self.old self.new r }
    {
        self.fills.remove(&r);
    }
}
