//! The regions of a run: which are live, what each has, and counts of what was made and removed so far. A removed region has no row, so
//! a long run takes memory only for what is live; the counts are all that is left of the others.

ghost use Rattle.std.specs.Prelude.{◌≡◌, ◌-◌, [], OnOk, OnErr, IfOk};
ghost use Rattle.rgo_interpreter.specs.Views.{memory_view};
ghost use Rattle.rgo_region_machine.specs.Regions.{with_added_stake, one_fewer};
ghost use Rattle.rgo_region_interpreter.specs.Tables as spec;
ghost use Rattle.rgo_region_interpreter.specs.Tables.{RegionTableShows};

use rgo_interpreter::Memory;
use rgo_region_machine::Region;
use std::alloc::{AllocError, Global};
use std::collections::HashMap;

/// A region that is live.
#[derive(Drop)]
pub(crate) struct Row {
    /// How many stakes exist in it; at least one, since the row goes with the last.
    pub(crate) stakes: usize,
    /// How many pages it has.
    pub(crate) pages: usize,
    /// Its objects, in the order of their making; they are freed with it. Global has no row and no such list: its objects are never
    /// freed.
    pub(crate) objects: Vec<usize>,
}

/// The regions of a run.
#[derive(Drop)]
pub(crate) struct Table {
    /// Those that are live, but for Global, by number.
    pub(crate) rows: HashMap<usize, Row>,
    /// How many were made.
    pub(crate) made: usize,
    /// How many were removed.
    pub(crate) removed: usize,
    /// How many pages were taken, those of Global among them.
    pub(crate) taken: usize,
    /// How many of these were returned.
    pub(crate) returned: usize,
}

impl Table {
    /// No region but Global, which has no page yet.
    pub(crate) fn new(alloc: Global) -> Table
        ensures { RegionTableShows result [] 0 [] }
    {
        Table {
            rows: HashMap::new(alloc),
            made: 0,
            removed: 0,
            taken: 0,
            returned: 0,
        }
    }

    /// How many regions are live, but for Global. The subtraction is exact: each removed region was made.
    pub(crate) fn live(&self) -> usize
        ensures { result ≡ self.now.made - self.now.removed }
    {
        self.made.saturating_sub(self.removed)
    }

    /// How many pages live regions and Global have. The subtraction is exact: each returned page was taken.
    pub(crate) fn pages(&self) -> usize
        ensures { result ≡ self.now.taken - self.now.returned }
    {
        self.taken.saturating_sub(self.returned)
    }

    /// A new region, with one stake. Returns its number. The row is inserted before the count changes, so a failure leaves both as they
    /// were.
    ///
    /// # Errors
    ///
    /// On allocation failure. Then nothing changed.
    pub(crate) fn create(&mut self, alloc: Global) -> Result<usize, AllocError>
        ensures number { IfOk result (λ r. r ≡ self.old.made) }
        ensures created { OnOk result (spec.TableCreates self.old self.new) }
        ensures kept { OnErr result (spec.SameTable self.new self.old) }
    {
        let row = Row {
            stakes: 1,
            pages: 0,
            objects: Vec::new(alloc),
        };
        let number = self.made;
        let Some(made) = number.checked_add(1) else {
            return Err(AllocError);
        };
        match self.rows.insert(number, row) {
            Ok(_) => {
                self.made = made;
                Ok(number)
            }
            Err(_) => Err(AllocError),
        }
    }

    /// One more stake in a live region.
    ///
    /// # Errors
    ///
    /// If the count of stakes would overflow. Then nothing changed.
    pub(crate) fn share(&mut self, r: usize) -> Result<(), AllocError>
        ensures shared { OnOk result (spec.TableChanges self.old self.new r with_added_stake) }
    {
        if let Some(row) = self.rows.get_mut(&r) {
            let Some(stakes) = row.stakes.checked_add(1) else {
                return Err(AllocError);
            };
            row.stakes = stakes;
        }
        Ok(())
    }

    /// A stake in a live region ends. With the last one the region is removed: its objects are freed, and its pages count as
    /// returned.
    pub(crate) fn leave(&mut self, memory: &mut Memory, r: usize)
        ensures left { spec.TableChanges self.old self.new r one_fewer }
        ensures memory { spec.MemoryLeaves self.old (memory_view memory.old) (memory_view memory.new) r }
    {
        // Never taken: the region is live, so it has a row.
        let Some(row) = self.rows.get_mut(&r) else {
            return;
        };
        if row.stakes > 1 {
            row.stakes -= 1;
            return;
        }
        let Some(row) = self.rows.remove(&r) else {
            return;
        };
        take_away_all(memory, &row.objects);
        // Neither sum passes one of these, so both fit.
        let _made = self.made;
        let _taken = self.taken;
        self.removed = self.removed.saturating_add(1);
        self.returned = self.returned.saturating_add(row.pages);
    }

    /// One more page in a live region, or in Global.
    ///
    /// # Errors
    ///
    /// If the count of pages would overflow. Then nothing changed.
    pub(crate) fn take_page(&mut self, region: Region) -> Result<(), AllocError>
        ensures taken { OnOk result (spec.TableTakesPage self.old self.new region) }
    {
        let Some(taken) = self.taken.checked_add(1) else {
            return Err(AllocError);
        };
        if let Region::Numbered(r) = region {
            if let Some(row) = self.rows.get_mut(&r) {
                let Some(pages) = row.pages.checked_add(1) else {
                    return Err(AllocError);
                };
                row.pages = pages;
            }
        }
        self.taken = taken;
        Ok(())
    }

    /// A new object, by its number, in a live region or in Global.
    ///
    /// # Errors
    ///
    /// On allocation failure. Then nothing changed.
    pub(crate) fn own(&mut self, region: Region, object: usize) -> Result<(), AllocError>
        ensures owned { OnOk result (spec.TableOwns self.old self.new region object) }
    {
        if let Region::Numbered(r) = region {
            if let Some(row) = self.rows.get_mut(&r) {
                row.objects.push(object)?;
            }
        }
        Ok(())
    }
}

/// Frees these objects.
fn take_away_all(memory: &mut Memory, objects: &[usize])
    ensures { memory_view memory.new ≡ spec.without_objects objects.now (memory_view memory.old) }
{
    for object in objects {
        memory.take_away(*object);
    }
}
