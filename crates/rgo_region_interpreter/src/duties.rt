//! Steps with regions: creations, stakes, protections and removals. What a goroutine owes before an instruction is in the code; a
//! number in its holder says how much of it is done, so a turn may end between any two of these steps and lose nothing.

ghost use Rattle.std.specs.Prelude.{◌≡◌, ◌+◌, ◌++◌, ◌∷◌, [], ℕ, List, Some, true, MatchResult, OnOk, length, map, slice_get};
ghost use Rattle.rgo_region_machine.specs.Owed.{regions_named};
ghost use Rattle.rgo_region_machine.specs.Regions.{one_fewer};
ghost use Rattle.rgo_region_machine.specs.States as region;
ghost use Rattle.rgo_region_machine.specs.States.{Duty, Create, Protect, Unprotect, Remove, EndBase, RegionState};
ghost use Rattle.rgo_region_interpreter.specs.Attending.{has_key, EndsStake, SharesOne, CreatesAll, ProtectsAll, SharesAll, FailsToCreate};
ghost use Rattle.rgo_region_interpreter.specs.Tables.{MemoryLeaves, TableChanges};
ghost use Rattle.rgo_region_interpreter.specs.Works.{Works, Attended, WorldAttends, WorldHalts, Between, SameRun, KeepsOthers, IsNextInWorld, Readies, Falls, done_of};

use crate::tables::Table;
use crate::worlds::{Halt, Next, World};
use rgo_interpreter::State;
use rgo_machine::Shortage;
use rgo_region_machine::Region;
use rgo_tac::{Class, Op};
use rgo_tac_interpreter::Frame;
use std::alloc::{AllocError, Global};
use std::collections::HashMap;

/// A stake in a live region ends, and with the last one the region.
fn leave_region(table: &mut Table, state: &mut State<Frame>, r: usize)
    ensures left { TableChanges table.old table.new r one_fewer }
    ensures memory { MemoryLeaves table.old state.old.memory state.new.memory r }
    ensures same { state.new ≡ record state.old { memory = state.new.memory } }
{
    table.leave(&mut state.memory, r);
}

impl<'a> World<'a> {
    /// Creates a region for a name of a goroutine's newest frame. Room is tested first, so without it nothing has changed. The number
    /// of live regions is that of all goroutines together.
    fn create(&mut self, alloc: Global, g: usize, name: u32) -> Result<(), Halt>
        ensures created { MatchResult result (λ _. (rest : List Duty) → WorldAttends self.old self.new g (Create name ∷ rest) rest)
            (λ halt. WorldHalts halt self.old self.new) }
        ensures same { SameRun self.old self.new }
        ensures done { OnOk result (done_of self.new g ≡ done_of self.old g) }
    {
        if self.table.live() >= self.sizes.regions {
            return Err(Halt::NoRoom(Shortage::Regions));
        }
        let r = self.table.create(alloc)?;
        if let Some(holder) = self.holders.get_mut(g) {
            holder.bind(name, Region::Numbered(r))?;
        }
        Ok(())
    }

    /// A call protects the region of a name.
    fn protect(&mut self, g: usize, name: u32) -> Result<(), AllocError>
        ensures protected { OnOk result ((rest : List Duty) → WorldAttends self.old self.new g (Protect name ∷ rest) rest) }
        ensures same { SameRun self.old self.new }
        ensures done { OnOk result (done_of self.new g ≡ done_of self.old g) }
    {
        if let Some(holder) = self.holders.get_mut(g) {
            if let Some(region) = holder.region(name) {
                holder.protect(region)?;
            }
        }
        Ok(())
    }

    /// The protection of the region of a name ends.
    fn unprotect(&mut self, g: usize, name: u32)
        ensures unprotected { (rest : List Duty) → WorldAttends self.old self.new g (Unprotect name ∷ rest) rest }
        ensures done { done_of self.new g ≡ done_of self.old g }
    {
        if let Some(holder) = self.holders.get_mut(g) {
            if let Some(region) = holder.region(name) {
                holder.unprotect(region);
            }
        }
    }

    /// A stake for a goroutine that is about to start, in the region of a name; one for each region. `shared` has the regions that were
    /// shared for this start already.
    fn share(
        &mut self,
        g: usize,
        name: u32,
        shared: &mut HashMap<usize, ()>,
    ) -> Result<(), AllocError>
        ensures shared { OnOk result (SharesOne self.old self.new g name (has_key shared.old) (has_key shared.new)) }
        ensures same { SameRun self.old self.new }
        ensures done { OnOk result (done_of self.new g ≡ done_of self.old g) }
    {
        let Some(holder) = self.holders.get(g) else {
            return Ok(());
        };
        let Some(region) = holder.region(name) else {
            return Ok(());
        };
        let Region::Numbered(r) = region else {
            return Ok(());
        };
        if shared.contains_key(&r) {
            return Ok(());
        }
        match shared.insert(r, ()) {
            Ok(_) => {}
            Err(_) => return Err(AllocError),
        }
        self.table.share(r)?;
        Ok(())
    }

    /// A goroutine's stake in a region ends, unless the goroutine protects the region. That it has a stake is not tested: it comes here
    /// only with a region that a name of its own denoted, or that is in its base.
    fn end_stake(&mut self, g: usize, region: Region)
        ensures ended { EndsStake self.old self.new g region }
        ensures done { done_of self.new g ≡ done_of self.old g }
    {
        let Region::Numbered(r) = region else {
            return;
        };
        let Some(holder) = self.holders.get_mut(g) else {
            return;
        };
        if holder.guards(r) {
            return;
        }
        holder.leave(r);
        leave_region(&mut self.table, &mut self.state, r);
    }

    /// A name is removed: it denotes nothing from now on, even if its region is protected and stays.
    fn remove(&mut self, g: usize, name: u32)
        ensures removed { (rest : List Duty) → WorldAttends self.old self.new g (Remove name ∷ rest) rest }
        ensures done { done_of self.new g ≡ done_of self.old g }
    {
        let Some(holder) = self.holders.get_mut(g) else {
            return;
        };
        let Some(region) = holder.region(name) else {
            return;
        };
        holder.unbind(name);
        self.end_stake(g, region);
    }

    /// These names are removed, one after the other.
    pub(crate) fn remove_all(&mut self, g: usize, names: &[u32])
        ensures removed { (rest : List Duty) → WorldAttends self.old self.new g (map Remove names.now ++ rest) rest }
        ensures done { done_of self.new g ≡ done_of self.old g }
    {
        for name in names {
            self.remove(g, *name);
        }
    }

    /// The protections of these names end.
    pub(crate) fn unprotect_all(&mut self, g: usize, names: &[u32])
        ensures unprotected { (rest : List Duty) → WorldAttends self.old self.new g (map Unprotect names.now ++ rest) rest }
        ensures done { done_of self.new g ≡ done_of self.old g }
    {
        for name in names {
            self.unprotect(g, *name);
        }
    }

    /// A goroutine has returned: the regions that were passed at two positions when it started are unprotected and removed.
    pub(crate) fn end_base(&mut self, g: usize)
        ensures ended { (s : RegionState) (h : region.Holder) → slice_get s.holders g ≡ Some h
            → Works self.old s g (map EndBase h.base) → Attended self.old self.new s g [] }
        ensures done { done_of self.new g ≡ done_of self.old g }
    {
        loop {
            let Some(holder) = self.holders.get_mut(g) else {
                return;
            };
            let Some(r) = holder.end_base() else {
                return;
            };
            self.end_stake(g, Region::Numbered(r));
        }
    }

    /// One more of the steps is done that a goroutine owes before its next instruction.
    ///
    /// # Errors
    ///
    /// If the count would overflow. Then nothing changed.
    fn count_done(&mut self, g: usize) -> Result<(), AllocError>
        ensures works { (s : RegionState) (duties : List Duty) → Works self.old s g duties → Works self.new s g duties }
        ensures done { OnOk result ((s : RegionState) (duties : List Duty) → Works self.old s g duties
            → done_of self.new g ≡ done_of self.old g + 1) }
        ensures same { SameRun self.old self.new }
        ensures others { KeepsOthers self.old self.new g }
    {
        if let Some(holder) = self.holders.get_mut(g) {
            let Some(done) = holder.done.checked_add(1) else {
                return Err(AllocError);
            };
            holder.done = done;
        }
        Ok(())
    }

    /// How many of these steps are done.
    fn done(&self, g: usize) -> usize
        ensures { result ≡ done_of self.now g }
    {
        match self.holders.get(g) {
            Some(holder) => holder.done,
            None => 0,
        }
    }

    /// Creates what is left to create before a goroutine's next instruction. Each creation is counted when it is done, so after a lack
    /// of room a later turn creates none of them twice.
    fn create_all(&mut self, alloc: Global, g: usize, names: &[u32]) -> Result<(), Halt>
        ensures created { MatchResult result (λ _. CreatesAll self.old self.new g names.now)
            (λ halt. FailsToCreate halt self.old self.new g names.now) }
        ensures same { SameRun self.old self.new }
    {
        for i in self.done(g)..names.len() {
            self.create(alloc, g, names[i])?;
            self.count_done(g)?;
        }
        Ok(())
    }

    /// Protects what is left to protect. The number of steps done counts the `created` creations before them.
    fn protect_all(&mut self, g: usize, created: usize, names: &[u32]) -> Result<(), AllocError>
        ensures protected { OnOk result (ProtectsAll self.old self.new g created names.now) }
        ensures same { SameRun self.old self.new }
    {
        for i in self.done(g).saturating_sub(created)..names.len() {
            self.protect(g, names[i])?;
            self.count_done(g)?;
        }
        Ok(())
    }

    /// The regions that a goroutine's start passes are shared, unless they are. Either none is shared yet or all are: no room is needed
    /// for a share, so a turn never ends between two of them.
    fn share_all(
        &mut self,
        alloc: Global,
        g: usize,
        created: usize,
        passes: &[Class],
    ) -> Result<(), AllocError>
        ensures shared { OnOk result (SharesAll self.old self.new g created (regions_named passes.now)) }
        ensures same { SameRun self.old self.new }
    {
        if self.done(g) > created {
            return Ok(());
        }
        let mut shared = HashMap::new(alloc);
        for class in passes {
            match *class {
                Class::NoClass | Class::Global => {}
                Class::Name(name) => {
                    self.share(g, name, &mut shared)?;
                    self.count_done(g)?;
                }
            }
        }
        Ok(())
    }

    /// Does what is left to do of what a goroutine owes before its next instruction. The creations come first, as in the machine: what
    /// is protected or shared may have just been created.
    pub(crate) fn prepare(&mut self, alloc: Global, g: usize, next: &Next<'a>) -> Result<(), Halt>
        requires next { IsNextInWorld self.old g next.now }
        ensures readied { MatchResult result (λ _. (s : RegionState) → Between self.old s → Readies self.old self.new s g)
            (λ halt. Falls halt self.old self.new g) }
    {
        let creates = next.function.creates(next.at);
        self.create_all(alloc, g, creates)?;
        match next.op {
            Op::Call { .. } => {
                self.protect_all(g, creates.len(), next.function.protects(next.at))?;
            }
            Op::Go { .. } => {
                self.share_all(alloc, g, creates.len(), next.function.passes(next.at))?;
            }
            Op::Do { .. } | Op::Print { .. } | Op::Jump(_) | Op::Branch { .. } | Op::Return(_) => {}
        }
        Ok(())
    }

    /// Nothing is done yet of what a goroutine owes before its next instruction. Called after each instruction, before its removals,
    /// which are not counted.
    pub(crate) fn owe(&mut self, g: usize)
        ensures works { (s : RegionState) (duties : List Duty) → Works self.old s g duties → Works self.new s g duties }
        ensures done { done_of self.new g ≡ 0 }
        ensures same { SameRun self.old self.new }
        ensures others { KeepsOthers self.old self.new g }
    {
        if let Some(holder) = self.holders.get_mut(g) {
            holder.done = 0;
        }
    }
}
