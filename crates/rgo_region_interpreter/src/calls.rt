//! Calls, starts and returns: what they do to the names and regions of goroutines. They come after the instruction itself, and take no
//! stake: the stakes of a new goroutine were shared before it started, and a call's stay with the goroutine.

ghost use Rattle.std.specs.Prelude.{◌≡◌, [], ℕ, List, IfOk, OnOk, map, slice_get};
ghost use Rattle.std.specs.List.Sorted.{IsStrictlyIncreasing};
ghost use Rattle.rgo_region_machine.specs.Owed as owed;
ghost use Rattle.rgo_region_machine.specs.Regions.{Bindings, bound};
ghost use Rattle.rgo_region_machine.specs.declared.regions.Region.TheVariants.{Numbered};
ghost use Rattle.rgo_region_interpreter.specs.Calls as spec;
ghost use Rattle.rgo_region_interpreter.specs.Calls.{or_no_elements};
ghost use Rattle.rgo_region_interpreter.specs.Holders.{bound_in};
ghost use Rattle.rgo_region_interpreter.specs.Works.{IsNextOfSome, SameRun};
ghost use Rattle.rgo_region_interpreter.specs.Worlds.{Prepared};

use crate::holders::{Holder, Names, bind, region_of};
use crate::worlds::{Next, World};
use rgo_code::Code;
use rgo_region_machine::Region;
use rgo_tac::Class;
use std::alloc::{AllocError, Global};
use std::collections::HashMap;

/// The region of a class, by these names.
fn region_by(names: &[Option<Region>], class: Class) -> Option<Region>
    ensures { result ≡ spec.class_region_in names.now class }
{
    match class {
        Class::NoClass => None,
        Class::Global => Some(Region::Global),
        Class::Name(name) => region_of(names, name),
    }
}

/// The regions that a call passes, by the names of the caller.
fn passed_regions(
    alloc: Global,
    names: &[Option<Region>],
    passes: &[Class],
) -> Result<Vec<Option<Region>>, AllocError>
    ensures { IfOk result (λ v. (bindings : Bindings) → spec.NamesStandFor names.now bindings
        → v.items ≡ owed.passed_regions bindings passes.now) }
{
    let mut regions = Vec::with_capacity(alloc, passes.len())?;
    for class in passes {
        regions.push_reserved(region_by(names, *class));
    }
    Ok(regions)
}

/// Binds a name to the region that is passed for it, if one is. The first of two equal names counts, as a search in the machine's list
/// finds the first.
///
/// # Errors
///
/// On allocation failure.
fn bind_first(names: &mut Names, name: u32, passed: Option<Region>) -> Result<(), AllocError>
    ensures { OnOk result ((k : ℕ) → bound_in names.new.items k ≡ spec.bound_first names.old.items name passed k) }
{
    let Some(region) = passed else {
        return Ok(());
    };
    match region_of(names, name) {
        Some(_) => Ok(()),
        None => bind(names, name, region),
    }
}

/// Binds the names of a called function to the regions that are passed by the names of the caller. The two lists of a call are equally
/// long; if they were not, the rest of the longer one would not count, as in the definition.
///
/// # Errors
///
/// On allocation failure.
fn fill(
    names: &mut Names,
    formals: &[Class],
    passes: &[Class],
    callers: &[Option<Region>],
) -> Result<(), AllocError>
    requires empty { names.old.items ≡ [] }
    ensures { OnOk result ((bindings : Bindings) → spec.NamesStandFor callers.now bindings
        → spec.NamesStandFor names.new.items (owed.passed formals.now (owed.passed_regions bindings passes.now))) }
{
    for i in 0..formals.len().min(passes.len()) {
        match formals[i] {
            Class::NoClass | Class::Global => {}
            Class::Name(name) => bind_first(names, name, region_by(callers, passes[i]))?,
        }
    }
    Ok(())
}

/// The regions that are passed at two positions, each once, in the order in which they end. The loop goes from the back, as the
/// definition recurs: a region is listed when it is met for the second time from there.
fn twice(alloc: Global, regions: &[Option<Region>]) -> Result<Vec<usize>, AllocError>
    ensures { IfOk result (λ found. map Numbered found.items ≡ owed.twice regions.now) }
{
    let mut seen: HashMap<usize, bool> = HashMap::new(alloc);
    let mut found = Vec::new(alloc);
    let mut i = regions.len();
    while i > 0 {
        i -= 1;
        let Some(region) = regions[i] else {
            continue;
        };
        let Region::Numbered(r) = region else {
            continue;
        };
        match seen.get(&r) {
            Some(true) => {}
            Some(false) => {
                found.push(r)?;
                if seen.insert(r, true).is_err() {
                    return Err(AllocError);
                }
            }
            None => {
                if seen.insert(r, false).is_err() {
                    return Err(AllocError);
                }
            }
        }
    }
    found.reverse();
    Ok(found)
}

/// Whether two classes are the same; `NoClass` is not the same as anything.
fn same_class(a: Class, b: Class) -> bool
    ensures { result ≡ owed.same_class a b }
{
    match a {
        Class::NoClass => false,
        Class::Global => match b {
            Class::NoClass => false,
            Class::Global => true,
            Class::Name(_) => false,
        },
        Class::Name(k) => match b {
            Class::NoClass => false,
            Class::Global => false,
            Class::Name(j) => k == j,
        },
    }
}

/// Takes away the names of a caller that it gives to its callee: those that it passes, does not protect, and does not pass for the
/// callee's result. The search needs the lists of names in the code to be ascending.
fn leave_given(
    holder: &mut Holder,
    lent: Class,
    formals: &[Class],
    passes: &[Class],
    protects: &[u32],
)
    ensures { IsStrictlyIncreasing protects.now
        → spec.UnbindsAll holder.old holder.new (owed.given_names lent formals.now passes.now protects.now) }
{
    for i in 0..formals.len().min(passes.len()) {
        match passes[i] {
            Class::NoClass | Class::Global => {}
            Class::Name(name) => {
                if !same_class(formals[i], lent) && protects.binary_search(&name).is_err() {
                    holder.unbind(name);
                }
            }
        }
    }
}

/// The region parameters of the function of this number, of those of all.
fn formals_at(formals: &[Vec<Class>], n: usize) -> &[Class]
    ensures { result.now ≡ or_no_elements (slice_get (map (λ v. v.items) formals.now) n) }
{
    match formals.get(n) {
        Some(formals) => formals,
        None => &[],
    }
}

/// The class of a function's result.
fn result_class(code: &Code, n: usize) -> Class
    ensures { result ≡ owed.function_result_class (owed.code_function code.now n) }
{
    match code.function(n) {
        Some(function) => function.result_class(),
        None => Class::NoClass,
    }
}

impl<'a> World<'a> {
    /// The names that a function removes when it is entered.
    pub(crate) fn entry(&self, function: usize) -> &'a [u32]
        ensures { result.now ≡ owed.entry_removes (owed.code_function self.now.code.now function) }
    {
        match self.code.function(function) {
            Some(function) => function.entry(),
            None => &[],
        }
    }

    /// A goroutine has called a function: its newest names are those of the callee. They are bound before the caller loses what it
    /// gives, since they get what the caller's names denote.
    ///
    /// # Errors
    ///
    /// On allocation failure.
    pub(crate) fn enter(
        &mut self,
        alloc: Global,
        g: usize,
        next: &Next<'a>,
        callee: usize,
    ) -> Result<(), AllocError>
        requires next { IsNextOfSome self.old.code.now next.now }
        requires prepared { Prepared self.old }
        ensures entered { OnOk result (spec.EntersCall self.old self.new g (owed.code_function self.old.code.now callee)
            (slice_get next.now.function.body next.now.at)) }
        ensures same { SameRun self.old self.new }
    {
        let formals = formals_at(&self.formals, callee);
        let Some(holder) = self.holders.get_mut(g) else {
            return Ok(());
        };
        let passes = next.function.passes(next.at);
        let mut names = holder.take_spare(alloc);
        fill(&mut names, formals, passes, holder.names())?;
        leave_given(
            holder,
            result_class(self.code, callee),
            formals,
            passes,
            next.function.protects(next.at),
        );
        holder.enter(names)?;
        Ok(())
    }

    /// A goroutine has started another, which has the stakes that were shared for it. No stake is counted here: each share has added
    /// its own.
    ///
    /// # Errors
    ///
    /// On allocation failure.
    pub(crate) fn begin(
        &mut self,
        alloc: Global,
        g: usize,
        next: &Next<'a>,
        callee: usize,
    ) -> Result<(), AllocError>
        requires prepared { Prepared self.old }
        ensures begun { OnOk result (spec.BeginsOther self.old self.new g (owed.code_function self.old.code.now callee)
            (slice_get next.now.function.body next.now.at)) }
        ensures same { SameRun self.old self.new }
    {
        let formals = formals_at(&self.formals, callee);
        let Some(holder) = self.holders.get(g) else {
            return Ok(());
        };
        let passes = next.function.passes(next.at);
        let callers = holder.names();
        let mut names = Vec::new(alloc);
        fill(&mut names, formals, passes, callers)?;
        let regions = passed_regions(alloc, callers, passes)?;
        let base = twice(alloc, &regions)?;
        self.holders.push(Holder::new(alloc, names, base)?)?;
        Ok(())
    }

    /// A goroutine's newest function has returned: its names are dropped.
    pub(crate) fn come_back(&mut self, g: usize)
        ensures back { spec.LeavesCall self.old self.new g }
    {
        if let Some(holder) = self.holders.get_mut(g) {
            holder.come_back();
        }
    }
}
