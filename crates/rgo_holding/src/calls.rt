//! Calls: which regions the names of a callee are bound to, and which names the caller gives up. `prepare_call` computes what a call
//! needs and takes the memory for it, before anything changes. `enter` then cannot fail, so a call is made as a whole or not at all.

ghost use Rattle.std.specs.List.Sorted.{IsStrictlyIncreasing};
ghost use Rattle.std.specs.Prelude.{◌≡◌, ℕ, [], List, OnOk, map};
ghost use Rattle.rgo_core_memory.specs.Records.{Fill};
ghost use Rattle.rgo_sound.specs.RegionMachine.Owed as owed;
ghost use Rattle.rgo_sound.specs.RegionMachine.States.{Holder};
ghost use Rattle.rgo_holding.specs.Changes.{KeepsHolding, SameRegions};
ghost use Rattle.rgo_holding.specs.Holds.{IsHoldingOf};
ghost use Rattle.rgo_holding.specs.Passing as spec;
ghost use Rattle.rgo_holding.specs.Naming.{Changed, KeepsRoom, cleared_keys};
ghost use Rattle.rgo_holding.specs.Tables.{IsOrdered, key_in};

use crate::frames::{Frames, key_of};
use crate::holding::Holding;
use crate::keys::{Key, global};
use rgo_sound::tac::Class;
use std::alloc::AllocError;

/// The key of a class.
fn class_key(keys: &[Option<Key>], class: Class) -> Option<Key>
    ensures { result ≡ spec.class_key keys.now class }
{
    match class {
        Class::NoClass => None,
        Class::Global => Some(global()),
        Class::Name(name) => key_of(keys, name),
    }
}

/// Binds a name to this key.
///
/// # Errors
///
/// On allocation failure.
fn bind(keys: &mut Vec<Option<Key>>, name: u32, key: Key) -> Result<(), AllocError>
    ensures { OnOk result ((k : ℕ) → key_in keys.new.items k ≡ spec.key_with keys.old.items name key k) }
{
    let name = name as usize;
    if keys.len() <= name {
        keys.resize(name + 1, None)?;
    }
    keys[name] = Some(key);
    Ok(())
}

/// Binds a name to the key that is passed for it, if one is. The first of two equal names counts, as in the region machine.
///
/// # Errors
///
/// On allocation failure.
fn bind_first(keys: &mut Vec<Option<Key>>, name: u32, passed: Option<Key>) -> Result<(), AllocError>
    ensures { OnOk result ((k : ℕ) → key_in keys.new.items k ≡ spec.first_key keys.old.items name passed k) }
{
    let Some(key) = passed else {
        return Ok(());
    };
    match key_of(keys, name) {
        Some(_) => Ok(()),
        None => bind(keys, name, key),
    }
}

/// The keys that are passed, by those of the caller's names.
///
/// # Errors
///
/// On allocation failure.
pub(crate) fn passed_keys(
    keys: &mut Vec<Option<Key>>,
    callers: &[Option<Key>],
    passes: &[Class],
) -> Result<(), AllocError>
    requires empty { keys.old.items ≡ [] }
    ensures { OnOk result (keys.new.items ≡ map (spec.class_key callers.now) passes.now) }
{
    for class in passes {
        keys.push(class_key(callers, *class))?;
    }
    Ok(())
}

/// Binds the names of a called function to the keys that are passed for them. The lists are equally long in checked code.
///
/// # Errors
///
/// On allocation failure.
pub(crate) fn pass(
    keys: &mut Vec<Option<Key>>,
    formals: &[Class],
    passed: &[Option<Key>],
) -> Result<(), AllocError>
    requires empty { keys.old.items ≡ [] }
    ensures { OnOk result ((k : ℕ) → key_in keys.new.items k ≡ spec.key_for formals.now passed.now k) }
{
    for i in 0..formals.len().min(passed.len()) {
        match formals[i] {
            Class::NoClass | Class::Global => {}
            Class::Name(name) => bind_first(keys, name, passed[i])?,
        }
    }
    Ok(())
}

/// Whether two classes are the same; `NoClass` is not the same as anything.
fn same_class(a: Class, b: Class) -> bool
    ensures { result ≡ owed.same_class a b }
{
    match a {
        Class::NoClass => false,
        Class::Global => match b {
            Class::NoClass => false,
            Class::Global => true,
            Class::Name(_) => false,
        },
        Class::Name(k) => match b {
            Class::NoClass => false,
            Class::Global => false,
            Class::Name(j) => k == j,
        },
    }
}

/// Takes away the names of a caller that it leaves to its callee: those that it passes, does not protect, and does not
/// pass for the callee's result. The callee removes these regions, so the caller must not name them any more.
fn leave_given(
    frames: &mut Frames,
    lent: Class,
    formals: &[Class],
    passes: &[Class],
    protects: &[u32],
)
    requires rises { IsStrictlyIncreasing protects.now }
    ensures clears { IsOrdered frames.old → Changed frames.old frames.new
        (λ keys. cleared_keys keys (owed.given_names lent formals.now passes.now protects.now)) }
    ensures room { KeepsRoom frames.old frames.new }
{
    for i in 0..formals.len().min(passes.len()) {
        match passes[i] {
            Class::NoClass | Class::Global => {}
            Class::Name(name) => {
                if !same_class(formals[i], lent) && protects.binary_search(&name).is_err() {
                    frames.set(name, None);
                }
            }
        }
    }
}

impl Holding {
    /// The names of a function that is about to be called, and memory for them. Nothing that the record shows has changed, so the call may
    /// still be given up.
    ///
    /// # Errors
    ///
    /// On allocation failure. Nothing has changed, whatever the result.
    pub fn prepare_call(&mut self, formals: &[Class], passes: &[Class]) -> Result<(), AllocError>
        ensures kept { KeepsHolding self.old self.new }
        ensures prepared { OnOk result (spec.IsPrepared self.new formals.now passes.now) }
        ensures regions { SameRegions self.old self.new }
    {
        self.passed.clear();
        passed_keys(&mut self.passed, self.frames.newest(), passes)?;
        self.callee.clear();
        pass(&mut self.callee, formals, &self.passed)?;
        self.frames.reserve_frame(self.callee.len())
    }

    /// A function is called. `lent` is the class of its result, whose region the caller lends. The names must be those of the last
    /// `prepare_call`.
    pub fn enter(&mut self, formals: &[Class], passes: &[Class], protects: &[u32], lent: Class)
        requires prepared { spec.IsPrepared self.old formals.now passes.now }
        requires rises { IsStrictlyIncreasing protects.now }
        ensures calls { (slots : ℕ) (h : Holder) (fills : List Fill) → IsHoldingOf slots self.old h fills
            → IsHoldingOf slots self.new (spec.calling h lent formals.now passes.now protects.now) fills }
        ensures regions { SameRegions self.old self.new }
    {
        leave_given(&mut self.frames, lent, formals, passes, protects);
        self.frames.enter(&self.callee);
    }
}
