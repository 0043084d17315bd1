//! The region parameters of functions, and the place of each name among them.

ghost use Rattle.std.specs.Prelude.{◌≡◌, ℕ, Some, slice_get, nat_eq, IfOk, OnOk};
ghost use Rattle.rgo_tac.specs.declared.regions.Class.{Class as AnyClass};
ghost use Rattle.std.specs.HashMap.{get};
ghost use Rattle.rgo_code.specs.Names as names;
ghost use Rattle.rgo_checker.specs.ClassTests.{AreDistinctClasses, ArePlaces};
ghost use Rattle.rgo_checker.specs.Parameters.{place_with_class};

use rgo_code::{Class, CodeFn};
use rgo_region_sets::region_parameters;
use std::alloc::{AllocError, Global};
use std::collections::HashMap;

/// The region parameters of a function, and a map of their places: a call then looks up each argument's class once. Since the
/// names are distinct, the place of a name is unique.
#[derive(Drop)]
pub(crate) struct Parameters {
    pub classes: Vec<Class>,
    /// The place of each name among them.
    pub places: HashMap<u32, usize>,
    ghost distinct: { AreDistinctClasses classes.items },
    ghost placed: { ArePlaces classes.items places },
}

fn place(places: &mut HashMap<u32, usize>, class: Class, p: usize) -> Result<(), AllocError>
    ensures { OnOk result ((q : ℕ) → get nat_eq places.new q ≡ place_with_class class p q (get nat_eq places.old q)) }
{
    match class {
        Class::Name(k) => {
            places.insert(k, p)?;
            Ok(())
        }
        Class::NoClass | Class::Global => Ok(()),
    }
}

fn class_at(classes: &[Class], p: usize) -> Option<Class>
    ensures { result ≡ slice_get classes.now p }
{
    classes.get(p).copied()
}

fn place_at(places: &mut HashMap<u32, usize>, classes: &[Class], p: usize) -> Result<(), AllocError>
    ensures { OnOk result ((class : AnyClass) → slice_get classes.now p ≡ Some class → (q : ℕ)
        → get nat_eq places.new q ≡ place_with_class class p q (get nat_eq places.old q)) }
{
    match class_at(classes, p) {
        Some(class) => place(places, class, p),
        None => Ok(()),
    }
}

fn places_of(alloc: Global, classes: &[Class]) -> Result<HashMap<u32, usize>, AllocError>
    ensures { IfOk result (λ places. ArePlaces classes.now places) }
{
    let mut places = HashMap::new(alloc);
    for p in 0..classes.len() {
        place_at(&mut places, classes, p)?;
    }
    Ok(places)
}

/// The region parameters of a function.
pub(crate) fn parameters_of(alloc: Global, f: &CodeFn<'_>) -> Result<Parameters, AllocError>
    ensures { IfOk result (λ p. p.classes.items ≡ names.region_parameters f.now) }
{
    let classes = region_parameters(alloc, f)?;
    let places = places_of(alloc, &classes)?;
    Ok(Parameters { classes, places })
}
