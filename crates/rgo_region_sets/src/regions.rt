//! Region parameters: the classes whose regions a caller passes.

ghost use Rattle.std.specs.Prelude.{◌≡◌, ◌++◌, ◌∷◌, List, [], IfOk, OnOk};
ghost use Rattle.rgo_code.specs.Names as names;
ghost use Rattle.rgo_tac.specs.declared.regions.Class.{Class};
ghost use Rattle.rgo_region_sets.specs.Seen.{IsSeen};

use crate::names::{name_of, see};
use rgo_code::{Class, CodeFn};
use std::alloc::{AllocError, Global};
use std::collections::BTreeSet;

/// The classes of the parameters.
pub fn parameter_classes(alloc: Global, f: &CodeFn<'_>) -> Result<Vec<Class>, AllocError>
    ensures { IfOk result (λ classes. classes.items ≡ names.parameter_classes f.now.params f.now.variables) }
{
    let mut classes = Vec::new(alloc);
    let count = f.tac().params().min(f.tac().variable_count() as usize);
    for variable in 0..count as u32 {
        classes.push(f.class_of(variable))?;
    }
    Ok(classes)
}

/// Adds the class if it is a name that was not seen before.
fn add_distinct(
    distinct: &mut Vec<Class>,
    seen: &mut BTreeSet<u32>,
    class: Class,
) -> Result<(), AllocError>
    ensures { OnOk result ((classes : List Class) → IsSeen seen.old classes
        → (distinct.new.items ≡ distinct.old.items ++ names.distinct_names classes (class ∷ []))
        × IsSeen seen.new (classes ++ class ∷ [])) }
{
    match name_of(class) {
        Some(name) => {
            if see(seen, name)? {
                distinct.push(class)?;
            }
            Ok(())
        }
        None => Ok(()),
    }
}

/// The names among classes, each once, at its first place.
fn distinct_names(alloc: Global, classes: &[Class]) -> Result<Vec<Class>, AllocError>
    ensures { IfOk result (λ distinct. distinct.items ≡ names.distinct_names [] classes.now) }
{
    let mut distinct = Vec::new(alloc);
    let mut seen = BTreeSet::new(alloc);
    for class in classes {
        add_distinct(&mut distinct, &mut seen, *class)?;
    }
    Ok(distinct)
}

/// The names of the parameters' classes, then that of the result, each once. Calls pass regions in this order, which follows from the
/// classes and is written nowhere.
///
/// # Errors
///
/// On allocation failure.
pub fn region_parameters(alloc: Global, f: &CodeFn<'_>) -> Result<Vec<Class>, AllocError>
    ensures { IfOk result (λ regions. regions.items ≡ names.region_parameters f.now) }
{
    let mut classes = parameter_classes(alloc, f)?;
    classes.push(f.result_class())?;
    distinct_names(alloc, &classes)
}
