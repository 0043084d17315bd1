//! Names of classes, in the order of their first members: so they do not depend on which label survived each join.

ghost use Rattle.std.specs.Prelude.{◌≡◌, ◌⊎◌, ◌<◌, ◌≤◌, ◌+◌, ◌^◌, ◌++◌, ◌∷◌, [], ℕ, List, length, vec_len, set, replicate, IfOk, OnOk};
ghost use Rattle.rgo_tac.specs.declared.regions.Class.{Class as AnyClass};
ghost use Rattle.rgo_tac.specs.declared.regions.Class.TheVariants as class;
ghost use Rattle.rgo_tac.specs.declared.regions.Member.{Member as AnyMember};
ghost use Rattle.rgo_tac.specs.declared.regions.Member.TheVariants as member;
ghost use Rattle.rgo_classes.specs.Classes.{AreNamed, variables_before};
ghost use Rattle.rgo_classes.specs.Labels.{AreFor, label_of};
ghost use Rattle.rgo_classes.specs.Naming.{AreLike, TakesNextName, HasClassAlready, Naming};

use crate::classes::Classes;
use crate::labels::Labels;
use rgo_tac::{Class, Member, TacFn, is_pointer_like};
use rgo_typed::Row;
use std::alloc::{AllocError, Global};

/// The class of a label, which gets the next name if it has none.
fn class_of(given: &mut [Class], next: &mut u32, label: usize) -> Class
    requires label { label < length given.old }
    requires next { next.old + 1 < 2 ^ 32 }
    ensures len { length given.new ≡ length given.old }
    ensures next { next.new ≤ next.old + 1 }
    ensures class { HasClassAlready given.old next.old label given.new next.new result
        ⊎ TakesNextName given.old next.old label given.new next.new result }
{
    match given[label] {
        Class::NoClass => {
            let class = Class::Name(*next);
            given[label] = class;
            *next += 1;
            class
        }
        Class::Global => Class::Global,
        Class::Name(name) => Class::Name(name),
    }
}

/// The class of a member. Only pointers, slices and channels have one: no other value leads into a region.
fn name_member(
    function: &TacFn,
    labels: &Labels,
    given: &mut [Class],
    next: &mut u32,
    member: Member,
) -> Class
    requires fits { AreFor function.now labels.now }
    requires size { length given.old ≡ length labels.now }
    requires next { next.old + 1 < 2 ^ 32 }
    ensures len { length given.new ≡ length given.old }
    ensures next { next.new ≤ next.old + 1 }
    ensures class { (members : List AnyMember) (classes : List AnyClass)
        → Naming labels.now function.now members classes given.old next.old
        → Naming labels.now function.now (members ++ member ∷ []) (classes ++ result ∷ []) given.new next.new }
{
    if !is_pointer_like(function, member) {
        return Class::NoClass;
    }
    class_of(given, next, labels.label(member))
}

/// The classes of the first variables.
fn name_variables(
    alloc: Global,
    function: &TacFn,
    labels: &Labels,
    given: &mut [Class],
    next: &mut u32,
    count: u32,
) -> Result<Vec<Class>, AllocError>
    requires fits { AreFor function.now labels.now }
    requires size { length given.old ≡ length labels.now }
    requires next { next.old ≡ 0 }
    requires count { count + 1 < 2 ^ 32 }
    requires none { Naming labels.now function.now [] [] given.old next.old }
    ensures len { length given.new ≡ length given.old }
    ensures next { next.new ≤ count }
    ensures classes { IfOk result (λ classes.
        Naming labels.now function.now (variables_before count []) classes.items given.new next.new) }
{
    let mut classes = Vec::new(alloc);
    for v in 0..count {
        classes.push(name_member(function, labels, given, next, Member::Variable(v)))?;
    }
    Ok(classes)
}

/// The classes that labels have before any of them has a name: only that of the package variables has one.
fn only_global(alloc: Global, labels: &Labels) -> Result<Vec<Class>, AllocError>
    requires { 0 < length labels.now }
    ensures given { IfOk result (λ given. given.items
        ≡ set (replicate (length labels.now) class.NoClass) (label_of labels.now member.Global) class.Global) }
    ensures below { OnOk result (label_of labels.now member.Global < length labels.now) }
{
    let mut given = vec![in alloc; Class::NoClass; labels.len()]?;
    given[labels.label(Member::Global)] = Class::Global;
    Ok(given)
}

/// Adds the classes of the variables from one number up to another. The function has none of them, so they have no class.
fn add_missing(
    function: &TacFn,
    classes: &mut Vec<Class>,
    from: usize,
    to: usize,
) -> Result<(), AllocError>
    requires order { from ≤ to }
    requires past { from < to → length function.now.variables ≤ from }
    ensures { OnOk result ((labels : List ℕ) (given : List AnyClass) (next : ℕ)
        → Naming labels function.now (variables_before from []) classes.old.items given next
        → Naming labels function.now (variables_before to []) classes.new.items given next) }
{
    for v in from..to {
        classes.push(Class::NoClass)?;
    }
    Ok(())
}

/// The classes of the first variables and of the result. The variables below `inside` are those that the function has.
fn name_outer(
    alloc: Global,
    function: &TacFn,
    labels: &Labels,
    given: &mut [Class],
    inside: u32,
    count: usize,
) -> Result<Classes, AllocError>
    requires fits { AreFor function.now labels.now }
    requires size { length given.old ≡ length labels.now }
    requires few { inside + 1 < 2 ^ 32 }
    requires order { inside ≤ count }
    requires past { inside < count → length function.now.variables ≤ inside }
    requires none { Naming labels.now function.now [] [] given.old 0 }
    ensures { IfOk result (λ c. AreNamed (AreLike labels.now) function.now
        (variables_before count (member.Result ∷ [])) (c.variables ++ c.result ∷ [])) }
{
    let mut next = 0;
    let mut variables = name_variables(alloc, function, labels, given, &mut next, inside)?;
    add_missing(function, &mut variables, inside as usize, count)?;
    let result = name_member(function, labels, given, &mut next, Member::Result);
    Ok(Classes {
        variables: Row::new(variables),
        result,
    })
}

/// The classes of the first `count` variables and of the result: one for each label.
///
/// # Errors
///
/// On allocation failure.
pub fn name(
    alloc: Global,
    function: &TacFn,
    labels: &Labels,
    count: usize,
) -> Result<Classes, AllocError>
    requires fits { AreFor function.now labels.now }
    ensures { IfOk result (λ c. AreNamed (AreLike labels.now) function.now
        (variables_before count (member.Result ∷ [])) (c.variables ++ c.result ∷ [])) }
{
    let mut given = only_global(alloc, labels)?;
    let inside = count.min(function.variable_count() as usize) as u32;
    name_outer(alloc, function, labels, given.as_mut_slice(), inside, count)
}
