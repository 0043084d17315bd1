//! Steps over a table of blocks, with what names mean after them, worked out by hand.

ghost use Rattle.std.specs.Prelude.{◌≡◌, OnOk};

use crate::checks::same;
use rgo_scopes::Scopes;
use std::alloc::{AllocError, Global};
use std::process::Abort;
use std::test::Fail;

/// What is done to the table, or what it has to return.
enum Step {
    Enter,
    Leave,
    Declare(&'static str, u32),
    Means(&'static str, u32),
    MeansNothing(&'static str),
    IsHere(&'static str, bool),
}

/// Inner blocks shadow names, and uncover them as they end.
static SHADOWING: [Step; 26] = [
    Step::Declare("x", 1),
    Step::Declare("y", 2),
    Step::Enter,
    Step::Means("x", 1),
    Step::IsHere("x", false),
    Step::Declare("x", 3),
    Step::Means("x", 3),
    Step::IsHere("x", true),
    Step::Means("y", 2),
    Step::Enter,
    Step::Means("x", 3),
    Step::IsHere("x", false),
    Step::Declare("y", 4),
    Step::Declare("x", 5),
    Step::Means("x", 5),
    Step::Means("y", 4),
    Step::Leave,
    Step::Means("x", 3),
    Step::IsHere("x", true),
    Step::Means("y", 2),
    Step::IsHere("y", false),
    Step::Leave,
    Step::Means("x", 1),
    Step::IsHere("x", true),
    Step::Means("y", 2),
    Step::IsHere("y", true),
];

/// A block may declare a name again. A name is its bytes, all of them.
static AGAIN: [Step; 18] = [
    Step::MeansNothing("x"),
    Step::IsHere("x", false),
    Step::Declare("x", 1),
    Step::Declare("x", 2),
    Step::Means("x", 2),
    Step::MeansNothing("xx"),
    Step::MeansNothing(""),
    Step::Enter,
    Step::Declare("x", 3),
    Step::Declare("", 4),
    Step::Declare("x", 5),
    Step::Means("x", 5),
    Step::Means("", 4),
    Step::Leave,
    Step::Means("x", 2),
    Step::IsHere("x", true),
    Step::MeansNothing(""),
    Step::IsHere("", false),
];

/// The outermost block leaves no names, and can be used again.
static OUTERMOST: [Step; 20] = [
    Step::Leave,
    Step::MeansNothing("x"),
    Step::Declare("x", 1),
    Step::Enter,
    Step::Enter,
    Step::Means("x", 1),
    Step::Leave,
    Step::Leave,
    Step::IsHere("x", true),
    Step::Leave,
    Step::MeansNothing("x"),
    Step::IsHere("x", false),
    Step::Declare("x", 2),
    Step::Enter,
    Step::Declare("y", 3),
    Step::Leave,
    Step::Means("x", 2),
    Step::MeansNothing("y"),
    Step::Leave,
    Step::MeansNothing("x"),
];

fn take<'a, R: Abort>(
    rt: &R,
    scopes: &mut Scopes<'a, u32>,
    step: &'a Step,
) -> Result<(), AllocError> {
    match step {
        Step::Enter => scopes.enter()?,
        Step::Leave => scopes.leave(),
        Step::Declare(name, value) => scopes.declare(name.as_bytes(), *value)?,
        Step::Means(name, value) => same(rt, name, &scopes.get(name.as_bytes()), &Some(*value)),
        Step::MeansNothing(name) => same(rt, name, &scopes.get(name.as_bytes()), &None),
        Step::IsHere(name, wanted) => {
            same(rt, name, &scopes.is_declared_here(name.as_bytes()), wanted);
        }
    }
    Ok(())
}

fn take_all<R: Abort + AllocGlobal>(rt: &R, steps: &[Step]) -> Result<(), Fail> {
    let mut scopes = Scopes::new(rt.alloc());
    for step in steps {
        take(rt, &mut scopes, step)?;
    }
    Ok(())
}

#[test]
fn names_mean_their_newest_declarations(rt: HostRuntime) -> Result<(), Fail> {
    take_all(&rt, &SHADOWING)?;
    take_all(&rt, &AGAIN)?;
    take_all(&rt, &OUTERMOST)
}

/// 4,096 names of two bytes each, one after another.
fn many_names(alloc: Global) -> Result<Vec<u8>, Fail> {
    let mut text = Vec::new(alloc);
    for high in 0..64u8 {
        for low in 0..64u8 {
            text.push(high)?;
            text.push(low)?;
        }
    }
    Ok(text)
}

/// Declares each name with its number in a block.
fn declare_all<'a>(
    scopes: &mut Scopes<'a, (u8, usize)>,
    block: u8,
    text: &'a [u8],
) -> Result<(), AllocError> {
    for (number, name) in text.chunks(2).enumerate() {
        scopes.declare(name, (block, number))?;
    }
    Ok(())
}

fn all_mean<R: Abort>(rt: &R, scopes: &Scopes<'_, (u8, usize)>, block: u8, text: &[u8]) {
    for (number, name) in text.chunks(2).enumerate() {
        same(rt, "a name", &scopes.get(name), &Some((block, number)));
    }
}

#[test]
fn many_names_have_their_meanings(rt: HostRuntime) -> Result<(), Fail> {
    let text = many_names(rt.alloc())?;
    let mut scopes = Scopes::new(rt.alloc());
    declare_all(&mut scopes, 0, &text)?;
    scopes.enter()?;
    declare_all(&mut scopes, 1, &text)?;
    all_mean(&rt, &scopes, 1, &text);
    scopes.leave();
    all_mean(&rt, &scopes, 0, &text);
    Ok(())
}

/// A meaning that holds a reference.
#[derive(Clone, Copy)]
struct Meaning<'t> {
    text: &'t [u8],
}

/// What a name means in an inner block that declares it. The outer blocks stay as they are.
fn shadowed<'a>(
    scopes: &mut Scopes<'a, Meaning<'a>>,
    name: &'a [u8],
    meaning: Meaning<'a>,
) -> Result<Option<Meaning<'a>>, AllocError>
    ensures { OnOk result (scopes.new ≡ scopes.old) }
{
    scopes.enter()?;
    scopes.declare(name, meaning)?;
    let found = scopes.get(name);
    scopes.leave();
    Ok(found)
}

fn text_of<'t>(found: Option<Meaning<'t>>) -> &'t [u8] {
    match found {
        Some(meaning) => meaning.text,
        None => b"",
    }
}

#[test]
fn meanings_may_hold_references(rt: HostRuntime) -> Result<(), Fail> {
    let mut scopes = Scopes::new(rt.alloc());
    scopes.declare(b"x", Meaning { text: b"int" })?;
    let inner = shadowed(&mut scopes, b"x", Meaning { text: b"bool" })?;
    same(&rt, "inner", &text_of(inner), &b"bool".as_slice());
    same(&rt, "outer", &text_of(scopes.get(b"x")), &b"int".as_slice());
    Ok(())
}
