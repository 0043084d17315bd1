//! Names, protections, own pages and stakes of one goroutine.

use rgo_holding::{Holding, Key, Page};
use rgo_region_machine::Region;
use rgo_tac::Class;
use std::alloc::{AllocError, Global};
use std::process::Abort;
use std::test::Fail;

/// The slot of Global in these tests.
const SLOTS: u32 = 8;

/// What a call passes: the names 0 and 1, to the names 4 and 3.
const FORMALS: [Class; 2] = [Class::Name(4), Class::Name(3)];

const PASSES: [Class; 2] = [Class::Name(0), Class::Name(1)];

fn create(holding: &mut Holding, name: u32, slot: u32) -> Result<(), AllocError> {
    holding.reserve(name)?;
    holding.create(name, slot);
    Ok(())
}

/// Regions in slots 5 and 2, by the names 0 and 1.
fn two_regions(alloc: Global) -> Result<Holding, AllocError> {
    let mut holding = Holding::new(alloc, SLOTS)?;
    create(&mut holding, 0, 5)?;
    create(&mut holding, 1, 2)?;
    Ok(holding)
}

/// The slots of the regions of the first six names, and 99 for a name that is bound to none.
fn slots_of(holding: &Holding) -> [u32; 6] {
    let mut slots = [99; 6];
    for name in 0..6 {
        if let Some(key) = holding.key(name) {
            slots[name as usize] = holding.slot(key);
        }
    }
    slots
}

fn named(holding: &Holding, name: u32) -> Result<Key, Fail> {
    match holding.key(name) {
        Some(key) => Ok(key),
        None => Err(Fail::from("no region")),
    }
}

/// Names are made and end, and a slot that was left is known again by another name.
#[test]
fn names(rt: HostRuntime) -> Result<(), Fail> {
    let mut holding = two_regions(rt.alloc())?;
    assert_eq!(&rt; slots_of(&holding), [5, 2, 99, 99, 99, 99]);
    let key = named(&holding, 0)?;
    holding.unbind(0);
    assert!(&rt; holding.key(0).is_none());
    holding.leave(key);
    create(&mut holding, 3, 5)?;
    assert_eq!(&rt; slots_of(&holding), [99, 2, 99, 5, 99, 99]);
    Ok(())
}

/// A callee has the names that it is passed, its caller no longer those that it leaves to it; and after the return it has the others.
#[test]
fn calls(rt: HostRuntime) -> Result<(), Fail> {
    let mut holding = two_regions(rt.alloc())?;
    let key = named(&holding, 1)?;
    holding.protect(key)?;
    holding.prepare_call(&FORMALS, &PASSES)?;
    holding.enter(&FORMALS, &PASSES, &[1], Class::NoClass);
    assert_eq!(&rt; slots_of(&holding), [99, 99, 99, 2, 5, 99]);
    assert!(&rt; holding.guards(key));
    holding.come_back();
    assert_eq!(&rt; slots_of(&holding), [99, 2, 99, 99, 99, 99]);
    holding.unprotect(key);
    assert!(&rt; !holding.guards(key));
    Ok(())
}

/// Frames without names come and go; the names of the first frame stay.
#[test]
fn local_steps(rt: HostRuntime) -> Result<(), Fail> {
    let mut holding = two_regions(rt.alloc())?;
    holding.settle(1, 4);
    assert_eq!(&rt; slots_of(&holding), [99; 6]);
    create(&mut holding, 2, 7)?;
    assert_eq!(&rt; slots_of(&holding), [99, 99, 7, 99, 99, 99]);
    holding.settle(1, 1);
    assert_eq!(&rt; slots_of(&holding), [5, 2, 99, 99, 99, 99]);
    Ok(())
}

/// An own page is claimed, filled, and gone with the stake.
#[test]
fn pages(rt: HostRuntime) -> Result<(), Fail> {
    let mut holding = two_regions(rt.alloc())?;
    let key = named(&holding, 0)?;
    assert!(&rt; holding.page(key).is_none());
    holding.fill(key, 3);
    assert!(&rt; holding.page(key).is_none());
    holding.claimed(key, 6);
    holding.fill(key, 3);
    assert_eq!(&rt; holding.page(key), Some(Page { page: 6, fill: 3 }));
    holding.unbind(0);
    holding.leave(key);
    create(&mut holding, 0, 5)?;
    assert!(&rt; holding.page(named(&holding, 0)?).is_none());
    Ok(())
}

/// A child knows what it is passed, and protects what it is given twice; each start has stakes of its own.
#[test]
fn children(rt: HostRuntime) -> Result<(), Fail> {
    let mut holding = two_regions(rt.alloc())?;
    let key = named(&holding, 0)?;
    assert!(&rt; !holding.is_pending(key));
    holding.add_pending(key);
    assert!(&rt; holding.is_pending(key));
    let mut child = holding.child(rt.alloc(), &FORMALS, &[Class::Name(0), Class::Name(0)])?;
    holding.clear_pending();
    assert!(&rt; !holding.is_pending(key));
    assert_eq!(&rt; slots_of(&child), [99, 99, 99, 5, 5, 99]);
    assert_eq!(&rt; child.base_len(), 1);
    assert_eq!(&rt; child.base_region(0), Some(Region::Numbered(5)));
    let given = named(&child, 4)?;
    assert!(&rt; child.guards(given));
    assert!(&rt; !child.guards_beyond_base(given));
    assert_eq!(&rt; child.first_base(), Some(given));
    assert_eq!(&rt; child.end_base(), Some(given));
    assert!(&rt; !child.guards(given));
    assert!(&rt; child.end_base().is_none());
    Ok(())
}
