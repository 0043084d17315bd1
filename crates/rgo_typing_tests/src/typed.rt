//! Types, lists and actions of typed trees.

use crate::checks::same;
use crate::typed_trees::{two, ty};
use rgo_ast::BinaryOp;
use rgo_typed::{Action, Base, Layer, Row};
use std::test::Fail;

#[test]
fn lists_keep_their_items(rt: HostRuntime) -> Result<(), Fail> {
    let row = Row::new(two(rt.alloc(), 3, 1)?);
    let wanted = [3, 1];
    same(&rt, "lent", &row.items(), &wanted.as_slice());
    same(
        &rt,
        "returned",
        &row.into_items().as_slice(),
        &wanted.as_slice(),
    );
    Ok(())
}

/// Types, and whether their values may be nil.
static TYPES: [(&[Layer], Base, bool); 6] = [
    (&[], Base::Int, false),
    (&[], Base::Bool, false),
    (&[], Base::Pointer(0), true),
    (&[Layer::Slice], Base::Int, true),
    (&[Layer::Chan], Base::Bool, true),
    (&[Layer::Chan, Layer::Slice], Base::Pointer(2), true),
];

#[test]
fn pointers_slices_and_channels_may_be_nil(rt: HostRuntime) -> Result<(), Fail> {
    for (layers, base, wanted) in &TYPES {
        let ty = ty(rt.alloc(), layers, *base)?;
        same(&rt, "a type", &ty.is_pointer_like(), wanted);
    }
    Ok(())
}

#[test]
fn actions_are_compared(rt: HostRuntime) {
    let sum = Action::Binary(BinaryOp::Add);
    same(&rt, "sums", &(sum == Action::Binary(BinaryOp::Add)), &true);
    same(
        &rt,
        "a sum",
        &(sum == Action::Binary(BinaryOp::Sub)),
        &false,
    );
}
