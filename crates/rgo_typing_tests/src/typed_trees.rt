//! Lists, types and names of typed trees, for the tests that build their values.

use rgo_ast::Name;
use rgo_typed::{Base, Layer, Row, Type};
use std::alloc::Global;
use std::test::Fail;

pub(crate) fn one<T: Drop>(alloc: Global, item: T) -> Result<Vec<T>, Fail> {
    let mut items = Vec::new(alloc);
    items.push(item)?;
    Ok(items)
}

pub(crate) fn two<T: Drop>(alloc: Global, first: T, second: T) -> Result<Vec<T>, Fail> {
    let mut items = one(alloc, first)?;
    items.push(second)?;
    Ok(items)
}

pub(crate) fn name_of(alloc: Global, word: &str) -> Result<Name, Fail> {
    Ok(Name::new(Vec::from_slice(alloc, word.as_bytes())?))
}

pub(crate) fn ty(alloc: Global, layers: &[Layer], base: Base) -> Result<Type, Fail> {
    let layers = Row::new(Vec::from_slice(alloc, layers)?);
    Ok(Type { layers, base })
}
