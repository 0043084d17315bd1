//! Copies of what typed trees and code contain: code owns all that it needs, so it outlives the tree from which it is made.

ghost use Rattle.std.specs.Prelude.{◌≡◌, IfOk};

use rgo_ast::Name;
use rgo_typed::{Piece, Row, Struct, Type, Variable};
use std::alloc::{AllocError, Global};

/// A copy of a name.
pub fn copy_name(alloc: Global, name: &Name) -> Result<Name, AllocError>
    ensures { IfOk result (λ n. n ≡ name.now) }
{
    let mut bytes = Vec::new(alloc);
    bytes.extend_from_slice(name.bytes())?;
    Ok(Name::new(bytes))
}

/// A copy of items.
pub fn copy_items<T: Copy>(alloc: Global, items: &[T]) -> Result<Row<T>, AllocError>
    ensures { IfOk result (λ n. n ≡ items.now) }
{
    let mut copies = Vec::new(alloc);
    copies.extend_from_slice(items)?;
    Ok(Row::new(copies))
}

/// A copy of a type.
pub fn copy_type(alloc: Global, ty: &Type) -> Result<Type, AllocError>
    ensures { IfOk result (λ n. n ≡ ty.now) }
{
    let layers = copy_items(alloc, ty.layers.items())?;
    Ok(Type {
        layers,
        base: ty.base,
    })
}

/// A copy of a piece.
fn copy_piece(alloc: Global, piece: &Piece) -> Result<Piece, AllocError>
    ensures { IfOk result (λ n. n ≡ piece.now) }
{
    match piece {
        Piece::Text(bytes) => Ok(Piece::Text(copy_name(alloc, bytes)?)),
        Piece::Value => Ok(Piece::Value),
    }
}

/// A copy of the pieces of a print.
pub fn copy_pieces(alloc: Global, pieces: &[Piece]) -> Result<Row<Piece>, AllocError>
    ensures { IfOk result (λ n. n ≡ pieces.now) }
{
    let mut items = Vec::new(alloc);
    for piece in pieces {
        items.push(copy_piece(alloc, piece)?)?;
    }
    Ok(Row::new(items))
}

/// A copy of types.
pub fn copy_types(alloc: Global, types: &[Type]) -> Result<Vec<Type>, AllocError>
    ensures { IfOk result (λ n. n.items ≡ types.now) }
{
    let mut items = Vec::new(alloc);
    for ty in types {
        items.push(copy_type(alloc, ty)?)?;
    }
    Ok(items)
}

/// A copy of the type of a result.
pub fn copy_result(alloc: Global, ty: &Option<Type>) -> Result<Option<Type>, AllocError>
    ensures { IfOk result (λ n. n ≡ ty.now) }
{
    match ty {
        Some(ty) => Ok(Some(copy_type(alloc, ty)?)),
        None => Ok(None),
    }
}

/// A copy of a struct.
fn copy_struct(alloc: Global, declared: &Struct) -> Result<Struct, AllocError>
    ensures { IfOk result (λ n. n ≡ declared.now) }
{
    let name = copy_name(alloc, &declared.name)?;
    let fields = copy_types(alloc, declared.fields.items())?;
    Ok(Struct {
        name,
        fields: Row::new(fields),
    })
}

/// A copy of the structs of a program.
pub fn copy_structs(alloc: Global, structs: &[Struct]) -> Result<Row<Struct>, AllocError>
    ensures { IfOk result (λ n. n ≡ structs.now) }
{
    let mut items = Vec::new(alloc);
    for declared in structs {
        items.push(copy_struct(alloc, declared)?)?;
    }
    Ok(Row::new(items))
}

/// A copy of a package variable.
fn copy_variable(alloc: Global, variable: &Variable) -> Result<Variable, AllocError>
    ensures { IfOk result (λ n. n ≡ variable.now) }
{
    let name = copy_name(alloc, &variable.name)?;
    let ty = copy_type(alloc, &variable.ty)?;
    Ok(Variable { name, ty })
}

/// A copy of the package variables of a program.
pub fn copy_variables(alloc: Global, variables: &[Variable]) -> Result<Row<Variable>, AllocError>
    ensures { IfOk result (λ n. n ≡ variables.now) }
{
    let mut items = Vec::new(alloc);
    for variable in variables {
        items.push(copy_variable(alloc, variable)?)?;
    }
    Ok(Row::new(items))
}
