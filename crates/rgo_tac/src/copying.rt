//! Copies of three-address code. Code with regions begins as a copy: what it was made from stays as it is.

ghost use Rattle.std.specs.Prelude.{◌≡◌, IfOk};

use crate::code::Body;
use crate::copies::{
    copy_items, copy_name, copy_pieces, copy_result, copy_structs, copy_types, copy_variables,
};
use crate::functions::TacFn;
use crate::programs::Tac;
use rgo_typed::{Piece, Row};
use std::alloc::{AllocError, Global};

/// A copy of lists of variables.
fn copy_lists(alloc: Global, lists: &[Row<u32>]) -> Result<Row<Row<u32>>, AllocError>
    ensures { IfOk result (λ n. n ≡ lists.now) }
{
    let mut items = Vec::new(alloc);
    for list in lists {
        items.push(copy_items(alloc, list.items())?)?;
    }
    Ok(Row::new(items))
}

/// A copy of the pieces of all prints.
fn copy_prints(alloc: Global, prints: &[Row<Piece>]) -> Result<Row<Row<Piece>>, AllocError>
    ensures { IfOk result (λ n. n ≡ prints.now) }
{
    let mut items = Vec::new(alloc);
    for pieces in prints {
        items.push(copy_pieces(alloc, pieces.items())?)?;
    }
    Ok(Row::new(items))
}

fn copy_body(alloc: Global, body: &Body) -> Result<Body, AllocError>
    ensures { IfOk result (λ n. n ≡ body.now) }
{
    let instrs = copy_items(alloc, body.instrs.items())?;
    let places = copy_items(alloc, body.places.items())?;
    let lists = copy_lists(alloc, body.lists.items())?;
    let pieces = copy_prints(alloc, body.pieces.items())?;
    Ok(Body {
        instrs,
        places,
        lists,
        pieces,
    })
}

fn copy_function(alloc: Global, function: &TacFn) -> Result<TacFn, AllocError>
    ensures { IfOk result (λ n. n ≡ function.now) }
{
    let name = copy_name(alloc, &function.name)?;
    let result_type = copy_result(alloc, &function.result_type)?;
    let variables = copy_types(alloc, function.variables.items())?;
    let body = copy_body(alloc, &function.body)?;
    // It has as many variables and instructions as its original, so they have numbers.
    TacFn::of(
        alloc,
        name,
        function.params,
        result_type,
        Row::new(variables),
        body,
    )
}

fn copy_functions(alloc: Global, functions: &[TacFn]) -> Result<Row<TacFn>, AllocError>
    ensures { IfOk result (λ n. n ≡ functions.now) }
{
    let mut items = Vec::new(alloc);
    for function in functions {
        items.push(copy_function(alloc, function)?)?;
    }
    Ok(Row::new(items))
}

impl Tac {
    /// A copy of the program.
    ///
    /// # Errors
    ///
    /// On allocation failure.
    pub fn copy(&self, alloc: Global) -> Result<Tac, AllocError>
        ensures { IfOk result (λ code. code ≡ self.now) }
    {
        let structs = copy_structs(alloc, self.structs.items())?;
        let variables = copy_variables(alloc, self.variables.items())?;
        let functions = copy_functions(alloc, self.functions.items())?;
        Ok(Tac::new(structs, variables, functions))
    }
}
