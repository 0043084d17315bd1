//! The code of functions.

ghost use Rattle.std.specs.Prelude.{◌≡◌, ◌+◌, ◌<◌, ◌≤◌, ◌^◌, ℕ, IfOk, length, get_or, true, false};
ghost use Rattle.rgo_typed.specs.Tree.{stmts_of};
ghost use Rattle.rgo_typed.specs.Views.{typed_function_of};
ghost use Rattle.rgo_tac.specs.Views.{body_of};
ghost use Rattle.rgo_lower.specs.Lowered.{closing_op};
ghost use Rattle.rgo_lower.specs.Shapes.{stmts_fit};
ghost use Rattle.rgo_lower.specs.Sizes.{function_size};
ghost use Rattle.rgo_lower.specs.Emitted.{builder_size, made_of, always, OpIsAdded, FunctionCodeBegins, finished_function, FunctionIsLowered};

use crate::blocks::lower_stmts;
use crate::builder::Builder;
use crate::targets::{instrs_of, places_of};
use rgo_ast::{Name, Place};
use rgo_tac::{Body, FunctionError, Instr, TacFn, copy_name, copy_result, copy_types};
use rgo_typed::{Function, Row, Type};
use std::alloc::{AllocError, Global};

/// The first variable numbers.
fn first_slots(alloc: Global, count: usize) -> Result<Vec<u32>, AllocError>
    requires { count < 2 ^ 32 }
    ensures { IfOk result (λ slots. (length slots.items ≡ count)
        × ((n : ℕ) → n < count → get_or slots.items n 0 ≡ n)) }
{
    let mut slots = Vec::new(alloc);
    for n in 0..count {
        slots.push(n as u32)?;
    }
    Ok(slots)
}

/// The local variables of these types, of which the first are parameters: each has the variable of its own number. Only the
/// parameters have variables in the code yet; each other one gets its own where it is declared, before it is used.
fn begin(alloc: Global, locals: &[Type], params: usize) -> Result<Builder, AllocError>
    requires params { params ≤ length locals.now }
    requires locals { length locals.now < 2 ^ 32 }
    ensures { IfOk result (λ b. FunctionCodeBegins params locals.now (made_of b)) }
{
    Ok(Builder {
        alloc,
        lines: Vec::new(alloc),
        variables: copy_types(alloc, &locals[..params])?,
        lists: Vec::new(alloc),
        pieces: Vec::new(alloc),
        labels: Vec::new(alloc),
        slots: first_slots(alloc, locals.len())?,
    })
}

/// Adds the end of a function: a return, or, where it has a result, a jump to itself, which is never reached. Why:
/// docs/DECISIONS.md, "Three-address code".
fn close(b: &mut Builder, result_type: &Option<Type>, end: Place) -> Result<(), AllocError>
    requires { builder_size (made_of b.now) + 4 < 2 ^ 32 }
    ensures { IfOk result (λ done. OpIsAdded (made_of b.old)
        (always (closing_op result_type.now (length b.old.lines.items))) end (made_of b.new)) }
{
    match result_type {
        None => b.leave(end),
        Some(_) => {
            let here = b.label()?;
            b.place(here)?;
            b.line(Instr::Jump(here), end)
        }
    }
}

/// The function with these parts. It cannot be too large: `lower` has counted the whole program before it made any code.
fn made(
    alloc: Global,
    name: Name,
    params: usize,
    result_type: Option<Type>,
    types: Row<Type>,
    body: Body,
) -> Result<TacFn, AllocError>
    requires variables { length types + 2 < 2 ^ 32 }
    requires instrs { length body.instrs + 1 < 2 ^ 32 }
    ensures { IfOk result (λ f. f ≡ record {
      name = name;
      params = params;
      result_type = result_type;
      variables = types;
      body = body_of body.lists body.pieces body.instrs body.places;
    }) }
{
    match TacFn::new(alloc, name, params, result_type, types, body) {
        Ok(function) => Ok(function),
        Err(FunctionError::NoMemory) => Err(AllocError),
        Err(FunctionError::TooLarge) => unreachable!(),
    }
}

/// The function with this code.
fn finish(b: Builder, function: &Function) -> Result<TacFn, AllocError>
    requires { builder_size (made_of b) + 2 < 2 ^ 32 }
    ensures { IfOk result (λ f. f ≡ finished_function (typed_function_of function.now) (made_of b)) }
{
    let instrs = instrs_of(b.alloc, &b.lines, &b.labels)?;
    let places = places_of(b.alloc, &b.lines)?;
    let name = copy_name(b.alloc, &function.name)?;
    let result_type = copy_result(b.alloc, &function.result_type)?;
    let body = Body {
        instrs,
        places,
        lists: Row::new(b.lists),
        pieces: Row::new(b.pieces),
    };
    made(
        b.alloc,
        name,
        function.params,
        result_type,
        Row::new(b.variables),
        body,
    )
}

/// The code of a function.
pub fn lower_function(alloc: Global, function: &Function) -> Result<TacFn, AllocError>
    requires params { function.now.params ≤ length function.now.locals }
    requires size { function_size (typed_function_of function.now) + 2 < 2 ^ 32 }
    requires shape { stmts_fit (length function.now.locals) false (stmts_of (typed_function_of function.now).body) ≡ true }
    ensures { IfOk result (λ f. FunctionIsLowered (typed_function_of function.now) f) }
{
    // Every function gets an end, even after a `return`: its last instruction must not lead past the code (rule 1).
    let mut b = begin(alloc, function.locals.items(), function.params)?;
    lower_stmts(&mut b, None, &function.body)?;
    close(&mut b, &function.result_type, function.end)?;
    finish(b, function)
}
