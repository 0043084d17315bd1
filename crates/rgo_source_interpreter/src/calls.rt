//! The frame of a function that is called.

ghost use Rattle.std.specs.Prelude.{◌≡◌, ◌++◌, IfOk, OnOk, drop, map};
ghost use Rattle.rgo_typed.specs.Views.{typed_function_of};
ghost use Rattle.rgo_memory.specs.Values.{zero_of};
ghost use Rattle.rgo_meaning.specs.Frames as spec;

use crate::frames::{Frame, Todo};
use crate::stack::Stack;
use rgo_memory::{Value, zero};
use rgo_typed::{Function, Type};
use std::alloc::{AllocError, Global};

/// The types after the first `count`.
fn after(types: &[Type], count: usize) -> &[Type]
    ensures { result.now ≡ drop count types.now }
{
    if count < types.len() {
        &types[count..]
    } else {
        &types[types.len()..]
    }
}

fn push_zeros(locals: &mut Vec<Value>, types: &[Type]) -> Result<(), AllocError>
    ensures { OnOk result (locals.new.items ≡ locals.old.items ++ map zero_of types.now) }
{
    for ty in types {
        locals.push(zero(ty))?;
    }
    Ok(())
}

/// The frame of a function that is called with these arguments. A function with a result has `Stay` below its body, which it
/// reaches only without a return: no valid program does.
pub fn called<'a>(
    alloc: Global,
    function: &'a Function,
    arguments: &[Value],
) -> Result<Frame<'a>, AllocError>
    ensures { IfOk result (λ f. f ≡ spec.new_source_frame (typed_function_of function.now) arguments.now) }
{
    let mut locals = Vec::from_slice(alloc, arguments)?;
    push_zeros(&mut locals, after(function.locals.items(), arguments.len()))?;
    let mut todo = Stack::new(alloc);
    if function.result_type.is_some() {
        todo.push(Todo::Stay)?;
    }
    todo.push(Todo::Sequence(&function.body))?;
    Ok(Frame {
        locals,
        values: Stack::new(alloc),
        todo,
    })
}
