//! Local variables by number. A number without a variable reads as nil and is added when it is assigned, so that no clause has to
//! bound the numbers of a tree.

ghost use Rattle.std.specs.Prelude.{◌≡◌};
ghost use Rattle.rgo_source_interpreter.specs.Changes.{Changes};
ghost use Rattle.rgo_meaning.specs.Frames.{local_value, with_local_value};

use rgo_memory::Value;
use std::alloc::AllocError;

/// The value of a local variable.
pub fn local(locals: &[Value], n: usize) -> Value
    ensures { result ≡ local_value locals.now n }
{
    match locals.get(n) {
        Some(value) => *value,
        None => Value::Nil,
    }
}

/// Sets a local variable. On allocation failure nothing changes.
pub fn set_local(locals: &mut Vec<Value>, n: usize, value: Value) -> Result<(), AllocError>
    ensures { Changes result locals.old.items locals.new.items (with_local_value locals.old.items n value) }
{
    if n < locals.len() {
        locals[n] = value;
        return Ok(());
    }
    let Some(missing) = (n - locals.len()).checked_add(1) else {
        return Err(AllocError);
    };
    // All room at once: with less, a failure would leave some of the variables added.
    locals.reserve(missing)?;
    while locals.len() < n {
        locals.push_reserved(Value::Nil);
    }
    locals.push_reserved(value);
    Ok(())
}
