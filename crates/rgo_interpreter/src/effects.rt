//! What actions do.

ghost use Rattle.std.specs.Prelude.{◌≡◌};
ghost use Rattle.rgo_interpreter.specs.Views.{effect_of};

use rgo_memory::{Trap, Value};

/// What an action does.
#[derive(Clone, Copy, Debug, PartialEq, Eq)]
pub enum Effect {
    /// It is done, with this value: nil if it returns none.
    Gives(Value),
    /// It traps, and changes nothing: the state of a run that has ended is that before the trap.
    Traps(Trap),
}

/// The effect of what reads only.
pub(crate) fn answered(answer: Result<Value, Trap>) -> Effect
    ensures { result ≡ effect_of answer }
{
    match answer {
        Ok(value) => Effect::Gives(value),
        Err(trap) => Effect::Traps(trap),
    }
}
