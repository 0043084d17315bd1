//! What holds of the code of every well-formed program.

ghost use Rattle.rgo_lowering_laws.specs.Examples.{TypedExamples};
ghost use Rattle.rgo_lowering_laws.specs.Laws.{LoweredIsTyped, LoweredPrints};

/// Lowered code keeps the rules on names, numbers and types, and writes each variable before it reads it.
pub fn lowered_is_typed()
    ensures { LoweredIsTyped }
{}

/// Each print of lowered code has a variable for each piece that prints one.
pub fn lowered_prints()
    ensures { LoweredPrints }
{}

/// Code that is typed, and other code that is not.
pub fn examples()
    ensures { TypedExamples }
{}
