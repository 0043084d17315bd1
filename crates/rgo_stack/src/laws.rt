//! Laws of the definitions, and examples of them.

ghost use Rattle.rgo_stack.specs.Examples.{StackExamples};
ghost use Rattle.rgo_stack.specs.Places.{PlaceLaws};
ghost use Rattle.rgo_stack.specs.Stacks.{FramesLaw};

/// The frames of a stack are those of its functions.
pub fn frames_law()
    ensures { FramesLaw }
{}

/// What an operation asks of compact functions, from what is known of their code. With this the callers need to know the code alone.
pub fn places_law()
    ensures { PlaceLaws }
{}

/// Where each definition holds and where it does not.
pub fn examples()
    ensures { StackExamples }
{}
