//! What holds of all lowered code, and examples.

ghost use Rattle.rgo_lower.specs.Examples.{ShapeExamples};
ghost use Rattle.rgo_lower.specs.Laws.{LoweringIsDetermined, LoweringSimulates};

/// A program has one code.
pub fn lowering_is_determined()
    ensures { LoweringIsDetermined }
{}

/// Lowered code does what the program does.
pub fn lowering_simulates()
    ensures { LoweringSimulates }
{}

/// Trees that have the shape that lowering requires, and others.
pub fn examples()
    ensures shapes { ShapeExamples }
{}
