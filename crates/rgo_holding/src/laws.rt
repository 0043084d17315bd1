//! Examples of the definitions.

ghost use Rattle.rgo_holding.specs.Examples.{HoldingExamples};

/// Where each definition holds and where it does not.
pub fn examples()
    ensures { HoldingExamples }
{}
