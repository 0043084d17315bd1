//! What holds of the rules of code.

ghost use Rattle.rgo_checker.specs.Examples.{LineCountExamples};
ghost use Rattle.rgo_checker.specs.Outcomes.{OneOutcome, SomeOutcome};

/// No code has two first broken rules and lines, and checked code has none.
pub fn one_outcome()
    ensures { OneOutcome }
{}

/// Code keeps all rules, or has a first broken rule and line.
pub fn some_outcome()
    ensures { SomeOutcome }
{}

/// The code that has as many lines as code may have, and code that has one more.
pub fn examples()
    ensures { LineCountExamples }
{}
