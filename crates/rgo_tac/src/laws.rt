//! Examples of definitions.

ghost use Rattle.rgo_tac.specs.Sizes.{AreTooMany};

/// How many variables and instructions a function may have at most: the definition is trusted, so its two bounds are shown as numbers.
pub fn examples()
    ensures few { AreTooMany 4294967293 4294967294 → ⊥ }
    ensures variables { AreTooMany 4294967294 0 }
    ensures instrs { AreTooMany 0 4294967295 }
{}
