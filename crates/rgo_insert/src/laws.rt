//! What holds of code with regions.

ghost use Rattle.rgo_insert.specs.Laws.{OneCode};

/// Two codes that keep the rules are equal if they have the same three-address code and the same classes.
pub fn one_code()
    ensures { OneCode }
{}
