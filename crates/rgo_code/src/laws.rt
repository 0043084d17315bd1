//! What holds of code with regions.

ghost use Rattle.rgo_code.specs.Laws.{ErasureIsCode};

/// The erasure of code is the three-address code of which it is made.
pub fn erasure_is_code()
    ensures { ErasureIsCode }
{}
