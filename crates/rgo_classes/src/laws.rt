//! What holds of the classes of all functions.

ghost use Rattle.rgo_classes.specs.Laws.{SameIsLeast};

/// Being in one class is the least equivalence that contains the joins.
pub fn same_is_least()
    ensures { SameIsLeast }
{}
