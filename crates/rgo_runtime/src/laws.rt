//! What a driver has when all its goroutines have left and the table is closed. No code calls these functions: each is a
//! theorem for the reader.
ghost use Rattle.rgo_runtime.specs.Closing.{ClosesAnyway, ClosesWhole, ClosingExamples, PassTells};

/// A driver that has lost nobody has the rows of all goroutines, the sum of what they have counted, and the mark of the end, if there is
/// one; the prints that have gone out are theirs, in order. If it has lost no print either, these are all.
pub fn closing_laws()
    ensures anyway { ClosesAnyway }
    ensures whole { ClosesWhole }
{}

/// If nothing moved in the last pass, the run is in a deadlock, or lacks what one of its goroutines lacked.
pub fn pass_law()
    ensures { PassTells }
{}

/// Prints in turn and out of turn, and one that nobody has printed.
pub fn examples()
    ensures { ClosingExamples }
{}
