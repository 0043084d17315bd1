//! What a record is after local steps, and after a run of the loop. The loop knows frames and words only. From these laws its caller gets
//! the whole record, without having computed names and protections step by step.

ghost use Rattle.rgo_settling.specs.Examples.{SettlingExamples};
ghost use Rattle.rgo_settling.specs.Settling.{SettlingPathLaw, RunLaw, UnguardedLaw};

/// A path of instructions: n local steps lead to a record with n more instructions and these frames.
pub fn path_law()
    ensures { SettlingPathLaw }
{}

/// A run of the loop. It may have left frames and entered others; those that it kept have the environments that they had.
pub fn run_law()
    ensures { RunLaw }
{}

/// The environments that a run has left had no protections: each was left by a return, before which the code ends all protections of its
/// frame. So no count of protections has to be changed for them.
pub fn unguarded_law()
    ensures { UnguardedLaw }
{}

/// Where each definition holds and where it does not.
pub fn examples()
    ensures { SettlingExamples }
{}
