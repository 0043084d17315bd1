//! How runs end.

use crate::limits::Shortage;
use crate::picks::End;

/// How a run ended.
#[derive(Clone, Copy, Debug, PartialEq, Eq)]
pub enum RunEnd {
    /// By itself: `main` returned, or a goroutine trapped.
    Ended(End),
    /// No goroutine can step, alone or with another, and `main` has not returned.
    Deadlock,
    /// A goroutine that has 100,000 frames is about to call a function.
    CallsTooDeep,
    /// As many steps as the limit, or more, had been taken at the end of a round. It is tested only there, since a test in every
    /// step costs more than the step, so a run may take more.
    StepsSpent,
    /// There are as many goroutines as the limit, and one is about to start another.
    GoroutinesSpent,
    /// There is no room for what a goroutine does next.
    NoRoom(Shortage),
    /// A write failed.
    WriteFault,
    /// Memory ran out.
    NoMemory,
}
