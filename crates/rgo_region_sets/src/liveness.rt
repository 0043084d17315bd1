//! At which instructions the names of a function are live.

ghost use Rattle.std.specs.Prelude.{Decides, IfOk};
ghost use Rattle.rgo_region_sets.specs.Live.{AreLiveNames, IsLiveInTable};

use crate::branches::branches_of;
use crate::dying::dying;
use crate::merging::spans_of;
use crate::spans::is_spanned;
use crate::table::LiveNames;
use rgo_code::CodeFn;
use std::alloc::{AllocError, Global};

impl LiveNames {
    /// Whether a name is live into an instruction.
    pub fn is_live(&self, at: usize, name: u32) -> bool
        ensures { Decides result (IsLiveInTable self.now name at) }
    {
        is_spanned(&self.spans, name, at)
    }
}

/// Where names of the function are live.
///
/// # Errors
///
/// On allocation failure.
pub fn live_names(alloc: Global, f: &CodeFn<'_>) -> Result<LiveNames, AllocError>
    ensures { IfOk result (λ live. AreLiveNames live f.now) }
{
    let spans = spans_of(alloc, f)?;
    let branches = branches_of(alloc, f.tac())?;
    let taken = dying(alloc, &spans, &branches.points, &branches.targets)?;
    let passed = dying(alloc, &spans, &branches.points, &branches.others)?;
    Ok(LiveNames {
        spans,
        points: branches.points,
        taken,
        passed,
    })
}
