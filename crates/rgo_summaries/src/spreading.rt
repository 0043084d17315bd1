//! Joins are carried to callers until none is left.

ghost use Rattle.std.specs.Prelude.{◌≡◌, ◌<◌, ◌+◌, ℕ, length, Contains, OnOk};
ghost use Rattle.rgo_summaries.specs.declared.progress.Site.{Site};
ghost use Rattle.rgo_summaries.specs.Progress.{AddsJoins, HasRoom, Hears, IsProgress, IsSpread, size_in, width_in};
ghost use Rattle.rgo_summaries.specs.Views.{call_sites_of};

use crate::progress::{Event, Progress, Site, join_in};
use std::alloc::{AllocError, Global};

/// Joins, in each caller, the nodes for two members that the callee has joined.
fn carry(
    alloc: Global,
    progress: &mut Progress,
    sites: &[Site],
    event: Event,
) -> Result<(), AllocError>
    requires is { IsProgress progress.old }
    requires room { (s : Site) → Contains sites.now s → (s.base + event.one < size_in progress.old.nodes.items s.caller)
        × (s.base + event.other < size_in progress.old.nodes.items s.caller) }
    ensures is { OnOk result (IsProgress progress.new) }
    ensures adds { OnOk result (AddsJoins progress.old progress.new (Hears sites.now event)) }
{
    for site in sites {
        join_in(
            alloc,
            progress,
            site.caller,
            site.base + event.one,
            site.base + event.other,
        )?;
    }
    Ok(())
}

/// Carries every logged join to all callers. Joins in callers extend the log, so the loop also reaches their callers. It ends,
/// since each join that is logged leaves one class fewer of those that callers see.
pub(crate) fn spread(
    alloc: Global,
    progress: &mut Progress,
    sites: &[Vec<Site>],
) -> Result<(), AllocError>
    requires is { IsProgress progress.old }
    requires len { length sites.now ≡ length progress.old.nodes.items }
    requires room { (g : ℕ)
        → HasRoom progress.old.nodes.items (width_in progress.old.nodes.items g) (call_sites_of sites.now g) }
    ensures { OnOk result (IsSpread progress.old.nodes.items progress.new.nodes.items sites.now) }
{
    let mut next = 0;
    while next < progress.log.len() {
        let event = progress.log[next];
        carry(alloc, progress, &sites[event.function], event)?;
        next += 1;
    }
    Ok(())
}
