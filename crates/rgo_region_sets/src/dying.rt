//! The names that are live into a branch and not into one of its targets, found once for all branches of a function: a removal
//! then looks them up by the branch.

ghost use Rattle.std.specs.Prelude.{◌≡◌, ◌<◌, ◌^◌, ◌↔◌, ℕ, length, vec_len, Contains, IfOk};
ghost use Rattle.rgo_graphs.specs.Rows.{IsAscending, Relates, rows_of};
ghost use Rattle.rgo_region_sets.specs.Dying.{AreInSpan, Dies, DiesAt};
ghost use Rattle.rgo_region_sets.specs.Spans.{AreApart};

use crate::names::push_if;
use crate::spans::{Span, is_spanned};
use rgo_graphs::{add_row, empty_rows};
use std::alloc::{AllocError, Global};

/// Where the branches that are in a span begin and end. Both ends are found by search, so spans without branches cost little.
fn branches_in(points: &[u32], span: Span) -> (usize, usize)
    requires points { IsAscending points.now }
    ensures { AreInSpan points.now span result.0 result.1 }
{
    let (from, to) = (span.from, span.to);
    let first = points.partition_point(|p| *p < from);
    let end = points.partition_point(|p| *p <= to);
    (first, end)
}

/// The branches in a span whose target is in no span of the name.
fn ends_of(
    alloc: Global,
    spans: &[Span],
    points: &[u32],
    targets: &[u32],
    span: Span,
) -> Result<Vec<u32>, AllocError>
    requires apart { AreApart spans.now }
    requires points { IsAscending points.now }
    requires len { length targets.now ≡ length points.now }
    requires few { length points.now < 2 ^ 32 }
    ensures { IfOk result (λ ends. (b : ℕ) → Contains ends.items b ↔ Dies spans.now points.now targets.now span b) }
{
    let mut ends = Vec::new(alloc);
    let (first, end) = branches_in(points, span);
    for b in first..end {
        let dies = !is_spanned(spans, span.name, targets[b] as usize);
        push_if(&mut ends, b as u32, dies)?;
    }
    Ok(ends)
}

/// For each branch the names that are live into it and not into its target.
pub(crate) fn dying(
    alloc: Global,
    spans: &[Span],
    points: &[u32],
    targets: &[u32],
) -> Result<Vec<Vec<u32>>, AllocError>
    requires apart { AreApart spans.now }
    requires points { IsAscending points.now }
    requires len { length targets.now ≡ length points.now }
    requires few { length points.now < 2 ^ 32 }
    ensures len { IfOk result (λ rows. vec_len rows ≡ length points.now) }
    ensures rows { IfOk result (λ rows. (b k : ℕ) → Relates (rows_of rows.items) b k
        ↔ DiesAt spans.now points.now targets.now b k) }
{
    let mut rows = empty_rows(alloc, points.len())?;
    for span in spans {
        let ends = ends_of(alloc, spans, points, targets, *span)?;
        add_row(&mut rows, &ends, span.name)?;
    }
    Ok(rows)
}
