//! The spans of a function's names, in order and apart.

ghost use Rattle.std.specs.Prelude.{◌≡◌, ◌↔◌, ℕ, IfOk, OnOk};
ghost use Rattle.rgo_region_sets.specs.declared.spans.Span.{Span};
ghost use Rattle.rgo_flow.specs.Ranges.{IsCovered};
ghost use Rattle.rgo_code.specs.Names.{IsLiveName};
ghost use Rattle.rgo_region_sets.specs.Spans.{AddsSpans, AreApart, AreOrdered, IsNamed, IsSpanned, Spans};
ghost use Rattle.rgo_region_sets.specs.Spans.{Continues, SpanFollows, SpansMeet, Precedes};

use crate::names::name_of;
use crate::spans::Span;
use rgo_code::CodeFn;
use rgo_flow::{Liveness, Range, live};
use std::alloc::{AllocError, Global};

/// Whether a span begins no later than right after the end of another one of its name. Neighbours become one span, too: there are then
/// fewer of them, and they mean the same.
fn meets(last: Span, next: Span) -> bool
    ensures { SpansMeet result last next }
{
    last.name == next.name && next.from <= last.to.saturating_add(1)
}

/// Whether a span meets another one, and does not begin before it.
fn continues(last: Span, next: Span) -> bool
    ensures { Continues result last next }
{
    last.from <= next.from && meets(last, next)
}

/// One more span. The last one grows instead if the next one continues it: a variable that is live through many blocks
/// has many ranges, and most of them continue the one before.
fn append(spans: &mut Vec<Span>, next: Span) -> Result<(), AllocError>
    ensures { OnOk result (AddsSpans spans.old.items spans.new.items (Spans next)) }
{
    let count = spans.len();
    if count == 0 {
        spans.push(next)?;
        return Ok(());
    }
    let last = spans[count - 1];
    if continues(last, next) {
        spans[count - 1] = Span {
            name: last.name,
            from: last.from,
            to: last.to.max(next.to),
        };
        return Ok(());
    }
    spans.push(next)?;
    Ok(())
}

/// The ranges become spans of the name.
fn add_ranges(spans: &mut Vec<Span>, name: u32, ranges: &[Range]) -> Result<(), AllocError>
    ensures { OnOk result (AddsSpans spans.old.items spans.new.items
        (λ k at. (k ≡ name) × IsCovered ranges.now at)) }
{
    for range in ranges {
        let next = Span {
            name,
            from: range.from,
            to: range.to,
        };
        append(spans, next)?;
    }
    Ok(())
}

/// Where a variable is live, its name is.
fn add_variable(
    alloc: Global,
    spans: &mut Vec<Span>,
    f: &CodeFn<'_>,
    liveness: &Liveness,
    variable: u32,
) -> Result<(), AllocError>
    ensures { OnOk result (AddsSpans spans.old.items spans.new.items (IsNamed f.now liveness.now variable)) }
{
    if let Some(name) = name_of(f.class_of(variable)) {
        let ranges = liveness.ranges(alloc, variable)?;
        add_ranges(spans, name, &ranges)?;
    }
    Ok(())
}

/// Spans of all names, in any order.
fn all_spans(alloc: Global, f: &CodeFn<'_>) -> Result<Vec<Span>, AllocError>
    ensures { IfOk result (λ spans. (k at : ℕ) → IsSpanned spans.items k at ↔ IsLiveName f.now k at) }
{
    let liveness = live(alloc, f.tac())?;
    let mut spans = Vec::new(alloc);
    for variable in 0..f.tac().variable_count() {
        add_variable(alloc, &mut spans, f, &liveness, variable)?;
    }
    Ok(spans)
}

/// By name and then by first instruction, so that what can be merged is next to each other.
fn ordered(mut spans: Vec<Span>) -> Vec<Span>
    ensures ordered { AreOrdered result.items }
    ensures same { (k at : ℕ) → IsSpanned result.items k at ↔ IsSpanned spans.items k at }
{
    spans.sort_unstable_by_key(|s| (s.name, s.from));
    spans
}

/// The next span, in their order.
fn merge(merged: &mut Vec<Span>, next: Span) -> Result<(), AllocError>
    requires apart { AreApart merged.old.items }
    requires follows { SpanFollows merged.old.items next }
    ensures added { OnOk result (AddsSpans merged.old.items merged.new.items (Spans next)) }
    ensures apart { OnOk result (AreApart merged.new.items) }
    ensures ends { OnOk result ((later : Span) → Precedes next later → SpanFollows merged.new.items later) }
{
    let count = merged.len();
    if count == 0 {
        merged.push(next)?;
        return Ok(());
    }
    let last = merged[count - 1];
    if meets(last, next) {
        merged[count - 1] = Span {
            name: last.name,
            from: last.from,
            to: last.to.max(next.to),
        };
        return Ok(());
    }
    merged.push(next)?;
    Ok(())
}

fn merged(alloc: Global, spans: &[Span]) -> Result<Vec<Span>, AllocError>
    requires ordered { AreOrdered spans.now }
    ensures apart { IfOk result (λ merged. AreApart merged.items) }
    ensures same { IfOk result (λ merged. (k at : ℕ) → IsSpanned merged.items k at ↔ IsSpanned spans.now k at) }
{
    let mut merged = Vec::new(alloc);
    for span in spans {
        merge(&mut merged, *span)?;
    }
    Ok(merged)
}

/// The spans in which names of the function are live.
pub(crate) fn spans_of(alloc: Global, f: &CodeFn<'_>) -> Result<Vec<Span>, AllocError>
    ensures apart { IfOk result (λ spans. AreApart spans.items) }
    ensures live { IfOk result (λ spans. (k at : ℕ) → IsSpanned spans.items k at ↔ IsLiveName f.now k at) }
{
    let spans = ordered(all_spans(alloc, f)?);
    merged(alloc, &spans)
}
