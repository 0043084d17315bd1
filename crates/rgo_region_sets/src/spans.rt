//! Spans of instructions in which names are live.

ghost use Rattle.std.specs.Prelude.{Decides};
ghost use Rattle.rgo_region_sets.specs.Spans.{AreApart, AreSpansBegun, IsSpanned};

/// Instructions in a row, the last one included, in which a name is live.
#[derive(Clone, Copy, Debug, PartialEq, Eq)]
pub struct Span {
    pub name: u32,
    pub from: u32,
    pub to: u32,
}

/// How many spans are of lesser names, or of this one and begin no later than the instruction.
fn begun(spans: &[Span], name: u32, at: usize) -> usize
    requires apart { AreApart spans.now }
    ensures { AreSpansBegun spans.now name at result }
{
    spans.partition_point(|s| s.name < name || s.name == name && s.from as usize <= at)
}

/// Whether one of the spans is of this name and has this instruction. Spans of one name do not overlap, so only the last one that has
/// begun can have it.
pub(crate) fn is_spanned(spans: &[Span], name: u32, at: usize) -> bool
    requires apart { AreApart spans.now }
    ensures { Decides result (IsSpanned spans.now name at) }
{
    let count = begun(spans, name, at);
    if count == 0 {
        return false;
    }
    let span = spans[count - 1];
    span.name == name && at <= span.to as usize
}
