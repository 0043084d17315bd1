//! The nodes of a function, and which of them are joined. A label has an entry in `seen` exactly if one of its nodes is seen by callers:
//! so a join that callers have to hear of is one of two labels that both have an entry.

ghost use Rattle.std.specs.Prelude.{◌≡◌, ◌≢◌, ◌<◌, ◌∷◌, [], true, length, IfOk, OnOk};
ghost use Rattle.rgo_summaries.specs.Joining as spec;
ghost use Rattle.rgo_summaries.specs.Joining.{GoesOver, Grows, IsNodes, JoinsNodes, handed, label_at, seen_at, size_of};

use rgo_classes::merge;
use std::alloc::{AllocError, Global};

/// Nodes, identified by number. Two nodes are joined if they have the same label.
#[derive(Drop)]
pub(crate) struct Nodes {
    pub labels: Vec<usize>,
    /// The nodes of each label.
    pub rows: Vec<Vec<usize>>,
    /// For each label, a node that callers see, if there is one. One is enough: it is joined to the others.
    pub seen: Vec<Option<usize>>,
    /// Callers see the nodes with smaller numbers.
    pub width: usize,
}

pub(crate) fn no_nodes(alloc: Global) -> Nodes
    ensures is { IsNodes result }
    ensures empty { size_of result ≡ 0 }
    ensures width { result.width ≡ 0 }
{
    Nodes {
        labels: Vec::new(alloc),
        rows: Vec::new(alloc),
        seen: Vec::new(alloc),
        width: 0,
    }
}

fn row_of(alloc: Global, node: usize) -> Result<Vec<usize>, AllocError>
    ensures { IfOk result (λ row. row.items ≡ node ∷ []) }
{
    let mut row = Vec::new(alloc);
    row.push(node)?;
    Ok(row)
}

fn seen_if(is_seen: bool, node: usize) -> Option<usize>
    ensures { result ≡ spec.seen_if is_seen node }
{
    if is_seen { Some(node) } else { None }
}

/// Adds a node that is joined to no other. Callers may see it only if they see all nodes before it.
///
/// # Errors
///
/// On allocation failure.
pub(crate) fn add(alloc: Global, nodes: &mut Nodes, is_seen: bool) -> Result<(), AllocError>
    requires is { IsNodes nodes.old }
    requires seen { is_seen ≡ true → nodes.old.width ≡ size_of nodes.old }
    ensures grows { OnOk result (Grows nodes.old nodes.new is_seen) }
    ensures is { OnOk result (IsNodes nodes.new) }
{
    let node = nodes.labels.len();
    nodes.labels.push(node)?;
    nodes.rows.push(row_of(alloc, node)?)?;
    nodes.seen.push(seen_if(is_seen, node))?;
    if is_seen {
        nodes.width += 1;
    }
    Ok(())
}

/// The first node if it exists, else the second.
fn either(had: Option<usize>, given: Option<usize>) -> Option<usize>
    ensures { result ≡ spec.either had given }
{
    match had {
        Some(_) => had,
        None => given,
    }
}

fn both(given: Option<usize>, had: Option<usize>) -> Option<(usize, usize)>
    ensures { result ≡ spec.both given had }
{
    match (given, had) {
        (Some(one), Some(other)) => Some((one, other)),
        _ => None,
    }
}

/// Moves the node that callers see from one label to another that has none. If both have one, it returns the two, so
/// that they are reported to callers.
fn hand_over(seen: &mut [Option<usize>], from: usize, to: usize) -> Option<(usize, usize)>
    requires from { from < length seen.old }
    requires to { to < length seen.old }
    ensures seen { seen.new ≡ handed seen.old from to }
    ensures news { result ≡ spec.both (seen_at seen.old from) (seen_at seen.old to) }
{
    let (given, had) = (seen[from], seen[to]);
    seen[from] = None;
    seen[to] = either(had, given);
    both(given, had)
}

/// Joins two classes: the nodes of the first get the label of the second.
fn go_over(
    alloc: Global,
    nodes: &mut Nodes,
    from: usize,
    to: usize,
) -> Result<Option<(usize, usize)>, AllocError>
    requires is { IsNodes nodes.old }
    requires from { from < size_of nodes.old }
    requires to { to < size_of nodes.old }
    requires apart { from ≢ to }
    ensures { IfOk result (GoesOver nodes.old nodes.new from to) }
{
    merge(
        alloc,
        nodes.labels.as_mut_slice(),
        nodes.rows.as_mut_slice(),
        from,
        to,
    )?;
    Ok(hand_over(nodes.seen.as_mut_slice(), from, to))
}

fn label_of(nodes: &Nodes, node: usize) -> usize
    requires is { IsNodes nodes.now }
    requires inside { node < size_of nodes.now }
    ensures label { result ≡ label_at nodes.now node }
    ensures below { result < size_of nodes.now }
    ensures row { result < length nodes.now.rows.items }
{
    nodes.labels[node]
}

/// Joins two nodes. If this joins nodes that callers see and that were apart before, it returns two of them.
pub(crate) fn join(
    alloc: Global,
    nodes: &mut Nodes,
    one: usize,
    other: usize,
) -> Result<Option<(usize, usize)>, AllocError>
    requires is { IsNodes nodes.old }
    requires one { one < size_of nodes.old }
    requires other { other < size_of nodes.old }
    ensures is { OnOk result (IsNodes nodes.new) }
    ensures joined { IfOk result (λ news. JoinsNodes nodes.old nodes.new one other news) }
{
    let (from, to) = (label_of(nodes, one), label_of(nodes, other));
    if from == to {
        return Ok(None);
    }
    // The smaller class is relabelled, as in `rgo_classes`: of n nodes, none more often than log n times.
    if nodes.rows[from].len() <= nodes.rows[to].len() {
        go_over(alloc, nodes, from, to)
    } else {
        go_over(alloc, nodes, to, from)
    }
}
