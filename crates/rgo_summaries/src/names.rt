//! Summaries, by the labels of nodes.

ghost use Rattle.std.specs.Prelude.{◌≡◌, ◌≤◌, ◌+◌, ℕ, Some, length, vec_len, slice_get, IfOk};
ghost use Rattle.rgo_tac.specs.Code.{TacFn as AnyFn};
ghost use Rattle.rgo_classes.specs.declared.classes.Summary.{Summary as AnySummary};
ghost use Rattle.rgo_classes.specs.Classes.{AreNamed, outer_members};
ghost use Rattle.rgo_classes.specs.Naming.{AreLike};
ghost use Rattle.rgo_summaries.specs.declared.nodes.Nodes.{Nodes as AnyNodes};
ghost use Rattle.rgo_summaries.specs.Families.{outer_classes};
ghost use Rattle.rgo_summaries.specs.Joining.{IsNodes, size_of};

use crate::nodes::{Nodes, no_nodes};
use rgo_classes::{Labels, Summary, name};
use rgo_tac::TacFn;
use std::alloc::{AllocError, Global};
use std::mem::replace;

/// The classes of the members that callers see.
fn summary(alloc: Global, function: &TacFn, nodes: Nodes) -> Result<Summary, AllocError>
    requires is { IsNodes nodes }
    requires own { length function.now.variables + 2 ≤ size_of nodes }
    ensures { IfOk result (λ s. AreNamed (AreLike nodes.labels.items) function.now (outer_members function.now)
        (outer_classes s)) }
{
    let labels = Labels::of(nodes.labels, nodes.rows);
    let classes = name(alloc, function, &labels, function.params())?;
    Ok(Summary {
        params: classes.variables,
        result: classes.result,
    })
}

/// The summaries of all functions. It takes the nodes out of `nodes`, which nothing needs afterwards, so that no labels are copied.
pub(crate) fn summaries_of(
    alloc: Global,
    functions: &[TacFn],
    nodes: &mut [Nodes],
) -> Result<Vec<Summary>, AllocError>
    requires len { length nodes.old ≡ length functions.now }
    requires are { (n : ℕ) (m : AnyNodes) → slice_get nodes.old n ≡ Some m → IsNodes m }
    requires own { (n : ℕ) (f : AnyFn) (m : AnyNodes)
        → slice_get functions.now n ≡ Some f → slice_get nodes.old n ≡ Some m
        → length f.variables + 2 ≤ size_of m }
    ensures len { IfOk result (λ all. vec_len all ≡ length functions.now) }
    ensures named { IfOk result (λ all. (n : ℕ) (f : AnyFn) (m : AnyNodes) (s : AnySummary)
        → slice_get functions.now n ≡ Some f → slice_get nodes.old n ≡ Some m → slice_get all.items n ≡ Some s
        → AreNamed (AreLike m.labels.items) f (outer_members f) (outer_classes s)) }
{
    let mut all = Vec::new(alloc);
    for (n, function) in functions.iter().enumerate() {
        let own = replace(&mut nodes[n], no_nodes(alloc));
        all.push(summary(alloc, function, own)?)?;
    }
    Ok(all)
}
