//! The liveness of the variables of a function.

ghost use Rattle.std.specs.Prelude.{◌↔◌, ℕ, IfOk};
ghost use Rattle.rgo_flow.specs.Graphs.{IsGraph, IsLiveIn};
ghost use Rattle.rgo_flow.specs.Live.{Live};
ghost use Rattle.rgo_flow.specs.Table.{IsLive};

use crate::blocks::cut;
use crate::graphs::{Graph, graph_of};
use crate::solving::solve_all;
use crate::table::Liveness;
use rgo_graphs::transposed;
use rgo_tac::TacFn;
use std::alloc::{AllocError, Global};

/// The liveness that the rows of a function imply. The rows are turned around first: the search goes backwards, from what reads a
/// variable to what may come before.
fn live_in(alloc: Global, graph: &Graph) -> Result<Liveness, AllocError>
    requires graph { IsGraph graph.now }
    ensures { IfOk result (λ live. (v i : ℕ) → IsLive live v i ↔ IsLiveIn graph.now v i) }
{
    let parts = cut(alloc, &graph.successors)?;
    let before = transposed(alloc, &parts.exits, graph.successors.len())?;
    let readers = transposed(alloc, &graph.reads, graph.variables)?;
    let writers = transposed(alloc, &graph.writes, graph.variables)?;
    let mut marks = vec![in alloc; 0; parts.first.len()]?;
    let solved = solve_all(
        alloc,
        &before,
        &parts.first,
        &parts.last,
        &readers,
        &writers,
        &mut marks,
    )?;
    Ok(Liveness {
        first: parts.first,
        last: parts.last,
        exits: parts.exits,
        before,
        readers,
        writers,
        solved,
    })
}

/// The liveness of each variable of a function at each of its instructions.
///
/// # Errors
///
/// On allocation failure.
pub fn live(alloc: Global, function: &TacFn) -> Result<Liveness, AllocError>
    ensures { IfOk result (λ live. (v at : ℕ) → IsLive live v at ↔ Live function.now v at) }
{
    let graph = graph_of(alloc, function)?;
    live_in(alloc, &graph)
}
