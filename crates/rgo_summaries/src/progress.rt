//! The state of the analysis: the nodes of all functions, and a log of the joins that must be carried to callers.

ghost use Rattle.std.specs.Prelude.{◌<◌, OnOk};
ghost use Rattle.rgo_summaries.specs.Progress.{AddsJoins, IsProgress, Two, size_in};

use crate::nodes::{Nodes, join};
use std::alloc::{AllocError, Global};

/// Two nodes of a function that callers see were joined.
#[derive(Clone, Copy)]
pub(crate) struct Event {
    pub function: usize,
    pub one: usize,
    pub other: usize,
}

/// A call of a function: the caller, and the number from which on the caller has nodes for the members of the callee
/// that callers see.
#[derive(Clone, Copy)]
pub(crate) struct Site {
    pub caller: usize,
    pub base: usize,
}

/// What is joined so far. The log only grows, so `spread` needs a number only to know which events it has carried.
#[derive(Drop)]
pub(crate) struct Progress {
    pub nodes: Vec<Nodes>,
    pub log: Vec<Event>,
}

/// Joins two nodes of a function, and logs the join if callers see it.
pub(crate) fn join_in(
    alloc: Global,
    progress: &mut Progress,
    function: usize,
    one: usize,
    other: usize,
) -> Result<(), AllocError>
    requires is { IsProgress progress.old }
    requires one { one < size_in progress.old.nodes.items function }
    requires other { other < size_in progress.old.nodes.items function }
    ensures is { OnOk result (IsProgress progress.new) }
    ensures adds { OnOk result (AddsJoins progress.old progress.new (Two function one other)) }
{
    match join(alloc, &mut progress.nodes[function], one, other)? {
        Some((one, other)) => {
            progress.log.push(Event {
                function,
                one,
                other,
            })?;
            Ok(())
        }
        None => Ok(()),
    }
}
