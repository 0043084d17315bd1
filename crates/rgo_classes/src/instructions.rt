//! What the instructions of a function join.

ghost use Rattle.std.specs.Prelude.{◌≡◌, length, slice_get, OnOk};
ghost use Rattle.rgo_tac.specs.Ops.{operation_of};
ghost use Rattle.rgo_classes.specs.Holding.{Among};
ghost use Rattle.rgo_classes.specs.Joins.{CallJoins, Joins};
ghost use Rattle.rgo_classes.specs.Labels.{AreFor, JoinsAlso};
ghost use Rattle.rgo_classes.specs.Made.{JoinsOf, OwnJoins};

use crate::calls::join_call;
use crate::classes::Summaries;
use crate::labels::Labels;
use rgo_tac::{Op, TacFn, joins};
use std::alloc::{AllocError, Global};

/// Joins what an instruction joins by itself.
fn join_own(
    alloc: Global,
    function: &TacFn,
    labels: &mut Labels,
    op: Op<'_>,
) -> Result<(), AllocError>
    requires fits { AreFor function.now labels.old }
    ensures len { length labels.new ≡ length labels.old }
    ensures joined { OnOk result (JoinsAlso labels.old (OwnJoins function.now (operation_of op.entry)) labels.new) }
{
    match joins(function, op) {
        Some((a, b)) => labels.join(alloc, a, b),
        None => Ok(()),
    }
}

/// Joins what a call of the function of this number joins. Every function has a summary, so without one the function does not
/// exist, and nothing is joined.
fn join_called(
    alloc: Global,
    function: &TacFn,
    labels: &mut Labels,
    summaries: &Summaries,
    callee: u32,
    to: Option<u32>,
    from: &[u32],
) -> Result<(), AllocError>
    requires fits { AreFor function.now labels.old }
    ensures len { length labels.new ≡ length labels.old }
    ensures joined { OnOk result (JoinsAlso labels.old
        (Among function.now (CallJoins (slice_get summaries.now.functions callee) to from.now)) labels.new) }
{
    match summaries.functions.items().get(callee as usize) {
        Some(summary) => join_call(alloc, function, labels, summary, to, from),
        None => Ok(()),
    }
}

/// Joins what an instruction of the function joins.
///
/// # Errors
///
/// On allocation failure.
pub fn join_op(
    alloc: Global,
    function: &TacFn,
    labels: &mut Labels,
    summaries: &Summaries,
    op: Op<'_>,
) -> Result<(), AllocError>
    requires fits { AreFor function.now labels.old }
    ensures len { length labels.new ≡ length labels.old }
    ensures joined { OnOk result (JoinsAlso labels.old
        (JoinsOf summaries.now.functions function.now (operation_of op.entry)) labels.new) }
{
    match op {
        Op::Call {
            to,
            function: callee,
            from,
        } => { join_called(alloc, function, labels, summaries, callee, to, from) }
        Op::Go {
            function: callee,
            from,
        } => { join_called(alloc, function, labels, summaries, callee, None, from) }
        Op::Do { .. } | Op::Print { .. } | Op::Jump(_) | Op::Branch { .. } | Op::Return(_) => {
            join_own(alloc, function, labels, op)
        }
    }
}

/// Joins what the instructions of a function join.
///
/// # Errors
///
/// On allocation failure.
pub fn join_body(
    alloc: Global,
    function: &TacFn,
    labels: &mut Labels,
    summaries: &Summaries,
) -> Result<(), AllocError>
    requires fits { AreFor function.now labels.old }
    ensures len { length labels.new ≡ length labels.old }
    ensures joined { OnOk result (JoinsAlso labels.old (Joins summaries.now.functions function.now) labels.new) }
{
    for n in 0..function.len() {
        match function.op(n) {
            Some(op) => join_op(alloc, function, labels, summaries, op)?,
            // Each number of the loop is that of an instruction.
            None => {}
        }
    }
    Ok(())
}
