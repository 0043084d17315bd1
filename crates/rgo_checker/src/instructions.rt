//! Which rules instructions keep, and the least one that an instruction breaks.

ghost use Rattle.std.specs.Prelude.{◌≡◌, ◌<◌, ◌≤◌, ◌^◌, Some, slice_get, IfOk};
ghost use Rattle.std.specs.Bool.{Decides};
ghost use Rattle.rgo_tac.specs.Ops.{op_in, operation_of};
ghost use Rattle.rgo_code.specs.declared.rules.Rule.{Rule as AnyRule};
ghost use Rattle.rgo_code.specs.Checked.{rule_number};
ghost use Rattle.rgo_code.specs.Erasure.{erased_fn};
ghost use Rattle.rgo_checker.specs.Instrs.{InstrKept, LeastBroken};
ghost use Rattle.rgo_checker.specs.Prepared.{IsPreparedToCheck};

use crate::classes::{globals_agree, joins_agree, return_agrees};
use crate::existing::instr_exists;
use crate::lending::{ends_empty, lends};
use crate::passing::{calls_pass, starts_pass};
use crate::regions::{creates_used, protects_used, removes_dead};
use crate::typing::op_fits;
use rgo_code::{Code, CodeFn, Rule};
use rgo_region_sets::LiveNames;
use rgo_tac::Op;
use std::alloc::{AllocError, Global};

/// An instruction, by its number in a function.
#[derive(Clone, Copy)]
pub(crate) struct Site<'a> {
    pub code: &'a Code,
    pub f: &'a CodeFn<'a>,
    pub live: &'a LiveNames,
    pub at: usize,
}

/// The rule of this number, which is from 1 to 14.
pub(crate) fn rule_of(number: u8) -> Rule
    requires low { 1 ≤ number }
    requires high { number < 15 }
    ensures { rule_number result ≡ number }
{
    match number {
        1 => Rule::Exists,
        2 => Rule::Types,
        3 => Rule::Classes,
        4 => Rule::Joins,
        5 => Rule::Globals,
        6 => Rule::Calls,
        7 => Rule::Starts,
        8 => Rule::Entry,
        9 => Rule::Creations,
        10 => Rule::Protections,
        11 => Rule::Returns,
        12 => Rule::Lending,
        13 => Rule::Removals,
        _ => Rule::Endings,
    }
}

/// Whether a rule is kept at an instruction, where all lesser ones are (`before`): the test for rule 13 relies on rule 9. Two rules
/// are about other lines alone.
fn keeps(alloc: Global, rule: Rule, site: &Site<'_>, op: Op<'_>) -> Result<bool, AllocError>
    requires here { op_in (slice_get (erased_fn site.now.f.now).body site.now.at) ≡ Some (operation_of op) }
    requires small { site.now.at < 2 ^ 63 }
    requires prepared { IsPreparedToCheck site.now.live.now site.now.f.now }
    requires before { (lesser : AnyRule) → 2 ≤ rule_number lesser → rule_number lesser < rule_number rule
        → InstrKept site.now.code.now site.now.f.now site.now.at lesser }
    ensures { IfOk result (λ b. Decides b (InstrKept site.now.code.now site.now.f.now site.now.at rule)) }
{
    let (code, f, at) = (site.code, site.f, site.at);
    let program = code.tac();
    let function = f.tac();
    match rule {
        Rule::Exists => Ok(instr_exists(program, function, at, op)),
        Rule::Types => Ok(op_fits(program, function, op)),
        Rule::Joins => Ok(joins_agree(f, op)),
        Rule::Globals => Ok(globals_agree(f, op)),
        Rule::Calls => calls_pass(alloc, code, f, op, f.passes(at)),
        Rule::Starts => starts_pass(alloc, code, f, op, f.passes(at)),
        Rule::Creations => creates_used(alloc, code, f, site.live, at, op),
        Rule::Protections => protects_used(alloc, code, f, site.live, at, op),
        Rule::Returns => Ok(return_agrees(f, op)),
        Rule::Lending => Ok(lends(
            f.result_class(),
            f.creates(at),
            f.removes(at),
            f.otherwise(at),
        )),
        Rule::Removals => removes_dead(alloc, code, f, site.live, at, op),
        Rule::Endings => Ok(ends_empty(f, f.creates(at), op)),
        Rule::Classes => Ok(true),
        Rule::Entry => Ok(true),
    }
}

fn least_broken_by(
    alloc: Global,
    limit: u8,
    site: &Site<'_>,
    op: Op<'_>,
) -> Result<Option<Rule>, AllocError>
    requires here { op_in (slice_get (erased_fn site.now.f.now).body site.now.at) ≡ Some (operation_of op) }
    requires small { site.now.at < 2 ^ 63 }
    requires prepared { IsPreparedToCheck site.now.live.now site.now.f.now }
    ensures { IfOk result (λ broken. LeastBroken
        (InstrKept site.now.code.now site.now.f.now site.now.at) 2 limit broken) }
{
    // In ascending order: the first broken rule is the least one, and a test may rely on the rules before its own.
    for number in 2..15 {
        if number >= limit {
            return Ok(None);
        }
        let rule = rule_of(number);
        let kept = keeps(alloc, rule, site, op)?;
        if !kept {
            return Ok(Some(rule));
        }
    }
    Ok(None)
}

/// The least rule after the first, below the limit, that an instruction breaks.
pub(crate) fn least_broken(
    alloc: Global,
    limit: u8,
    site: &Site<'_>,
) -> Result<Option<Rule>, AllocError>
    requires { IsPreparedToCheck site.now.live.now site.now.f.now }
    ensures { IfOk result (λ broken. LeastBroken
        (InstrKept site.now.code.now site.now.f.now site.now.at) 2 limit broken) }
{
    match site.f.tac().op(site.at) {
        Some(op) => least_broken_by(alloc, limit, site, op),
        // A walk has numbers of instructions only.
        None => Ok(None),
    }
}
