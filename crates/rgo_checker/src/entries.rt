//! Which rules the removals at the entry of a function keep, and the least one that they break.

ghost use Rattle.std.specs.Prelude.{◌≡◌, IfOk};
ghost use Rattle.std.specs.Bool.{Decides};
ghost use Rattle.rgo_checker.specs.Instrs.{EntryKept, LeastBroken};
ghost use Rattle.rgo_checker.specs.Prepared.{IsPreparedToCheck};

use crate::instructions::rule_of;
use crate::lending::is_free;
use crate::regions::{entry_known, entry_removes_dead};
use rgo_code::{CodeFn, Rule};
use rgo_region_sets::LiveNames;
use std::alloc::{AllocError, Global};

/// Whether a rule is kept at the entry. Three rules are about that line; `KeptByEntry` holds by definition for the others.
#[tactic(auto, unfolding(crate::specs::Instrs::EntryKept))]
fn keeps(alloc: Global, rule: Rule, f: &CodeFn<'_>, live: &LiveNames) -> Result<bool, AllocError>
    requires { IsPreparedToCheck live.now f.now }
    ensures { IfOk result (λ b. Decides b (EntryKept f.now rule)) }
{
    match rule {
        Rule::Entry => entry_known(alloc, f, live),
        Rule::Lending => Ok(is_free(f.result_class(), f.entry())),
        Rule::Removals => entry_removes_dead(alloc, f, live),
        Rule::Exists
        | Rule::Types
        | Rule::Classes
        | Rule::Joins
        | Rule::Globals
        | Rule::Calls
        | Rule::Starts
        | Rule::Creations
        | Rule::Protections
        | Rule::Returns
        | Rule::Endings => Ok(true),
    }
}

/// The least rule after the first, below the limit, that is broken at the entry.
pub(crate) fn least_broken(
    alloc: Global,
    limit: u8,
    f: &CodeFn<'_>,
    live: &LiveNames,
) -> Result<Option<Rule>, AllocError>
    requires { IsPreparedToCheck live.now f.now }
    ensures { IfOk result (λ broken. LeastBroken (EntryKept f.now) 2 limit broken) }
{
    // In ascending order, so that the first broken rule is the least one.
    for number in 2..15 {
        if number >= limit {
            return Ok(None);
        }
        let rule = rule_of(number);
        let kept = keeps(alloc, rule, f, live)?;
        if !kept {
            return Ok(Some(rule));
        }
    }
    Ok(None)
}
