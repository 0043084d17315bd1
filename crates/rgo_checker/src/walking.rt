//! The walk over all lines for the rules after the first. No such rule is about structs or package variables, so the walk begins
//! at the first function.

ghost use Rattle.std.specs.Prelude.{◌≡◌, ◌∷◌, [], ℕ, Some, slice_get, IfOk, OnOk, MatchOption};
ghost use Rattle.rgo_code.specs.declared.rules.Line.TheVariants as line;
ghost use Rattle.rgo_code.specs.declared.rules.Rule.TheVariants as rule;
ghost use Rattle.rgo_code.specs.Checked.{IsChecked, IsFirstBroken, KeepsRule};
ghost use Rattle.rgo_checker.specs.Lines.{lines_of_slots, lines_of_instrs, lines_of_function, functions_lines};
ghost use Rattle.rgo_checker.specs.Scan.{Walks, past_next_line};
ghost use Rattle.rgo_checker.specs.Sizes.{HasNumbers};
ghost use Rattle.rgo_checker.specs.Tests as tests;
ghost use Rattle.rgo_code.specs.Code.{CodeFn as AnyFn};
ghost use Rattle.rgo_code.specs.NameRules.{Ascends, FnAscends};
ghost use Rattle.rgo_checker.specs.Prepared.{IsPreparedToCheck};

use crate::classes::{class_at, class_fits, result_fits};
use crate::entries;
use crate::instructions::{Site, least_broken};
use crate::scan::{Scan, broken_if, pass};
use crate::sizes::first_line;
use rgo_code::{Code, CodeFn, CodeRefusal, Rule};
use rgo_region_sets::{LiveNames, live_names};
use std::alloc::{AllocError, Global};

/// Notes whether the rule on what has a class is kept at the next line.
fn pass_classes(scan: &mut Scan, kept: bool)
    ensures { scan.new ≡ past_next_line scan.old (tests.broken_if scan.old.limit rule.Classes kept) }
{
    let broken = broken_if(scan.limit, Rule::Classes, kept);
    pass(scan, broken);
}

fn walk_head(code: &Code, f: &CodeFn<'_>, scan: &mut Scan)
    ensures { (n : ℕ) → slice_get code.now.functions n ≡ Some f.now
        → Walks code.now 2 15 (line.Function n ∷ []) scan.old scan.new }
{
    let kept = result_fits(f.result_class(), f.tac().result_type());
    pass_classes(scan, kept);
}

fn walk_slots(code: &Code, f: &CodeFn<'_>, scan: &mut Scan)
    ensures { (n : ℕ) → slice_get code.now.functions n ≡ Some f.now
        → Walks code.now 2 15 (lines_of_slots n f.now.variables) scan.old scan.new }
{
    let types = f.tac().variables();
    for v in 0..types.len() {
        let kept = class_fits(class_at(f, v), &types[v]);
        pass_classes(scan, kept);
    }
}

fn walk_entry(
    alloc: Global,
    code: &Code,
    f: &CodeFn<'_>,
    live: &LiveNames,
    scan: &mut Scan,
) -> Result<(), AllocError>
    requires { IsPreparedToCheck live.now f.now }
    ensures { OnOk result ((n : ℕ) → slice_get code.now.functions n ≡ Some f.now
        → Walks code.now 2 15 (line.Entry n ∷ []) scan.old scan.new) }
{
    let broken = entries::least_broken(alloc, scan.limit, f, live)?;
    pass(scan, broken);
    Ok(())
}

fn walk_instr(
    alloc: Global,
    code: &Code,
    f: &CodeFn<'_>,
    live: &LiveNames,
    at: usize,
    scan: &mut Scan,
) -> Result<(), AllocError>
    requires { IsPreparedToCheck live.now f.now }
    ensures { OnOk result ((n : ℕ) → slice_get code.now.functions n ≡ Some f.now
        → Walks code.now 2 15 (line.Instr n at ∷ []) scan.old scan.new) }
{
    let site = Site { code, f, live, at };
    let broken = least_broken(alloc, scan.limit, &site)?;
    pass(scan, broken);
    Ok(())
}

fn walk_body(
    alloc: Global,
    code: &Code,
    f: &CodeFn<'_>,
    live: &LiveNames,
    scan: &mut Scan,
) -> Result<(), AllocError>
    requires { IsPreparedToCheck live.now f.now }
    ensures { OnOk result ((n : ℕ) → slice_get code.now.functions n ≡ Some f.now
        → Walks code.now 2 15 (lines_of_instrs n f.now.body) scan.old scan.new) }
{
    for at in 0..f.tac().len() {
        walk_instr(alloc, code, f, live, at, scan)?;
    }
    Ok(())
}

/// Only the first rule is about the line `end`, but the scan has to count it.
fn walk_end(code: &Code, scan: &mut Scan)
    ensures { (n : ℕ) → Walks code.now 2 15 (line.End n ∷ []) scan.old scan.new }
{
    pass(scan, None);
}

fn walk_function(
    alloc: Global,
    code: &Code,
    f: &CodeFn<'_>,
    scan: &mut Scan,
) -> Result<(), AllocError>
    requires { FnAscends f.now }
    ensures { OnOk result ((n : ℕ) → slice_get code.now.functions n ≡ Some f.now
        → Walks code.now 2 15 (lines_of_function n f.now) scan.old scan.new) }
{
    walk_head(code, f, scan);
    walk_slots(code, f, scan);
    // Once for the function: rules 8 to 10 and 13 ask for it, most of them at each instruction.
    let live = live_names(alloc, f)?;
    walk_entry(alloc, code, f, &live, scan)?;
    walk_body(alloc, code, f, &live, scan)?;
    walk_end(code, scan);
    Ok(())
}

fn walk_number(alloc: Global, code: &Code, n: usize, scan: &mut Scan) -> Result<(), AllocError>
    requires { Ascends code.now }
    ensures { OnOk result ((f : AnyFn) → slice_get code.now.functions n ≡ Some f
        → Walks code.now 2 15 (lines_of_function n f) scan.old scan.new) }
{
    match code.function(n) {
        Some(f) => walk_function(alloc, code, &f, scan),
        // The walk has numbers of functions only.
        None => Ok(()),
    }
}

fn walk_functions(alloc: Global, code: &Code, scan: &mut Scan) -> Result<(), AllocError>
    ensures { OnOk result (Walks code.now 2 15 (functions_lines 0 code.now.functions) scan.old scan.new) }
{
    // For the proof: lists of names that ascend are equal exactly if they have the same names.
    code.ascends();
    for n in 0..code.len() {
        walk_number(alloc, code, n, scan)?;
    }
    Ok(())
}

/// The least rule after the first that is broken, and the first line that breaks it.
pub(crate) fn walk_rules(alloc: Global, code: &Code) -> Result<Option<CodeRefusal>, AllocError>
    requires numbers { HasNumbers code.now }
    requires exists { KeepsRule code.now rule.Exists }
    ensures { IfOk result (λ broken. MatchOption broken (IsChecked code.now)
        (λ x. IsFirstBroken code.now x.rule x.line)) }
{
    let line = first_line(code) as u32;
    let mut scan = Scan {
        line,
        limit: 15,
        broken: None,
    };
    walk_functions(alloc, code, &mut scan)?;
    Ok(scan.broken)
}
