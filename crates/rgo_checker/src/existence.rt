//! The walk over all lines for the first rule. Each function walks over the lines of its part, in the order of the text, since
//! the scan counts lines.

ghost use Rattle.std.specs.Prelude.{◌≡◌, ◌&&◌, ◌∷◌, ◌++◌, [], ℕ, Bool, List, Some, length, map, slice_get, take, nat_lt, bytes_eq, IfOk, OnOk, MatchOption};
ghost use Rattle.std.specs.Bool.{Decides};
ghost use Rattle.rgo_code.specs.declared.rules.Line.TheVariants as line;
ghost use Rattle.rgo_code.specs.declared.rules.Rule.TheVariants as rule;
ghost use Rattle.rgo_code.specs.Checked.{IsFirstBroken, KeepsRule};
ghost use Rattle.rgo_code.specs.Code.{CodeFn as AnyFn};
ghost use Rattle.rgo_checker.specs.Instrs.{InstrKept};
ghost use Rattle.rgo_checker.specs.Lines as lines;
ghost use Rattle.rgo_checker.specs.Naming.{AddsToNames, SetHasNames, fn_names};
ghost use Rattle.rgo_checker.specs.Scan.{Walks, past_next_line};
ghost use Rattle.rgo_checker.specs.Sizes.{HasNumbers};
ghost use Rattle.rgo_checker.specs.Tests as tests;

use crate::bools::both;
use crate::existing::{head_exists, instr_exists, type_exists, types_exist};
use crate::naming::{Names, add};
use crate::scan::{Scan, broken_if, pass};
use rgo_code::{Code, CodeFn, CodeRefusal, Rule};
use rgo_tac::{Tac, TacFn};
use rgo_typed::{Struct, Variable};
use std::alloc::{AllocError, Global};
use std::collections::HashSet;

/// Notes whether the first rule is kept at the next line.
fn pass_existence(scan: &mut Scan, kept: bool)
    ensures { scan.new ≡ past_next_line scan.old (tests.broken_if scan.old.limit rule.Exists kept) }
{
    let broken = broken_if(scan.limit, Rule::Exists, kept);
    pass(scan, broken);
}

/// The same at a line that declares a name. The name has to be new among the lines of its kind, so each kind is walked over with
/// a set of its own: a struct and a function may have the same name.
fn pass_name<'a>(
    names: &mut Names<'a>,
    name: &'a [u8],
    exists: bool,
    scan: &mut Scan,
) -> Result<(), AllocError>
    ensures { OnOk result ((is_new : Bool) × AddsToNames names.old name.now is_new names.new
        × (scan.new ≡ past_next_line scan.old (tests.broken_if scan.old.limit rule.Exists (is_new && exists)))) }
{
    let is_new = add(names, name)?;
    pass_existence(scan, both(is_new, exists));
    Ok(())
}

fn walk_structs(alloc: Global, code: &Code, scan: &mut Scan) -> Result<(), AllocError>
    ensures { OnOk result (Walks code.now 1 2 (lines.struct_lines code.now.structs) scan.old scan.new) }
{
    let program = code.tac();
    let structs = program.structs();
    let mut names = HashSet::new(alloc);
    for n in 0..structs.len() {
        let s = &structs[n];
        let exist = types_exist(program, s.fields.items());
        pass_name(&mut names, s.name.bytes(), exist, scan)?;
    }
    Ok(())
}

fn walk_variables(alloc: Global, code: &Code, scan: &mut Scan) -> Result<(), AllocError>
    ensures { OnOk result (Walks code.now 1 2 (lines.variable_lines code.now.variables) scan.old scan.new) }
{
    let program = code.tac();
    let variables = program.variables();
    let mut names = HashSet::new(alloc);
    for n in 0..variables.len() {
        let v = &variables[n];
        let exists = type_exists(program, &v.ty);
        pass_name(&mut names, v.name.bytes(), exists, scan)?;
    }
    Ok(())
}

fn walk_slots(code: &Code, f: &CodeFn<'_>, scan: &mut Scan)
    ensures { (n : ℕ) → slice_get code.now.functions n ≡ Some f.now
        → Walks code.now 1 2 (lines.lines_of_slots n f.now.variables) scan.old scan.new }
{
    let program = code.tac();
    let types = f.tac().variables();
    for v in 0..types.len() {
        let exists = type_exists(program, &types[v]);
        pass_existence(scan, exists);
    }
}

fn instr_is_kept(code: &Code, f: &CodeFn<'_>, at: usize) -> bool
    ensures { Decides result (InstrKept code.now f.now at rule.Exists) }
{
    let program = code.tac();
    let function = f.tac();
    match function.op(at) {
        Some(op) => instr_exists(program, function, at, op),
        // The walk has numbers of instructions only.
        None => true,
    }
}

fn walk_body(code: &Code, f: &CodeFn<'_>, scan: &mut Scan)
    ensures { (n : ℕ) → slice_get code.now.functions n ≡ Some f.now
        → Walks code.now 1 2 (lines.lines_of_instrs n f.now.body) scan.old scan.new }
{
    for at in 0..f.tac().len() {
        let kept = instr_is_kept(code, f, at);
        pass_existence(scan, kept);
    }
}

fn has_body(f: &CodeFn<'_>) -> bool
    ensures { result ≡ nat_lt 0 (length f.now.body) }
{
    f.tac().len() > 0
}

/// A function without instructions is refused at its end: a frame of it would have no instruction to begin with, and no other
/// line could be blamed.
fn walk_end(code: &Code, f: &CodeFn<'_>, scan: &mut Scan)
    ensures { (n : ℕ) → slice_get code.now.functions n ≡ Some f.now
        → Walks code.now 1 2 (line.End n ∷ []) scan.old scan.new }
{
    let kept = has_body(f);
    pass_existence(scan, kept);
}

/// The first rule is not about the line `entry`, but the scan has to count it.
fn walk_entry(code: &Code, scan: &mut Scan)
    ensures { (n : ℕ) → Walks code.now 1 2 (line.Entry n ∷ []) scan.old scan.new }
{
    pass(scan, None);
}

fn walk_function<'a>(
    code: &Code,
    names: &mut Names<'a>,
    f: &CodeFn<'a>,
    scan: &mut Scan,
) -> Result<(), AllocError>
    ensures names { OnOk result ((seen : List (List ℕ)) → SetHasNames names.old seen
        → SetHasNames names.new (seen ++ f.now.name ∷ [])) }
    ensures walks { OnOk result ((n : ℕ) → slice_get code.now.functions n ≡ Some f.now
        → SetHasNames names.old (take n (fn_names code.now))
        → Walks code.now 1 2 (lines.lines_of_function n f.now) scan.old scan.new) }
{
    let function = f.tac();
    let exists = head_exists(code.tac(), function);
    pass_name(names, function.name().bytes(), exists, scan)?;
    walk_slots(code, f, scan);
    walk_entry(code, scan);
    walk_body(code, f, scan);
    walk_end(code, f, scan);
    Ok(())
}

fn walk_number<'a>(
    code: &'a Code,
    names: &mut Names<'a>,
    n: usize,
    scan: &mut Scan,
) -> Result<(), AllocError>
    ensures names { OnOk result ((f : AnyFn) → slice_get code.now.functions n ≡ Some f → (seen : List (List ℕ))
        → SetHasNames names.old seen → SetHasNames names.new (seen ++ f.name ∷ [])) }
    ensures walks { OnOk result ((f : AnyFn) → slice_get code.now.functions n ≡ Some f
        → SetHasNames names.old (take n (fn_names code.now))
        → Walks code.now 1 2 (lines.lines_of_function n f) scan.old scan.new) }
{
    match code.function(n) {
        Some(f) => walk_function(code, names, &f, scan),
        // The walk has numbers of functions only.
        None => Ok(()),
    }
}

fn walk_functions(alloc: Global, code: &Code, scan: &mut Scan) -> Result<(), AllocError>
    ensures { OnOk result (Walks code.now 1 2 (lines.functions_lines 0 code.now.functions) scan.old scan.new) }
{
    let mut names = HashSet::new(alloc);
    for n in 0..code.len() {
        walk_number(code, &mut names, n, scan)?;
    }
    Ok(())
}

fn is(word: &[u8], text: &str) -> bool
    ensures { result ≡ bytes_eq word.now text.now }
{
    word == text.as_bytes()
}

/// The `main` that a run starts: it is called without arguments, and nothing receives a result.
fn is_main(f: &TacFn) -> bool
    ensures { result ≡ tests.is_main_fn f.now }
{
    is(f.name().bytes(), "main") && f.params() == 0 && f.result_type().is_none()
}

fn has_main(code: &Tac) -> bool
    ensures { result ≡ tests.declares_main code.now }
{
    code.functions().iter().any(|f| is_main(f))
}

/// A missing `main` is the fault of no line, so it is refused after the last one.
fn walk_last(code: &Code, scan: &mut Scan)
    ensures { Walks code.now 1 2 (line.AfterLast ∷ []) scan.old scan.new }
{
    pass_existence(scan, has_main(code.tac()));
}

/// The first line that breaks the first rule.
pub(crate) fn walk_existence(alloc: Global, code: &Code) -> Result<Option<CodeRefusal>, AllocError>
    requires { HasNumbers code.now }
    ensures { IfOk result (λ broken. MatchOption broken (KeepsRule code.now rule.Exists)
        (λ x. IsFirstBroken code.now x.rule x.line)) }
{
    // Line 1 is `rgo code 1`, which no rule is about. The limit admits the first rule alone.
    let mut scan = Scan {
        line: 2,
        limit: 2,
        broken: None,
    };
    walk_structs(alloc, code, &mut scan)?;
    walk_variables(alloc, code, &mut scan)?;
    walk_functions(alloc, code, &mut scan)?;
    walk_last(code, &mut scan);
    Ok(scan.broken)
}
