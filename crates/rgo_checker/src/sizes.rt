//! How many lines code has, counted before it is checked. Sums saturate: a count beyond a machine word is too large in any case.

ghost use Rattle.std.specs.Prelude.{◌≡◌, ◌↔◌, ◌+◌, ◌-◌, ◌^◌, true, false, min, length};
ghost use Rattle.rgo_code.specs.declared.rules.Line.TheVariants.{AfterLast};
ghost use Rattle.rgo_code.specs.Lines.{line_number};
ghost use Rattle.rgo_checker.specs.Sizes as spec;
ghost use Rattle.rgo_checker.specs.Sizes.{HasNumbers, IsTooLargeToCheck};

use rgo_code::Code;
use rgo_tac::TacFn;

/// How many lines a function has: its head, its variables, its entry, its instructions, and its end.
fn function_lines(f: &TacFn) -> usize
    ensures { result ≡ spec.function_line_count f.now }
{
    f.variable_count() as usize + f.instr_count() as usize + 3
}

/// How many lines functions have.
fn functions_lines(functions: &[TacFn]) -> usize
    ensures { result ≡ min (spec.functions_lines functions.now) (2 ^ 64 - 1) }
{
    let mut lines: usize = 0;
    for f in functions {
        lines = lines.saturating_add(function_lines(f));
    }
    lines
}

/// The number of the first line after structs and package variables.
pub(crate) fn first_line(code: &Code) -> usize
    ensures { result ≡ min (length code.now.structs + length code.now.variables + 2) (2 ^ 64 - 1) }
{
    let program = code.tac();
    let structs = program.structs().len();
    let variables = program.variables().len();
    structs.saturating_add(variables).saturating_add(2)
}

/// The number of the end of the text.
fn last_line(code: &Code) -> usize
    ensures { result ≡ min (line_number code.now AfterLast) (2 ^ 64 - 1) }
{
    let lines = functions_lines(code.tac().functions());
    first_line(code).saturating_add(lines)
}

/// Whether the number of some line, or of the end of the text, has more than 32 bits.
pub(crate) fn is_too_large(code: &Code) -> bool
    ensures large { (result ≡ true) ↔ IsTooLargeToCheck code.now }
    ensures small { result ≡ false → HasNumbers code.now }
{
    last_line(code) > u32::MAX as usize
}
