//! Imports. They are checked first of all, since whether `fmt` is imported decides what `fmt` means everywhere else.
#![tactic(auto)]

ghost use Rattle.std.specs.Prelude.{◌≡◌, false, IfOk, map};
ghost use Rattle.rgo_ast.specs.Views.{import_of};
ghost use Rattle.rgo_typing_rules.specs.Checks.{Checks};
ghost use Rattle.rgo_typing_packages.specs.Imports as spec;

use rgo_ast::{Import, ImportPath};
use rgo_typing_nodes::check_import;
use rgo_typing_rules::{TypeError, is_fmt};

/// Checks imports that are declared together, and returns whether `fmt` was imported before or is
/// among them.
fn check_paths(before: bool, paths: &[ImportPath]) -> Result<bool, TypeError>
    ensures checked { Checks result (spec.path_sites before paths.now) }
    ensures value { IfOk result (λ b. b ≡ spec.imports_fmt before paths.now) }
{
    let mut imported = before;
    for import in paths {
        check_import(import.at, imported, import.path.bytes())?;
        imported = imported || is_fmt(import.path.bytes());
    }
    Ok(imported)
}

/// Checks the imports, and returns whether `fmt` is among them (The Go Programming Language
/// Specification, "Import declarations").
pub(crate) fn check_imports(imports: &[Import]) -> Result<bool, TypeError>
    ensures checked { Checks result (spec.import_sites false (map import_of imports.now)) }
    ensures value { IfOk result (λ b. b ≡ spec.all_import_fmt false (map import_of imports.now)) }
{
    let mut imported = false;
    for import in imports {
        imported = check_paths(imported, &import.paths)?;
    }
    Ok(imported)
}
