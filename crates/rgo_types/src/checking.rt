//! Whole programs: the package, then `main`, then the bodies. The order is part of the contract, since the first broken rule is
//! reported. Why: docs/DECISIONS.md, "Checking: the order".
#![tactic(auto)]

ghost use Rattle.std.specs.Prelude.{◌≡◌, IfOk, map};
ghost use Rattle.rgo_ast.specs.Views.{program_of};
ghost use Rattle.rgo_typed.specs.Views.{typed_function_of, typed_of};
ghost use Rattle.rgo_typing_rules.specs.Checks.{Checks};
ghost use Rattle.rgo_typing_packages.specs.Packages.{outside_functions};
ghost use Rattle.rgo_types.specs.Programs.{functions_sites, has_main, sites_of, typed_functions, typed_program};

use crate::bodies::check_bodies;
use rgo_ast::Program;
use rgo_typed::{Function, Row, Typed};
use rgo_typing_expressions::{Checker, Package};
use rgo_typing_nodes::check_text_end;
use rgo_typing_packages::check_package;
use rgo_typing_rules::{Meaning, TypeError};
use std::alloc::Global;

/// Whether there is a function `main` without parameters and result.
fn has_main(globals: &Package<'_>) -> bool
    ensures { result ≡ has_main globals.now }
{
    match globals.names.get("main".as_bytes()) {
        Some(Meaning::Function(number)) => match globals.functions.get(number) {
            Some(signature) => signature.params.is_empty() && signature.result_type.is_none(),
            // Every function has a signature. The definition reads a missing one as that of `main`, so this arm agrees with it.
            None => true,
        },
        _ => false,
    }
}

/// Checks that there is a `main`, and then the bodies of all functions.
#[tactic(auto, using(rgo_typing_rules::proofs::Refusals::refusals))]
fn check_functions<'a>(
    alloc: Global,
    globals: &Package<'a>,
    program: &'a Program,
) -> Result<Vec<Function>, TypeError>
    ensures checked { Checks result (functions_sites globals.now (program_of program.now)) }
    ensures typed { IfOk result (λ v. map typed_function_of v.items
        ≡ typed_functions (outside_functions globals.now) (program_of program.now).decls) }
{
    // A missing `main` is known from the signatures alone, so it is reported before any fault in a body.
    check_text_end(program.end, has_main(globals))?;
    check_bodies(&Checker::new(alloc, globals), &program.decls)
}

/// The typed tree of a program that keeps the rules on meaning: names resolved, constants
/// computed, no parentheses.
///
/// # Errors
///
/// `Refused` with the first node, in the order of checking, that breaks a rule, and the first rule
/// that it breaks. The order is: the imports; types, package variables and signatures in the order
/// of the text; that there is a `main`; the bodies. Of each, the parts come from left to right
/// before the whole. `NoMemory` when an allocation fails.
#[tactic(auto, using(rgo_typing_rules::proofs::Refusals::refusals))]
pub fn check(alloc: Global, program: &Program) -> Result<Typed, TypeError>
    ensures checked { Checks result (sites_of (program_of program.now)) }
    ensures typed { IfOk result (λ tree. typed_of tree ≡ typed_program (program_of program.now)) }
{
    let declared = check_package(alloc, program)?;
    let functions = check_functions(alloc, &declared.package, program)?;
    Ok(Typed {
        structs: Row::new(declared.structs),
        variables: Row::new(declared.variables),
        functions,
    })
}
