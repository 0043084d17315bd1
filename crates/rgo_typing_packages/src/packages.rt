//! Packages: imports, names, and the result of the declarations outside of function bodies.
#![tactic(auto)]

ghost use Rattle.std.specs.Prelude.{◌≡◌, IfOk, false, map};
ghost use Rattle.rgo_ast.specs.Views.{decl_of, program_of};
ghost use Rattle.rgo_typing_rules.specs.Checks.{Checks};
ghost use Rattle.rgo_typing_packages.specs.Imports.{import_sites};
ghost use Rattle.rgo_typing_packages.specs.Packages.{named_package, outside_functions, package_sites, whole_package};
ghost use Rattle.rgo_typing_packages.specs.Signatures.{decls_sites, no_signatures, with_decls};
ghost use Rattle.rgo_typing_packages.specs.Views.{DeclaresPackage, signatures_of};

use crate::imports::check_imports;
use crate::numbering::number_decls;
use crate::signatures::{Signatures, check_decls};
use rgo_ast::{Decl, Program};
use rgo_typed::{Struct, Variable};
use rgo_typing_expressions::{Checker, Package};
use rgo_typing_rules::TypeError;
use std::alloc::Global;

/// What a program declares outside of its functions: its package, and structs and variables as typed
/// trees.
#[derive(Drop)]
pub struct Declared<'a> {
    pub package: Package<'a>,
    pub structs: Vec<Struct>,
    pub variables: Vec<Variable>,
}

/// Checks the imports, and returns the names of the package by their meanings alone. They are enough to check types: that a name means a
/// struct is all that `*T` needs, whose fields may not be known yet.
fn check_names<'a>(alloc: Global, program: &'a Program) -> Result<Package<'a>, TypeError>
    ensures checked { Checks result (import_sites false (program_of program.now).imports) }
    ensures value { IfOk result (λ p. p ≡ named_package (program_of program.now)) }
{
    let imported = check_imports(&program.imports)?;
    Ok(Package {
        imported,
        names: number_decls(alloc, &program.decls)?,
        structs: Vec::new(alloc),
        variables: Vec::new(alloc),
        functions: Vec::new(alloc),
    })
}

/// Checks declarations, with names that mean what they do in `named`.
fn check_signatures<'a>(
    alloc: Global,
    named: &Package<'_>,
    decls: &'a [Decl],
) -> Result<Signatures<'a>, TypeError>
    ensures checked { Checks result (decls_sites (outside_functions named.now) no_signatures (map decl_of decls.now)) }
    ensures value { IfOk result
        (λ s. signatures_of s ≡ with_decls (outside_functions named.now) no_signatures (map decl_of decls.now)) }
{
    check_decls(&Checker::new(alloc, named), decls)
}

/// The names, with all that they mean.
fn whole<'a>(named: Package<'a>, signatures: Signatures<'a>) -> Declared<'a>
    ensures package { result.package ≡ whole_package named.entry (signatures_of signatures.entry) }
    ensures structs { result.structs.items ≡ (signatures_of signatures.entry).typed_structs }
    ensures variables { result.variables.items ≡ (signatures_of signatures.entry).typed_variables }
{
    Declared {
        package: Package {
            imported: named.imported,
            names: named.names,
            structs: signatures.structs,
            variables: signatures.variables,
            functions: signatures.functions,
        },
        structs: signatures.typed_structs,
        variables: signatures.typed_variables,
    }
}

/// Checks all of a program except that there is a `main`, and except bodies. What it returns is all that bodies ask of a package.
///
/// # Errors
///
/// `Refused` with the first node that breaks a rule: the imports come first, and then types, package
/// variables and signatures in the order of the text. `NoMemory` when an allocation fails.
#[tactic(auto, using(rgo_typing_rules::proofs::Refusals::refusals))]
pub fn check_package<'a>(alloc: Global, program: &'a Program) -> Result<Declared<'a>, TypeError>
    ensures checked { Checks result (package_sites (program_of program.now)) }
    ensures value { IfOk result (λ d. DeclaresPackage d (program_of program.now)) }
{
    let named = check_names(alloc, program)?;
    let signatures = check_signatures(alloc, &named, &program.decls)?;
    Ok(whole(named, signatures))
}
