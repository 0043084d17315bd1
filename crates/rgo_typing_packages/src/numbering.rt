//! The names of a package: each means what the first of its declarations says. This pass refuses nothing; a name that is declared
//! again is reported later, at its place in the order of checking, and until then it means the first.
#![tactic(auto)]

ghost use Rattle.std.specs.Prelude.{◌≡◌, ◌+◌, OnOk, IfOk, map};
ghost use Rattle.rgo_ast.specs.Views.{binding_of, decl_of, function_of, type_spec_of};
ghost use Rattle.rgo_typing_packages.specs.Numbering as spec;
ghost use Rattle.rgo_typing_packages.specs.Views.{numbering_of};

use rgo_ast::{Binding, Decl, Function, Ident, TypeSpec};
use rgo_scopes::Scopes;
use rgo_typing_rules::Meaning;
use std::alloc::{AllocError, Global};

/// The names so far, and the number of each kind.
#[derive(Drop)]
pub(crate) struct Numbering<'a> {
    pub(crate) names: Scopes<'a, Meaning>,
    pub(crate) structs: usize,
    pub(crate) variables: usize,
    pub(crate) functions: usize,
}

/// Declares a name, unless it has a meaning: that of the first declaration stays.
fn declare_first<'a>(
    names: &mut Scopes<'a, Meaning>,
    name: &'a [u8],
    meaning: Meaning,
) -> Result<(), AllocError>
    ensures { OnOk result (names.new ≡ spec.first_meaning name.now meaning names.old) }
{
    if names.get(name).is_some() {
        Ok(())
    } else {
        names.declare(name, meaning)
    }
}

/// The next number. It also counts declarations of names that have a meaning, so that a number is an index in the lists that the
/// pass over signatures makes. No memory holds as many names as there are numbers.
fn next(number: usize) -> Result<usize, AllocError>
    ensures { IfOk result (λ n. n ≡ number + 1) }
{
    match number.checked_add(1) {
        Some(next) => Ok(next),
        None => Err(AllocError),
    }
}

impl<'a> Numbering<'a> {
    fn number_struct(&mut self, declared: &'a TypeSpec) -> Result<(), AllocError>
        ensures { OnOk result (numbering_of self.new ≡ spec.with_struct (numbering_of self.old) (type_spec_of declared.now)) }
    {
        let meaning = Meaning::Struct(self.structs);
        declare_first(&mut self.names, declared.name.name.bytes(), meaning)?;
        self.structs = next(self.structs)?;
        Ok(())
    }

    fn number_variable(&mut self, x: &'a Ident) -> Result<(), AllocError>
        ensures { OnOk result (numbering_of self.new ≡ spec.with_variable (numbering_of self.old) x.now) }
    {
        let meaning = Meaning::Global(self.variables);
        declare_first(&mut self.names, x.name.bytes(), meaning)?;
        self.variables = next(self.variables)?;
        Ok(())
    }

    fn number_function(&mut self, f: &'a Function) -> Result<(), AllocError>
        ensures { OnOk result (numbering_of self.new ≡ spec.with_function (numbering_of self.old) (function_of f.now)) }
    {
        let meaning = Meaning::Function(self.functions);
        declare_first(&mut self.names, f.name.name.bytes(), meaning)?;
        self.functions = next(self.functions)?;
        Ok(())
    }

    fn number_structs(&mut self, types: &'a [TypeSpec]) -> Result<(), AllocError>
        ensures { OnOk result (numbering_of self.new ≡ spec.with_structs (numbering_of self.old) (map type_spec_of types.now)) }
    {
        for declared in types {
            self.number_struct(declared)?;
        }
        Ok(())
    }

    fn number_variables(&mut self, names: &'a [Ident]) -> Result<(), AllocError>
        ensures { OnOk result (numbering_of self.new ≡ spec.with_variables (numbering_of self.old) names.now) }
    {
        for x in names {
            self.number_variable(x)?;
        }
        Ok(())
    }

    fn number_bindings(&mut self, vars: &'a [Binding]) -> Result<(), AllocError>
        ensures { OnOk result (numbering_of self.new ≡ spec.with_bindings (numbering_of self.old) (map binding_of vars.now)) }
    {
        for binding in vars {
            self.number_variables(&binding.names)?;
        }
        Ok(())
    }

    fn number_decl(&mut self, decl: &'a Decl) -> Result<(), AllocError>
        ensures { OnOk result (numbering_of self.new ≡ spec.with_decl (numbering_of self.old) (decl_of decl.now)) }
    {
        match decl {
            Decl::Types(types, _) => self.number_structs(types),
            Decl::Vars(vars, _) => self.number_bindings(vars),
            Decl::Func(f) => self.number_function(f),
        }
    }
}

/// Numbers the names of declarations in the order of the text, each kind by itself from 0.
pub(crate) fn number_decls<'a>(
    alloc: Global,
    decls: &'a [Decl],
) -> Result<Scopes<'a, Meaning>, AllocError>
    ensures { IfOk result (λ names. names ≡ (spec.with_all_decls spec.no_numbers (map decl_of decls.now)).names) }
{
    let mut numbering = Numbering {
        names: Scopes::new(alloc),
        structs: 0,
        variables: 0,
        functions: 0,
    };
    for decl in decls {
        numbering.number_decl(decl)?;
    }
    Ok(numbering.names)
}
