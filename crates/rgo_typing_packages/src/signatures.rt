//! What a package declares, except for the bodies of its functions: checked in the order of the text, and the lists by which the
//! numbers of names find fields, types and signatures.
#![tactic(auto)]

ghost use Rattle.std.specs.Prelude.{◌≡◌, IfOk, OnOk, map};
ghost use Rattle.rgo_ast.specs.Views.{binding_of, decl_of, function_of, type_spec_of, type_expr_of};
ghost use Rattle.rgo_typing_rules.specs.Checks.{Checks};
ghost use Rattle.rgo_typing_rules.specs.Views.{type_of_kind, optional_kind_of, signature_of_kinds};
ghost use Rattle.rgo_typing_packages.specs.Outcomes.{ChecksInto};
ghost use Rattle.rgo_typing_packages.specs.Signatures as spec;
ghost use Rattle.rgo_typing_packages.specs.Views.{signatures_of, optional_type_expr_of};

use crate::names::{check_bindings, declare_name, declare_names};
use rgo_ast::{Binding, Decl, Function, Ident, Name, TypeExpr, TypeSpec};
use rgo_typed::{Base, Row, Struct, Type, Variable};
use rgo_typing_expressions::{Checker, Fields, Scope};
use rgo_typing_rules::{Kind, Signature, TypeError};
use std::alloc::{AllocError, Global};

/// The same name again.
pub fn copied(alloc: Global, name: &Name) -> Result<Name, AllocError>
    ensures { IfOk result (λ copy. copy ≡ name.now) }
{
    let bytes = Vec::from_slice(alloc, name.bytes())?;
    Ok(Name::new(bytes))
}

/// The types of these kinds.
pub fn types(alloc: Global, kinds: &[Kind<'_>]) -> Result<Row<Type>, AllocError>
    ensures { IfOk result (λ row. row ≡ map type_of_kind kinds.now) }
{
    let mut types = Vec::new(alloc);
    for kind in kinds {
        types.push(kind.to_type(alloc)?)?;
    }
    Ok(Row::new(types))
}

/// Checks the result type of a function, if it has one.
fn check_result(top: &Checker<'_, '_>, result_type: &Option<TypeExpr>) -> Result<(), TypeError>
    ensures { Checks result (spec.result_sites top.now (optional_type_expr_of result_type.now)) }
{
    match result_type {
        None => Ok(()),
        Some(ty) => top.check_type(ty),
    }
}

/// The result type of a function, if it has one.
pub fn result_kind<'a>(top: &Checker<'_, '_>, result_type: &'a Option<TypeExpr>) -> Option<Kind<'a>>
    ensures { optional_kind_of result ≡ spec.result_of top.now (optional_type_expr_of result_type.now) }
{
    match result_type {
        None => None,
        Some(ty) => Some(top.resolve(ty)),
    }
}

/// The parameters and the result of a function, in this order, as they are written.
#[tactic(auto, using(rgo_typing_rules::proofs::Refusals::refusals))]
fn check_signature<'a>(top: &Checker<'_, '_>, f: &'a Function) -> Result<Signature<'a>, TypeError>
    ensures checked { Checks result (spec.signature_sites top.now (function_of f.now)) }
    ensures value { IfOk result (λ s. signature_of_kinds s ≡ spec.signature_in top.now (function_of f.now)) }
{
    let params = check_bindings(top, &f.params)?;
    check_result(top, &f.result_type)?;
    let params = params.into_fields();
    Ok(Signature {
        params: params.kinds,
        result_type: result_kind(top, &f.result_type),
    })
}

/// A struct as a typed tree.
fn typed_struct(alloc: Global, name: &Name, kinds: &[Kind<'_>]) -> Result<Struct, AllocError>
    ensures { IfOk result (λ s. s ≡ record { name = name.now; fields = map type_of_kind kinds.now }) }
{
    let name = copied(alloc, name)?;
    let fields = types(alloc, kinds)?;
    Ok(Struct { name, fields })
}

/// A package variable as a typed tree.
fn typed_variable(alloc: Global, name: &Name, kind: Kind<'_>) -> Result<Variable, AllocError>
    ensures { IfOk result (λ v. v ≡ record { name = name.now; ty = type_of_kind kind.entry }) }
{
    let name = copied(alloc, name)?;
    let ty = kind.to_type(alloc)?;
    Ok(Variable { name, ty })
}

/// What the package declares so far, and structs and variables as typed trees.
#[derive(Drop)]
pub(crate) struct Signatures<'a> {
    /// The names of the package so far, to find one that is declared again. Their types here are not used.
    pub(crate) seen: Scope<'a>,
    pub(crate) structs: Vec<Fields<'a>>,
    pub(crate) variables: Vec<Kind<'a>>,
    pub(crate) functions: Vec<Signature<'a>>,
    pub(crate) typed_structs: Vec<Struct>,
    pub(crate) typed_variables: Vec<Variable>,
}

impl<'a> Signatures<'a> {
    fn new(alloc: Global) -> Signatures<'a>
        ensures { signatures_of result ≡ spec.no_signatures }
    {
        Signatures {
            seen: Scope::new(alloc),
            structs: Vec::new(alloc),
            variables: Vec::new(alloc),
            functions: Vec::new(alloc),
            typed_structs: Vec::new(alloc),
            typed_variables: Vec::new(alloc),
        }
    }

    /// Adds a struct whose name and fields were checked.
    fn push_struct(&mut self, fields: Fields<'a>, typed: Struct) -> Result<(), AllocError>
        ensures { OnOk result (signatures_of self.new
            ≡ spec.with_fields (signatures_of self.old) fields.entry typed) }
    {
        self.typed_structs.push(typed)?;
        self.structs.push(fields)?;
        Ok(())
    }

    /// Declares a struct.
    #[tactic(auto, using(rgo_typing_rules::proofs::Refusals::refusals, std::proofs::lemmas::List::map_push))]
    fn add_struct(&mut self, top: &Checker<'_, '_>, declared: &'a TypeSpec) -> Result<(), TypeError>
        ensures { ChecksInto result (spec.struct_sites top.now (signatures_of self.old) (type_spec_of declared.now))
            (signatures_of self.new) (spec.with_struct top.now (signatures_of self.old) (type_spec_of declared.now)) }
    {
        declare_name(&mut self.seen, Kind::Plain(Base::Int), &declared.name)?;
        let fields = check_bindings(top, &declared.fields)?;
        let typed = typed_struct(top.alloc(), &declared.name.name, fields.kinds())?;
        self.push_struct(fields.into_fields(), typed)?;
        Ok(())
    }

    fn add_structs(&mut self, top: &Checker<'_, '_>, types: &'a [TypeSpec]) -> Result<(), TypeError>
        ensures { ChecksInto result (spec.structs_sites top.now (signatures_of self.old) (map type_spec_of types.now))
            (signatures_of self.new) (spec.with_structs top.now (signatures_of self.old) (map type_spec_of types.now)) }
    {
        for declared in types {
            self.add_struct(top, declared)?;
        }
        Ok(())
    }

    /// Adds a package variable whose name and type were checked.
    #[tactic(auto, using(std::proofs::lemmas::List::map_push))]
    fn push_variable(
        &mut self,
        alloc: Global,
        kind: Kind<'a>,
        x: &'a Ident,
    ) -> Result<(), AllocError>
        ensures { OnOk result (signatures_of self.new ≡ spec.with_variable (signatures_of self.old) (type_of_kind kind.entry) x.now) }
    {
        self.typed_variables
            .push(typed_variable(alloc, &x.name, kind)?)?;
        self.variables.push(kind)?;
        Ok(())
    }

    /// Adds package variables whose names and type were checked.
    fn push_variables(
        &mut self,
        alloc: Global,
        kind: Kind<'a>,
        names: &'a [Ident],
    ) -> Result<(), AllocError>
        ensures { OnOk result (signatures_of self.new ≡ spec.with_variables (signatures_of self.old) (type_of_kind kind.entry) names.now) }
    {
        for x in names {
            self.push_variable(alloc, kind, x)?;
        }
        Ok(())
    }

    /// Declares package variables of one type.
    #[tactic(auto, using(rgo_typing_rules::proofs::Refusals::refusals))]
    fn add_binding(&mut self, top: &Checker<'_, '_>, binding: &'a Binding) -> Result<(), TypeError>
        ensures { ChecksInto result (spec.binding_sites top.now (signatures_of self.old) (binding_of binding.now))
            (signatures_of self.new) (spec.with_binding top.now (signatures_of self.old) (binding_of binding.now)) }
    {
        declare_names(&mut self.seen, Kind::Plain(Base::Int), &binding.names)?;
        top.check_type(&binding.ty)?;
        let kind = top.resolve(&binding.ty);
        self.push_variables(top.alloc(), kind, &binding.names)?;
        Ok(())
    }

    fn add_bindings(&mut self, top: &Checker<'_, '_>, vars: &'a [Binding]) -> Result<(), TypeError>
        ensures { ChecksInto result (spec.vars_sites top.now (signatures_of self.old) (map binding_of vars.now))
            (signatures_of self.new) (spec.with_vars top.now (signatures_of self.old) (map binding_of vars.now)) }
    {
        for binding in vars {
            self.add_binding(top, binding)?;
        }
        Ok(())
    }

    /// Declares a function.
    #[tactic(auto, using(rgo_typing_rules::proofs::Refusals::refusals, std::proofs::lemmas::List::map_push))]
    fn add_function(&mut self, top: &Checker<'_, '_>, f: &'a Function) -> Result<(), TypeError>
        ensures { ChecksInto result (spec.function_sites top.now (signatures_of self.old) (function_of f.now))
            (signatures_of self.new) (spec.with_function top.now (signatures_of self.old) (function_of f.now)) }
    {
        declare_name(&mut self.seen, Kind::Plain(Base::Int), &f.name)?;
        let signature = check_signature(top, f)?;
        self.functions.push(signature)?;
        Ok(())
    }

    fn add_decl(&mut self, top: &Checker<'_, '_>, decl: &'a Decl) -> Result<(), TypeError>
        ensures { ChecksInto result (spec.decl_sites top.now (signatures_of self.old) (decl_of decl.now))
            (signatures_of self.new) (spec.with_decl top.now (signatures_of self.old) (decl_of decl.now)) }
    {
        match decl {
            Decl::Types(types, _) => self.add_structs(top, types),
            Decl::Vars(vars, _) => self.add_bindings(top, vars),
            Decl::Func(f) => self.add_function(top, f),
        }
    }

    fn add_decls(&mut self, top: &Checker<'_, '_>, decls: &'a [Decl]) -> Result<(), TypeError>
        ensures { ChecksInto result (spec.decls_sites top.now (signatures_of self.old) (map decl_of decls.now))
            (signatures_of self.new) (spec.with_decls top.now (signatures_of self.old) (map decl_of decls.now)) }
    {
        for decl in decls {
            self.add_decl(top, decl)?;
        }
        Ok(())
    }
}

/// Checks what the package declares, except for the bodies, with the meanings of names that `top` has.
pub(crate) fn check_decls<'a>(
    top: &Checker<'_, '_>,
    decls: &'a [Decl],
) -> Result<Signatures<'a>, TypeError>
    ensures checked { Checks result (spec.decls_sites top.now spec.no_signatures (map decl_of decls.now)) }
    ensures value { IfOk result (λ s. signatures_of s ≡ spec.with_decls top.now spec.no_signatures (map decl_of decls.now)) }
{
    let mut signatures = Signatures::new(top.alloc());
    signatures.add_decls(top, decls)?;
    Ok(signatures)
}
