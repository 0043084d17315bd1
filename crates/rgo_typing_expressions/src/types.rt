//! Types as they are written: what they mean, and whether they keep the rules. The two are separate: a type is resolved where it may
//! not have been checked yet, and one that breaks a rule resolves to some type that nobody uses.
#![tactic(auto)]

ghost use Rattle.std.specs.Prelude.{◌≡◌};
ghost use Rattle.rgo_ast.specs.Views.{type_expr_of};
ghost use Rattle.rgo_typing_rules.specs.Checks.{Checks};
ghost use Rattle.rgo_typing_rules.specs.Views.{type_of_kind};
ghost use Rattle.rgo_typing_expressions.specs.Checking.{type_expr_sites};
ghost use Rattle.rgo_typing_expressions.specs.Scopes.{base_of, basic_base, pointer_base, resolved};

use crate::checkers::Checker;
use rgo_ast::TypeExpr;
use rgo_typed::Base;
use rgo_typing_nodes::{check_base_name, check_pointed, check_type_name};
use rgo_typing_rules::{Kind, Meaning, TypeError};

fn basic_base(meaning: Option<Meaning>) -> Base
    ensures { result ≡ basic_base meaning }
{
    match meaning {
        Some(Meaning::Basic(base)) => base,
        _ => Base::Int,
    }
}

/// A pointer to the struct that a name means.
pub(crate) fn pointer_base(meaning: Option<Meaning>) -> Base
    ensures { result ≡ pointer_base meaning }
{
    match meaning {
        Some(Meaning::Struct(number)) => Base::Pointer(number),
        _ => Base::Int,
    }
}

impl<'p, 'a> Checker<'p, 'a> {
    /// What the name in a type means as a base.
    pub fn resolve_base(&self, ty: &TypeExpr) -> Base
        ensures { result ≡ base_of self.now (type_expr_of ty.now) }
    {
        match ty {
            TypeExpr::Named(x) => basic_base(self.meaning(x.name.bytes())),
            TypeExpr::Pointer(x, _) => pointer_base(self.meaning(x.name.bytes())),
            TypeExpr::Slice(element, _) | TypeExpr::Chan(element, _) => self.resolve_base(element),
        }
    }

    /// The type that is written so.
    pub fn resolve<'t>(&self, ty: &'t TypeExpr) -> Kind<'t>
        ensures { type_of_kind result ≡ resolved self.now (type_expr_of ty.now) }
    {
        Kind::of(ty, self.resolve_base(ty))
    }

    /// Refuses a type for the first rule that it breaks.
    pub fn check_type(&self, ty: &TypeExpr) -> Result<(), TypeError>
        ensures { Checks result (type_expr_sites self.now (type_expr_of ty.now)) }
    {
        match ty {
            TypeExpr::Named(x) => { check_type_name(x.at, self.meaning(x.name.bytes())) }
            TypeExpr::Pointer(x, at) => {
                let found = self.meaning(x.name.bytes());
                check_base_name(x.at, found)?;
                check_pointed(*at, found)
            }
            TypeExpr::Slice(element, _) | TypeExpr::Chan(element, _) => self.check_type(element),
        }
    }
}
