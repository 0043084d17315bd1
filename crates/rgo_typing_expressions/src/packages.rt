//! What a package declares.

ghost use Rattle.std.specs.Prelude.{◌≡◌, []};
ghost use Rattle.rgo_typing_rules.specs.Views.{type_of_kind};
ghost use Rattle.rgo_typing_expressions.specs.Scopes.{variable_type_at, global_meaning};

use crate::names::universe;
use rgo_scopes::Scopes;
use rgo_typed::Base;
use rgo_typing_rules::{Kind, Meaning, Signature};
use std::marker::Model;

/// The fields of a struct: the number of each name, and the types by number.
#[derive(Drop)]
pub struct Fields<'a> {
    pub numbers: Scopes<'a, usize>,
    pub kinds: Vec<Kind<'a>>,
}

impl<'a> Model for Fields<'a> {
    ghost use Rattle.rgo_typing_expressions.specs.Packages.{Fields};

    ghost Value = { Fields };

    ghost use Rattle.std.specs.Prelude.{map};
    ghost use Rattle.rgo_typing_rules.specs.Views.{type_of_kind};

    ghost view = { λ f. record { numbers = f.numbers; types = map type_of_kind f.kinds.items } };
}

/// What a package declares. Names have numbers, and the lists have what belongs to a number; while declarations are checked the lists
/// are empty, and only the meanings of names are asked for.
#[derive(Drop)]
pub struct Package<'a> {
    /// Whether it imports `fmt`.
    pub imported: bool,
    pub names: Scopes<'a, Meaning>,
    pub structs: Vec<Fields<'a>>,
    pub variables: Vec<Kind<'a>>,
    pub functions: Vec<Signature<'a>>,
}

impl<'a> Model for Package<'a> {
    ghost use Rattle.rgo_typing_expressions.specs.Packages.{Package};

    ghost Value = { Package };

    ghost use Rattle.std.specs.Prelude.{map};
    ghost use Rattle.rgo_typing_rules.specs.Views.{type_of_kind, signature_of_kinds};

    ghost view = { λ p. record {
      imported = p.imported;
      names = p.names;
      structs = p.structs.items;
      variables = map type_of_kind p.variables.items;
      functions = map signature_of_kinds p.functions.items;
    } };
}

impl<'a> Package<'a> {
    /// The type of a package variable.
    pub fn variable(&self, number: usize) -> Kind<'a>
        ensures { type_of_kind result ≡ variable_type_at self.now number }
    {
        match self.variables.get(number) {
            Some(kind) => *kind,
            None => Kind::Plain(Base::Int),
        }
    }

    /// The meaning of a name that is not a local variable.
    pub fn meaning(&self, name: &[u8]) -> Option<Meaning>
        ensures { result ≡ global_meaning self.now name.now }
    {
        match self.names.get(name) {
            Some(meaning) => Some(meaning),
            None => universe(self.imported, name),
        }
    }
}

/// No types, as an empty part of a list of the package, so that nothing is allocated.
pub(crate) fn no_kinds<'b, 'a>(globals: &'b Package<'a>) -> &'b [Kind<'a>]
    ensures { result.now ≡ [] }
{
    &globals.variables[..0]
}
