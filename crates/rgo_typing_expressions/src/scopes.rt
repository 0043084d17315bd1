//! The local variables of a function at a point of it. Blocks end, but numbers are never given again: later passes know a variable by
//! its number alone, in the whole function.

ghost use Rattle.std.specs.Prelude.{◌≡◌, OnOk, OnErr, map, is_some};
ghost use Rattle.rgo_typing_rules.specs.Views.{type_of_kind};
ghost use Rattle.rgo_scopes.specs.Blocks.{found, found_in};
ghost use Rattle.rgo_typing_expressions.specs.Scopes.{local_at, with_local, inside, outside, no_locals};

use crate::packages::Fields;
use rgo_scopes::Scopes;
use rgo_typed::Base;
use rgo_typing_rules::Kind;
use std::alloc::{AllocError, Global};
use std::marker::Model;

/// The local variables that were declared so far.
#[derive(Drop)]
pub struct Scope<'a> {
    /// The number of each name in scope.
    locals: Scopes<'a, usize>,
    /// The types by number, also of what is out of scope.
    kinds: Vec<Kind<'a>>,
}

impl<'a> Model for Scope<'a> {
    ghost use Rattle.rgo_typing_expressions.specs.Packages.{Scope};

    ghost Value = { Scope };

    ghost use Rattle.std.specs.Prelude.{map};
    ghost use Rattle.rgo_typing_rules.specs.Views.{type_of_kind};

    ghost view = { λ g. record { locals = g.locals; types = map type_of_kind g.kinds.items } };
}

impl<'a> Scope<'a> {
    /// No local variables.
    pub fn new(alloc: Global) -> Scope<'a>
        ensures { result ≡ no_locals }
    {
        Scope {
            locals: Scopes::new(alloc),
            kinds: Vec::new(alloc),
        }
    }

    /// The number of the local variable that a name means.
    pub fn number(&self, name: &[u8]) -> Option<usize>
        ensures { result ≡ found name.now self.now.locals }
    {
        self.locals.get(name)
    }

    /// Whether the innermost block declares a name.
    pub fn is_declared_here(&self, name: &[u8]) -> bool
        ensures { result ≡ is_some (found_in name.now self.now.locals.here) }
    {
        self.locals.is_declared_here(name)
    }

    /// The types of all local variables so far, by number.
    pub fn kinds(&self) -> &[Kind<'a>]
        ensures { map type_of_kind result.now ≡ self.now.types }
    {
        &self.kinds
    }

    /// The type of a local variable.
    pub fn local(&self, number: usize) -> Kind<'a>
        ensures { type_of_kind result ≡ local_at self.now number }
    {
        match self.kinds.get(number) {
            Some(kind) => *kind,
            None => Kind::Plain(Base::Int),
        }
    }

    /// Declares a local variable in the innermost block. On allocation failure the scope stays as
    /// it was.
    pub fn declare(&mut self, name: &'a [u8], kind: Kind<'a>) -> Result<(), AllocError>
        ensures declared { OnOk result
            (self.new ≡ with_local name.now (type_of_kind kind.entry) self.old) }
        ensures err { OnErr result (self.new ≡ self.old) }
    {
        // Room first, so that the name is not declared without its type.
        let number = self.kinds.len();
        self.kinds.reserve(1)?;
        self.locals.declare(name, number)?;
        self.kinds.push_reserved(kind);
        Ok(())
    }

    /// Begins a block. On allocation failure the scope stays as it was.
    pub fn enter(&mut self) -> Result<(), AllocError>
        ensures entered { OnOk result (self.new ≡ inside self.old) }
        ensures err { OnErr result (self.new ≡ self.old) }
    {
        self.locals.enter()
    }

    /// The local variables as the fields of a struct, or the parameters of a function. All three are names that must differ and have
    /// types by number, so they are checked by the same functions.
    pub fn into_fields(self) -> Fields<'a>
        ensures { result ≡ record { numbers = self.entry.locals; types = self.entry.types } }
    {
        let Scope { locals, kinds } = self;
        Fields {
            numbers: locals,
            kinds,
        }
    }

    /// Ends the innermost block.
    pub fn leave(&mut self)
        ensures { self.new ≡ outside self.old }
    {
        self.locals.leave();
    }
}
