//! What every check of an expression or a statement is passed.

ghost use Rattle.std.specs.Prelude.{◌≡◌, OnOk, OnErr};
ghost use Rattle.rgo_typing_rules.specs.Views.{type_of_kind};
ghost use Rattle.rgo_typing_expressions.specs.Packages.{Context};
ghost use Rattle.rgo_typing_expressions.specs.Scopes.{meaning_of, no_locals, with_local, inside, outside, in_scope};

use crate::packages::Package;
use crate::scopes::Scope;
use rgo_typing_rules::{Kind, Meaning};
use std::alloc::{AllocError, Global};
use std::marker::Model;

/// Where an expression or a statement is checked: in a package, at a point of a function.
#[derive(Drop)]
pub struct Checker<'p, 'a> {
    alloc: Global,
    globals: &'p Package<'a>,
    scope: Scope<'a>,
}

impl<'p, 'a> Model for Checker<'p, 'a> {
    ghost use Rattle.rgo_typing_expressions.specs.Packages.{Context};

    ghost Value = { Context };

    ghost view = { λ c. record { globals = c.globals.now; scope = c.scope } };
}

impl<'p, 'a> Checker<'p, 'a> {
    /// A checker of a package with no local variable in scope: for what is outside of functions.
    pub fn new(alloc: Global, globals: &'p Package<'a>) -> Checker<'p, 'a>
        ensures { result ≡ record { globals = globals.now; scope = no_locals } }
    {
        Checker {
            alloc,
            globals,
            scope: Scope::new(alloc),
        }
    }

    /// A checker of a package at a point with these local variables in scope.
    pub fn with_scope(alloc: Global, globals: &'p Package<'a>, scope: Scope<'a>) -> Checker<'p, 'a>
        ensures { result ≡ record { globals = globals.now; scope = scope.entry } }
    {
        Checker {
            alloc,
            globals,
            scope,
        }
    }

    /// The allocator of the trees that checks make. It is not part of what contracts see of a checker.
    pub fn alloc(&self) -> Global {
        self.alloc
    }

    /// What the package declares.
    pub fn globals(&self) -> &'p Package<'a>
        ensures { result.now ≡ self.now.globals }
    {
        self.globals
    }

    /// The local variables.
    pub fn scope(&self) -> &Scope<'a>
        ensures { result.now ≡ self.now.scope }
    {
        &self.scope
    }

    /// What a name means: a local variable, else what the package declares, else what each program
    /// has (The Go Programming Language Specification, "Declarations and scope").
    pub fn meaning(&self, name: &[u8]) -> Option<Meaning>
        ensures { result ≡ meaning_of self.now name.now }
    {
        match self.scope.number(name) {
            Some(number) => Some(Meaning::Local(number)),
            None => self.globals.meaning(name),
        }
    }

    /// Declares a local variable in the innermost block. On allocation failure nothing changes.
    pub fn declare(&mut self, name: &'a [u8], kind: Kind<'a>) -> Result<(), AllocError>
        ensures declared { OnOk result (self.new
            ≡ in_scope (with_local name.now (type_of_kind kind.entry) self.old.scope) self.old) }
        ensures err { OnErr result (self.new ≡ self.old) }
    {
        self.scope.declare(name, kind)
    }

    /// Begins a block. On allocation failure nothing changes.
    pub fn enter(&mut self) -> Result<(), AllocError>
        ensures entered { OnOk result (self.new ≡ in_scope (inside self.old.scope) self.old) }
        ensures err { OnErr result (self.new ≡ self.old) }
    {
        self.scope.enter()
    }

    /// Ends the innermost block.
    pub fn leave(&mut self)
        ensures { self.new ≡ in_scope (outside self.old.scope) self.old }
    {
        self.scope.leave();
    }
}
