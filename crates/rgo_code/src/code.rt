//! Code: three-address code, and beside it what each function says of regions. The two are kept apart, so that the analyses take the
//! code without regions as it is.

ghost use Rattle.std.specs.Prelude.{◌≡◌, length, slice_get};
ghost use Rattle.rgo_code.specs.Erasure.{erased};
ghost use Rattle.rgo_code.specs.NameRules.{Ascends};
ghost use Rattle.rgo_code.specs.Views.{code_of};

use crate::functions::{CodeFn, item_at};
use crate::notes::Regions;
use rgo_ast::Name;
use rgo_tac::Tac;
use rgo_typed::Row;
use std::marker::Model;

/// The names that code uses without declaring them, in the order of their first use. What the compiler makes has none.
/// They have the numbers that follow those of what is declared.
#[derive(Drop)]
pub struct Undeclared {
    pub structs: Row<Name>,
    pub variables: Row<Name>,
    pub functions: Row<Name>,
}

/// A program in three-address code, with its regions.
#[derive(Drop)]
pub struct Code {
    tac: Tac,
    undeclared: Undeclared,
    regions: Row<Regions>,
}

impl Model for Code {
    ghost use Rattle.std.specs.Prelude.{◌≡◌, length};
    ghost use Rattle.rgo_code.specs.Code as spec;
    ghost use Rattle.rgo_code.specs.NameRules.{Ascends};
    ghost use Rattle.rgo_code.specs.Views.{code_of};

    ghost Value = { spec.Code };

    ghost view = { λ c. code_of c.tac c.undeclared c.regions };

    ghost invariant = { λ c. Ascends (code_of c.tac c.undeclared c.regions)
        × (length c.regions ≡ length c.tac.functions) };
}

impl Code {
    /// The program with this code and these regions, each function's by its number.
    pub fn new(tac: Tac, undeclared: Undeclared, regions: Row<Regions>) -> Code
        requires ascends { Ascends (code_of tac undeclared regions) }
        requires len { length regions ≡ length tac.functions }
        ensures { result ≡ code_of tac undeclared regions }
    {
        Code {
            tac,
            undeclared,
            regions,
        }
    }

    /// The code without its regions.
    pub fn tac(&self) -> &Tac
        ensures { result.now ≡ erased self.now }
    {
        &self.tac
    }

    pub fn undeclared(&self) -> &Undeclared
        ensures { result.now ≡ self.now.undeclared }
    {
        &self.undeclared
    }

    /// How many functions it has.
    pub fn len(&self) -> usize
        ensures { result ≡ length self.now.functions }
    {
        self.tac.functions().len()
    }

    /// Does nothing. Its clause states the invariant of the type, that in each list a name is below the next one, for callers
    /// whose proof needs it.
    pub fn ascends(&self)
        ensures { Ascends self.now }
    {
        let _ = &self.tac;
    }

    /// The function of this number.
    pub fn function(&self, n: usize) -> Option<CodeFn<'_>>
        ensures { result ≡ slice_get self.now.functions n }
    {
        match item_at(self.tac.functions(), n) {
            Some(tac) => match item_at(self.regions.items(), n) {
                Some(regions) => Some(CodeFn::new(tac, regions)),
                // Not by the invariant: each function has its regions.
                None => None,
            },
            None => None,
        }
    }
}
