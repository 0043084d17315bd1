//! Programs in three-address code.

ghost use Rattle.std.specs.Prelude.{◌≡◌, Some, None, slice_get, MatchOption};
ghost use Rattle.std.specs.Option.{option_map};
ghost use Rattle.rgo_tac.specs.Views.{body_of};

use crate::code::Body;
use crate::functions::TacFn;
use rgo_typed::{Row, Struct, Variable};
use std::marker::Model;

/// A program. Structs, package variables and functions are numbered in the order of the text, each kind from 0.
#[derive(Drop)]
pub struct Tac {
    pub(crate) structs: Row<Struct>,
    pub(crate) variables: Row<Variable>,
    pub(crate) functions: Row<TacFn>,
}

impl Model for Tac {
    ghost use Rattle.rgo_tac.specs.Code as spec;

    ghost Value = { spec.Tac };

    ghost view = { λ code. record {
      structs = code.structs;
      variables = code.variables;
      functions = code.functions;
    } };
}

impl Tac {
    /// The program with these structs, package variables and functions.
    pub fn new(structs: Row<Struct>, variables: Row<Variable>, functions: Row<TacFn>) -> Tac
        ensures { result ≡ record { structs = structs; variables = variables; functions = functions } }
    {
        Tac {
            structs,
            variables,
            functions,
        }
    }

    pub fn structs(&self) -> &[Struct]
        ensures { result.now ≡ self.now.structs }
    {
        self.structs.items()
    }

    /// Its package variables.
    pub fn variables(&self) -> &[Variable]
        ensures { result.now ≡ self.now.variables }
    {
        self.variables.items()
    }

    pub fn functions(&self) -> &[TacFn]
        ensures { result.now ≡ self.now.functions }
    {
        self.functions.items()
    }
    /// The body of the function of this number, as it is coded: for interpreters, which decode an instruction only if they have to.
    pub fn body(&self, function: usize) -> Option<&Body>
        ensures { MatchOption result (slice_get self.now.functions function ≡ None)
            (λ b. option_map (λ f. f.body) (slice_get self.now.functions function)
            ≡ Some (body_of b.now.lists b.now.pieces b.now.instrs b.now.places)) }
    {
        match self.functions.items().get(function) {
            Some(function) => Some(&function.body),
            None => None,
        }
    }
}
