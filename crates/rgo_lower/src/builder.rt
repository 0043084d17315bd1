//! The code of a function while it is made. A jump leads to a label, whose instruction is known only when the label is
//! placed. Why: docs/DECISIONS.md, "Three-address code".

ghost use Rattle.std.specs.Prelude.{◌≡◌, ◌<◌, ◌^◌, [], ◌∷◌, IfOk, length, get_or};
ghost use Rattle.rgo_typed.specs.declared.actions.Action.TheVariants as action;
ghost use Rattle.rgo_lower.specs.Emitted.{
  builder_size,
  made_of,
  slot_of_local,
  with_emitted_line,
  with_emitted_variable,
  with_list,
  with_pieces,
  with_label,
  with_placed,
  with_local_slot,
};

use rgo_ast::Place;
use rgo_tac::{Instr, copy_pieces, copy_type};
use rgo_typed::{Piece, Row, Type};
use std::alloc::{AllocError, Global};

/// An instruction with its place. Targets are numbers of labels.
#[derive(Clone, Copy)]
pub struct Line {
    pub instr: Instr,
    pub place: Place,
}

/// The labels to which `break` and `continue` lead.
#[derive(Clone, Copy)]
pub struct Loop {
    pub break_to: u32,
    pub continue_to: u32,
}

/// The code so far.
#[derive(Drop)]
pub struct Builder {
    pub alloc: Global,
    pub lines: Vec<Line>,
    pub variables: Vec<Type>,
    pub lists: Vec<Row<u32>>,
    pub pieces: Vec<Row<Piece>>,
    /// The number of the instruction of each label, once it is placed.
    pub labels: Vec<Option<u32>>,
    /// The variable of each local variable that is in scope.
    pub slots: Vec<u32>,
}

impl Builder {
    /// Adds an instruction.
    pub fn line(&mut self, instr: Instr, place: Place) -> Result<(), AllocError>
        ensures { IfOk result (λ done. made_of self.new ≡ with_emitted_line (made_of self.old) instr place) }
    {
        self.lines.push(Line { instr, place })?;
        Ok(())
    }

    /// Adds a variable of this type, and returns its number.
    pub fn variable(&mut self, ty: &Type) -> Result<u32, AllocError>
        requires { builder_size (made_of self.now) < 2 ^ 32 }
        ensures { IfOk result (λ d. (d ≡ length self.old.variables.items)
            × (made_of self.new ≡ with_emitted_variable (made_of self.old) ty.now)) }
    {
        let number = self.variables.len() as u32;
        self.variables.push(copy_type(self.alloc, ty)?)?;
        Ok(number)
    }

    /// Adds a list of variables, and returns its number.
    pub fn list(&mut self, from: Vec<u32>) -> Result<u32, AllocError>
        requires { builder_size (made_of self.now) < 2 ^ 32 }
        ensures { IfOk result (λ n. (n ≡ length self.old.lists.items)
            × (made_of self.new ≡ with_list (made_of self.old) from.items)) }
    {
        let number = self.lists.len() as u32;
        self.lists.push(Row::new(from))?;
        Ok(number)
    }

    /// Adds the pieces of a print, and returns their number.
    pub fn text(&mut self, pieces: &[Piece]) -> Result<u32, AllocError>
        requires { builder_size (made_of self.now) < 2 ^ 32 }
        ensures { IfOk result (λ n. (n ≡ length self.old.pieces.items)
            × (made_of self.new ≡ with_pieces (made_of self.old) pieces.now)) }
    {
        let number = self.pieces.len() as u32;
        self.pieces.push(copy_pieces(self.alloc, pieces)?)?;
        Ok(number)
    }

    /// Makes a label, which is to be placed later.
    pub fn label(&mut self) -> Result<u32, AllocError>
        requires { builder_size (made_of self.now) < 2 ^ 32 }
        ensures { IfOk result (λ n. (n ≡ length self.old.labels.items)
            × (made_of self.new ≡ with_label (made_of self.old))) }
    {
        let number = self.labels.len() as u32;
        self.labels.push(None)?;
        Ok(number)
    }

    /// Places a label at the next instruction. Callers place labels that they have made here; any other number would
    /// change nothing.
    pub fn place(&mut self, label: u32) -> Result<(), AllocError>
        requires { builder_size (made_of self.now) < 2 ^ 32 }
        ensures { IfOk result (λ done. made_of self.new ≡ with_placed (made_of self.old) label) }
    {
        let next = self.lines.len() as u32;
        if (label as usize) < self.labels.len() {
            self.labels[label as usize] = Some(next);
        }
        Ok(())
    }

    /// The variable of a local variable; 0 for a number that no local variable has, which no tree contains that is
    /// lowered.
    pub fn variable_of(&self, n: usize) -> u32
        ensures { result ≡ slot_of_local (made_of self.now) n }
    {
        match self.slots.get(n) {
            Some(variable) => *variable,
            None => 0,
        }
    }

    /// Brings a local variable into scope, as this variable.
    pub fn declare(&mut self, n: usize, variable: u32)
        requires { n < length self.now.slots.items }
        ensures { made_of self.new ≡ with_local_slot (made_of self.old) n variable }
    {
        self.slots[n] = variable;
    }
}
