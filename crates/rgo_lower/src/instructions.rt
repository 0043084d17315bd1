//! Single instructions, added to a builder.

ghost use Rattle.std.specs.Prelude.{◌≡◌, ◌+◌, ◌<◌, ◌^◌, [], ◌∷◌, IfOk, Some, None, length, true};
ghost use Rattle.rgo_typed.specs.declared.actions.Action.TheVariants as action;
ghost use Rattle.rgo_tac.specs.Code as op;
ghost use Rattle.rgo_lower.specs.Emitted.{
  builder_size,
  made_of,
  OpIsAdded,
  ValueIsAdded,
  always,
  acts,
  calls,
  jump_to,
  branch_to,
};
ghost use Rattle.rgo_lower.specs.Shapes.{returns_value, returns_nothing};

use crate::builder::Builder;
use crate::encode::{copy_instr, effect_instr, value_instr};
use rgo_ast::Place;
use rgo_tac::Instr;
use rgo_typed::{Action, Piece, Type};
use std::alloc::AllocError;

impl Builder {
    /// An action whose value goes to a new variable of this type, which is returned.
    pub fn give(
        &mut self,
        action: Action,
        from: &[u32],
        ty: &Type,
        place: Place,
    ) -> Result<u32, AllocError>
        requires room { builder_size (made_of self.now) + 3 < 2 ^ 32 }
        requires operands { returns_value action (length from.now) ≡ true }
        ensures { IfOk result (λ d. ValueIsAdded (made_of self.old) (acts action from.now) ty.now place d
            (made_of self.new)) }
    {
        let to = self.variable(ty)?;
        let instr = value_instr(to, action, from, ty);
        self.line(instr, place)?;
        Ok(to)
    }

    /// An action without a value.
    pub fn act(&mut self, action: Action, from: &[u32], place: Place) -> Result<(), AllocError>
        requires { returns_nothing action (length from.now) ≡ true }
        ensures { IfOk result (λ done. OpIsAdded (made_of self.old) (always (op.Do None action from.now)) place
            (made_of self.new)) }
    {
        let instr = effect_instr(action, from);
        self.line(instr, place)
    }

    /// A copy to an existing variable, whose type chooses the fastest kind of copy. All kinds mean the same, so that it does
    /// not matter which one is taken for a number that no variable has.
    pub fn copy_to(&mut self, to: u32, from: u32, place: Place) -> Result<(), AllocError>
        ensures { IfOk result (λ done. OpIsAdded (made_of self.old)
            (always (op.Do (Some to) action.Copy (from ∷ []))) place (made_of self.new)) }
    {
        let instr = match self.variables.get(to as usize) {
            Some(ty) => copy_instr(ty, to, from),
            None => Instr::Copy(to, from),
        };
        self.line(instr, place)
    }

    /// A call whose result goes to a new variable of this type.
    pub fn call(
        &mut self,
        function: usize,
        from: Vec<u32>,
        ty: &Type,
        place: Place,
    ) -> Result<u32, AllocError>
        requires room { builder_size (made_of self.now) + 3 < 2 ^ 32 }
        requires number { function < 2 ^ 32 }
        ensures { IfOk result (λ d. ValueIsAdded (made_of self.old) (calls function from.items) ty.now place d
            (made_of self.new)) }
    {
        let list = self.list(from)?;
        let to = self.variable(ty)?;
        self.line(Instr::Call(to, function as u32, list), place)?;
        Ok(to)
    }

    /// A call of a function that has no result.
    pub fn invoke(
        &mut self,
        function: usize,
        from: Vec<u32>,
        place: Place,
    ) -> Result<(), AllocError>
        requires room { builder_size (made_of self.now) + 3 < 2 ^ 32 }
        requires number { function < 2 ^ 32 }
        ensures { IfOk result (λ done. OpIsAdded (made_of self.old) (always (op.Call None function from.items)) place
            (made_of self.new)) }
    {
        let list = self.list(from)?;
        self.line(Instr::Invoke(function as u32, list), place)
    }

    /// The start of a goroutine.
    pub fn start(&mut self, function: usize, from: Vec<u32>, place: Place) -> Result<(), AllocError>
        requires room { builder_size (made_of self.now) + 3 < 2 ^ 32 }
        requires number { function < 2 ^ 32 }
        ensures { IfOk result (λ done. OpIsAdded (made_of self.old) (always (op.Go function from.items)) place
            (made_of self.new)) }
    {
        let list = self.list(from)?;
        self.line(Instr::Go(function as u32, list), place)
    }

    /// A print of these pieces, with these variables among them.
    pub fn print(
        &mut self,
        pieces: &[Piece],
        from: Vec<u32>,
        place: Place,
    ) -> Result<(), AllocError>
        requires { builder_size (made_of self.now) + 3 < 2 ^ 32 }
        ensures { IfOk result (λ done. OpIsAdded (made_of self.old) (always (op.Print pieces.now from.items)) place
            (made_of self.new)) }
    {
        let text = self.text(pieces)?;
        let list = self.list(from)?;
        self.line(Instr::Print(text, list), place)
    }

    /// A jump to a label.
    pub fn jump(&mut self, label: u32, place: Place) -> Result<(), AllocError>
        ensures { IfOk result (λ done. OpIsAdded (made_of self.old) (jump_to label) place (made_of self.new)) }
    {
        self.line(Instr::Jump(label), place)
    }

    /// A branch to the first label where the variable is true, else to the other.
    pub fn branch(
        &mut self,
        test: u32,
        inside: u32,
        other: u32,
        place: Place,
    ) -> Result<(), AllocError>
        ensures { IfOk result (λ done. OpIsAdded (made_of self.old) (branch_to test inside other) place
            (made_of self.new) × (builder_size (made_of self.new) ≡ builder_size (made_of self.old) + 1)) }
    {
        self.line(Instr::Branch(test, inside, other), place)
    }

    /// A return of the value of this variable.
    pub fn return_from(&mut self, value: u32, place: Place) -> Result<(), AllocError>
        ensures { IfOk result (λ done. OpIsAdded (made_of self.old) (always (op.Return (Some value))) place
            (made_of self.new)) }
    {
        self.line(Instr::Return(value), place)
    }

    /// A return without a value.
    pub fn leave(&mut self, place: Place) -> Result<(), AllocError>
        ensures { IfOk result (λ done. OpIsAdded (made_of self.old) (always (op.Return None)) place
            (made_of self.new)) }
    {
        self.line(Instr::Leave, place)
    }
}
