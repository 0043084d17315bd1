//! The state of a recorded run, and what the other modules ask of it most: a goroutine's newest frame and its next instruction.

ghost use Rattle.std.specs.Prelude.{◌≡◌, ◌∷◌, [], Some, None, MatchOption, OnSome, slice_get};
ghost use Rattle.rgo_tac.specs.Tac.{tac};
ghost use Rattle.rgo_code.specs.Erasure.{erased};
ghost use Rattle.rgo_region_interpreter.specs.declared.worlds.Halt.TheVariants.{NoMemory};
ghost use Rattle.rgo_region_interpreter.specs.Works as spec;
ghost use Rattle.rgo_region_interpreter.specs.Works.{IsNextInFrame, IsNextInWorld};

use crate::holders::Holder;
use crate::tables::Table;
use rgo_code::{Code, CodeFn};
use rgo_interpreter::{State, TurnEnd, Turned};
use rgo_machine::{Shortage, Sizes};
use rgo_tac::{Class, Op};
use rgo_tac_interpreter::{Frame, Mark, TacMachine};
use std::alloc::AllocError;

/// A run of checked code with its regions.
///
/// Holds the machine state without the contents of removed regions, which no step reads.
#[derive(Drop)]
pub struct World<'a> {
    pub(crate) code: &'a Code,
    pub(crate) sizes: Sizes,
    /// For each function, on which ways out of its instructions there is anything to do with regions.
    pub(crate) marks: Vec<Vec<Mark>>,
    /// The region parameters of each function.
    pub(crate) formals: Vec<Vec<Class>>,
    pub(crate) state: State<Frame>,
    pub(crate) table: Table,
    /// What each goroutine has of the regions.
    pub(crate) holders: Vec<Holder>,
}

/// Why a step with a region was not done. For want of room nothing has changed, and the run ends with the world as it is. For want of
/// memory a step may be half done: then only the print is still that of a run.
#[derive(Clone, Copy)]
pub(crate) enum Halt {
    NoMemory,
    NoRoom(Shortage),
}

impl From<AllocError> for Halt {
    ghost from_gives = { λ _ halt. halt ≡ NoMemory };

    fn from(_: AllocError) -> Halt {
        Halt::NoMemory
    }
}

impl Halt {
    /// A turn without steps that ends for this reason.
    pub(crate) fn turned(self) -> Turned
        ensures { result ≡ spec.halted self }
    {
        Turned {
            steps: 0,
            stop: match self {
                Halt::NoMemory => TurnEnd::NoMemory,
                Halt::NoRoom(shortage) => TurnEnd::NoRoom(shortage),
            },
        }
    }
}

/// The next instruction of a goroutine. It borrows from the code and not from the world, so the world can change while it is in use.
#[derive(Drop)]
pub(crate) struct Next<'a> {
    pub(crate) function: CodeFn<'a>,
    pub(crate) at: usize,
    pub(crate) op: Op<'a>,
}

impl<'a> World<'a> {
    /// The newest frame of a goroutine; `None` if it has returned or does not exist.
    #[inline(always)]
    pub(crate) fn newest(&self, g: usize) -> Option<&Frame>
        ensures { MatchOption result (spec.newest_of self.now g ≡ None) (λ f. spec.newest_of self.now g ≡ Some f.now) }
    {
        self.state.goroutines.get(g)?.frames.last()
    }

    /// The next instruction of a frame. It is inlined, so that what is not asked of it is not decoded.
    #[inline(always)]
    pub(crate) fn next_of(&self, frame: &Frame) -> Option<Next<'a>>
        ensures { MatchOption result (spec.current_instr self.now frame.now ≡ None) (IsNextInFrame self.now.code.now frame.now) }
    {
        let function = self.code.function(frame.function)?;
        let op = function.tac().op(frame.next)?;
        Some(Next {
            function,
            at: frame.next,
            op,
        })
    }

    /// The next instruction of a goroutine; `None` if it has returned or does not exist.
    #[inline(always)]
    pub(crate) fn next(&self, g: usize) -> Option<Next<'a>>
        ensures { MatchOption result (spec.GoroutineHasNoNext self.now g) (IsNextInWorld self.now g) }
    {
        self.next_of(self.newest(g)?)
    }

    pub(crate) fn machine(&self) -> TacMachine<'a>
        ensures { result.code.now ≡ erased self.now.code.now }
    {
        TacMachine::new(self.code.tac())
    }
}
