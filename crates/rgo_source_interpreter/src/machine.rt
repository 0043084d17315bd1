//! The source machine, one frame at a time: steps, meetings and turns are those of rgo_interpreter.

ghost use Rattle.std.specs.Prelude.{◌≡◌, codes, IfOk, OnOk, OnErr, map, option_to_list};
ghost use Rattle.rgo_typed.specs.Views.{typed_of, typed_function_of};
ghost use Rattle.rgo_meaning.specs.Source as spec;

use crate::acts::act;
use crate::calls::called;
use crate::frames::Frame;
use crate::stands::{enter, pass, stand};
use rgo_interpreter::{Did, Machine, Memory, Stand, State};
use rgo_memory::Value;
use rgo_typed::{Function, Typed};
use std::alloc::{AllocError, Global};

/// The source machine of a program.
#[derive(Clone, Copy)]
pub struct SourceMachine<'a> {
    program: &'a Typed,
}

impl<'a> SourceMachine<'a> {
    /// The source machine of this program.
    pub fn new(program: &'a Typed) -> SourceMachine<'a>
        ensures { result.program.now ≡ program.now }
    {
        SourceMachine { program }
    }
}

impl<'a> Machine for SourceMachine<'a> {
    ghost use Rattle.rgo_typed.specs.Views.{typed_of};
    ghost use Rattle.rgo_meaning.specs.Source.{source};

    type Frame = Frame<'a>;

    ghost machine = { λ s. source (typed_of s.program.now) };

    fn stand(&self, frame: &Frame<'a>) -> Stand {
        stand(self.program, frame)
    }

    fn pass(&self, frame: &mut Frame<'a>, value: Value) {
        pass(frame, value)
    }

    fn enter(&self, alloc: Global, frame: &mut Frame<'a>) -> Result<Option<Frame<'a>>, AllocError> {
        enter(alloc, self.program, frame)
    }

    fn act(
        &self,
        alloc: Global,
        memory: &mut Memory,
        frame: &mut Frame<'a>,
        out: &mut Vec<u8>,
    ) -> Result<Did, AllocError> {
        act(alloc, self.program, memory, frame, out)
    }

    fn resume(&self, frame: &mut Frame<'a>, value: Option<Value>) -> Result<(), AllocError> {
        match value {
            Some(value) => frame.push(value),
            None => Ok(()),
        }
    }
}

/// The frame of `main`, the first function of that name.
fn main_frame<'a>(alloc: Global, functions: &'a [Function]) -> Result<Option<Frame<'a>>, AllocError>
    ensures { IfOk result (λ frame. option_to_list frame
        ≡ spec.source_main_frames (spec.function_named (codes "main") (map typed_function_of functions.now))) }
{
    for function in functions {
        if function.name.bytes() == "main".as_bytes() {
            return Ok(Some(called(alloc, function, &[])?));
        }
    }
    Ok(None)
}

/// The state in which a run of the program begins.
///
/// # Errors
///
/// On allocation failure.
pub fn start<'a>(alloc: Global, program: &'a Typed) -> Result<State<Frame<'a>>, AllocError>
    ensures { IfOk result (λ s. s ≡ spec.source_start (typed_of program.now)) }
{
    let memory = Memory::new(alloc, program.variables.items())?;
    let main = main_frame(alloc, &program.functions)?;
    State::new(alloc, memory, main)
}
