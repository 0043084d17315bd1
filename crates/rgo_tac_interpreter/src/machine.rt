//! The three-address machine, one frame at a time: steps, meetings and turns are those of rgo_interpreter.

ghost use Rattle.std.specs.Prelude.{◌≡◌, zero, codes, IfOk, drop, length, option_to_list};
ghost use Rattle.rgo_tac.specs.Tac as spec;

use crate::acts::{act, resume};
use crate::frames::{Frame, called};
use crate::stands::{enter, pass, stand};
use rgo_interpreter::{Did, Machine, Memory, Stand, State};
use rgo_memory::Value;
use rgo_tac::Tac;
use std::alloc::{AllocError, Global};

/// The three-address machine of some code.
#[derive(Clone, Copy)]
pub struct TacMachine<'a> {
    code: &'a Tac,
}

impl<'a> TacMachine<'a> {
    /// The three-address machine of this code.
    pub fn new(code: &'a Tac) -> TacMachine<'a>
        ensures { result.code.now ≡ code.now }
    {
        TacMachine { code }
    }
}

impl<'a> Machine for TacMachine<'a> {
    ghost use Rattle.rgo_tac.specs.Tac.{tac};

    type Frame = Frame;

    ghost machine = { λ m. tac m.code.now };

    fn stand(&self, frame: &Frame) -> Stand {
        stand(self.code, frame)
    }

    fn pass(&self, frame: &mut Frame, value: Value) {
        pass(self.code, frame, value)
    }

    fn enter(&self, alloc: Global, frame: &mut Frame) -> Result<Option<Frame>, AllocError> {
        enter(alloc, self.code, frame)
    }

    fn act(
        &self,
        alloc: Global,
        memory: &mut Memory,
        frame: &mut Frame,
        out: &mut Vec<u8>,
    ) -> Result<Did, AllocError> {
        act(alloc, self.code, memory, frame, out)
    }

    fn resume(&self, frame: &mut Frame, value: Option<Value>) -> Result<(), AllocError> {
        resume(self.code, frame, value);
        Ok(())
    }
}

/// The frame of `main`, the first function of that name. Code without one has a goroutine without frames, which has returned.
fn main_frame(alloc: Global, code: &Tac) -> Result<Option<Frame>, AllocError>
    ensures { IfOk result (λ frame. option_to_list frame ≡ spec.tac_main_frames code.now.functions 0) }
{
    let functions = code.functions();
    for number in 0..functions.len() {
        let function = &functions[number];
        if function.name().bytes() == "main".as_bytes() {
            return Ok(Some(called(Vec::new(alloc), function, number)?));
        }
    }
    Ok(None)
}

/// The state in which a run of the code begins.
///
/// # Errors
///
/// On allocation failure.
pub fn start(alloc: Global, code: &Tac) -> Result<State<Frame>, AllocError>
    ensures { IfOk result (λ s. s ≡ spec.tac_start code.now) }
{
    let memory = Memory::new(alloc, code.variables())?;
    let main = main_frame(alloc, code)?;
    State::new(alloc, memory, main)
}
