//! A frame that makes an object: a step of the machine, without the tests that are needed for steps of any kind. Apart from the loop
//! of `stretches.rt`, since it allocates.

ghost use Rattle.std.specs.Prelude.{◌≡◌};
ghost use Rattle.rgo_memory.specs.Channels.{SameChannels};
ghost use Rattle.rgo_interpreter.specs.Views.{memory_view};
ghost use Rattle.rgo_tac_interpreter.specs.Making.{FrameContinues, has_moved};
ghost use Rattle.rgo_tac.specs.Steps as spec;

use crate::acts::operate;
use crate::frames::Frame;
use crate::stands::coded_next;
use rgo_interpreter::{Did, Memory};
use rgo_tac::{Instr, Operands, Tac};
use rgo_typed::Action;
use std::alloc::{AllocError, Global};

/// Whether a frame continues after what it did.
fn has_moved(did: Result<Did, AllocError>) -> bool
    ensures { result ≡ has_moved did }
{
    match did {
        Ok(did) => match did {
            Did::Moves => true,
            Did::Returns(_) | Did::Prints | Did::Traps(_, _) => false,
        },
        Err(_) => false,
    }
}

/// A frame makes an object, if its next instruction does. Returns whether it did. If not, for example without memory, nothing
/// changed, and the step is left to the machine. So the place that `operate` takes is never seen, and 0 does.
pub fn make_object(alloc: Global, code: &Tac, frame: &mut Frame, memory: &mut Memory) -> bool
    ensures goes { FrameContinues result (spec.tac_stand code.now frame.old) (spec.tac_act code.now (memory_view memory.old) frame.old)
        (memory_view memory.old) (memory_view memory.new) frame.old frame.new }
    ensures channels { SameChannels (memory_view memory.old) (memory_view memory.new) }
{
    let Some(next) = coded_next(code, frame) else {
        return false;
    };
    match next.instr {
        Instr::New(d, n) => {
            let action = Action::New(n as usize);
            let did = operate(
                alloc,
                code,
                memory,
                frame,
                Some(d),
                action,
                Operands::Zero,
                0,
            );
            has_moved(did)
        }
        Instr::Slice(d, n) => {
            let from = Operands::One(n);
            let did = operate(alloc, code, memory, frame, Some(d), Action::Slice, from, 0);
            has_moved(did)
        }
        Instr::Chan(d, n) => {
            let from = Operands::One(n);
            let did = operate(alloc, code, memory, frame, Some(d), Action::Chan, from, 0);
            has_moved(did)
        }
        _ => false,
    }
}
