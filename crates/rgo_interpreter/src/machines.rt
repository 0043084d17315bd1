//! What a machine is: its definition, and the code that does to one frame what the definition says. Two machines have such code: that
//! of typed trees and that of three-address code.

use crate::memory::Memory;
use rgo_ast::Place;
use rgo_memory::{Trap, Value};
use std::alloc::{AllocError, Global};

/// Where a frame is: what it is about to do with others. Unlike the definition it does not carry how the frame continues, which
/// would be a copy of the frame: `pass` and `enter` change the frame where it is.
#[derive(Clone, Copy, Debug, PartialEq, Eq)]
pub enum Stand {
    /// Before a receive from this channel. A closed channel returns `blank`, the zero of the type that the receiver expects.
    Receive {
        channel: Value,
        blank: Value,
    },
    /// Before a send of the value to this channel, at this place of the text.
    Send {
        channel: Value,
        value: Value,
        place: Place,
    },
    /// Before a close of this channel.
    Close {
        channel: Value,
        place: Place,
    },
    /// Before the call of a function.
    Call,
    /// Before the start of a goroutine.
    Start,
    /// Before what it does by itself.
    Elsewhere,
}

/// What a frame did by itself.
#[derive(Clone, Copy, Debug, PartialEq, Eq)]
pub enum Did {
    /// It continued.
    Moves,
    /// Its function returns, with a value or without one. Nothing changed.
    Returns(Option<Value>),
    /// It continued, and appended what it printed.
    Prints,
    /// It trapped, at this place of the text. Nothing changed.
    Traps(Trap, Place),
}

/// A machine: how one frame acts. How goroutines act on each other is the same for all machines, see `step`.
pub trait Machine {
    ghost use Rattle.std.specs.Prelude.{◌≡◌, OnOk, OnErr};
    ghost use Rattle.rgo_memory.specs.Channels.{SameChannels};
    ghost use Rattle.rgo_interpreter.specs.Views.{memory_view};
    ghost use Rattle.rgo_interpreter.specs.Acting.{stand_of, frame_after_operation, FrameEnters, FrameActs};
    ghost use Rattle.rgo_machine.specs.Machines as spec;

    /// A function that was called, with what it has still to do.
    type Frame: Drop;

    ghost machine: { Self → spec.Machine Self.Frame };

    /// Where a frame is. It looks at the frame only, so it does not depend on what other goroutines do.
    fn stand(&self, frame: &Self::Frame) -> Stand
        ensures { result ≡ stand_of ((machine self.now).stand frame.now) };

    /// A frame continues after an operation on a channel that returned this value, nil if it returned none. It cannot fail: both
    /// goroutines of a meeting continue in one step.
    fn pass(&self, frame: &mut Self::Frame, value: Value)
        ensures { frame.new ≡ frame_after_operation frame.old value ((machine self.now).stand frame.old) };

    /// A frame continues after a call or a start. Returns the new frame; `None` if it is at neither.
    ///
    /// # Errors
    ///
    /// On allocation failure. Then nothing changed.
    fn enter(
        &self,
        alloc: Global,
        frame: &mut Self::Frame,
    ) -> Result<Option<Self::Frame>, AllocError>
        ensures { FrameEnters result frame.old frame.new ((machine self.now).stand frame.old) };

    /// What a frame does by itself, if it is elsewhere. What it prints is appended to `out`. It never waits, and it changes no
    /// channel (`channels`): all that may wait is the same for all machines.
    ///
    /// # Errors
    ///
    /// On allocation failure. Then nothing changed.
    fn act(
        &self,
        alloc: Global,
        memory: &mut Memory,
        frame: &mut Self::Frame,
        out: &mut Vec<u8>,
    ) -> Result<Did, AllocError>
        ensures acts { FrameActs result (memory_view memory.old) (memory_view memory.new) frame.old frame.new
            out.old.items out.new.items ((machine self.now).act (memory_view memory.old) frame.old) }
        ensures channels { SameChannels (memory_view memory.old) (memory_view memory.new) };

    /// A caller continues when the callee has returned, with a value or without one. It may need memory, so it is called before
    /// the callee's frame is dropped.
    ///
    /// # Errors
    ///
    /// On allocation failure. Then nothing changed.
    fn resume(&self, frame: &mut Self::Frame, value: Option<Value>) -> Result<(), AllocError>
        ensures resumes { OnOk result (frame.new ≡ (machine self.now).resume frame.old value) }
        ensures keeps { OnErr result (frame.new ≡ frame.old) };
}
