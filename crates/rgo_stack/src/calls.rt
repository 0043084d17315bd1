//! Calls and returns. Room is made before anything changes, so a call that is refused memory can be made later.

ghost use Rattle.std.specs.Prelude.{◌≡◌, ◌+◌, ◌<◌, ◌≤◌, ◌↔◌, Err, Some, OnErr, OnOk, length};
ghost use Rattle.rgo_sound.specs.Code.Code.{Code, CodeFn};
ghost use Rattle.rgo_sound.specs.Machine.Limits.{deepest};
ghost use Rattle.rgo_sound.specs.RegionMachine.Owed.{code_function};
ghost use Rattle.rgo_compact.specs.Functions.{IsCompact};
ghost use Rattle.rgo_stack.specs.declared.calls.NoCall.TheVariants as no_call;
ghost use Rattle.rgo_stack.specs.Places.{FrameCanCall, CanReturn, IsCalledFor};
ghost use Rattle.rgo_stack.specs.Stacks as spec;
ghost use Rattle.rgo_stack.specs.Steps.{frames_after_call, frames_after_return};

use crate::growth::{deepen, widen};
use crate::stacks::Stack;
use crate::steps::following;
use rgo_compact::{Caller, CompactCode, Position, enter, function_of, give_back, value_of};
use rgo_sound::machine::DEEPEST;
use std::alloc::AllocError;

/// Why a function cannot be called.
#[derive(Clone, Copy)]
pub enum NoCall {
    /// The goroutine has as many frames as it may have. The run ends with that limit; more memory would not help.
    TooDeep,
    NoMemory,
}

impl Stack {
    /// Room for a frame of this many words above the newest one, and for one more caller. Nothing else changes, so it does not matter
    /// if the second list gets no memory after the first has got its own.
    fn make_room(
        &mut self,
        compact: &CompactCode,
        p: Position,
        size: usize,
    ) -> Result<(), AllocError>
        requires belongs { spec.Belongs compact.now self.old }
        requires at { self.old.at ≡ Some p }
        requires shallow { p.depth + 1 < deepest }
        ensures room { OnOk result ((p.top + size ≤ length self.new.words) × (p.depth < length self.new.callers)) }
        ensures frames { spec.frames_of_stack self.new ≡ spec.frames_of_stack self.old }
        ensures at { self.new.at ≡ self.old.at }
        ensures belongs { spec.Belongs compact.now self.new }
    {
        // No memory has as many words as a `usize` counts.
        let Some(needed) = p.top.checked_add(size) else {
            return Err(AllocError);
        };
        widen(&mut self.words, needed)?;
        deepen(&mut self.callers, p.depth)
    }

    /// The newest frame calls function n with some of its variables.
    ///
    /// # Errors
    ///
    /// [`NoCall::TooDeep`] exactly if the goroutine has as many frames as it may have; otherwise [`NoCall::NoMemory`] on
    /// allocation failure. The frames are then as before.
    pub fn call(&mut self, compact: &CompactCode, n: u32, from: &[u32]) -> Result<(), NoCall>
        requires belongs { spec.Belongs compact.now self.old }
        requires can { FrameCanCall compact.now n (length from.now) (spec.frames_of_stack self.old) }
        ensures called { OnOk result ((code : Code) (fn : CodeFn) → IsCompact code compact.now → code_function code n ≡ Some fn
            → spec.frames_of_stack self.new ≡ frames_after_call fn n from.now (spec.frames_of_stack self.old)) }
        ensures deep { (result ≡ Err no_call.TooDeep) ↔ (length (spec.frames_of_stack self.old) ≡ deepest) }
        ensures refused { OnErr result (spec.frames_of_stack self.new ≡ spec.frames_of_stack self.old) }
        ensures belongs { spec.Belongs compact.now self.new }
    {
        // A goroutine that calls has a frame.
        let Some(p) = self.at else {
            unreachable!();
        };
        if p.depth + 1 == DEEPEST {
            return Err(NoCall::TooDeep);
        }
        let functions = compact.functions();
        let size = function_of(functions, n as usize).size();
        match self.make_room(compact, p, size) {
            Ok(()) => {}
            Err(_) => return Err(NoCall::NoMemory),
        }
        match enter(
            functions,
            &mut self.words,
            &mut self.callers,
            p,
            n as usize,
            from,
        ) {
            Some(q) => {
                self.at = Some(q);
                Ok(())
            }
            // There is room now, and checked code calls functions that exist, with as many arguments as they have parameters.
            None => unreachable!(),
        }
    }

    /// The newest frame returns a variable, or nothing, to its caller, which continues after its call; `to` is the variable
    /// of the result there. After the first function has returned there is no frame. Unlike the loop's return, this one also serves
    /// a caller at a stop: its call passed regions, so the variable of the result comes from the code, not from a compact call.
    pub fn come_back(&mut self, compact: &CompactCode, value: Option<u32>, to: Option<u32>)
        requires belongs { spec.Belongs compact.now self.old }
        requires can { CanReturn compact.now value to (spec.frames_of_stack self.old) }
        ensures frames { (code : Code) → IsCalledFor code to (spec.frames_of_stack self.old)
            → spec.frames_of_stack self.new ≡ frames_after_return code value (spec.frames_of_stack self.old) }
        ensures belongs { spec.Belongs compact.now self.new }
    {
        // A goroutine that returns has a frame.
        let Some(p) = self.at else {
            unreachable!();
        };
        if p.depth == 0 {
            self.at = None;
            return;
        }
        let caller = self.callers[p.depth - 1];
        let word = value_of(&self.words, p.base, value);
        give_back(&mut self.words, caller.base, to, word);
        self.at = Some(Position {
            function: caller.function,
            next: following(compact, caller.function, caller.next),
            base: caller.base,
            top: p.base,
            depth: p.depth - 1,
        });
    }
}
