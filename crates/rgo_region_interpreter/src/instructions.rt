//! One instruction of a goroutine, with its regions. The order is the machine's: what is owed before it, room for the object that it
//! makes, the instruction on the three-address machine, and what is owed after it.

ghost use Rattle.std.specs.Prelude.{◌≡◌, ◌++◌, ◌∷◌, [], map, true, None, Some, MatchOption, slice_get};
ghost use Rattle.rgo_machine.specs.Limits.{is_within};
ghost use Rattle.rgo_code.specs.Code.{Code};
ghost use Rattle.rgo_region_machine.specs.Owed as owed;
ghost use Rattle.rgo_region_machine.specs.States as region;
ghost use Rattle.rgo_region_machine.specs.States.{EndBase, Remove, Unprotect, RegionState, frames_of, plain_at};
ghost use Rattle.rgo_region_interpreter.specs.Objects.{IsRoomy, GoroutineMakesNext, MakesNone, RemovesBehind};
ghost use Rattle.rgo_region_interpreter.specs.Works as works;
ghost use Rattle.rgo_region_interpreter.specs.Works.{BothWork, WorldIsBetween, WorldIsReady, IsNextInFrame, IsNextInWorld, ActsNext, CallsNext, StartsNext, ReturnsNext, OthersOwe, WorldSettled, MayStep, WorldTakesTurn, StepsWhenReady, TakesStep, WorldTakesSteps, Works};

use crate::objects::{Making, next_object};
use crate::worlds::{Next, World};
use rgo_interpreter::{TurnEnd, Turned, is_true, turn_once};
use rgo_machine::Limits;
use rgo_tac::Op;
use rgo_tac_interpreter::{Frame, call_or_return, make_object};
use std::alloc::{AllocError, Global};

/// The names that are removed on the way that a frame takes from its next instruction.
fn removes_behind<'a>(frame: &Frame, next: &Next<'a>) -> &'a [u32]
    ensures { (code : Code) (is : IsNextInFrame code frame.now next.now) → result.now ≡ owed.removes_behind frame.now is.instr.op }
{
    match next.op {
        Op::Branch { test, .. } if !is_true(frame.value(test)) => next.function.otherwise(next.at),
        Op::Do { .. }
        | Op::Call { .. }
        | Op::Go { .. }
        | Op::Print { .. }
        | Op::Jump(_)
        | Op::Branch { .. }
        | Op::Return(_) => next.function.removes(next.at),
    }
}

/// Turns success into `NoMemory` if the region bookkeeping after the step failed. The step itself was done and stays counted.
fn unless_failed(turned: Turned, after: Result<(), AllocError>) -> Turned
    ensures { result ≡ works.unless_failed turned after }
{
    match after {
        Ok(()) => turned,
        Err(_) => Turned {
            steps: turned.steps,
            stop: TurnEnd::NoMemory,
        },
    }
}

/// Whether the run continues after a turn of one step, and the step was done.
fn goes_on(turned: Turned) -> bool
    ensures { result ≡ works.goes_by turned.stop turned.steps }
{
    match turned.stop {
        TurnEnd::Ended(_) => false,
        TurnEnd::Spent
        | TurnEnd::Waits
        | TurnEnd::Printed
        | TurnEnd::Operated(_)
        | TurnEnd::TooDeep
        | TurnEnd::Full
        | TurnEnd::NoRoom(_)
        | TurnEnd::NoMemory => turned.steps > 0,
    }
}

/// Why a turn of the three-address machine was over: it has no pages to run out of, so what it lacks is memory.
fn without_regions(stop: TurnEnd) -> TurnEnd
    ensures { result ≡ works.plain_turn_end stop }
{
    match stop {
        TurnEnd::NoRoom(_) => TurnEnd::NoMemory,
        TurnEnd::Spent
        | TurnEnd::Waits
        | TurnEnd::Printed
        | TurnEnd::Operated(_)
        | TurnEnd::Ended(_)
        | TurnEnd::TooDeep
        | TurnEnd::Full
        | TurnEnd::NoMemory => stop,
    }
}

impl<'a> World<'a> {
    /// A goroutine does its next instruction on the three-address machine, whose code has no regions and whose memory is what the world
    /// keeps of it.
    fn plain(&mut self, alloc: Global, limits: Limits, g: usize) -> Turned
        requires running { self.old.state.ended ≡ None }
        requires within { is_within limits self.old.state ≡ true }
        ensures { WorldTakesTurn self.old self.new limits g result }
    {
        let machine = self.machine();
        let turned = turn_once(alloc, &machine, &mut self.state, limits, g);
        Turned {
            steps: turned.steps,
            stop: without_regions(turned.stop),
        }
    }

    /// A goroutine calls a function or returns to a caller, if it can at once. Returns whether it did; if not, nothing changed. It is a
    /// faster way to the same step, so it may always return `false`.
    fn transfer_at_once(&mut self, alloc: Global, g: usize) -> bool
        ensures { MayStep self.old self.new g result }
    {
        let Some(goroutine) = self.state.goroutines.get_mut(g) else {
            return false;
        };
        call_or_return(
            alloc,
            self.code.tac(),
            &mut self.state.memory,
            &mut goroutine.frames,
        )
    }

    /// A goroutine calls a function or returns, on the three-address machine.
    fn transfer(&mut self, alloc: Global, limits: Limits, g: usize) -> Turned
        requires running { self.old.state.ended ≡ None }
        requires within { is_within limits self.old.state ≡ true }
        ensures { WorldTakesTurn self.old self.new limits g result }
    {
        if self.transfer_at_once(alloc, g) {
            return Turned {
                steps: 1,
                stop: TurnEnd::Spent,
            };
        }
        self.plain(alloc, limits, g)
    }

    /// A goroutine makes the object of its next instruction, if it can at once. Returns whether it did; if not, nothing
    /// changed.
    fn make_at_once(&mut self, alloc: Global, g: usize) -> bool
        ensures { MayStep self.old self.new g result }
    {
        let Some(goroutine) = self.state.goroutines.get_mut(g) else {
            return false;
        };
        let Some(frame) = goroutine.frames.last_mut() else {
            return false;
        };
        make_object(alloc, self.code.tac(), frame, &mut self.state.memory)
    }

    /// A goroutine makes an object by its next instruction, on the three-address machine.
    fn make(&mut self, alloc: Global, limits: Limits, g: usize) -> Turned
        requires running { self.old.state.ended ≡ None }
        requires within { is_within limits self.old.state ≡ true }
        ensures { WorldTakesTurn self.old self.new limits g result }
    {
        if self.make_at_once(alloc, g) {
            return Turned {
                steps: 1,
                stop: TurnEnd::Spent,
            };
        }
        self.plain(alloc, limits, g)
    }

    /// After an instruction: these names are removed, and the goroutine owes all that comes before its next one. The count of what is
    /// done is reset first, since the removals do not belong to what it counts.
    fn settle(&mut self, g: usize, removes: &[u32])
        ensures settled { (s : RegionState)
            → Works self.old s g (map Remove removes.now ++ owed.next_duties self.old.code.now (frames_of s.plain g))
            → OthersOwe self.old s g → WorldSettled self.old self.new s }
    {
        self.owe(g);
        self.remove_all(g, removes);
    }

    /// After an instruction of two goroutines, or by which one starts the other: these names of each are removed, and both owe all that
    /// comes before their next instructions. One follows the other: both have stakes of their own, so what one removes stays live for
    /// the other.
    pub(crate) fn settle_both(&mut self, g: usize, removes: &[u32], j: usize, others: &[u32])
        ensures settled { (s : RegionState) → BothWork self.old s g removes.now j others.now → WorldSettled self.old self.new s }
    {
        self.owe(g);
        self.remove_all(g, removes);
        self.owe(j);
        self.remove_all(j, others);
    }

    /// After a call has returned: the protections of these names end, and then names are removed. In the other order the removals would
    /// find their regions protected, and do nothing.
    fn settle_call(&mut self, g: usize, protects: &[u32], removes: &[u32])
        ensures settled { (s : RegionState)
            → Works self.old s g ((map Unprotect protects.now ++ map Remove removes.now)
            ++ owed.next_duties self.old.code.now (frames_of s.plain g)) → OthersOwe self.old s g
            → WorldSettled self.old self.new s }
    {
        self.owe(g);
        self.unprotect_all(g, protects);
        self.remove_all(g, removes);
    }

    /// After a goroutine's last return: what it was passed at two positions is unprotected and removed.
    fn settle_end(&mut self, g: usize)
        ensures settled { (s : RegionState) (h : region.Holder) → slice_get s.holders g ≡ Some h
            → frames_of s.plain g ≡ [] → Works self.old s g (map EndBase h.base) → OthersOwe self.old s g
            → WorldSettled self.old self.new s }
    {
        self.owe(g);
        self.end_base(g);
    }

    /// An instruction other than a call, a start or a return, which makes no object; after it these names are removed.
    fn act_only(
        &mut self,
        alloc: Global,
        limits: Limits,
        g: usize,
        next: &Next<'a>,
        removes: &[u32],
    ) -> Turned
        requires kind { ActsNext next.now }
        requires makes { MakesNone self.old g next.now }
        requires removes { RemovesBehind self.old g next.now removes.now }
        requires ready { WorldIsReady self.old limits g }
        ensures takes { StepsWhenReady self.old self.new limits g result }
    {
        let turned = self.plain(alloc, limits, g);
        if goes_on(turned) {
            self.settle(g, removes);
        }
        turned
    }

    /// An instruction that makes an object, which has room; after it these names are removed. The number of the object is asked before
    /// the instruction, since a new object is put at the end of the heap.
    fn act_making(
        &mut self,
        alloc: Global,
        limits: Limits,
        g: usize,
        next: &Next<'a>,
        making: Making,
        removes: &[u32],
    ) -> Turned
        requires kind { ActsNext next.now }
        requires makes { GoroutineMakesNext self.old g next.now making }
        requires removes { RemovesBehind self.old g next.now removes.now }
        requires ready { WorldIsReady self.old limits g }
        ensures takes { (s : RegionState) → IsRoomy self.old s g next.now making
            → is_within limits (plain_at s self.old.state.printed) ≡ true
            → TakesStep self.old self.new limits s g 1 result }
    {
        let object = self.state.memory.len();
        let turned = self.make(alloc, limits, g);
        if !goes_on(turned) {
            return turned;
        }
        match self.place(g, next, making, object) {
            Ok(()) => {}
            Err(e) => return unless_failed(turned, Err(e)),
        }
        self.settle(g, removes);
        turned
    }

    /// An instruction other than a call, a start or a return. If it makes an object, room for that is made first: without a page
    /// the instruction is not done.
    fn act(&mut self, alloc: Global, limits: Limits, g: usize, next: &Next<'a>) -> Turned
        requires next { IsNextInWorld self.old g next.now }
        requires kind { ActsNext next.now }
        requires ready { WorldIsReady self.old limits g }
        ensures takes { StepsWhenReady self.old self.new limits g result }
    {
        let Some(frame) = self.newest(g) else {
            return Turned {
                steps: 0,
                stop: TurnEnd::Waits,
            };
        };
        let removes = removes_behind(frame, next);
        let Some(making) = next_object(self.code.tac().structs(), frame, next.op) else {
            return self.act_only(alloc, limits, g, next, removes);
        };
        match self.make_room(g, next, making) {
            Ok(()) => self.act_making(alloc, limits, g, next, making, removes),
            Err(halt) => halt.turned(),
        }
    }

    /// A call of the function of this number.
    fn call(
        &mut self,
        alloc: Global,
        limits: Limits,
        g: usize,
        next: &Next<'a>,
        callee: usize,
    ) -> Turned
        requires next { IsNextInWorld self.old g next.now }
        requires calls { CallsNext next.now callee }
        requires ready { WorldIsReady self.old limits g }
        ensures takes { StepsWhenReady self.old self.new limits g result }
    {
        let turned = self.transfer(alloc, limits, g);
        if !goes_on(turned) {
            return turned;
        }
        match self.enter(alloc, g, next, callee) {
            Ok(()) => {}
            Err(e) => return unless_failed(turned, Err(e)),
        }
        self.settle(g, self.entry(callee));
        turned
    }

    /// The start of a goroutine with the function of this number.
    fn start(
        &mut self,
        alloc: Global,
        limits: Limits,
        g: usize,
        next: &Next<'a>,
        callee: usize,
    ) -> Turned
        requires next { IsNextInWorld self.old g next.now }
        requires starts { StartsNext next.now callee }
        requires ready { WorldIsReady self.old limits g }
        ensures takes { StepsWhenReady self.old self.new limits g result }
    {
        let turned = self.plain(alloc, limits, g);
        if !goes_on(turned) {
            return turned;
        }
        let child = self.holders.len();
        match self.begin(alloc, g, next, callee) {
            Ok(()) => {}
            Err(e) => return unless_failed(turned, Err(e)),
        }
        self.settle_both(g, next.function.removes(next.at), child, self.entry(callee));
        turned
    }

    /// The call at which the caller of a goroutine's newest frame waits; `None` if there is no caller. It has to be asked before the
    /// return, which moves the caller past its call.
    fn call_below(&self, g: usize) -> Option<Next<'a>>
        ensures { (frame : _) (callers : _) → slice_get self.now.state.goroutines g ≡ Some (frame ∷ callers)
            → MatchOption result (works.NoCallBelow self.now callers) (works.IsCallBelow self.now callers) }
    {
        let frames = &self.state.goroutines.get(g)?.frames;
        let depth = frames.len();
        if depth < 2 {
            return None;
        }
        self.next_of(&frames[depth - 2])
    }

    /// A return, to a caller or of the goroutine's last function.
    fn give_back(&mut self, alloc: Global, limits: Limits, g: usize) -> Turned
        requires next { ReturnsNext self.old g }
        requires ready { WorldIsReady self.old limits g }
        ensures takes { StepsWhenReady self.old self.new limits g result }
    {
        let call = self.call_below(g);
        let turned = self.transfer(alloc, limits, g);
        if goes_on(turned) {
            self.come_back(g);
            match call {
                Some(call) => self.settle_call(
                    g,
                    call.function.protects(call.at),
                    call.function.removes(call.at),
                ),
                None => self.settle_end(g),
            }
        }
        turned
    }

    /// A goroutine's next instruction, before which nothing is left to do, with what it owes after it.
    fn perform(&mut self, alloc: Global, limits: Limits, g: usize, next: &Next<'a>) -> Turned
        requires next { IsNextInWorld self.old g next.now }
        requires ready { WorldIsReady self.old limits g }
        ensures takes { StepsWhenReady self.old self.new limits g result }
    {
        match next.op {
            Op::Call { function, .. } => self.call(alloc, limits, g, next, function as usize),
            Op::Go { function, .. } => self.start(alloc, limits, g, next, function as usize),
            Op::Return(_) => self.give_back(alloc, limits, g),
            Op::Do { .. } | Op::Print { .. } | Op::Jump(_) | Op::Branch { .. } => self.act(
                alloc, limits, g, next,
            ),
        }
    }

    /// A goroutine's next instruction, with what it owes before and after it.
    pub(crate) fn step(&mut self, alloc: Global, limits: Limits, g: usize) -> Turned
        requires on { WorldIsBetween self.old limits }
        ensures takes { WorldTakesSteps self.old self.new limits g 1 result }
    {
        // It has returned, or does not exist: it has no step.
        let Some(next) = self.next(g) else {
            return Turned {
                steps: 0,
                stop: TurnEnd::Waits,
            };
        };
        match self.prepare(alloc, g, &next) {
            Ok(()) => self.perform(alloc, limits, g, &next),
            Err(halt) => halt.turned(),
        }
    }
}
