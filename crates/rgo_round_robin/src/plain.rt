//! Runs of machines whose states are held in full.

ghost use Rattle.std.specs.Prelude.{◌≡◌, true, None};
ghost use Rattle.rgo_machine.specs.Limits.{is_within};
ghost use Rattle.rgo_interpreter.specs.Turns.{Turns};
ghost use Rattle.rgo_round_robin.specs.Plain as plain;

use crate::running::Running;
use rgo_interpreter::{
    Machine, Stand, State, Stepped, TurnEnd, Turned, find_meeting, standing, step, turn_once,
};
use rgo_machine::{Limits, Pick};
use std::alloc::{AllocError, Global};

/// A run whose state is held in full.
#[derive(Drop)]
pub struct Plain<'a, M: Machine> {
    pub machine: &'a M,
    pub state: State<M::Frame>,
}

impl<'a, M: Machine> Plain<'a, M> {
    /// A run of the machine from this state.
    pub fn new(machine: &'a M, state: State<M::Frame>) -> Plain<'a, M>
        ensures machine { result.machine.now ≡ machine.now }
        ensures state { result.state ≡ state }
    {
        Plain { machine, state }
    }
}

/// Why a turn was over, for a machine whose objects do not lie in regions: it has no pages to run out of, so what it lacks is
/// memory.
fn without_regions(stop: TurnEnd) -> TurnEnd
    ensures { result ≡ plain.without_regions stop }
{
    match stop {
        TurnEnd::NoRoom(_) => TurnEnd::NoMemory,
        TurnEnd::Spent
        | TurnEnd::Waits
        | TurnEnd::Printed
        | TurnEnd::Operated(_)
        | TurnEnd::Ended(_)
        | TurnEnd::TooDeep
        | TurnEnd::Full
        | TurnEnd::NoMemory => stop,
    }
}

/// A goroutine steps alone, up to `at_most` times. A step that ends a turn early may have been taken, so it is counted.
fn turn<M: Machine>(
    alloc: Global,
    machine: &M,
    state: &mut State<M::Frame>,
    limits: Limits,
    g: usize,
    at_most: usize,
) -> Turned
    requires running { state.old.ended ≡ None }
    requires within { is_within limits state.old ≡ true }
    ensures { Turns (M.machine machine.now) limits state.old state.new g at_most result }
{
    for taken in 0..at_most {
        let done = turn_once(alloc, machine, state, limits, g);
        match done.stop {
            TurnEnd::Spent => {}
            stop => {
                return Turned {
                    steps: taken + done.steps,
                    stop,
                };
            }
        }
    }
    Turned {
        steps: at_most,
        stop: TurnEnd::Spent,
    }
}

impl<'a, M: Machine> Running for Plain<'a, M> {
    ghost use Rattle.std.specs.Prelude.{◌≡◌};

    type Frame = M::Frame;

    type Fixed = ();

    ghost view = { λ run. record {
      machine = M.machine run.machine.now;
      shows = λ given s. s ≡ run.state;
      leaves = λ given s. s ≡ run.state;
      lacks = λ shortage given s. ⊥;
      print = run.state.printed;
      fixed = tt;
    } };

    ghost use Rattle.std.proofs.Common.{ap};

    ghost shown_prints = { λ run given s is. ap (λ v. v.printed) is };

    ghost shown_leaves = { λ run given s is. is };

    fn goroutines(&self) -> usize {
        self.state.goroutines()
    }

    fn standing(&self, g: usize) -> Option<Stand> {
        standing(self.machine, &self.state, g)
    }

    fn printed(&self) -> &[u8] {
        self.state.printed()
    }

    fn clear_printed(&mut self) {
        self.state.clear_printed();
    }

    fn turn(&mut self, alloc: Global, limits: Limits, g: usize, at_most: usize) -> Turned {
        let turned = turn(alloc, self.machine, &mut self.state, limits, g, at_most);
        Turned {
            steps: turned.steps,
            stop: without_regions(turned.stop),
        }
    }

    fn meet(&mut self, alloc: Global, receiver: usize, sender: usize) -> Result<bool, AllocError> {
        match step(
            alloc,
            self.machine,
            &mut self.state,
            Pick::Meet(receiver, sender),
        )? {
            Stepped::NotEnabled => Ok(false),
            Stepped::Advanced | Stepped::Ended(_) => Ok(true),
        }
    }

    fn find_meeting(&self, alloc: Global) -> Result<Option<(usize, usize)>, AllocError> {
        find_meeting(alloc, self.machine, &self.state)
    }
}
