//! A world as the driver of `rgo_round_robin` sees it: a machine with turns and meetings. The driver knows nothing of regions. It may
//! call these in any order, since each call leaves the world where any other may follow, unless memory has run out.

use crate::worlds::World;
use rgo_code::Code;
use rgo_interpreter::{Stand, Turned, find_meeting, standing};
use rgo_machine::{Limits, Sizes};
use rgo_round_robin::Running;
use rgo_tac_interpreter::Frame;
use std::alloc::{AllocError, Global};

impl<'a> Running for World<'a> {
    ghost use Rattle.rgo_region_interpreter.specs.Views.{view_of};

    type Frame = Frame;

    type Fixed = (Code, Sizes);

    ghost view = { view_of };

    ghost use Rattle.std.proofs.Common.{ap};

    ghost shown_prints = { λ run given s at. ap (λ v. v.printed) at.reaches.is };

    ghost shown_leaves = { λ run given s at. at.reaches };

    fn goroutines(&self) -> usize {
        self.state.goroutines()
    }

    fn standing(&self, g: usize) -> Option<Stand> {
        standing(&self.machine(), &self.state, g)
    }

    fn printed(&self) -> &[u8] {
        self.state.printed()
    }

    fn clear_printed(&mut self) {
        self.state.clear_printed();
    }

    fn turn(&mut self, alloc: Global, limits: Limits, g: usize, at_most: usize) -> Turned {
        self.take_turn(alloc, limits, g, at_most)
    }

    fn meet(&mut self, alloc: Global, receiver: usize, sender: usize) -> Result<bool, AllocError> {
        self.meet_both(alloc, receiver, sender)
    }

    fn find_meeting(&self, alloc: Global) -> Result<Option<(usize, usize)>, AllocError> {
        find_meeting(alloc, &self.machine(), &self.state)
    }
}
