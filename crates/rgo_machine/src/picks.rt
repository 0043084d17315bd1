//! Picks, and how runs end by themselves.

use rgo_ast::Place;
use rgo_memory::Trap;

/// Which step of a machine is taken next: picks are all that is left open in a run. Goroutines are numbered from 0, in the order of their
/// start; `main` is 0.
#[derive(Clone, Copy, Debug, PartialEq, Eq)]
pub enum Pick {
    /// A goroutine steps alone.
    One(usize),
    /// A receiver and a sender continue together, on a channel without a buffer: one step of both, so that there is no state in
    /// which neither has the value.
    Meet(usize, usize),
}

/// How a run ended.
#[derive(Clone, Copy, Debug, PartialEq, Eq)]
pub enum End {
    /// `main` returned.
    Exit,
    /// A goroutine trapped, at this place of the text.
    Trap(Trap, Place),
}
