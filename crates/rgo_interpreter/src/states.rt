//! The state of a run.

ghost use Rattle.std.specs.Prelude.{◌≡◌, [], length, option_to_list, IfOk};
ghost use Rattle.rgo_interpreter.specs.Views.{memory_view};
ghost use Rattle.rgo_interpreter.specs.Acting as acting;
ghost use Rattle.rgo_machine.specs.Machines.{start_state};

use crate::machines::{Machine, Stand};
use crate::memory::Memory;
use rgo_machine::End;
use std::alloc::{AllocError, Global};
use std::marker::Model;

/// A goroutine: its frames, the newest last; none if it has returned. Clauses see the newest first, as the definition has it; here
/// it is at the end, where a list grows.
#[derive(Drop)]
pub struct Goroutine<F> {
    pub frames: Vec<F>,
}

impl<F> Model for Goroutine<F> {
    ghost use Rattle.std.specs.Prelude.{List, reverse};
    ghost use Rattle.std.specs.Coded.{coded_list};

    ghost Value = { List F };

    ghost coded = { coded_list F.code };

    ghost view = { λ g. reverse g.frames.items };
}

/// The state of a run. A goroutine keeps its number when it has returned, so the list only grows.
#[derive(Drop)]
pub struct State<F> {
    pub memory: Memory,
    pub goroutines: Vec<Goroutine<F>>,
    pub printed: Vec<u8>,
    pub ended: Option<End>,
}

impl<F> Model for State<F> {
    ghost use Rattle.rgo_interpreter.specs.Views.{memory_view};
    ghost use Rattle.rgo_machine.specs.Machines.{State};

    ghost Value = { State F };

    ghost view = { λ s. record {
      memory = memory_view s.memory;
      goroutines = s.goroutines.items;
      printed = s.printed.items;
      ended = s.ended;
    } };
}

impl<F: Drop> State<F> {
    /// The state in which a run begins, with the frame of `main`, if there is one.
    ///
    /// # Errors
    ///
    /// On allocation failure.
    pub fn new(alloc: Global, memory: Memory, main: Option<F>) -> Result<State<F>, AllocError>
        ensures { IfOk result (λ s. s ≡ start_state (memory_view memory) (option_to_list main)) }
    {
        let mut frames = Vec::new(alloc);
        if let Some(frame) = main {
            frames.push(frame)?;
        }
        let mut goroutines = Vec::new(alloc);
        goroutines.push(Goroutine { frames })?;
        Ok(State {
            memory,
            goroutines,
            printed: Vec::new(alloc),
            ended: None,
        })
    }

    /// How many goroutines there are, those that have returned included.
    pub fn goroutines(&self) -> usize
        ensures { result ≡ length self.now.goroutines }
    {
        self.goroutines.len()
    }

    /// What was printed since the print was last cleared.
    pub fn printed(&self) -> &[u8]
        ensures { result.now ≡ self.now.printed }
    {
        &self.printed
    }

    /// Forgets what was printed: a driver calls it when it has written the print, which would otherwise be kept for the whole run.
    pub fn clear_printed(&mut self)
        ensures { self.new ≡ record self.old { printed = [] } }
    {
        self.printed.clear();
    }
}

/// Where the newest frame of a goroutine is; `None` if it has returned.
fn newest_stand<M: Machine>(machine: &M, goroutine: &Goroutine<M::Frame>) -> Option<Stand>
    ensures { result ≡ acting.newest_stand (M.machine machine.now) goroutine.now }
{
    match goroutine.frames.last() {
        Some(frame) => Some(machine.stand(frame)),
        None => None,
    }
}

/// Where a goroutine is: `None` if it has returned, or does not exist. Older frames do not count: they wait for the newest.
pub fn standing<M: Machine>(machine: &M, state: &State<M::Frame>, g: usize) -> Option<Stand>
    ensures { result ≡ acting.standing (M.machine machine.now) state.now g }
{
    match state.goroutines.get(g) {
        Some(goroutine) => newest_stand(machine, goroutine),
        None => None,
    }
}
