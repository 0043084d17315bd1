//! What all interpreters share: the memory of a running program in code, what each action does to it, and how goroutines,
//! whose frames a machine interprets, step, meet and take turns.
#![tactic(auto)]

mod actions;
mod blocks;
mod channels;
mod deadlocks;
mod effects;
mod elements;
mod fields;
mod frame_actions;
mod goroutines;
mod machines;
mod making;
mod meetings;
mod memory;
mod objects;
mod states;
mod steps;
mod turns;

pub use actions::perform;
pub use channels::{can_receive, can_send, close, meets_at, receive, send};
pub use deadlocks::is_deadlock;
pub use effects::Effect;
pub use elements::{element_at, length_of, put};
pub use fields::{load, store};
pub use frame_actions::{at_channel, given, is_true, no_type};
pub use machines::{Did, Machine, Stand};
pub use meetings::find_meeting;
pub use memory::Memory;
pub use objects::{Channel, Object};
pub use states::{Goroutine, State, standing};
pub use steps::{Stepped, step};
pub use turns::{TurnEnd, Turned, turn_once};
