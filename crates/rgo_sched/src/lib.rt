//! Rounds: each task has one turn, on worker threads that steal from each other. A turn may be long, and with fixed shares it would
//! hold up the tasks after it while other workers have nothing to do.
#![tactic(auto)]

mod accounts;
mod alone;
mod crew;
mod deal;
mod deques;
mod gather;
mod queued;
mod rounds;
mod tasks;
mod work;

pub use rounds::round;
pub use tasks::Task;
