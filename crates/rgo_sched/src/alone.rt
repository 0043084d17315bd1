//! The round of one worker.
ghost use Rattle.rgo_sched.specs.Rounds.{RoundOf};

use crate::tasks::Task;
use rgo_outside::Gate;

/// The worker arrives at the gate, and then the tasks have their turns in order. They stay where they are, since nobody else
/// could take them: a deque and two lists would cost more than a short turn does. It takes no memory, so it cannot fail.
pub fn turn_in_order<T: Task, G: Gate>(tasks: &mut [T], number: u64, gate: &G) -> bool
    ensures { RoundOf T.goes tasks.old tasks.new result }
{
    gate.arrive(0, number);
    let mut went = false;
    for task in tasks {
        went |= task.turn();
    }
    went
}
