//! What holds of every machine, whatever its frames are.

ghost use Rattle.rgo_machine.specs.Deadlocks.{DeadlocksWait};
ghost use Rattle.rgo_machine.specs.Growing.{PrintGrows};
ghost use Rattle.rgo_machine.specs.Machines as spec;

/// In a deadlock every goroutine has returned or waits at a channel: nothing else can stop it, since what a frame does by itself,
/// a call and a start always have a step.
pub fn deadlocks_wait<F>()
    ensures { (machine : spec.Machine F) → DeadlocksWait machine }
{}

/// Whatever is picked in a run, its print only grows. So what was written early is part of the print of the whole run.
pub fn print_grows<F>()
    ensures { (machine : spec.Machine F) → PrintGrows machine }
{}
