//! What follows from the words of a table and the records of its goroutines for the run, as a table opens, while it is used, and when
//! it is closed. A driver's claim about a whole run begins with these.
ghost use Rattle.rgo_core_steps.specs.Examples.{AfterExamples, RunEndExamples, OutcomeExamples, SeatExamples, StartExamples};
ghost use Rattle.rgo_core_steps.specs.Outcomes.{FamilyLaw, FirstLaw, OutcomeLaw};
ghost use Rattle.rgo_core_steps.specs.Settled.{SettledLaws};
ghost use Rattle.rgo_core_steps.specs.Starts.{StartedLaw};

/// A table opens with the first state of the region machine.
pub fn first_law()
    ensures { FirstLaw }
{}

/// A closed table shows a run, which goroutine has ended it, and what it has printed. Only then is it known: while others have seats,
/// their records may change.
pub fn outcome_law()
    ensures { OutcomeLaw }
{}

/// A seat that has the record of `main`, and with each record those of the goroutines that it has started, has all records. So no
/// goroutines have to be counted.
pub fn family_law()
    ensures { FamilyLaw }
{}

/// A seat whose goroutine has started another has both records, until the driver splits it.
pub fn started_law()
    ensures { StartedLaw }
{}

/// Local steps keep a record possible, and change only frames, what is known of regions, and the number of instructions. So code that makes
/// many of them needs no look at the table to go on.
pub fn settled_laws()
    ensures { SettledLaws }
{}

/// Where each definition holds and where it does not.
pub fn examples()
    ensures seats { SeatExamples }
    ensures after { AfterExamples }
    ensures ends { RunEndExamples }
    ensures starts { StartExamples }
    ensures outcomes { OutcomeExamples }
{}
