//! What the next instruction and the duties before it refer to. The first laws are about checked code alone, the others about every record
//! that a goroutine may have. Each excludes a case for which the code of the crates above would otherwise need an answer.
ghost use Rattle.rgo_sound.specs.Machine.declared.limits.Limits.{Limits};
ghost use Rattle.rgo_sound.specs.Machine.declared.limits.Sizes.{Sizes};
ghost use Rattle.rgo_core_facts.specs.ControlCode.{BodiesBegin, CalleesExist, NextExists, ResultsReturned, VariablesExist};
ghost use Rattle.rgo_core_facts.specs.ControlDuties.{DutiesAtEnd, DutiesKnown};
ghost use Rattle.rgo_core_facts.specs.ControlExamples.{CodeExamples, ControlFrameExamples, ControlPrintExamples, ControlRegionExamples};
ghost use Rattle.rgo_core_facts.specs.ControlFrames.{CallersWait, FramesInCode, LastReturn, NextKnown, OffersKnown};
ghost use Rattle.rgo_core_facts.specs.ControlPrints.{OperandsPrinted};
ghost use Rattle.rgo_core_facts.specs.ControlRegions.{CallPassesRegions, NewestNames, NewestUnprotected, NoStakeAtEnd, NothingKept, RegionsKnown, StakeEnds, StartPassesRegions, StartSharesRegions};
ghost use Rattle.rgo_core_facts.specs.ControlShapes.{ActionsShaped};
ghost use Rattle.rgo_core_facts.specs.ControlSteps.{DutyLaws, LocalDuty, NoneAfterExit};

/// Each variable that an instruction reads or writes exists. So a frame is indexed without a test.
pub fn variables_exist()
    ensures { VariablesExist }
{}

/// What may follow an instruction is an instruction of its function: execution never runs off the end of a body.
pub fn next_exists()
    ensures { NextExists }
{}

/// The function that an instruction calls or starts exists, and takes equally many arguments and regions.
pub fn callees_exist()
    ensures { CalleesExist }
{}

/// A function returns a value exactly if it has a result, so a caller that waits for one gets one.
pub fn results_returned()
    ensures { ResultsReturned }
{}

/// Each function has a first instruction, at which a call or a start puts its frame.
pub fn bodies_begin()
    ensures { BodiesBegin }
{}

/// Each action has the operands that it needs, and a target variable exactly if it has a value. The actions of compact code are made
/// by this.
pub fn actions_shaped()
    ensures { ActionsShaped }
{}

/// Each frame is at an instruction of its function, callers included: they are at their calls.
pub fn frames_in_code()
    ensures { FramesInCode }
{}

/// A caller is at the call of the function that runs. By this a return finds in the caller's instruction where its value goes.
pub fn callers_wait()
    ensures { CallersWait }
{}

/// A goroutine without a duty and without an offer is before its next instruction. With an offer it may be past it in the run.
pub fn next_known()
    ensures { NextKnown }
{}

/// A goroutine with an offer is at a send, by its record: the record moves on only with the acknowledgement.
pub fn offers_known()
    ensures { OffersKnown }
{}

/// The last return of a goroutine leaves no frame. That of `main` ends the run, and takes an access. All others are local steps.
pub fn last_return()
    ensures { LastReturn }
{}

/// What a goroutine knows of a region, it knows of Global or of one in which it has a stake. So the region is live at any moment until the
/// goroutine itself ends that stake, and its words may be accessed without asking anybody.
pub fn regions_known()
    ensures { RegionsKnown }
{}

/// So it is with the names of its newest frame, which are those that the next instruction uses.
pub fn newest_names()
    ensures { NewestNames }
{}

/// It knows nothing of a slot in which it has no stake. So a new region in that slot cannot be confused with an old one.
pub fn nothing_kept()
    ensures { NothingKept }
{}

/// The end of a stake leaves no stake in that slot, so what the code knows of the slot may be given up.
pub fn stake_ends()
    ensures { StakeEnds }
{}

/// A goroutine that has returned and has no duty has no stake. So a driver may drop it: no region depends on it any more.
pub fn no_stake_at_end()
    ensures { NoStakeAtEnd }
{}

/// Each class that a call passes has a region, so the callee's names are all bound.
pub fn call_passes_regions()
    ensures { CallPassesRegions }
{}

/// So has each class that a start passes.
pub fn start_passes_regions()
    ensures { StartPassesRegions }
{}

/// What the first duty names exists. So no duty can fail: each of its tests in the region machine passes.
pub fn duties_known()
    ensures { DutiesKnown }
{}

/// Each operand of a print is an int or a bool, whose word can be written without knowing any object.
pub fn operands_printed()
    ensures { OperandsPrinted }
{}

/// A region that a start passes is Global, or has a stake for the child. Otherwise the child could use a region that is removed before its
/// first step.
pub fn start_shares_regions()
    ensures { StartSharesRegions }
{}

/// At an instruction that protects nothing, the newest frame has no protections. Protections come with a call and end after it.
pub fn newest_unprotected()
    ensures { NewestUnprotected }
{}

/// A goroutine that has returned owes the ends of its base: the regions that it protected from its start on.
pub fn duties_at_end()
    ensures { DutiesAtEnd }
{}

/// Each definition where it holds and where it does not.
pub fn examples()
    ensures code { CodeExamples }
    ensures frames { ControlFrameExamples }
    ensures regions { (sizes : Sizes) (limits : Limits) → ControlRegionExamples sizes limits }
    ensures prints { ControlPrintExamples }
{}

/// A first duty is never done after the return of `main`, which ends the run and owes nothing. So a duty is never the exit.
pub fn none_after_exit()
    ensures { NoneAfterExit }
{}

/// A duty that touches no count is a local step, and needs no access.
pub fn local_duty()
    ensures { LocalDuty }
{}

/// What each duty leaves of the names, protections and stakes of a goroutine: the definitions of the region machine, duty by duty, so that
/// code above has to follow only one line of them.
pub fn duty_laws()
    ensures { DutyLaws }
{}
