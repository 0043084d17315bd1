//! What holds of every run of checked code with its regions: each contract is a law, and docs/PROOF.md has the laws in words.
//! `erasure`, `removed_stays`, `tally_adds`, `room_is_kept`, `others_stay`, `offers_stay`, `runs_on` and `whole_is_enough` need no checked
//! code: they hold by the form of the machine. The others rest on the rules of the code, most by the invariant (`steps_keep_good`).

ghost use Rattle.rgo_code.specs.Code.{Code};
ghost use Rattle.rgo_sound.specs.Erasure.{Erasure};
ghost use Rattle.rgo_sound.specs.Examples.{StepExamples};
ghost use Rattle.rgo_sound.specs.Good.{StartIsGood, StepsKeepGood};
ghost use Rattle.rgo_sound.specs.Leaving.{OffersStay, OthersStay};
ghost use Rattle.rgo_sound.specs.NextNames.{NamesOnlyLive};
ghost use Rattle.rgo_sound.specs.Owners.{OwnersStayMade};
ghost use Rattle.rgo_sound.specs.Progress.{NoStepMissing};
ghost use Rattle.rgo_sound.specs.Reserved.{ReservedForNext};
ghost use Rattle.rgo_sound.specs.Room.{RoomIsKept};
ghost use Rattle.rgo_sound.specs.Running.{RunsOn};
ghost use Rattle.rgo_sound.specs.Safety.{Safety, RemovedStays, WholeIsEnough};
ghost use Rattle.rgo_sound.specs.Tally.{TallyAdds};
ghost use Rattle.rgo_sound.specs.Types.{TypesKeep};

/// A region run without its region steps is a run of the three-address machine, with the same print and the same end.
pub fn erasure()
    ensures { Erasure }
{}

/// A region whose last stake has ended stays as it was: none is removed twice, and none gets a page after its removal.
pub fn removed_stays()
    ensures { RemovedStays }
{}

/// The counts of a run are the sums of what its steps make and do.
pub fn tally_adds()
    ensures { TallyAdds }
{}

/// Each step of the three-address machine keeps the types of variables, cells and package variables.
pub fn types_keep()
    ensures { TypesKeep }
{}

/// The invariant, from which the laws on checked code follow, holds at the start.
pub fn start_is_good()
    ensures { StartIsGood }
{}

/// Each step keeps the invariant, from any state that has it and not only in a run.
pub fn steps_keep_good()
    ensures { StepsKeepGood }
{}

/// What a goroutine names next is Global, or live with a stake of its own: so nobody else can remove it before the step.
pub fn names_only_live()
    ensures { NamesOnlyLive }
{}

/// Whenever the three-address machine has a step, the region machine has it after some steps with regions, unless the step makes an
/// object that is too large.
pub fn no_step_missing()
    ensures { NoStepMissing }
{}

/// Stakes are counted, each is kept by one name unless it is protected, pointers stay in their regions, pages and regions are bounded,
/// and once every goroutine has ended, every region but Global has been removed.
pub fn safety()
    ensures { Safety }
{}

/// If no object is spread, the bound on pages is the number of objects and goroutines.
pub fn whole_is_enough()
    ensures { WholeIsEnough }
{}

/// Pages are reserved only for the spread object that their goroutine makes next, and at most as many as it needs.
pub fn reserved_for_next()
    ensures { ReservedForNext }
{}

/// A run that takes a page only if fewer are in use than the sizes allow, and creates a region only if fewer are live, has no more of
/// either in any of its states.
pub fn room_is_kept()
    ensures { RoomIsKept }
{}

/// A step leaves the goroutines that take no part in it as they were; the proof of a run on workers rests on it.
pub fn others_stay()
    ensures { OthersStay }
{}

/// An instruction, a duty and a page leave the offer of their goroutine as it was.
pub fn offers_stay()
    ensures { OffersStay }
{}

/// The owner of an object is a region that was created.
pub fn owners_stay_made()
    ensures { OwnersStayMade }
{}

/// The three-address machine's part of a region run is never at an end: the end is a mark, and steps may follow it.
pub fn runs_on()
    ensures { RunsOn }
{}

/// Who takes part in an event, what it leaves, and states that break one of the laws above.
pub fn examples()
    ensures { (code : Code) → StepExamples code }
{}
