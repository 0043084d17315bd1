//! What the run that explains a closed table is, and what the claim on the whole program says of it.

ghost use Rattle.rgo_table_runs.specs.claims.Examples.{ClaimExamples};
ghost use Rattle.rgo_table_runs.specs.claims.Laws.{GivesClaim, RunsAsCode};
ghost use Rattle.rgo_table_runs.specs.closing.Examples.{TableClosingExamples};
ghost use Rattle.rgo_table_runs.specs.closing.Gathering.{FamilyIsAll, GatheredAreGiven, SharesAreAll};
ghost use Rattle.rgo_table_runs.specs.closing.Laws.{ClosedClaims, ClosedRuns, RowsAreAll};
ghost use Rattle.rgo_table_runs.specs.closing.Members.{AllRetired, KeptByAdopting, KeptByGathering, KeptByOrder, KeptByTurn};
ghost use Rattle.rgo_table_runs.specs.passing.Examples.{TablePassExamples};
ghost use Rattle.rgo_table_runs.specs.passing.Laws.{FindsDeadlock, FindsShortage, KnowsByLook, PassesByTurn, StaysPassed};

/// The rows of a closed table's view that have the records of `main` and of all that goroutines have started are the records of all
/// goroutines.
pub fn rows_law()
    ensures { RowsAreAll }
{}

/// How a driver comes to have what it must have at the close: a view with a family has the rows of all goroutines, their shares by
/// number add up to what all have counted, and if each print was given out or waits for the one before it, all were given
/// out.
pub fn gathering_laws()
    ensures rows { FamilyIsAll }
    ensures shares { SharesAreAll }
    ensures prints { GatheredAreGiven }
{}

/// A driver that follows each goroutine, from its start until it has retired, loses none of them and none of their prints: not by a
/// turn, by gathering, by adopting, or by the order in which it keeps them.
pub fn members_laws()
    ensures order { KeptByOrder }
    ensures turn { KeptByTurn }
    ensures gathering { KeptByGathering }
    ensures adopting { KeptByAdopting }
    ensures close { AllRetired }
{}

/// The run that explains a closed table is a run of the program, which has ended as its driver says; and what the claim on the
/// whole program says of it.
pub fn closing_law()
    ensures runs { ClosedRuns }
    ensures claims { ClosedClaims }
{}

/// What a look and a turn show of a goroutine in a pass, and that it stays so. A driver applies these while other goroutines still have
/// their turns of the pass, so what it has learned must last.
pub fn pass_laws()
    ensures look { KnowsByLook }
    ensures turn { PassesByTurn }
    ensures stays { StaysPassed }
{}

/// After a pass in which no goroutine could continue and none lacked anything the state is a deadlock.
pub fn deadlock_law()
    ensures { FindsDeadlock }
{}

/// After a pass in which a goroutine lacked a page or a slot, there is none for it: as many are in use as there are.
pub fn shortage_law()
    ensures { FindsShortage }
{}

/// The run that explains a table is, without its regions, a run of the three-address code.
pub fn code_law()
    ensures { RunsAsCode }
{}

/// For checked code it is what the claim on the whole program says.
pub fn claim_law()
    ensures { GivesClaim }
{}

/// Where each definition holds and where it does not.
pub fn examples()
    ensures claims { ClaimExamples }
    ensures closing { TableClosingExamples }
    ensures passing { TablePassExamples }
{}
