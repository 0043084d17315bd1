//! What each access of a goroutine, and each of its steps without one, does to what the table shows. Each law holds whatever the other
//! goroutines are doing: their accesses come before this one or after it, and none of them changes this goroutine's record.

ghost use Rattle.rgo_core.specs.moves.Clock.{RunEndLaw, LookLaw, NumberLaw, TicketLaw};
ghost use Rattle.rgo_core.specs.examples.Core.{CauseExamples, ClockExamples, CoreExamples, NumberExamples, TableRoomExamples};
ghost use Rattle.rgo_core.specs.Laws.{CallsMove, ExitMove, FullMove, LocalStill, PrintMove, StartMove, StopMove};
ghost use Rattle.rgo_core.specs.runs.Opening.{TableOpeningLaw};
ghost use Rattle.rgo_core.specs.runs.Possible.{FirstPossible, OccursPossible, PossibleExamples, StillPossible};
ghost use Rattle.rgo_core.specs.Steps.{AccessLaw, QuietStepLaw};

/// The run without a step explains the first words and the record of `main`.
pub fn opening_law()
    ensures { TableOpeningLaw }
{}

/// The record of `main` is possible as a table opens, and a possible record stays so by an access and by a step without one. So code
/// may use of its record whatever holds in every run, without looking at the table again.
pub fn possible_laws()
    ensures first { FirstPossible }
    ensures access { OccursPossible }
    ensures still { StillPossible }
{}

/// All that has to be shown of an access to a word of memory is what it leaves, in one state. The clock and the number of goroutines
/// have laws of their own, since their words mean something for all records at once.
pub fn access_law()
    ensures { AccessLaw }
{}

/// The same of a step without an access. It is in the run before the goroutine's next access.
pub fn quiet_law()
    ensures { QuietStepLaw }
{}

/// A print draws a ticket, and tickets are the order of the print. The addition is the print: it decides the order, and a print whose
/// addition finds the end set is void.
pub fn ticket_law()
    ensures { TicketLaw }
{}

/// The end of a run is set in the clock, and the first one is kept. Several goroutines may try: the one that finds the bit clear has
/// ended the run, and its record keeps why.
pub fn end_law()
    ensures { RunEndLaw }
{}

/// The clock is loaded, by any goroutine at any time. That the run has ended stays true; that it has not may be outdated at once.
pub fn look_law()
    ensures { LookLaw }
{}

/// A number is drawn, and a goroutine starts or is refused. A refused number is lost: it cannot be returned, since others may have
/// drawn in between.
pub fn number_law()
    ensures { NumberLaw }
{}

/// A print writes the bytes of its words. They were computed before the ticket is drawn, so that no print can be missing afterwards.
pub fn print_move()
    ensures { PrintMove }
{}

/// A goroutine starts, or there are as many as there may be. Both records are on the seat of the one that started it until the driver
/// takes the new one.
pub fn start_move()
    ensures { StartMove }
{}

/// The return of `main` ends the run. Other goroutines may go on until they look at the clock; what they print is void.
pub fn exit_move()
    ensures { ExitMove }
{}

/// A run is ended for lack of room, or by a limit that it met. The cause has to hold in every state in which the goroutine has this
/// record, since nobody knows in which of them the bit is set.
pub fn stop_move()
    ensures { StopMove }
{}

/// A run is ended by a call of a goroutine that has as many frames as it may. Its own record shows that.
pub fn calls_move()
    ensures { CallsMove }
{}

/// A run is ended by the start of a goroutine when there are as many as there may be. A refused number shows that, and it stays so:
/// goroutines never become fewer.
pub fn full_move()
    ensures { FullMove }
{}

/// A local instruction or duty needs no access, because it changes nothing that others can see.
pub fn local_still()
    ensures { LocalStill }
{}

/// Where each definition holds and where it does not.
pub fn examples()
    ensures clock { ClockExamples }
    ensures numbers { NumberExamples }
    ensures causes { CauseExamples }
    ensures core { CoreExamples }
    ensures room { TableRoomExamples }
    ensures possible { PossibleExamples }
{}
