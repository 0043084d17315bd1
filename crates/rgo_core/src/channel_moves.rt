//! What each access to a channel does to what the table shows: an operation looks at the control, locks it, loads or stores a cell,
//! and takes effect with the store that unlocks. What a law requires can be read off the goroutine's own record. Only the exchange
//! can fail, so between the lock and the unlocking store nothing has to be undone.

ghost use Rattle.rgo_core.specs.examples.Channels.{AtChannelExamples};
ghost use Rattle.rgo_core.specs.moves.Channels.{CapacityMove, CellLoadMove, CellStoreMove, ControlMove, LockMove, OwnControlMove, PageNumberMove};
ghost use Rattle.rgo_core.specs.moves.Commits.{AcknowledgeMove, CloseMove, MeetMove, OfferMove, ReceiveMove, SendMove, ZeroMove};
ghost use Rattle.rgo_core.specs.moves.ChannelTraps.{CloseNilMove, CloseTrapMove, SendTrapMove, StrandedMove};

/// The control of a channel is loaded. What it shows may be outdated at once; only that the channel is closed stays true.
pub fn control_move()
    ensures { ControlMove }
{}

/// A sender loads the control of the channel at which its offer is. If it was taken, this stays so until the sender acknowledges.
pub fn own_control_move()
    ensures { OwnControlMove }
{}

/// The capacity of a channel is loaded. It never changes, so it may be loaded at any time before the control.
pub fn capacity_move()
    ensures { CapacityMove }
{}

/// An unlocked control is exchanged for the locked one. If that fails, another goroutine has operated on the channel in between, and the
/// operation returns: the turn decides when to try again.
pub fn lock_move()
    ensures { LockMove }
{}

/// The number of a data page of a spread channel is loaded.
pub fn page_number_move()
    ensures { PageNumberMove }
{}

/// A cell is loaded under the lock, so that the value is still the channel's when the operation takes effect.
pub fn cell_load_move()
    ensures { CellLoadMove }
{}

/// A cell that holds nothing is stored under the lock, before the control counts it. Nobody reads it until then.
pub fn cell_store_move()
    ensures { CellStoreMove }
{}

/// A send into a buffer takes effect, by a plain store of the control: no other goroutine changes it while it is locked.
pub fn send_move()
    ensures { SendMove }
{}

/// A receive from a buffer takes effect.
pub fn receive_move()
    ensures { ReceiveMove }
{}

/// A receive from a closed channel in which nothing is left takes effect.
pub fn zero_move()
    ensures { ZeroMove }
{}

/// A close takes effect.
pub fn close_move()
    ensures { CloseMove }
{}

/// A value is offered at a channel without a buffer. The instruction is not done: the goroutine stays at its send.
pub fn offer_move()
    ensures { OfferMove }
{}

/// A receiver takes an offer. The instructions of both are done in the run. The sender's record follows with its acknowledgement, since
/// a record is changed only by accesses of its own goroutine.
pub fn meet_move()
    ensures { MeetMove }
{}

/// A sender acknowledges that its offer was taken. Until then no other offer can be made there.
pub fn acknowledge_move()
    ensures { AcknowledgeMove }
{}

/// A send on a closed channel ends the run, by an access to the clock. That it was found closed is enough, since it stays closed.
pub fn send_trap_move()
    ensures { SendTrapMove }
{}

/// A close of a closed channel ends it.
pub fn close_trap_move()
    ensures { CloseTrapMove }
{}

/// So does a close of nil.
pub fn close_nil_move()
    ensures { CloseNilMove }
{}

/// A send whose offer is at a channel that was closed, and was not taken, ends the run: nobody can take it any more.
pub fn stranded_move()
    ensures { StrandedMove }
{}

/// Records that are at a channel, and some that are not.
pub fn examples()
    ensures { AtChannelExamples }
{}
