//! What each atomic access to a word of a channel keeps. Only the store that unlocks is a step of the region machine. All accesses
//! before it leave the state, so others may do what they like until then. Under the lock a channel's words change by its owner alone.

ghost use Rattle.rgo_core_channels.specs.Buffers.{CloseLaw, ReceiveLaw, SendLaw, ZeroLaw};
ghost use Rattle.rgo_core_channels.specs.Deadlock.{DeadlockLaw};
ghost use Rattle.rgo_core_channels.specs.Elsewhere.{EventLaw, FinishKeeps, ForeignWordKeeps};
ghost use Rattle.rgo_core_channels.specs.Examples.{ChannelExamples};
ghost use Rattle.rgo_core_channels.specs.Positions.{LayoutLaw, PageNumberLaw};
ghost use Rattle.rgo_core_channels.specs.Live.{OperandIsLive, TakenIsLive};
ghost use Rattle.rgo_core_channels.specs.Locking.{CellLoadLaw, CellStoreLaw, LockLaw};
ghost use Rattle.rgo_core_channels.specs.Looking.{CapacityLaw, ControlLaw, OwnControlLaw};
ghost use Rattle.rgo_core_channels.specs.Meetings.{ChannelAcknowledgeLaw, ChannelMeetLaw, ChannelOfferLaw};
ghost use Rattle.rgo_core_channels.specs.Opening.{ChannelsOpen};
ghost use Rattle.rgo_core_channels.specs.Traps.{CloseNilLaw, CloseTrapLaw, SendTrapLaw};

/// A channel's capacity is loaded, by a goroutine at an operation on it. It never changes, so it may be loaded before the lock.
pub fn capacity_law()
    ensures { CapacityLaw }
{}

/// A control is loaded. What it shows may be outdated at once, except that the channel is closed.
pub fn control_law()
    ensures { ControlLaw }
{}

/// A goroutine loads the control of the channel at which its offer is. If it was taken, that stays so until this goroutine
/// acknowledges. If it was not and the channel is closed, nobody can take it any more.
pub fn own_control_law()
    ensures { OwnControlLaw }
{}

/// An unlocked control is exchanged for the locked one. If the exchange finds the control that was loaded, the channel is as it was
/// then, whatever happened in between; otherwise nothing has changed.
pub fn lock_law()
    ensures { LockLaw }
{}

/// The number of a data page of a spread channel is loaded. It never changes after the channel is made.
pub fn page_number_law()
    ensures { PageNumberLaw }
{}

/// Where the words of channels are, in each table: the laws here are about any positions that do not overlap.
pub fn layout_law()
    ensures { LayoutLaw }
{}

/// A cell is loaded under the lock, so the value is still there when the receive takes effect.
pub fn cell_load_law()
    ensures { CellLoadLaw }
{}

/// A cell that holds nothing is stored under the lock. No state shows it before the control counts it.
pub fn cell_store_law()
    ensures { CellStoreLaw }
{}

/// A send into a buffer takes effect with the store of the control. A plain store is enough: nobody changes a locked control.
pub fn send_law()
    ensures { SendLaw }
{}

/// A receive from a buffer takes effect.
pub fn receive_law()
    ensures { ReceiveLaw }
{}

/// A receive from a closed channel in which nothing is left takes effect, with the store of the control as it was. It loads no cell,
/// but locks like any other operation, so that all follow one protocol.
pub fn zero_law()
    ensures { ZeroLaw }
{}

/// A close takes effect. Values in the buffer can still be received, an open offer cannot.
pub fn close_law()
    ensures { CloseLaw }
{}

/// A value is offered. The send is not done yet: the goroutine stays at it until its offer is taken or the channel is closed.
pub fn offer_law()
    ensures { ChannelOfferLaw }
{}

/// A receiver takes an offer. Send and receive are done at this moment, though the sender's record shows it only after its own access.
pub fn meet_law()
    ensures { ChannelMeetLaw }
{}

/// A sender acknowledges that its offer was taken. Only this frees the cell for another offer.
pub fn acknowledge_law()
    ensures { ChannelAcknowledgeLaw }
{}

/// A send on a channel that was found closed traps. No access is needed but the load: a channel stays closed.
pub fn send_trap_law()
    ensures { SendTrapLaw }
{}

/// A close of a channel that was found closed traps.
pub fn close_trap_law()
    ensures { CloseTrapLaw }
{}

/// A close of nil traps.
pub fn close_nil_law()
    ensures { CloseNilLaw }
{}

/// If each goroutine is blocked, by its record and the words at one moment, the state is a deadlock.
pub fn deadlock_law()
    ensures { DeadlockLaw }
{}

/// An operation on an object is one on a channel in a live region, by region safety. So its words are those of a channel, and stay so.
pub fn operand_law()
    ensures { OperandIsLive }
{}

/// The channel at which an offer was taken is in a live region, although the sender is past its send in the state: it keeps its
/// stake there until it has acknowledged.
pub fn taken_law()
    ensures { TakenIsLive }
{}

/// A step of another kind keeps the image, and a new channel and new goroutines join it. With this law the crates above put the
/// images of memory, frames and channels together.
pub fn event_law()
    ensures { EventLaw }
{}

/// The end of a run leaves the image as it is.
pub fn finish_law()
    ensures { FinishKeeps }
{}

/// So does an access to a word that no channel has, whatever it stores.
pub fn word_law()
    ensures { ForeignWordKeeps }
{}

/// The image holds at the start.
pub fn opening_law()
    ensures { ChannelsOpen }
{}

/// Controls, records and channels that meet the definitions, and some that do not.
pub fn examples()
    ensures { ChannelExamples }
{}
