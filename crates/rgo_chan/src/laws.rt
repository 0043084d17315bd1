//! What follows from the results of operations on channels. The laws of blocked goroutines speak of one moment of the table: a result
//! alone says what was found, and the words may have changed since.
ghost use Rattle.rgo_chan.specs.CellExamples.{CellExamples};
ghost use Rattle.rgo_chan.specs.Examples.{AnswerExamples, ReadyExamples};
ghost use Rattle.rgo_sound.specs.Machine.declared.limits.Limits.{Limits};
ghost use Rattle.rgo_chan.specs.Waits.{AcknowledgeThen, CloseThen, LockWaits, NilReceiveWaits, NilSendWaits, OfferWaits, ReceiveThen, ReceiveWaits, SendThen, SendWaits};

/// A goroutine is blocked at a send while the words are what it found. The driver applies this at a moment at which no word changes.
pub fn send_waits()
    ensures not_ready { SendWaits }
    ensures nil { NilSendWaits }
{}

/// The same at a receive.
pub fn receive_waits()
    ensures not_ready { ReceiveWaits }
    ensures nil { NilReceiveWaits }
{}

/// The same while its offer is not taken.
pub fn offer_waits()
    ensures { OfferWaits }
{}

/// The same while the control is locked.
pub fn lock_waits()
    ensures { LockWaits }
{}

/// What a goroutine may do after each result: try again, acknowledge, or end the run.
pub fn next_laws()
    ensures send { SendThen }
    ensures receive { ReceiveThen }
    ensures close { CloseThen }
    ensures acknowledge { AcknowledgeThen }
{}

/// Controls, records and results that meet the definitions, and some that do not.
pub fn examples()
    ensures ready { ReadyExamples }
    ensures answers { AnswerExamples }
    ensures cells { (limits : Limits) → CellExamples limits }
{}
