//! What a try at an operation on a channel returns, and which capacities and controls let an operation take effect. The tests are
//! functions of two words that were loaded before, and make no access.
ghost use Rattle.std.specs.Prelude.{◌≡◌, ◌⊎◌, true, false};
ghost use Rattle.rgo_chan.specs.Ready.{HasNoOffer, HasOffer, BufferHasRoom, HasValue, IsDrained, IsEmpty, IsBufferFull, IsOpen};

use rgo_core::channels::controls::{count, is_closed};

/// What a try at an operation on a channel came to.
#[derive(Clone, Copy, Debug, PartialEq, Eq)]
pub enum Tried {
    /// The operation took effect. This is the value that was received, and 0 for the other operations.
    Done(u64),
    /// The value of a send is offered at a channel without a buffer. The goroutine acknowledges when the offer was taken.
    Offered,
    /// The channel is open and unlocked, but full, or empty, or the own offer is not taken; or it is nil. Nothing has changed. This
    /// was so when the control was loaded; it need not be so any more when the caller learns of it.
    NotReady,
    /// Another goroutine has locked the channel, or has changed its control since it was loaded. Nothing has changed. The operation
    /// may be tried again at once; when, is up to the caller.
    Busy {
        /// What the last access found on the control.
        found: u64,
    },
    /// The operation ends the run, by the trap with this number. Nothing has changed.
    Trap(u8),
}

/// Whether a send has to wait at an open channel. Without a buffer any phase but 0 is another sender's offer: not taken yet, or
/// taken and not acknowledged.
pub fn is_full(size: u64, control: u64) -> bool
    requires open_channel { IsOpen control }
    ensures full { result ≡ true → IsBufferFull size control }
    ensures ready { result ≡ false → BufferHasRoom size control ⊎ HasNoOffer size control }
{
    let values = count(control);
    if size == 0 {
        values > 0
    } else {
        values >= size
    }
}

/// Whether a receive has to wait. It never waits at a closed channel, which has a value or yields zero. Without a buffer only phase
/// 1 can be received from: in phase 2 the offer has gone to another receiver.
pub fn is_empty(size: u64, control: u64) -> bool
    ensures empty { result ≡ true → IsEmpty size control }
    ensures ready { result ≡ false
        → HasValue size control ⊎ (IsDrained size control ⊎ HasOffer size control) }
{
    if is_closed(control) {
        return false;
    }
    let values = count(control);
    if size == 0 { values != 1 } else { values == 0 }
}

/// Whether a buffer has a value. A closed channel may have some: they are received before its zeros.
pub fn has_value(size: u64, control: u64) -> bool
    ensures yes { result ≡ true → HasValue size control }
    ensures no { result ≡ false → HasValue size control → ⊥ }
{
    size > 0 && count(control) > 0
}
