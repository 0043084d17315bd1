//! Controls of channels: how one is read, and the one that an operation leaves. Bit 0 is the lock, bit 1 is set if the channel is
//! closed, bits 2 to 31 count the values, and bits 32 on are the cell of the oldest: all in one word, so that one exchange locks a
//! channel as it was found. These functions compute on a word that was loaded; whether it is still the channel's, only the exchange
//! shows.
ghost use Rattle.std.specs.Prelude.{◌≡◌, ◌<◌, ◌≤◌, ◌^◌, ◌+◌, ◌-◌, ◌%◌, suc};
ghost use Rattle.rgo_core_channels.specs.Controls.{bit, closed_of, control, count_of, extent, head_of, spreads};

/// Whether the channel is locked. If so, the rest of the control is about to change, and no operation may decide by it.
pub fn is_locked(word: u64) -> bool
    ensures { bit result ≡ word % 2 }
{
    word % 2 == 1
}

/// Whether the channel is closed. A channel never opens again, so `true` stays true for as long as its region exists.
pub fn is_closed(word: u64) -> bool
    ensures { bit result ≡ closed_of word }
{
    word / 2 % 2 == 1
}

/// The number of values in the buffer. Without a buffer it is the phase: 0 without an offer, 1 with one, 2 after it was taken. Only a
/// receiver makes 1 to 2, and only the sender of the offer makes 2 to 0.
pub fn count(word: u64) -> u64
    ensures { result ≡ count_of word }
{
    word / 4 % 1073741824
}

/// The cell of the oldest value.
pub fn head(word: u64) -> u64
    ensures { result ≡ head_of word }
{
    word / 4294967296
}

/// How many cells a channel of this capacity has. One without a buffer has a cell for the value of an offer.
pub fn cells(capacity: u64) -> u64
    ensures { result ≡ extent capacity }
{
    capacity.max(1)
}

/// Whether a channel of this capacity does not fit a page. The capacity never changes, so neither does this.
pub fn is_spread(capacity: u64, page_words: u64) -> bool
    requires small { capacity < 1073741820 }
    ensures { result ≡ spreads page_words capacity }
{
    page_words < 2 + capacity.max(1)
}

/// The first cell that is free, if the buffer has room. It stays free until the channel is locked by somebody.
pub fn free_cell(word: u64, capacity: u64) -> u64
    requires room { count_of word < capacity }
    ensures { result ≡ (head_of word + count_of word) % capacity }
{
    (head(word) + count(word)) % capacity
}

/// The control after a receive of the oldest value, without the lock bit: storing it unlocks the channel. It is computed anew, since
/// the head may wrap around. The other operations add to the control or subtract from it.
pub fn without_oldest(word: u64, capacity: u64) -> u64
    requires filled { 0 < count_of word }
    requires buffer { 0 < capacity }
    requires small { capacity < 1073741820 }
    ensures { result ≡ control (closed_of word) (count_of word - 1) ((head_of word + 1) % capacity) }
{
    2 * (word / 2 % 2) + 4 * (count(word) - 1) + 4294967296 * ((head(word) + 1) % capacity)
}
