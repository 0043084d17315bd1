//! Keys of regions. A key is a place in a list, so finding a region takes one load, and a key has 32 bits, since each waiting goroutine
//! keeps some.

ghost use Rattle.std.specs.Prelude.{◌≡◌};
ghost use Rattle.rgo_holding.specs.Known.{global_key};

/// The place of a region in the list of those that a goroutine knows. It is good until the goroutine's stake in the region
/// ends.
#[derive(Clone, Copy, Debug, PartialEq, Eq)]
pub struct Key(pub(crate) u32);

/// The key of Global, which every goroutine knows from its start and never gives up.
pub(crate) fn global() -> Key
    ensures { result ≡ global_key }
{
    Key(0)
}
