//! What holds of the definitions by themselves: small programs mean what a reader expects. The definitions are trusted, so these
//! runs, worked out by computation, are the only check of them inside the proof.

ghost use Rattle.rgo_meaning.specs.Examples.{Examples};

/// A sum is printed; a division by zero traps at its place; a receiver and a sender meet; a sender that
/// waits when its channel is closed traps; a right side is evaluated before the left one's nil traps.
pub fn examples()
    ensures { Examples }
{}
