//! What holds of every machine that follows another.

ghost use Rattle.rgo_machine.specs.Machines as spec;
ghost use Rattle.rgo_simulation.specs.Simulations.{FollowingSimulates};

/// The frames of two machines, and which goroutines of the one match which of the other.
pub trait Following {
    ghost use Rattle.std.specs.Prelude.{List};

    type High;

    type Low;

    /// Which goroutines match, each given by its frames.
    ghost matched: { List Self.High → List Self.Low → Type 0 };
}

/// A machine that follows another simulates it, in both directions. The proof of a lowering needs to look at one goroutine at a
/// time: what goroutines do to each other is the same for both machines, and is proved here once.
pub fn following_simulates<F: Following>()
    ensures { (high : spec.Machine F.High) (low : spec.Machine F.Low) → FollowingSimulates high low F.matched }
{}
