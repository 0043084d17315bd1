//! What several accesses of one goroutine leave on its seat, by examples. Contracts of calls that make several accesses cite the
//! definitions of `specs/Grown.antt`.
ghost use Rattle.rgo_core_steps.specs.Grown.{GrownExamples};

/// What a seat has seen after some accesses, and what these found; and what it has not seen, and they have not found.
pub fn examples()
    ensures { GrownExamples }
{}
