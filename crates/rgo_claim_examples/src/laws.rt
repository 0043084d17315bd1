//! The examples as theorems; no code calls these functions. Each is about one file of `specs`.

ghost use Rattle.rgo_claim_examples.specs.CompiledCode.{CompiledExamples};
ghost use Rattle.rgo_claim_examples.specs.EmittedCode.{EmittedExamples};
ghost use Rattle.rgo_claim_examples.specs.Ends.{EndExamples};
ghost use Rattle.rgo_claim_examples.specs.Recorded.{RecordExamples};
ghost use Rattle.rgo_claim_examples.specs.RegionRuns.{RegionRunExamples};
ghost use Rattle.rgo_claim_examples.specs.States.{RoomExamples, StateExamples};
ghost use Rattle.rgo_claim_examples.specs.Sufficing.{ProgramsSuffice};
ghost use Rattle.rgo_claim_examples.specs.Texts.{TextExamples};
ghost use Rattle.rgo_claim_examples.specs.Whole.{TextsRun};

/// No run of the four programs reaches a default limit, or lacks a page, a region or the room for an object. A program that makes no
/// object needs no room at all. For a program that never ends no options suffice, and for two of the four some limits are too low.
pub fn programs_suffice()
    ensures { ProgramsSuffice }
{}

/// A program and its compiled code; code that is not its compiled code; and sizes that are too small for some run.
pub fn compiled_examples()
    ensures { CompiledExamples }
{}

/// The code text that `emit` prints for a program, which `code` accepts, and a text that it does not print; places that a code text
/// can express, and one that it cannot.
pub fn emitted_examples()
    ensures { EmittedExamples }
{}

/// States that are safe, and states in which a stake, a name, a pointer or a page is wrong; regions that a goroutine may
/// name next, and regions that it may not.
pub fn state_examples()
    ensures { StateExamples }
{}

/// States in which a page, a region or the room for an object is missing, and states in which it is not.
pub fn room_examples()
    ensures { RoomExamples }
{}

/// A deadlock, and states that are not deadlocks; the end and the print of a run, and ends and prints that it does not have.
pub fn end_examples()
    ensures { EndExamples }
{}

/// A run with regions to its exit, one to a state in which a region is missing, and states that no run with regions reaches.
pub fn region_run_examples()
    ensures { RegionRunExamples }
{}

/// The texts of the four programs; the text of one that never ends, which has no other program and no refusal; and a text that is
/// rejected and has no program.
pub fn text_examples()
    ensures { TextExamples }
{}

/// By the headline, a call that runs one of the four texts with the default options, and in which no read or write fails, prints the
/// number that the text computes and returns 0, or returns 11.
pub fn texts_run()
    ensures { TextsRun }
{}

/// A call of `record` with the journal of its run, and its replay, which does the same. A call without a journal, and one whose journal
/// lacks a pick, violate the claim of `record`.
pub fn record_examples()
    ensures { RecordExamples }
{}
