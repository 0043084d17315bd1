//! Laws that follow from the definitions alone. The compiler calls none of these functions: each is a theorem for the reader.

ghost use Rattle.rgo_run.specs.Accepted.{EmittedPasses};
ghost use Rattle.rgo_run.specs.CodeVerdicts.{OneCodeVerdict};
ghost use Rattle.rgo_run.specs.Compiled.{OneCompiled};
ghost use Rattle.rgo_run.specs.RecordLaws.{RecordedIsReplayed};
ghost use Rattle.rgo_run.specs.Programs.{NoProgramIsTooLarge, ProgramsAreWellFormed};
ghost use Rattle.rgo_run.specs.Sufficing.{FewSuffice};
ghost use Rattle.rgo_run.specs.Verdicts.{OneVerdict};

/// Each text is at most one program; it is valid or has exactly one refusal, never both.
pub fn one_verdict()
    ensures { OneVerdict }
{}

/// Each code text is the text of at most one code; it passes or has exactly one refusal, never both.
pub fn one_code_verdict()
    ensures { OneCodeVerdict }
{}

/// `code` accepts the text of a program's code, if the text is within the limit and can express the code's constants and places:
/// integers of 64 bits, strings of bytes, and places of 32 bits. `emit` prints only code whose constants and places it can express.
pub fn emitted_passes()
    ensures { EmittedPasses }
{}

/// The program of every valid text is well-formed, and no function with a result reaches the end of its body.
pub fn programs_are_well_formed()
    ensures { ProgramsAreWellFormed }
{}

/// No text has a program that is too large to be lowered, so lowering fails only when memory runs out.
pub fn no_program_is_too_large()
    ensures { NoProgramIsTooLarge }
{}

/// The code of a program is unique, so `emit` may print only one text for it.
pub fn one_compiled()
    ensures { OneCompiled }
{}

/// How many pages and regions suffice. No run of a program lacks a page if, in each state of each run, `--pages` is at least the
/// number of pages of all objects plus, for each goroutine, the pages of the largest object that was made or is next. No run lacks
/// a region if `--regions` is at least the steps and goroutines of any run, times the most region names of one function.
pub fn few_suffice()
    ensures { FewSuffice }
{}

/// `replay` of a journal that `record` wrote, followed by the text, writes the same bytes. Its status is that of the recorded run
/// if this reached its own end, and 13 if it was cut off. If it was cut off because its steps were spent, the status may be 3:
/// the run may have been deadlocked by then.
pub fn recorded_is_replayed()
    ensures { RecordedIsReplayed }
{}
