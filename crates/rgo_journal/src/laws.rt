//! What holds of journals and replays.

ghost use Rattle.rgo_journal.specs.Examples.{JournalExamples};
ghost use Rattle.rgo_journal.specs.Laws.{OneReplay, ReadBack, SameSteps};

/// Reading a journal returns the picks that it was printed from, whatever follows it. A text has one journal at its beginning,
/// or one first line without form, never both.
pub fn read_back()
    ensures { ReadBack }
{}

/// A journal of the picks of a run replays that run.
pub fn same_steps()
    ensures { SameSteps }
{}

/// A replay of picks on code can end in one way only.
pub fn one_replay()
    ensures { OneReplay }
{}

/// Journals, and texts that are not journals.
pub fn examples()
    ensures { JournalExamples }
{}
