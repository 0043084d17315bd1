//! What holds of recorded runs.

ghost use Rattle.rgo_recording.specs.Laws.{RecordedReplays};

/// The picks that were noted of a run, replayed on the same code, end as the run did and print the same. The replay of a run
/// that was cut off is unfinished; if the steps were spent, it may be in a deadlock.
pub fn recorded_replays()
    ensures { RecordedReplays }
{}
