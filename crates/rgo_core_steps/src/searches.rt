//! What records show of new objects, of counts and of searches, by examples. The calls of [`crate::memory`], [`crate::pages`] and
//! [`crate::counts`], and those of several accesses above them, cite the definitions.
ghost use Rattle.rgo_core_steps.specs.MemoryExamples.{CountExamples, MakingExamples, SearchExamples};
ghost use Rattle.rgo_core_steps.specs.SpreadExamples.{SpreadAccessExamples};

/// Where each definition holds and where it does not.
pub fn examples()
    ensures making { MakingExamples }
    ensures spread { SpreadAccessExamples }
    ensures counts { CountExamples }
    ensures searches { SearchExamples }
{}
