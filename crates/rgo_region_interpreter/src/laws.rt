//! Examples, proved by computation: the counts of pages just below and just above each limit.

ghost use Rattle.rgo_region_interpreter.specs.Extents.{ExtentExamples};

/// How many pages are taken before objects of some sizes.
pub fn extent_examples()
    ensures { ExtentExamples }
{}
