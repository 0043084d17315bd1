//! Bounds on the size of the code of a text's program, and examples that reach the limit. No code calls these functions.

ghost use Rattle.rgo_size_laws.specs.Examples.{SizeExamples};
ghost use Rattle.rgo_size_laws.specs.Laws.{LexemesAreFew, NeverTooLarge, SizeIsLinear};

/// The size of a program's code is linear in the length of its text, so no text of at most 256 MiB has a program that is too large
/// to be lowered.
pub fn size_is_linear()
    ensures lexemes { LexemesAreFew }
    ensures size { SizeIsLinear }
    ensures small { NeverTooLarge }
{}

/// Programs with the sizes of their code; among them the largest that is not too large.
pub fn examples()
    ensures { SizeExamples }
{}
