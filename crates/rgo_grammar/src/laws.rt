//! A law of the grammar, which holds for every list of lexemes. No code calls it.

ghost use Rattle.rgo_grammar.specs.Laws.{OneTree, OneFirstBad, NeverProgramAndBad, ProgramOrBad};

/// Each list of lexemes is a program with exactly one tree, or has exactly one first bad lexeme.
pub fn one_reading()
    ensures tree { OneTree }
    ensures refusal { OneFirstBad }
    ensures never_both { NeverProgramAndBad }
    ensures one_of_both { ProgramOrBad }
{}
