//! A law of the definitions of parsing, which holds for every list of lexemes. The compiler does not call it.

ghost use Rattle.rgo_parser.specs.Laws.{OneParseTree, OneParseRefusal, NeverParsedAndRefused, ParsedOrRefused};

/// Each list of lexemes is exactly one program or has exactly one refusal, never both.
pub fn one_answer()
    ensures tree { OneParseTree }
    ensures refusal { OneParseRefusal }
    ensures never_both { NeverParsedAndRefused }
    ensures one_of_both { ParsedOrRefused }
{}
