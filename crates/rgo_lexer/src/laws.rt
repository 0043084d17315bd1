//! Laws of the definitions of lexing, which hold for every text. The compiler calls none of them.

ghost use Rattle.rgo_lexer.specs.Laws.{NeverBoth, OneOfBoth, OneList, OneRefusal};
ghost use Rattle.rgo_lexer.specs.Laws.{OfText, InOrder, LongestMatch};

/// Each text has exactly one list of lexemes or exactly one refusal, never both. Its lexemes are parts of it, in order.
pub fn one_reading()
    ensures never_both { NeverBoth }
    ensures one_of_both { OneOfBoth }
    ensures one_list { OneList }
    ensures one_refusal { OneRefusal }
    ensures of_text { OfText }
    ensures in_order { InOrder }
{}

/// An operator at the front of a text is the longest one that the text begins with.
pub fn longest_match()
    ensures { LongestMatch }
{}
