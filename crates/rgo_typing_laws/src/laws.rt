//! The law of type soundness as a function without code. The compiler does not call it.

ghost use Rattle.rgo_typing_laws.specs.Laws.{
  GrammarHasHeaders,
  HeadersAreNeeded,
  ParsedIsWellFormed,
  TypedEnds,
  TypedIsWellFormed,
};

/// If no node of a program breaks a rule, then its typed tree is well-formed, and no function with a result reaches the end of its
/// body. This holds for every tree that the grammar derives, and fails for some other trees, which no text parses to.
pub fn well_formed_where_unbroken()
    ensures well_formed { TypedIsWellFormed }
    ensures ends { TypedEnds }
    ensures headers { GrammarHasHeaders }
    ensures parsed { ParsedIsWellFormed }
    ensures needed { HeadersAreNeeded }
{}
