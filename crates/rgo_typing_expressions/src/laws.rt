//! The laws of the typing of expressions.

ghost use Rattle.rgo_typing_expressions.specs.Laws.{TypedWhereUnbroken, TypedParts};

/// If no node breaks a rule, every expression has a type, and so has every part that a rule asks
/// about.
pub fn typed_where_unbroken()
    ensures whole { TypedWhereUnbroken }
    ensures parts { TypedParts }
{}
