//! Expressions that break no rule.

use rgo_typed::Term;
use rgo_typing_rules::Shape;

/// Expressions in order: the arguments of a call, the elements of a literal.
#[derive(Drop)]
pub struct Values<'a> {
    pub terms: Vec<Term>,
    pub shapes: Vec<Shape<'a>>,
}
