//! The code of terms.

ghost use Rattle.std.specs.Prelude.{◌≡◌, ◌+◌, ◌<◌, ◌^◌, [], ◌∷◌, IfOk, length, map, true};
ghost use Rattle.std.specs.List.{list_all};
ghost use Rattle.rgo_typed.specs.Tree.{terms_of};
ghost use Rattle.rgo_typed.specs.Views.{term_of};
ghost use Rattle.rgo_lower.specs.Lowered as spec;
ghost use Rattle.rgo_lower.specs.Sizes.{term_size, terms_size};
ghost use Rattle.rgo_lower.specs.Emitted.{
  builder_size,
  made_of,
  decides,
  OpIsAdded,
  FieldsAreStored,
  TermIsEmitted,
  TermsAreEmitted,
};
ghost use Rattle.rgo_lower.specs.Shapes.{is_narrow, term_fits, terms_fit};

use crate::builder::Builder;
use rgo_ast::Place;
use rgo_typed::{Action, Base, Logical, Row, Term, Type};
use std::alloc::{AllocError, Global};

/// The type of truth values.
fn truth(alloc: Global) -> Type
    ensures { result ≡ spec.bool_type }
{
    Type {
        layers: Row::new(Vec::new(alloc)),
        base: Base::Bool,
    }
}

/// The type of pointers to the struct of this number.
fn pointer_to(alloc: Global, number: usize) -> Type
    ensures { result ≡ spec.pointer_type number }
{
    Type {
        layers: Row::new(Vec::new(alloc)),
        base: Base::Pointer(number),
    }
}

impl Builder {
    /// A branch on a variable: to the next instruction where the left side of `&&` or `||` with this value does not
    /// decide, else to the label.
    pub fn branch_on(
        &mut self,
        logic: Logical,
        test: u32,
        other: u32,
        place: Place,
    ) -> Result<(), AllocError>
        requires { builder_size (made_of self.now) + 3 < 2 ^ 32 }
        ensures { IfOk result (λ done. OpIsAdded (made_of self.old)
            (decides logic test (length self.old.lines.items + 1) other) place (made_of self.new)) }
    {
        let next = self.label()?;
        match logic {
            Logical::And => self.branch(test, next, other, place)?,
            Logical::Or => self.branch(test, other, next, place)?,
        }
        self.place(next)
    }

    /// Stores the values in the fields of an object, one in each. Nothing else leads to the object yet, so no goroutine sees a part
    /// of the stores.
    fn fill(
        &mut self,
        object: u32,
        fields: &[usize],
        from: &[u32],
        place: Place,
    ) -> Result<(), AllocError>
        requires values { length fields.now ≡ length from.now }
        requires numbers { list_all is_narrow fields.now ≡ true }
        ensures { IfOk result (λ done. FieldsAreStored object fields.now from.now place (made_of self.old)
            (made_of self.new)) }
    {
        for i in 0..fields.len() {
            self.act(Action::Store(fields[i]), &[object, from[i]], place)?;
        }
        Ok(())
    }
}

/// The code of a term. The result is the variable with its value. That of `&&` and `||` is a new variable: the left side's own
/// may be a local variable, which the value of the right side must not overwrite.
#[cycle(terms)]
#[tactic(auto, using(rgo_typed::proofs::Rows::rows))]
pub fn lower_term(b: &mut Builder, term: &Term) -> Result<u32, AllocError>
    requires room { builder_size (made_of b.now) + term_size (term_of term.now) < 2 ^ 32 }
    requires shape { term_fits (term_of term.now) ≡ true }
    ensures { IfOk result (λ d. TermIsEmitted (term_of term.now) (made_of b.old) d (made_of b.new)) }
{
    match term {
        Term::Local(n) => Ok(b.variable_of(*n)),
        Term::Apply(action, parts, ty, place) => {
            let from = lower_terms(b, parts)?;
            b.give(*action, &from, ty, *place)
        }
        Term::Logic(logic, left, right, place) => {
            let l = lower_term(b, left)?;
            let d = b.give(Action::Copy, &[l], &truth(b.alloc), *place)?;
            let end = b.label()?;
            b.branch_on(*logic, d, end, *place)?;
            let r = lower_term(b, right)?;
            b.copy_to(d, r, *place)?;
            b.place(end)?;
            Ok(d)
        }
        Term::Build(number, parts, fields, place) => {
            let from = lower_terms(b, parts)?;
            let ty = pointer_to(b.alloc, *number);
            let object = b.give(Action::New(*number), &[], &ty, *place)?;
            b.fill(object, fields.items(), &from, *place)?;
            Ok(object)
        }
        Term::Call(function, arguments, ty, place) => {
            let from = lower_terms(b, arguments)?;
            b.call(*function, from, ty, *place)
        }
    }
}

/// The code of several terms, one after the other. The result is the variables with their values.
#[cycle(terms)]
pub fn lower_terms(b: &mut Builder, terms: &Vec<Term>) -> Result<Vec<u32>, AllocError>
    requires room { builder_size (made_of b.now) + terms_size (terms_of (map term_of terms.now.items)) < 2 ^ 32 }
    requires shape { terms_fit (terms_of (map term_of terms.now.items)) ≡ true }
    ensures { IfOk result (λ ds. TermsAreEmitted (terms_of (map term_of terms.now.items)) (made_of b.old) ds.items
        (made_of b.new)) }
{
    let mut from = Vec::new(b.alloc);
    for term in terms {
        from.push(lower_term(b, term)?)?;
    }
    Ok(from)
}
