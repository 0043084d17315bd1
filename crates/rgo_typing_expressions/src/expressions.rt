//! Expressions: checked in the order of the text, parts before the whole, and made typed trees. Parts come first because the rules on
//! the whole ask for their types, and an expression without a fault in its parts has them.
//!
//! The functions of the cycle `expressions` only lead from an expression to its parts. What follows from checked parts is outside the
//! cycle, in the other files and in rgo_typing_operations, so that the proof by induction is small.
#![tactic(auto)]

ghost use Rattle.std.specs.Prelude.{◌≡◌, [], ◌∷◌, IfOk, map};
ghost use Rattle.rgo_ast.specs.Tree as ast;
ghost use Rattle.rgo_ast.specs.Views.{expr_of, element_of, type_expr_of};
ghost use Rattle.rgo_typing_rules.specs.Checks.{Checks};
ghost use Rattle.rgo_typing_rules.specs.Views.{type_of_kind, optional_kind_of};
ghost use Rattle.rgo_typing_rules.specs.declared.roles.Role.TheVariants.{Value};
ghost use Rattle.rgo_typing_expressions.specs.Checking as checking;
ghost use Rattle.rgo_typing_expressions.specs.Results.{ChecksExpr, ChecksExprs, ChecksElements};
ghost use Rattle.rgo_typing_expressions.specs.Scopes.{meaning_of};
ghost use Rattle.rgo_typing_expressions.specs.Terms as terms;

use crate::callees::Callee;
use crate::calls::call;
use crate::checkers::Checker;
use crate::fields::select;
use crate::keyed::{find_named, keyed};
use crate::literals::{kinds_of, literal};
use crate::made::new_object;
use crate::operands::{known_term, number, text, wanted_term};
use crate::packages::{Package, no_kinds};
use crate::results::Values;
use rgo_ast::{Element, Expr, Ident, Place, TypeExpr, UnaryOp};
use rgo_typing_nodes::check_base_name;
use rgo_typing_operations::{
    Checked, binary, index, make_buffered, make_channel, make_slice, unary,
};
use rgo_typing_rules::{Kind, Meaning, Role, TypeError};

/// The types that arguments of a callee have to have.
pub fn params_of<'b, 'a>(globals: &'b Package<'a>, callee: Callee) -> &'b [Kind<'a>]
    ensures { map type_of_kind result.now ≡ terms.wanted_of globals.now callee }
{
    let Callee::Routine(number) = callee else {
        return no_kinds(globals);
    };
    let Some(signature) = globals.functions.get(number) else {
        return no_kinds(globals);
    };
    &signature.params
}

impl<'p, 'a> Checker<'p, 'a> {
    /// Refuses the struct's name of a literal or of `new`.
    fn check_struct(&self, x: &Ident) -> Result<(), TypeError>
        ensures { Checks result (checking.base_site self.now x.now ∷ []) }
    {
        check_base_name(x.at, self.meaning(x.name.bytes()))
    }

    /// The same, and returns what it means.
    fn check_base(&self, x: &Ident) -> Result<Option<Meaning>, TypeError>
        ensures checked { Checks result (checking.base_site self.now x.now ∷ []) }
        ensures value { IfOk result (λ m. m ≡ meaning_of self.now x.now.name) }
    {
        let found = self.meaning(x.name.bytes());
        check_base_name(x.at, found)?;
        Ok(found)
    }

    /// Checks `new(T)`.
    #[tactic(auto, using(rgo_typing_rules::proofs::Refusals::refusals))]
    fn check_new(&self, x: &Ident, at: Place) -> Result<Checked<'a>, TypeError>
        ensures { ChecksExpr result self.now Value (ast.New x.now at) }
    {
        new_object(self.alloc(), self.check_base(x)?, at)
    }

    /// Checks `make(chan T)`.
    #[tactic(auto, using(rgo_typing_rules::proofs::Refusals::refusals))]
    fn check_make_channel(&self, element: &'a TypeExpr, at: Place) -> Result<Checked<'a>, TypeError>
        ensures { ChecksExpr result self.now Value
            (ast.MakeChan (type_expr_of element.now) ast.no_capacity at) }
    {
        self.check_type(element)?;
        let kind = Kind::Chan(element, self.resolve_base(element));
        Ok(make_channel(self.alloc(), kind, at)?)
    }

    /// Checks an expression (The Go Programming Language Specification, "Expressions").
    #[cycle(expressions)]
    #[tactic(auto, using(crate::proofs::Trees::exprs, rgo_typing_rules::proofs::Refusals::refusals))]
    pub fn check_expr(&self, role: Role, e: &'a Expr) -> Result<Checked<'a>, TypeError>
        ensures { ChecksExpr result self.now role (expr_of e.now) }
    {
        let alloc = self.alloc();
        match e {
            Expr::Number(value, at) => number(alloc, *value, *at),
            Expr::Text(_, at) => text(alloc, role, *at),
            Expr::Name(x) => self.operand(role, x),
            Expr::Paren(inner, _) => self.check_expr(role, inner),
            Expr::New(x, at) => self.check_new(x, *at),
            Expr::MakeSlice(element, size, at) => self.check_make_slice(size, element, *at),
            Expr::MakeChan(element, None, at) => self.check_make_channel(element, *at),
            Expr::MakeChan(element, Some(capacity), at) => {
                self.check_make_buffered(capacity, element, *at)
            }
            Expr::Select(inner, field) => self.check_select(inner, field),
            Expr::Index(slice, position, at) => {
                let slice = self.check_expr(Role::Value, slice)?;
                let position = self.check_expr(Role::Value, position)?;
                index(alloc, slice, position, *at)
            }
            Expr::Call(f, args, at) => {
                self.check_callee(f)?;
                let callee = self.resolve_callee(f);
                let wanted = params_of(self.globals(), callee);
                let args = self.check_all(self.args_role(f), wanted, args)?;
                call(alloc, self.globals(), role, callee, args, *at)
            }
            Expr::Unary(op, inner, at) => self.check_unary(*op, inner, *at),
            Expr::Binary(op, left, right, at) => {
                let left = self.check_expr(Role::Value, left)?;
                let right = self.check_expr(Role::Value, right)?;
                binary(alloc, *op, left, right, *at)
            }
            Expr::Literal(x, values, at) => self.check_literal(x, values, *at),
            Expr::Keyed(x, elements, at) => self.check_keyed(x, elements, *at),
        }
    }

    /// Checks `make([]T, n)`.
    #[cycle(expressions)]
    #[tactic(auto, using(rgo_typing_rules::proofs::Refusals::refusals))]
    fn check_make_slice(
        &self,
        size: &'a Expr,
        element: &'a TypeExpr,
        at: Place,
    ) -> Result<Checked<'a>, TypeError>
        ensures { ChecksExpr result self.now Value
            (ast.MakeSlice (type_expr_of element.now) (expr_of size.now) at) }
    {
        self.check_type(element)?;
        let kind = Kind::Slice(element, self.resolve_base(element));
        make_slice(self.alloc(), kind, self.check_expr(Role::Value, size)?, at)
    }

    /// Checks `make(chan T, n)`.
    #[cycle(expressions)]
    #[tactic(auto, using(rgo_typing_rules::proofs::Refusals::refusals))]
    fn check_make_buffered(
        &self,
        capacity: &'a Expr,
        element: &'a TypeExpr,
        at: Place,
    ) -> Result<Checked<'a>, TypeError>
        ensures { ChecksExpr result self.now Value
            (ast.MakeChan (type_expr_of element.now) (ast.a_capacity (expr_of capacity.now)) at) }
    {
        self.check_type(element)?;
        let kind = Kind::Chan(element, self.resolve_base(element));
        make_buffered(
            self.alloc(),
            kind,
            self.check_expr(Role::Value, capacity)?,
            at,
        )
    }

    /// Checks a selector.
    #[cycle(expressions)]
    #[tactic(auto, using(rgo_typing_rules::proofs::Refusals::refusals))]
    fn check_select(&self, inner: &'a Expr, field: &'a Ident) -> Result<Checked<'a>, TypeError>
        ensures { ChecksExpr result self.now Value (ast.Select (expr_of inner.now) field.now) }
    {
        let inner = self.check_expr(Role::Value, inner)?;
        select(
            self.alloc(),
            self.globals(),
            inner,
            field.name.bytes(),
            field.at,
        )
    }

    /// Checks a unary operation.
    #[cycle(expressions)]
    #[tactic(auto, using(rgo_typing_rules::proofs::Refusals::refusals))]
    fn check_unary(&self, op: UnaryOp, inner: &'a Expr, at: Place) -> Result<Checked<'a>, TypeError>
        ensures { ChecksExpr result self.now Value (ast.Unary op (expr_of inner.now) at) }
    {
        let inner = self.check_expr(Role::Value, inner)?;
        unary(self.alloc(), op, inner, at)
    }

    /// Checks a literal by its values in order.
    #[cycle(expressions)]
    #[tactic(auto, using(rgo_typing_rules::proofs::Refusals::refusals))]
    fn check_literal(
        &self,
        x: &'a Ident,
        values: &'a [Expr],
        at: Place,
    ) -> Result<Checked<'a>, TypeError>
        ensures { ChecksExpr result self.now Value
            (ast.Literal x.now (ast.exprs_of (map expr_of values.now)) at) }
    {
        let found = self.check_base(x)?;
        let wanted = kinds_of(self.globals(), found);
        let values = self.check_all(Role::Value, wanted, values)?;
        literal(self.alloc(), self.globals(), found, values, at)
    }

    /// Checks a literal by fields.
    #[cycle(expressions)]
    #[tactic(auto, using(rgo_typing_rules::proofs::Refusals::refusals))]
    fn check_keyed(
        &self,
        x: &'a Ident,
        elements: &'a [Element],
        at: Place,
    ) -> Result<Checked<'a>, TypeError>
        ensures { ChecksExpr result self.now Value
            (ast.Keyed x.now (ast.elements_of (map element_of elements.now)) at) }
    {
        let found = self.check_base(x)?;
        let fields = find_named(self.alloc(), self.globals(), found, elements)?;
        let values = self.check_elements(&fields.kinds, elements)?;
        keyed(self.alloc(), found, elements, fields, values, at)
    }

    /// Checks the parts of a callee that is not `fmt` followed by a name; the callee itself is
    /// checked with its call.
    #[cycle(expressions)]
    pub fn check_callee(&self, f: &'a Expr) -> Result<(), TypeError>
        ensures { Checks result (checking.callee_nodes self.now (expr_of f.now)) }
    {
        if self.is_package_selector(f) {
            Ok(())
        } else {
            self.check_parts(f)
        }
    }

    /// Checks the parts of an expression, and not the expression itself. Only callees need this: whatever a callee is, its call
    /// reports it, after the arguments.
    #[cycle(expressions)]
    #[tactic(auto, using(crate::proofs::Trees::exprs, rgo_typing_rules::proofs::Refusals::refusals))]
    fn check_parts(&self, e: &'a Expr) -> Result<(), TypeError>
        ensures { Checks result (checking.parts self.now (expr_of e.now)) }
    {
        match e {
            Expr::Number(_, _) | Expr::Text(_, _) | Expr::Name(_) => Ok(()),
            Expr::Paren(inner, _) => self.check_parts(inner),
            Expr::New(x, _) => self.check_struct(x),
            Expr::MakeSlice(element, size, _) | Expr::MakeChan(element, Some(size), _) => {
                self.check_type(element)?;
                self.check_value(size)
            }
            Expr::MakeChan(element, None, _) => self.check_type(element),
            Expr::Select(inner, _) | Expr::Unary(_, inner, _) => self.check_value(inner),
            Expr::Index(left, right, _) | Expr::Binary(_, left, right, _) => {
                self.check_value(left)?;
                self.check_value(right)
            }
            Expr::Call(f, args, _) => {
                self.check_callee(f)?;
                self.check_values(self.args_role(f), args)
            }
            Expr::Literal(x, values, _) => {
                self.check_struct(x)?;
                self.check_values(Role::Value, values)
            }
            Expr::Keyed(x, elements, _) => {
                self.check_struct(x)?;
                self.check_named_values(elements)
            }
        }
    }

    /// Checks an expression as a value, for its nodes alone: below a callee that is not a function no tree is kept.
    #[cycle(expressions)]
    fn check_value(&self, e: &'a Expr) -> Result<(), TypeError>
        ensures { Checks result (checking.nodes self.now Value (expr_of e.now)) }
    {
        self.check_expr(Role::Value, e)?;
        Ok(())
    }

    /// Checks expressions in order, for their nodes alone.
    #[cycle(expressions)]
    fn check_values(&self, role: Role, all: &'a [Expr]) -> Result<(), TypeError>
        ensures { Checks result
            (checking.all_nodes self.now role (ast.exprs_of (map expr_of all.now))) }
    {
        self.check_all(role, &[], all)?;
        Ok(())
    }

    /// Checks the values of a literal by fields, for their nodes alone.
    #[cycle(expressions)]
    fn check_named_values(&self, elements: &'a [Element]) -> Result<(), TypeError>
        ensures { Checks result
            (checking.element_nodes self.now (ast.elements_of (map element_of elements.now))) }
    {
        self.check_elements(&[], elements)?;
        Ok(())
    }

    /// Checks expressions in order, each as a value of the type of its number, if there is one.
    #[cycle(expressions)]
    pub fn check_all(
        &self,
        role: Role,
        wanted: &[Kind<'a>],
        all: &'a [Expr],
    ) -> Result<Values<'a>, TypeError>
        ensures { ChecksExprs result self.now role (map type_of_kind wanted.now)
            (ast.exprs_of (map expr_of all.now)) }
    {
        let mut terms = Vec::new(self.alloc());
        let mut shapes = Vec::new(self.alloc());
        for e in all {
            let checked = self.check_expr(role, e)?;
            let term = wanted_term(self.alloc(), wanted, shapes.len(), checked.term)?;
            terms.push(term)?;
            shapes.push(checked.shape)?;
        }
        Ok(Values { terms, shapes })
    }

    /// Checks the values of a literal by fields, each as a value of its field's type, if there is
    /// such a field.
    #[cycle(expressions)]
    fn check_elements(
        &self,
        known: &[Option<Kind<'a>>],
        elements: &'a [Element],
    ) -> Result<Values<'a>, TypeError>
        ensures { ChecksElements result self.now (map optional_kind_of known.now)
            (ast.elements_of (map element_of elements.now)) }
    {
        let mut terms = Vec::new(self.alloc());
        let mut shapes = Vec::new(self.alloc());
        for element in elements {
            let checked = self.check_expr(Role::Value, &element.value)?;
            let term = known_term(self.alloc(), known, shapes.len(), checked.term)?;
            terms.push(term)?;
            shapes.push(checked.shape)?;
        }
        Ok(Values { terms, shapes })
    }
}
