//! What a callee is, and which expressions may be statements or be assigned to.
#![tactic(auto)]

ghost use Rattle.std.specs.Prelude.{◌≡◌};
ghost use Rattle.rgo_ast.specs.Views.{expr_of};
ghost use Rattle.rgo_typing_expressions.specs.Callees as spec;

use crate::checkers::Checker;
use rgo_ast::{Expr, Place, UnaryOp};
use rgo_typing_rules::{Builtin, Meaning, Role};

/// What is called.
#[derive(Clone, Copy)]
pub enum Callee {
    /// A name that nothing declares, at this place.
    Missing(Place),
    /// A builtin.
    Builtin(Builtin),
    /// The function of this number.
    Routine(usize),
    /// Something that is not a function.
    Nothing,
}

/// An expression without the parentheses around it.
pub fn bare(e: &Expr) -> &Expr
    ensures { expr_of result.now ≡ spec.without_parens (expr_of e.now) }
{
    match e {
        Expr::Paren(inner, _) => bare(inner),
        _ => e,
    }
}

/// What a name is as a callee.
pub fn named_callee(at: Place, meaning: Option<Meaning>) -> Callee
    ensures { result ≡ spec.named_callee at meaning }
{
    match meaning {
        None | Some(Meaning::Package(false)) => Callee::Missing(at),
        Some(Meaning::Function(number)) => Callee::Routine(number),
        Some(Meaning::Builtin(builtin)) => Callee::Builtin(builtin),
        Some(_) => Callee::Nothing,
    }
}

fn package_callee(at: Place, meaning: Option<Meaning>, name: &[u8]) -> Callee
    ensures { result ≡ spec.package_callee at meaning name.now }
{
    match meaning {
        Some(Meaning::Package(true)) => match Builtin::of_fmt(name) {
            None => Callee::Nothing,
            Some(builtin) => Callee::Builtin(builtin),
        },
        Some(Meaning::Package(false)) => Callee::Missing(at),
        _ => Callee::Nothing,
    }
}

fn selects_println(e: &Expr) -> bool
    ensures { result ≡ spec.selects_println (expr_of e.now) }
{
    match e {
        Expr::Select(_, field) => field.name.bytes() == Builtin::Println.name().as_bytes(),
        _ => false,
    }
}

/// Whether a call may have an effect. A builtin that has a value has none, so `len(s)` alone is not a statement.
fn has_effect(callee: Callee) -> bool
    ensures { result ≡ spec.has_effect callee }
{
    match callee {
        Callee::Builtin(builtin) => builtin.result_type().is_none(),
        _ => true,
    }
}

impl<'p, 'a> Checker<'p, 'a> {
    fn selected_callee(&self, e: &Expr, name: &[u8]) -> Callee
        ensures { result ≡ spec.selected_callee self.now (expr_of e.now) name.now }
    {
        match e {
            Expr::Name(x) => package_callee(x.at, self.meaning(x.name.bytes()), name),
            _ => Callee::Nothing,
        }
    }

    /// What a callee is.
    pub fn resolve_callee(&self, f: &Expr) -> Callee
        ensures { result ≡ spec.callee_of self.now (expr_of f.now) }
    {
        match bare(f) {
            Expr::Name(x) => named_callee(x.at, self.meaning(x.name.bytes())),
            Expr::Select(e, field) => self.selected_callee(bare(e), field.name.bytes()),
            _ => Callee::Nothing,
        }
    }

    fn names_package(&self, e: &Expr) -> bool
        ensures { result ≡ spec.names_package self.now (expr_of e.now) }
    {
        match e {
            Expr::Name(x) => matches!(self.meaning(x.name.bytes()), Some(Meaning::Package(_))),
            _ => false,
        }
    }

    /// Whether it is `fmt` followed by a name. Such a callee has no parts to check: `fmt` is not a value, and whether it is imported
    /// is asked with the call.
    pub fn is_package_selector(&self, f: &Expr) -> bool
        ensures { result ≡ spec.is_package_selector self.now (expr_of f.now) }
    {
        match bare(f) {
            Expr::Select(e, _) => self.names_package(bare(e)),
            _ => false,
        }
    }

    /// What the arguments of a callee are checked as. A string is refused in those of any other function of `fmt`, as in `fmt.Print`,
    /// before the call itself.
    pub fn args_role(&self, f: &Expr) -> Role
        ensures { result ≡ spec.args_role self.now (expr_of f.now) }
    {
        if self.is_package_selector(f) && selects_println(bare(f)) {
            Role::Printed
        } else {
            Role::Value
        }
    }

    /// Whether it is a call other than of a builtin that has a value, or a receive, and so may be a
    /// statement (The Go Programming Language Specification, "Expression statements").
    pub fn may_stand(&self, e: &Expr) -> bool
        ensures { result ≡ spec.may_stand self.now (expr_of e.now) }
    {
        match bare(e) {
            Expr::Call(f, _, _) => has_effect(self.resolve_callee(f)),
            Expr::Unary(op, _, _) => matches!(op, UnaryOp::Receive),
            _ => false,
        }
    }

    /// Whether it is a variable, a field or an element, and so may be assigned to (The Go
    /// Programming Language Specification, "Assignment statements").
    pub fn is_place(&self, e: &Expr) -> bool
        ensures { result ≡ spec.is_place self.now (expr_of e.now) }
    {
        match bare(e) {
            Expr::Name(x) => matches!(
                self.meaning(x.name.bytes()),
                Some(Meaning::Local(_)) | Some(Meaning::Global(_))
            ),
            Expr::Select(_, _) | Expr::Index(_, _, _) => true,
            _ => false,
        }
    }
}
