//! Small expressions with their meanings, constants and broken rules, worked out by hand.

use crate::checks::same;
use crate::texts::{assigned, first_stmt, parsed};
use rgo_ast::Program;
use rgo_scopes::Scopes;
use rgo_typed::Base;
use rgo_typing_expressions::{Checker, Package, bare};
use rgo_typing_rules::{Builtin, Kind, Meaning, Role, Rule, Shape, TypeError, TypeRefusal};
use std::alloc::Global;
use std::test::Fail;

/// The text before an expression.
const BEFORE: &str = "package main; func main() { x = ";

/// A program of which the first statement assigns this expression.
fn with_expr(alloc: Global, expr: &str) -> Result<Program, Fail> {
    let text = format!(in alloc; "{BEFORE}{expr} }}")?;
    parsed(alloc, text.as_str())
}

/// A package that imports `fmt` and declares nothing.
fn package<'a>(alloc: Global) -> Package<'a> {
    Package {
        imported: true,
        names: Scopes::new(alloc),
        structs: Vec::new(alloc),
        variables: Vec::new(alloc),
        functions: Vec::new(alloc),
    }
}

/// What the check of an expression finds.
#[derive(Clone, Copy, Debug, PartialEq, Eq)]
enum Outcome {
    Constant(i64),
    NoResult,
    OtherShape,
    /// The rule that is broken first.
    Broken(Rule),
}

fn outcome_of(shape: &Shape<'_>) -> Outcome {
    match shape {
        Shape::Constant(n) => Outcome::Constant(*n),
        Shape::NoResult => Outcome::NoResult,
        _ => Outcome::OtherShape,
    }
}

/// Checks the expression that a program assigns first, where nothing is declared. Returns the place of a broken rule, too, from the
/// beginning of the expression.
fn checked_in(alloc: Global, role: Role, program: &Program) -> Result<(Outcome, usize), Fail> {
    let expr = assigned(first_stmt(program)?)?;
    let globals = package(alloc);
    let checker = Checker::new(alloc, &globals);
    match checker.check_expr(role, expr) {
        Ok(checked) => Ok((outcome_of(&checked.shape), 0)),
        Err(TypeError::Refused(TypeRefusal { rule, at })) => {
            Ok((Outcome::Broken(rule), at.saturating_sub(BEFORE.len())))
        }
        Err(TypeError::NoMemory) => Err(Fail::from("out of memory")),
    }
}

/// Checks an expression where nothing is declared.
fn checked(alloc: Global, role: Role, expr: &str) -> Result<(Outcome, usize), Fail> {
    let program = with_expr(alloc, expr)?;
    checked_in(alloc, role, &program)
}

#[test]
fn local_variables_hide_other_meanings(rt: HostRuntime) -> Result<(), Fail> {
    let globals = package(rt.alloc());
    let mut checker = Checker::new(rt.alloc(), &globals);
    let found = checker.meaning(b"len");
    same(
        &rt,
        "len",
        &matches!(found, Some(Meaning::Builtin(Builtin::Len))),
        &true,
    );
    let found = checker.meaning(b"fmt");
    same(
        &rt,
        "fmt",
        &matches!(found, Some(Meaning::Package(true))),
        &true,
    );
    same(&rt, "lens", &checker.meaning(b"lens").is_none(), &true);
    checker.declare(b"len", Kind::Plain(Base::Int))?;
    let found = checker.meaning(b"len");
    same(
        &rt,
        "a local",
        &matches!(found, Some(Meaning::Local(0))),
        &true,
    );
    Ok(())
}

/// Expressions in two pieces, the second from where they start without their parentheses on, whether they are places, and whether
/// they may be statements.
static PLACES: [(&str, &str, bool, bool); 3] = [
    ("", "x", true, false),
    ("((", "x))", true, false),
    ("", "f(\"a\")", false, true),
];

#[test]
fn variables_are_places_and_calls_may_stand(rt: HostRuntime) -> Result<(), Fail> {
    let globals = package(rt.alloc());
    for (before, from, is_place, may_stand) in &PLACES {
        let expr = format!(in rt.alloc(); "{before}{from}")?;
        let program = with_expr(rt.alloc(), &expr)?;
        let tree = assigned(first_stmt(&program)?)?;
        let mut checker = Checker::new(rt.alloc(), &globals);
        checker.declare(b"x", Kind::Plain(Base::Int))?;
        same(&rt, &expr, &checker.is_place(tree), is_place);
        same(&rt, &expr, &checker.may_stand(tree), may_stand);
        let found = bare(tree).start().saturating_sub(BEFORE.len());
        same(&rt, &expr, &found, &before.len());
    }
    Ok(())
}

/// Expressions in two pieces, the second from the place on where a rule is broken, if one is.
static EXPRESSIONS: [(Role, &str, &str, Outcome); 5] = [
    (Role::Value, "", "7 - 2", Outcome::Constant(5)),
    (Role::Value, "", "nil", Outcome::OtherShape),
    (
        Role::Alone,
        "7 ",
        "/ 0",
        Outcome::Broken(Rule::ConstZeroDivisor),
    ),
    // The arguments are checked before the call.
    (
        Role::Alone,
        "f(",
        "\"a\")",
        Outcome::Broken(Rule::StringPlace),
    ),
    (Role::Alone, "", "fmt.Println(\"a\")", Outcome::NoResult),
];

#[test]
fn expressions_are_checked(rt: HostRuntime) -> Result<(), Fail> {
    for (role, before, from, wanted) in &EXPRESSIONS {
        let expr = format!(in rt.alloc(); "{before}{from}")?;
        let found = checked(rt.alloc(), *role, &expr)?;
        same(&rt, &expr, &found, &(*wanted, before.len()));
    }
    Ok(())
}
