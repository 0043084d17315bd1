//! The rules on classes: what has one, and which variables have the same.

ghost use Rattle.std.specs.Prelude.{◌≡◌};
ghost use Rattle.rgo_tac.specs.Ops.{operation_of};
ghost use Rattle.rgo_code.specs.ClassRules as rules;
ghost use Rattle.rgo_code.specs.Names as names;
ghost use Rattle.rgo_checker.specs.ClassTests as tests;

use rgo_code::{Class, CodeFn};
use rgo_tac::{Member, Op, joins};
use rgo_typed::{Action, Type};

pub(crate) fn same_class(a: Class, b: Class) -> bool
    ensures { result ≡ tests.equal_classes a b }
{
    match (a, b) {
        (Class::NoClass, Class::NoClass) | (Class::Global, Class::Global) => true,
        (Class::Name(m), Class::Name(n)) => m == n,
        (Class::NoClass, Class::Global | Class::Name(_)) => false,
        (Class::Global, Class::NoClass | Class::Name(_)) => false,
        (Class::Name(_), Class::NoClass | Class::Global) => false,
    }
}

/// The class of the variable of this number; `NoClass` if the function does not have it.
pub(crate) fn class_at(f: &CodeFn<'_>, v: usize) -> Class
    ensures { result ≡ names.class_of f.now v }
{
    if v < f.tac().variable_count() as usize {
        f.class_of(v as u32)
    } else {
        Class::NoClass
    }
}

fn has_class(class: Class) -> bool
    ensures { result ≡ tests.has_class class }
{
    match class {
        Class::NoClass => false,
        Class::Global | Class::Name(_) => true,
    }
}

/// Whether a variable of this type has a class exactly if it is a pointer, a slice or a channel.
pub(crate) fn class_fits(class: Class, ty: &Type) -> bool
    ensures { result ≡ tests.class_fits class ty.now }
{
    if has_class(class) {
        ty.is_pointer_like()
    } else {
        !ty.is_pointer_like()
    }
}

/// The same of a function's result, if it has one.
pub(crate) fn result_fits(class: Class, ty: &Option<Type>) -> bool
    ensures { result ≡ tests.result_fits class ty.now }
{
    match ty {
        Some(ty) => class_fits(class, ty),
        None => true,
    }
}

fn member_class(f: &CodeFn<'_>, member: Member) -> Class
    ensures { result ≡ names.member_class f.now member }
{
    match member {
        Member::Variable(v) => f.class_of(v),
        Member::Result => f.result_class(),
        Member::Global => Class::Global,
    }
}

fn op_agrees(f: &CodeFn<'_>, op: Op<'_>) -> bool
    ensures { result ≡ tests.op_agrees f.now (operation_of op.entry) }
{
    match joins(f.tac(), op) {
        Some((a, b)) => same_class(member_class(f, a), member_class(f, b)),
        None => true,
    }
}

fn is_of_package(action: Action) -> bool
    ensures { result ≡ rules.is_of_package action }
{
    match action {
        Action::Get(_) | Action::Set(_) => true,
        Action::Int(_)
        | Action::Bool(_)
        | Action::Nil
        | Action::Copy
        | Action::Binary(_)
        | Action::Neg
        | Action::Not
        | Action::IsNil
        | Action::Len
        | Action::Load(_)
        | Action::Store(_)
        | Action::At
        | Action::Put
        | Action::New(_)
        | Action::Slice
        | Action::Chan
        | Action::Recv
        | Action::Send
        | Action::Close => false,
    }
}

/// Whether what an action joins has one class, except for actions on package variables, which rule 5 is about. Calls and starts
/// join by what they pass: rules 6 and 7.
pub(crate) fn joins_agree(f: &CodeFn<'_>, op: Op<'_>) -> bool
    ensures { result ≡ tests.joins_agree f.now (operation_of op.entry) }
{
    match op {
        Op::Do { action, .. } => is_of_package(action) || op_agrees(f, op),
        Op::Call { .. }
        | Op::Go { .. }
        | Op::Print { .. }
        | Op::Jump(_)
        | Op::Branch { .. }
        | Op::Return(_) => true,
    }
}

/// Whether what an action on a package variable joins has the class `Global`.
pub(crate) fn globals_agree(f: &CodeFn<'_>, op: Op<'_>) -> bool
    ensures { result ≡ tests.globals_agree f.now (operation_of op.entry) }
{
    match op {
        Op::Do { action, .. } => !is_of_package(action) || op_agrees(f, op),
        Op::Call { .. }
        | Op::Go { .. }
        | Op::Print { .. }
        | Op::Jump(_)
        | Op::Branch { .. }
        | Op::Return(_) => true,
    }
}

/// Whether a returned variable has the class of the result.
pub(crate) fn return_agrees(f: &CodeFn<'_>, op: Op<'_>) -> bool
    ensures { result ≡ tests.return_agrees f.now (operation_of op.entry) }
{
    match op {
        Op::Return(_) => op_agrees(f, op),
        Op::Do { .. }
        | Op::Call { .. }
        | Op::Go { .. }
        | Op::Print { .. }
        | Op::Jump(_)
        | Op::Branch { .. } => true,
    }
}
