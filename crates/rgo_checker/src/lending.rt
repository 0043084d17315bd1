//! The rules on the region of the result, which the caller lends, and on what is held at a return.

ghost use Rattle.std.specs.Prelude.{◌≡◌};
ghost use Rattle.rgo_tac.specs.Ops.{operation_of};
ghost use Rattle.rgo_checker.specs.ClassTests as tests;

use crate::classes::same_class;
use rgo_code::{Class, CodeFn};
use rgo_tac::Op;

/// Whether the name of a class is not among these. `NoClass` and `Global` are not names.
pub(crate) fn is_free(class: Class, names: &[u32]) -> bool
    ensures { result ≡ tests.is_free class names.now }
{
    match class {
        Class::Name(k) => !names.contains(&k),
        Class::NoClass | Class::Global => true,
    }
}

/// Whether the region of the result is neither created nor removed.
pub(crate) fn lends(lent: Class, creates: &[u32], removes: &[u32], otherwise: &[u32]) -> bool
    ensures { result ≡ tests.lends lent creates.now removes.now otherwise.now }
{
    is_free(lent, creates) && is_free(lent, removes) && is_free(lent, otherwise)
}

fn is_empty(names: &[u32]) -> bool
    ensures { result ≡ tests.has_no_names names.now }
{
    names.is_empty()
}

/// The class of the result is the only name of which a variable may be live at a return: nothing runs after it that could remove the
/// region of another.
fn is_lent(lent: Class, class: Class) -> bool
    ensures { result ≡ tests.is_lent lent class }
{
    match class {
        Class::Name(_) => same_class(lent, class),
        Class::NoClass | Class::Global => true,
    }
}

fn value_is_lent(f: &CodeFn<'_>, value: Option<u32>) -> bool
    ensures { result ≡ tests.value_is_lent f.now value }
{
    match value {
        Some(v) => is_lent(f.result_class(), f.class_of(v)),
        None => true,
    }
}

/// Whether, if this is a return, no name is held before it and it creates none. What is live at a return is what it returns, so
/// liveness is not needed.
pub(crate) fn ends_empty(f: &CodeFn<'_>, creates: &[u32], op: Op<'_>) -> bool
    ensures { result ≡ tests.ends_empty f.now creates.now (operation_of op.entry) }
{
    match op {
        Op::Return(value) => is_empty(creates) && value_is_lent(f, value),
        Op::Do { .. }
        | Op::Call { .. }
        | Op::Go { .. }
        | Op::Print { .. }
        | Op::Jump(_)
        | Op::Branch { .. } => true,
    }
}
