//! The names that each program has. They are looked up last, after all scopes, but nothing can hide them: to declare one breaks the
//! rule on reserved names.

ghost use Rattle.std.specs.Prelude.{◌≡◌};
ghost use Rattle.rgo_typing_expressions.specs.Scopes.{builtin_meaning, universe};
ghost use Rattle.rgo_typing_rules.specs.Builtins.{predeclared, named};

use rgo_typed::Base;
use rgo_typing_rules::{Builtin, Meaning};

/// What the name of a predeclared builtin means.
fn builtin_meaning(name: &[u8]) -> Option<Meaning>
    ensures { result ≡ builtin_meaning (named predeclared name.now) }
{
    match Builtin::predeclared(name) {
        None => None,
        Some(builtin) => Some(Meaning::Builtin(builtin)),
    }
}

/// The meaning of a name that each program has.
pub(crate) fn universe(imported: bool, name: &[u8]) -> Option<Meaning>
    ensures { result ≡ universe imported name.now }
{
    if name == "int".as_bytes() {
        Some(Meaning::Basic(Base::Int))
    } else if name == "bool".as_bytes() {
        Some(Meaning::Basic(Base::Bool))
    } else if name == "true".as_bytes() {
        Some(Meaning::Truth(true))
    } else if name == "false".as_bytes() {
        Some(Meaning::Truth(false))
    } else if name == "nil".as_bytes() {
        Some(Meaning::Nil)
    } else if name == "fmt".as_bytes() {
        Some(Meaning::Package(imported))
    } else {
        builtin_meaning(name)
    }
}
