//! Which rules declared names, types and operand names may break.
#![tactic(auto, unfolding(crate::specs::Rules::broken))]

ghost use Rattle.std.specs.Prelude.{◌≡◌, codes, false};
ghost use Rattle.std.specs.Str.{bytes_eq};
ghost use Rattle.rgo_typing_rules.specs.Meanings.{is_struct};
ghost use Rattle.rgo_typing_rules.specs.Nodes as spec;
ghost use Rattle.rgo_typing_rules.specs.Rules.{broken, is_reserved};

use crate::builtins::Builtin;
use crate::meanings::Meaning;
use crate::roles::Role;
use crate::rules::Rule;

/// Whether a path is `fmt`.
pub fn is_fmt(path: &[u8]) -> bool
    ensures { result ≡ bytes_eq path.now (codes "fmt") }
{
    path == "fmt".as_bytes()
}

pub(crate) fn import(again: bool, path: &[u8]) -> Option<Rule>
    ensures { result ≡ broken (spec.Import again path.now) }
{
    if !is_fmt(path) {
        Some(Rule::BadImport)
    } else {
        Rule::Redeclared.when(again)
    }
}

/// The reserved names other than those of builtins. `cap`, `append`, `sync`, `init` and `_` mean nothing in the subset: they are
/// reserved because Go gives them a meaning, which a declaration here would contradict.
const RESERVED: [&[u8]; 13] = [
    b"int", b"bool", b"true", b"false", b"nil", b"new", b"make", b"cap", b"append", b"fmt",
    b"sync", b"init", b"_",
];

fn is_reserved(name: &[u8]) -> bool
    ensures { result ≡ is_reserved name.now }
{
    Builtin::predeclared(name).is_some() || RESERVED.contains(&name)
}

pub(crate) fn declared(again: bool, name: &[u8]) -> Option<Rule>
    ensures { result ≡ broken (spec.Declared again name.now) }
{
    if again {
        Some(Rule::Redeclared)
    } else {
        Rule::ReservedName.when(is_reserved(name))
    }
}

pub(crate) fn is_struct(meaning: Option<Meaning>) -> bool
    ensures { result ≡ is_struct meaning }
{
    matches!(meaning, Some(Meaning::Struct(_)))
}

pub(crate) fn type_name(meaning: Option<Meaning>) -> Option<Rule>
    ensures { result ≡ broken (spec.TypeName meaning) }
{
    match meaning {
        None | Some(Meaning::Package(false)) => Some(Rule::NoSuchName),
        Some(Meaning::Basic(_)) => None,
        Some(Meaning::Struct(_)) => Some(Rule::StructByValue),
        Some(_) => Some(Rule::NotType),
    }
}

pub(crate) fn base_name(meaning: Option<Meaning>) -> Option<Rule>
    ensures { result ≡ broken (spec.BaseName meaning) }
{
    match meaning {
        None | Some(Meaning::Package(false)) => Some(Rule::NoSuchName),
        // `*int` is reported at the `*`, by a node of its own.
        Some(Meaning::Basic(_)) | Some(Meaning::Struct(_)) => None,
        Some(_) => Some(Rule::NotType),
    }
}

pub(crate) fn name(role: Role, meaning: Option<Meaning>) -> Option<Rule>
    ensures { result ≡ broken (spec.Name role meaning) }
{
    match meaning {
        None | Some(Meaning::Package(false)) => Some(Rule::NoSuchName),
        Some(Meaning::Local(_))
        | Some(Meaning::Global(_))
        | Some(Meaning::Truth(_))
        | Some(Meaning::Nil) => None,
        // On the left side of `=` the assignment reports it, at the `=`.
        Some(_) => Rule::NotValue.when(!matches!(role, Role::Target)),
    }
}
