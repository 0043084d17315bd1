//! The builtin functions, one row each: the name, what a call does, and the rules that it may break. `new` and `make`
//! are not among them: they take a type, so the grammar has forms of their own for them.
#![tactic(auto, unfolding(crate::specs::Rules::broken))]

ghost use Rattle.std.specs.Prelude.{◌≡◌, map};
ghost use Rattle.rgo_typing_rules.specs.Builtins.{predeclared, of_fmt, named, builtin_name, result_of, action_of};
ghost use Rattle.rgo_typing_rules.specs.Nodes as spec;
ghost use Rattle.rgo_typing_rules.specs.Rules.{broken};
ghost use Rattle.rgo_typing_rules.specs.Views.{shape_of, optional_kind_of};

use crate::call_rules::wants_value;
use crate::kinds::Kind;
use crate::roles::Role;
use crate::rules::Rule;
use crate::shapes::Shape;
use crate::values::{has_nil, has_pointer};
use rgo_typed::{Action, Base};

/// A builtin function.
#[derive(Clone, Copy)]
pub enum Builtin {
    /// `len`.
    Len,
    /// `close`.
    Close,
    /// `fmt.Println`.
    Println,
}

/// Those whose names are predeclared: each program has them.
const PREDECLARED: [Builtin; 2] = [Builtin::Len, Builtin::Close];

/// Those of the package `fmt`.
const OF_FMT: [Builtin; 1] = [Builtin::Println];

/// The one of these with this name.
fn named(builtins: &[Builtin], name: &[u8]) -> Option<Builtin>
    ensures { result ≡ named builtins.now name.now }
{
    for builtin in builtins {
        if name == builtin.name().as_bytes() {
            return Some(*builtin);
        }
    }
    None
}

impl Builtin {
    /// The one with this predeclared name.
    pub fn predeclared(name: &[u8]) -> Option<Builtin>
        ensures { result ≡ named predeclared name.now }
    {
        named(&PREDECLARED, name)
    }

    /// The one with this name in the package `fmt`.
    pub fn of_fmt(name: &[u8]) -> Option<Builtin>
        ensures { result ≡ named of_fmt name.now }
    {
        named(&OF_FMT, name)
    }

    /// Its name, without the package's.
    pub fn name(self) -> &'static str
        ensures { result.now ≡ builtin_name self }
    {
        match self {
            Builtin::Len => "len",
            Builtin::Close => "close",
            Builtin::Println => "Println",
        }
    }

    /// The type of its value. A call without a value, and no other, may be a statement.
    pub fn result_type<'a>(self) -> Option<Kind<'a>>
        ensures { optional_kind_of result ≡ result_of self }
    {
        match self {
            Builtin::Len => Some(Kind::Plain(Base::Int)),
            Builtin::Close | Builtin::Println => None,
        }
    }

    /// What a call does to its arguments. A print is a statement of its own.
    pub fn action(self) -> Option<Action>
        ensures { result ≡ action_of self }
    {
        match self {
            Builtin::Len => Some(Action::Len),
            Builtin::Close => Some(Action::Close),
            Builtin::Println => None,
        }
    }
}

/// The first rule that a call breaks. That `len` is applied to a slice is asked before the number of its arguments, since that rule
/// has the lower number.
pub(crate) fn builtin_called(builtin: Builtin, role: Role, args: &[Shape<'_>]) -> Option<Rule>
    ensures { result ≡ broken (spec.CallBuiltin builtin role (map shape_of args.now)) }
{
    match builtin {
        Builtin::Len => match args.first() {
            None => Some(Rule::ArgCount),
            Some(first) if !first.is_slice() => Some(Rule::NotIndexable),
            Some(_) => Rule::ArgCount.when(args.len() != 1),
        },
        Builtin::Close => {
            if args.len() != 1 {
                Some(Rule::ArgCount)
            } else if wants_value(role) {
                Some(Rule::NoResult)
            } else {
                Rule::NotChannel.when(!args[0].is_chan())
            }
        }
        Builtin::Println => {
            if has_nil(args) {
                Some(Rule::BareNil)
            } else if wants_value(role) {
                Some(Rule::NoResult)
            } else {
                Rule::PrintType.when(has_pointer(args))
            }
        }
    }
}
