//! The 34 rules on meaning, with their numbers and names.

ghost use Rattle.std.specs.Prelude.{◌≡◌, Some, None, if◌then◌else◌};
ghost use Rattle.rgo_typing_rules.specs.RuleNames.{typing_rule_number, typing_rule_name};

/// A rule on the meaning of a program (The Go Programming Language Specification; each variant says what breaks the rule). The
/// variants are in the order of the numbers, which users see in messages and which decide
/// which of several broken rules is reported.
#[derive(Clone, Copy, Debug, PartialEq, Eq)]
pub enum Rule {
    /// An import of a path other than `fmt`.
    BadImport,
    /// A name declared again in its block, struct, parameter list or imports.
    Redeclared,
    /// A declaration of a reserved name.
    ReservedName,
    /// A name that nothing in scope declares, or `fmt` without its import.
    NoSuchName,
    /// A name in the place of a type that does not name a type.
    NotType,
    /// A struct as a type without `*`.
    StructByValue,
    /// `*X`, `new(X)` or `&X{` if `X` is not a struct.
    PointerBase,
    /// A type, function, builtin or package as a value.
    NotValue,
    /// A string that is not an argument of `fmt.Println`.
    StringPlace,
    /// An operator on operands that it does not take.
    Mismatch,
    /// `==` or `!=` of two slices.
    SliceCompare,
    /// `nil` declared without a type, printed, or compared with `nil`.
    BareNil,
    /// A value whose type is not the wanted one.
    NotAssignable,
    /// An assignment to something other than a variable, field or element.
    NotPlace,
    /// A selector on something other than a struct pointer, or of a field that the struct does not have.
    NoSuchField,
    /// An index or `len` of something other than a slice, or an index that is not an `int`.
    NotIndexable,
    /// A call of something other than a function, `len`, `close` or `fmt.Println`.
    NotCall,
    /// A wrong number of arguments.
    ArgCount,
    /// A call without result as a value.
    NoResult,
    /// An expression statement that is neither a call nor a receive, or is `len`, `new` or `make`.
    NotStatement,
    /// `go` of something other than a function, or of a function with a result.
    GoTarget,
    /// A send, receive or close on something other than a channel.
    NotChannel,
    /// A condition that is not a `bool`.
    NotBool,
    /// A size that is not an `int`.
    NotInt,
    /// A constant that is not a 64-bit integer.
    ConstRange,
    /// A division or remainder by a constant 0.
    ConstZeroDivisor,
    /// A constant index below 0.
    ConstIndex,
    /// A constant size below 0.
    ConstSize,
    /// A literal with an unknown or repeated field name, or with a wrong number of values.
    LiteralFields,
    /// `fmt.Println` of a pointer, slice or channel.
    PrintType,
    /// A value returned by a function without a result, or none by one with a result.
    ReturnCount,
    /// A function with a result whose body may end without a `return`.
    MissingReturn,
    /// `break` or `continue` outside `for`.
    LoopOutside,
    /// No function `main` without parameters and result.
    NoMain,
}

impl Rule {
    /// This rule, if it is broken.
    pub(crate) fn when(self, is_broken: bool) -> Option<Rule>
        ensures { result ≡ (if is_broken then Some self else None) }
    {
        if is_broken { Some(self) } else { None }
    }

    /// Its number, from 1 on.
    pub fn number(self) -> u8
        ensures { result ≡ typing_rule_number self }
    {
        match self {
            Rule::BadImport => 1,
            Rule::Redeclared => 2,
            Rule::ReservedName => 3,
            Rule::NoSuchName => 4,
            Rule::NotType => 5,
            Rule::StructByValue => 6,
            Rule::PointerBase => 7,
            Rule::NotValue => 8,
            Rule::StringPlace => 9,
            Rule::Mismatch => 10,
            Rule::SliceCompare => 11,
            Rule::BareNil => 12,
            Rule::NotAssignable => 13,
            Rule::NotPlace => 14,
            Rule::NoSuchField => 15,
            Rule::NotIndexable => 16,
            Rule::NotCall => 17,
            Rule::ArgCount => 18,
            Rule::NoResult => 19,
            Rule::NotStatement => 20,
            Rule::GoTarget => 21,
            Rule::NotChannel => 22,
            Rule::NotBool => 23,
            Rule::NotInt => 24,
            Rule::ConstRange => 25,
            Rule::ConstZeroDivisor => 26,
            Rule::ConstIndex => 27,
            Rule::ConstSize => 28,
            Rule::LiteralFields => 29,
            Rule::PrintType => 30,
            Rule::ReturnCount => 31,
            Rule::MissingReturn => 32,
            Rule::LoopOutside => 33,
            Rule::NoMain => 34,
        }
    }

    /// Its name.
    pub fn name(self) -> &'static str
        ensures { result.now ≡ typing_rule_name self }
    {
        match self {
            Rule::BadImport => "BadImport",
            Rule::Redeclared => "Redeclared",
            Rule::ReservedName => "ReservedName",
            Rule::NoSuchName => "NoSuchName",
            Rule::NotType => "NotType",
            Rule::StructByValue => "StructByValue",
            Rule::PointerBase => "PointerBase",
            Rule::NotValue => "NotValue",
            Rule::StringPlace => "StringPlace",
            Rule::Mismatch => "Mismatch",
            Rule::SliceCompare => "SliceCompare",
            Rule::BareNil => "BareNil",
            Rule::NotAssignable => "NotAssignable",
            Rule::NotPlace => "NotPlace",
            Rule::NoSuchField => "NoSuchField",
            Rule::NotIndexable => "NotIndexable",
            Rule::NotCall => "NotCall",
            Rule::ArgCount => "ArgCount",
            Rule::NoResult => "NoResult",
            Rule::NotStatement => "NotStatement",
            Rule::GoTarget => "GoTarget",
            Rule::NotChannel => "NotChannel",
            Rule::NotBool => "NotBool",
            Rule::NotInt => "NotInt",
            Rule::ConstRange => "ConstRange",
            Rule::ConstZeroDivisor => "ConstZeroDivisor",
            Rule::ConstIndex => "ConstIndex",
            Rule::ConstSize => "ConstSize",
            Rule::LiteralFields => "LiteralFields",
            Rule::PrintType => "PrintType",
            Rule::ReturnCount => "ReturnCount",
            Rule::MissingReturn => "MissingReturn",
            Rule::LoopOutside => "LoopOutside",
            Rule::NoMain => "NoMain",
        }
    }
}
