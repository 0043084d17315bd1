//! Nodes with lists of values or with types around `int`, in letters, and what they break.

use rgo_typing_rules::Rule::{self, *};

/// Literals by values: the fields, the values.
pub(super) static LITERALS: [(&str, &str, Option<Rule>); 10] = [
    ("", "", None),
    ("ib", "", None),
    ("ib", "1b", None),
    ("psc", "nnn", None),
    ("us", "ss", Some(NotAssignable)),
    ("ib", "ii", Some(NotAssignable)),
    ("ii", "b", Some(NotAssignable)),
    ("ii", "1", Some(LiteralFields)),
    ("i", "11", Some(LiteralFields)),
    ("", "1", Some(LiteralFields)),
];

/// Literals by fields: the elements' fields, whether a field occurs twice, the values.
pub(super) static KEYED: [(&str, bool, &str, Option<Rule>); 6] = [
    ("", false, "", None),
    ("ib", false, "1b", None),
    ("ib", false, "bb", Some(NotAssignable)),
    ("?b", true, "b1", Some(NotAssignable)),
    ("i?", false, "1b", Some(LiteralFields)),
    ("ii", true, "11", Some(LiteralFields)),
];

/// Calls: the parameters, whether there is a result, the arguments; alone, as a value, with `go`.
pub(super) static CALLS: [(&str, bool, &str, [Option<Rule>; 3]); 11] = [
    ("", false, "", [None, Some(NoResult), None]),
    ("", true, "", [None, None, Some(GoTarget)]),
    (
        "",
        true,
        "1",
        [Some(ArgCount), Some(ArgCount), Some(ArgCount)],
    ),
    ("ib", false, "1b", [None, Some(NoResult), None]),
    (
        "ib",
        false,
        "1i",
        [
            Some(NotAssignable),
            Some(NotAssignable),
            Some(NotAssignable),
        ],
    ),
    (
        "ib",
        false,
        "1",
        [Some(ArgCount), Some(ArgCount), Some(ArgCount)],
    ),
    (
        "ib",
        true,
        "b",
        [
            Some(NotAssignable),
            Some(NotAssignable),
            Some(NotAssignable),
        ],
    ),
    (
        "ib",
        false,
        "1b1",
        [Some(ArgCount), Some(ArgCount), Some(ArgCount)],
    ),
    ("pp", false, "nn", [None, Some(NoResult), None]),
    (
        "i",
        true,
        "n",
        [
            Some(NotAssignable),
            Some(NotAssignable),
            Some(NotAssignable),
        ],
    ),
    ("bp", true, "bp", [None, None, Some(GoTarget)]),
];

/// Arguments: of `len`; of `close` alone and as a value; of `fmt.Println` alone and as a value.
pub(super) static BUILTINS: [(&str, [Option<Rule>; 5]); 10] = [
    (
        "",
        [
            Some(ArgCount),
            Some(ArgCount),
            Some(ArgCount),
            None,
            Some(NoResult),
        ],
    ),
    (
        "s",
        [
            None,
            Some(NotChannel),
            Some(NoResult),
            Some(PrintType),
            Some(NoResult),
        ],
    ),
    (
        "c",
        [
            Some(NotIndexable),
            None,
            Some(NoResult),
            Some(PrintType),
            Some(NoResult),
        ],
    ),
    (
        "1",
        [
            Some(NotIndexable),
            Some(NotChannel),
            Some(NoResult),
            None,
            Some(NoResult),
        ],
    ),
    (
        "ss",
        [
            Some(ArgCount),
            Some(ArgCount),
            Some(ArgCount),
            Some(PrintType),
            Some(NoResult),
        ],
    ),
    (
        "cc",
        [
            Some(NotIndexable),
            Some(ArgCount),
            Some(ArgCount),
            Some(PrintType),
            Some(NoResult),
        ],
    ),
    (
        "bt",
        [
            Some(NotIndexable),
            Some(ArgCount),
            Some(ArgCount),
            None,
            Some(NoResult),
        ],
    ),
    (
        "bp",
        [
            Some(NotIndexable),
            Some(ArgCount),
            Some(ArgCount),
            Some(PrintType),
            Some(NoResult),
        ],
    ),
    (
        "1n",
        [
            Some(NotIndexable),
            Some(ArgCount),
            Some(ArgCount),
            Some(BareNil),
            Some(BareNil),
        ],
    ),
    (
        "pn",
        [
            Some(NotIndexable),
            Some(ArgCount),
            Some(ArgCount),
            Some(BareNil),
            Some(BareNil),
        ],
    ),
];

/// Pairs: compared; the first at the second as index; the second sent on the first; the second
/// assigned to a variable of the first.
pub(super) static PAIRS: [(&str, [Option<Rule>; 4]); 12] = [
    (
        "ss",
        [
            Some(SliceCompare),
            Some(NotIndexable),
            Some(NotChannel),
            None,
        ],
    ),
    (
        "su",
        [
            Some(SliceCompare),
            Some(NotIndexable),
            Some(NotChannel),
            Some(NotAssignable),
        ],
    ),
    ("sn", [None, Some(NotIndexable), Some(NotChannel), None]),
    (
        "sc",
        [
            Some(Mismatch),
            Some(NotIndexable),
            Some(NotChannel),
            Some(NotAssignable),
        ],
    ),
    (
        "si",
        [Some(Mismatch), None, Some(NotChannel), Some(NotAssignable)],
    ),
    (
        "s0",
        [Some(Mismatch), None, Some(NotChannel), Some(NotAssignable)],
    ),
    (
        "s-",
        [
            Some(Mismatch),
            Some(ConstIndex),
            Some(NotChannel),
            Some(NotAssignable),
        ],
    ),
    ("cc", [None, Some(NotIndexable), Some(NotAssignable), None]),
    ("cn", [None, Some(NotIndexable), Some(NotAssignable), None]),
    (
        "cs",
        [
            Some(Mismatch),
            Some(NotIndexable),
            Some(NotAssignable),
            Some(NotAssignable),
        ],
    ),
    (
        "c1",
        [
            Some(Mismatch),
            Some(NotIndexable),
            None,
            Some(NotAssignable),
        ],
    ),
    ("i-", [None, Some(NotIndexable), Some(NotChannel), None]),
];
