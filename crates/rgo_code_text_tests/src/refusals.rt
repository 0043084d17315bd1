//! Texts that are not the text of code, with the line that is rejected.

use crate::checks::{is_refused, with_line};
use std::test::Fail;

/// Texts in two pieces, the second from the line on that is refused.
const TEXTS: [(&str, &str); 33] = [
    ("", ""),
    ("", "\n"),
    ("", "rgo code 1"),
    ("", "rgo code 2\n"),
    ("rgo code 1\n", "x"),
    ("rgo code 1\n", "\n"),
    ("", "rgo code 1\r\n"),
    ("rgo code 1\n", "rgo code 1\n"),
    ("rgo code 1\n", "end\n"),
    ("rgo code 1\nglobal x int\n", "struct E\n"),
    ("rgo code 1\n", "struct E \n"),
    ("rgo code 1\n", "struct  E\n"),
    ("rgo code 1\n", "struct for\n"),
    ("rgo code 1\n", "struct 1a\n"),
    ("rgo code 1\n", "struct E E\n"),
    ("rgo code 1\n", "struct E *\n"),
    ("rgo code 1\n", "struct E *chan\n"),
    ("rgo code 1\n", "struct E chan int\n"),
    ("rgo code 1\n", "global x\n"),
    ("rgo code 1\n", "global x int int\n"),
    ("rgo code 1\n", "func f 00 - -\n"),
    ("rgo code 1\n", "func f 4294967296 - -\n"),
    ("rgo code 1\n", "func f 0 - r0\n"),
    ("rgo code 1\n", "func f 0 - G\n"),
    ("rgo code 1\n", "func f 0 - -"),
    ("rgo code 1\nfunc f 0 - -\n", ""),
    ("rgo code 1\nfunc f 0 - -\n", "end\n"),
    ("rgo code 1\nfunc f 0 - -\n", "var int g\n"),
    ("rgo code 1\nfunc f 0 - -\nentry -[]\n", ""),
    ("rgo code 1\nfunc f 0 - -\nentry -[]\n", "var int -\n"),
    (
        "rgo code 1\nfunc f 0 - -\nentry -[]\n",
        "1 @0 +[] return -\n",
    ),
    (
        "rgo code 1\nfunc f 0 - -\nentry -[]\n0 @0 +[] return -\n",
        "0 @0 +[] return -\n",
    ),
    (
        "rgo code 1\nfunc f 0 - -\nentry -[]\nend\n",
        "global x int\n",
    ),
];

/// Line 6 of the text is malformed.
const LINES: [&str; 48] = [
    "",
    "nil",
    "nil v0",
    "nil  v0 -[]",
    "nil v0 -[] ",
    "nil v00 -[]",
    "nil v4294967296 -[]",
    "nil v -[]",
    "nil 0 -[]",
    "int v0 -0 -[]",
    "int v0 +1 -[]",
    "int v0 01 -[]",
    "int v0 9223372036854775808 -[]",
    "int v0 -9223372036854775809 -[]",
    "bool v0 True -[]",
    "copy v0 -[]",
    "copy v0 v1 v2 -[]",
    "bin v0 and v1 v2 -[]",
    "bin v0 add v1 -[]",
    "load v0 v1 -[]",
    "store v0 v1 v2 -[]",
    "new v0 *N -[]",
    "new v0 var -[]",
    "get v0 -[]",
    "nil v0 -[r1,r0]",
    "nil v0 -[r0,r0]",
    "nil v0 -[r0,]",
    "nil v0 -[r0, r1]",
    "nil v0 -[G]",
    "nil v0 +[]",
    "call f() R[] P[] -[]",
    "call - f R[] P[] -[]",
    "call - f(v0,) R[] P[] -[]",
    "call - f() R[] P[G] -[]",
    "call - f() R[] -[]",
    "go f() R[] P[] -[]",
    "print",
    "print  -[]",
    "print v0, -[]",
    "print v0 v1 -[]",
    "print \"a -[]",
    "print \"\\x41\" -[]",
    "print \"\\x0a\" -[]",
    "print \"\\xFF\" -[]",
    "print \"\\t\" -[]",
    "jump v0 -[]",
    "branch v0 0 1 -[] -[]",
    "return",
];

#[test]
fn texts_are_refused(rt: HostRuntime) -> Result<(), Fail> {
    for (before, from) in TEXTS.iter() {
        let text = format!(in rt.alloc(); "{before}{from}")?;
        let line = before.lines().count().saturating_add(1);
        is_refused(&rt, text.as_str(), line)?;
    }
    Ok(())
}

#[test]
fn lines_are_refused(rt: HostRuntime) -> Result<(), Fail> {
    for line in LINES.iter() {
        let text = with_line(rt.alloc(), line)?;
        is_refused(&rt, text.as_str(), 6)?;
    }
    Ok(())
}
