//! Bodies of `main` that nest: what is before, what is repeated, what is inside, and what closes each
//! repetition, with the greatest number of repetitions that passes and the lexeme at which one more is
//! refused. These lexemes are counted by hand: no mark can be at one of them, since the repetitions are all the same.

pub(super) type Row = (
    &'static str,
    &'static str,
    &'static str,
    &'static str,
    u8,
    usize,
);

pub(super) static ROWS: [Row; 17] = [
    ("x = ", "(", "1", ")", 198, 208),
    ("", "{", "", "}", 198, 206),
    ("x = ", "f(", "1", ")", 198, 407),
    ("x = f", "()", "", "", 198, 407),
    ("x = y", ".z", "", "", 198, 407),
    ("x = ", "s[", "1", "]", 198, 407),
    ("x = ", "!", "b", "", 198, 208),
    ("x = ", "<-", "c", "", 198, 208),
    ("x = 1", " + 1", "", "", 198, 407),
    ("x = b", " && b", "", "", 198, 407),
    ("x = ", "f(&N{", "1", "})", 66, 341),
    ("", "if x { ", "", "}", 198, 604),
    ("", "for { ", "", "}", 198, 405),
    ("if x { }", " else if x { }", "", "", 197, 1000),
    ("var x ", "chan ", "int", "", 198, 208),
    ("var x ", "[]", "int", "", 198, 406),
    ("x = ", "make([]int, ", "1", ")", 197, 1194),
];
