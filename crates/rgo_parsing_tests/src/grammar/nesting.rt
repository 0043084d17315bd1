//! Texts with the first of their lexemes that nests too deep.

/// Each lexeme nests deeper by one.
const ONE_DEEPER_EACH: [Option<usize>; 6] = [Some(0), Some(1), Some(2), Some(3), Some(4), Some(5)];

/// Texts, each with its first lexeme that nests deeper than 0, 1, 2, 3, 4 and 5. A comment says how
/// deep each lexeme nests.
pub(super) static TEXTS: [(&str, [Option<usize>; 6]); 24] = [
    ("", [None; 6]),
    ("x = y ; z ++", [None; 6]),
    ("((((((", ONE_DEEPER_EACH), // 1 2 3 4 5 6
    ("([{{[(", ONE_DEEPER_EACH),
    ("+(.{else chan", ONE_DEEPER_EACH),
    ("()()()", [Some(0), Some(2), Some(4), None, None, None]), // 1 1 2 2 3 3
    ("[][][]", [Some(0), Some(2), Some(4), None, None, None]),
    ("{}{}{}", [Some(0), None, None, None, None, None]), // 1 0 1 0 1 0
    ("(++)+", [Some(0), Some(3), None, None, None, None]), // 1 1 1 2
    ("(+ +)+", [Some(0), Some(1), Some(2), None, None, None]), // 1 2 3 1 2
    ("{- -}-", [Some(0), Some(1), Some(2), None, None, None]), // 1 2 3 0 1
    ("+ -,* / %", [Some(0), Some(1), Some(5), None, None, None]), // 1 2 0 1 2 3
    ("+ -;* / %", [Some(0), Some(1), Some(5), None, None, None]),
    ("(+,+,+", [Some(0), Some(1), None, None, None, None]), // 1 2 1 2 1 2
    ("+(+,+ +", [Some(0), Some(1), Some(2), Some(5), None, None]), // 1 2 3 2 3 4
    ("+[x;+ +", [Some(0), Some(1), Some(4), Some(5), None, None]), // 1 2 2 2 3 4
    ("else;else", [Some(0), Some(2), None, None, None, None]), // 1 1 2
    ("else,else", [Some(0), Some(2), None, None, None, None]),
    ("+ else;+ +", [Some(0), Some(1), Some(4), None, None, None]), // 1 2 1 2 3
    ("else{};else", [Some(0), Some(1), None, None, None, None]), // 1 2 1 0 1
    ("else{}\nelse", [Some(0), Some(1), None, None, None, None]),
    ("else{},else", [Some(0), Some(1), None, None, None, None]), // 1 2 1 1 2
    (
        "else{}else{};+ else",
        [Some(0), Some(1), Some(4), None, None, None],
    ), // 1 2 1 2 3 2 0 1 2
    (
        "else(else{};+",
        [Some(0), Some(1), Some(2), Some(3), None, None],
    ), // 1 2 3 4 3 2 3
];

/// Each of the 18 joints but those that close a bracket.
pub(super) const JOINTS: &str = "+ - * / % && || ! == != < <= > >= <- & . chan";

/// Lexemes that are neither a joint nor a bracket nor `else`.
pub(super) const NO_JOINTS: &str =
    "x new make 1 \"a\" , ; : := = += -= *= /= %= ++ -- package main \
    import type struct var func go if for return break continue map | ^ << >> ~";
