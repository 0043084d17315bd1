//! Texts with the terminals of their lexemes.

use rgo_ast::{AssignOp, BinaryOp, StepOp};
use rgo_lexer::Terminal::{self, *};

pub(super) static WORDS: [(&[u8], &[Terminal]); 4] = [
    (
        b"import package type struct var func chan go",
        &[Import, Package, TypeWord, Struct, Var, Func, Chan, Go],
    ),
    (
        b"if else for return break continue (",
        &[If, Else, For, Return, Break, Continue, OpenParen],
    ),
    (b"x new y_1 make", &[Name, New, Name, Make, Semicolon]),
    (b"_ news Make nil", &[Name, Name, Name, Name, Semicolon]),
];

/// `main` is the package's name as the second token alone.
pub(super) static PACKAGE_NAMES: [(&[u8], &[Terminal]); 9] = [
    (b"", &[]),
    (b"package main;", &[Package, Main, Semicolon]),
    (b"package maine;", &[Package, Name, Semicolon]),
    (b"main", &[Name, Semicolon]),
    (b"main main main", &[Name, Main, Name, Semicolon]),
    (b"func x main", &[Func, Name, Name, Semicolon]),
    (
        b"func main() {",
        &[Func, Main, OpenParen, CloseParen, OpenBrace],
    ),
    (b"x\nmain", &[Name, Semicolon, Name, Semicolon]),
    (b"import \"main\"", &[Import, Text, Semicolon]),
];

/// Numbers with their values, and strings.
pub(super) static LITERALS: [(&[u8], &[Terminal]); 3] = [
    (
        b"0 7 0x1F 1_000",
        &[Number(0), Number(7), Number(31), Number(1000), Semicolon],
    ),
    (
        b"9223372036854775807;",
        &[Number(9_223_372_036_854_775_807), Semicolon],
    ),
    (b"\"\" \"new\" \"1\"", &[Text, Text, Text, Semicolon]),
];

pub(super) static OPERATORS: [(&[u8], &[Terminal]); 7] = [
    (
        b"; , . : ( ) [ ] { } :=",
        &[
            Semicolon,
            Comma,
            Dot,
            Colon,
            OpenParen,
            CloseParen,
            OpenBracket,
            CloseBracket,
            OpenBrace,
            CloseBrace,
            Define,
        ],
    ),
    (b"<- & ! (", &[Arrow, Ampersand, Bang, OpenParen]),
    (
        b"= += -= *= /= %=",
        &[
            Assign(AssignOp::Plain),
            Assign(AssignOp::Add),
            Assign(AssignOp::Sub),
            Assign(AssignOp::Mul),
            Assign(AssignOp::Div),
            Assign(AssignOp::Rem),
        ],
    ),
    (
        b"++ --",
        &[Step(StepOp::Increment), Step(StepOp::Decrement), Semicolon],
    ),
    (
        b"* / % + - && ||",
        &[
            Binary(BinaryOp::Mul),
            Binary(BinaryOp::Div),
            Binary(BinaryOp::Rem),
            Binary(BinaryOp::Add),
            Binary(BinaryOp::Sub),
            Binary(BinaryOp::And),
            Binary(BinaryOp::Or),
        ],
    ),
    (
        b"== != < <= > >=",
        &[
            Binary(BinaryOp::Eq),
            Binary(BinaryOp::Ne),
            Binary(BinaryOp::Lt),
            Binary(BinaryOp::Le),
            Binary(BinaryOp::Gt),
            Binary(BinaryOp::Ge),
        ],
    ),
    (
        b"x // y\n}\n\n}",
        &[
            Name, Semicolon, CloseBrace, Semicolon, CloseBrace, Semicolon,
        ],
    ),
];

/// Keywords and operators that occur in no production.
pub(super) static OTHERS: [(&[u8], &[Terminal]); 3] = [
    (
        b"case const default defer fallthrough goto (",
        &[Other, Other, Other, Other, Other, Other, OpenParen],
    ),
    (
        b"interface map range select switch",
        &[Other, Other, Other, Other, Other],
    ),
    (
        b"| ^ << >> &^ ~ ... |= ^= &= <<= >>= &^=",
        &[
            Other, Other, Other, Other, Other, Other, Other, Other, Other, Other, Other, Other,
            Other,
        ],
    ),
];
