//! The terminals of the grammar: as much of a token as the productions distinguish.

ghost use Rattle.std.specs.Prelude.{◌≡◌};
ghost use Rattle.rgo_lexer.specs.Lexemes.{class, subclass, is_same_terminal};

use rgo_ast::{AssignOp, BinaryOp, StepOp};

/// The terminal of a token (The Go Programming Language Specification, "Tokens").
#[derive(Clone, Copy, Debug, PartialEq, Eq)]
pub enum Terminal {
    /// A word other than a keyword, `new` and `make`.
    Name,
    /// The package's name: the word `main` as the second token of a text. Elsewhere `main` is a `Name`.
    Main,
    /// `new`
    New,
    /// `make`
    Make,
    /// An integer literal with its value.
    Number(u64),
    /// A string literal.
    Text,
    /// A binary operator; some are unary operators too, and `*` begins the type of a pointer.
    Binary(BinaryOp),
    /// `!`
    Bang,
    /// `&`
    Ampersand,
    /// `<-`
    Arrow,
    /// `:=`
    Define,
    /// `=`, `+=` and the like.
    Assign(AssignOp),
    /// `++` or `--`.
    Step(StepOp),
    OpenParen,
    CloseParen,
    OpenBracket,
    CloseBracket,
    OpenBrace,
    CloseBrace,
    Comma,
    Semicolon,
    Colon,
    Dot,
    Package,
    Import,
    /// `type`
    TypeWord,
    Struct,
    Var,
    Func,
    Chan,
    Go,
    If,
    Else,
    For,
    Return,
    Break,
    Continue,
    /// A token of Go that occurs in no production of the subset. It is a token, so it is rejected by the parser and not by the lexer.
    Other,
}

impl Terminal {
    // The number of its form, without what it carries.
    fn class(self) -> u8
        ensures { result ≡ class self }
    {
        match self {
            Terminal::Name => 0,
            Terminal::Main => 1,
            Terminal::New => 2,
            Terminal::Make => 3,
            Terminal::Number(_) => 4,
            Terminal::Text => 5,
            Terminal::Binary(_) => 6,
            Terminal::Bang => 7,
            Terminal::Ampersand => 8,
            Terminal::Arrow => 9,
            Terminal::Define => 10,
            Terminal::Assign(_) => 11,
            Terminal::Step(_) => 12,
            Terminal::OpenParen => 13,
            Terminal::CloseParen => 14,
            Terminal::OpenBracket => 15,
            Terminal::CloseBracket => 16,
            Terminal::OpenBrace => 17,
            Terminal::CloseBrace => 18,
            Terminal::Comma => 19,
            Terminal::Semicolon => 20,
            Terminal::Colon => 21,
            Terminal::Dot => 22,
            Terminal::Package => 23,
            Terminal::Import => 24,
            Terminal::TypeWord => 25,
            Terminal::Struct => 26,
            Terminal::Var => 27,
            Terminal::Func => 28,
            Terminal::Chan => 29,
            Terminal::Go => 30,
            Terminal::If => 31,
            Terminal::Else => 32,
            Terminal::For => 33,
            Terminal::Return => 34,
            Terminal::Break => 35,
            Terminal::Continue => 36,
            Terminal::Other => 37,
        }
    }

    // Distinguishes the operators of a form that occur in other productions than the rest of it: `+`, `-` and `*` are also unary or
    // begin a type, and `=` also begins an initial value.
    fn subclass(self) -> u8
        ensures { result ≡ subclass self }
    {
        match self {
            Terminal::Binary(BinaryOp::Add) | Terminal::Assign(AssignOp::Plain) => 1,
            Terminal::Binary(BinaryOp::Sub) => 2,
            Terminal::Binary(BinaryOp::Mul) => 3,
            _ => 0,
        }
    }

    /// Whether it occurs in the same productions as another: they differ at most in what they carry.
    pub fn stands_as(self, other: Terminal) -> bool
        ensures { result ≡ is_same_terminal other self }
    {
        other.class() == self.class() && other.subclass() == self.subclass()
    }
}
