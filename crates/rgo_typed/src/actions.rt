//! What a program does to values that have been computed. The same actions are in typed trees, in three-address code and in code with
//! regions, so that what an action does is defined once (rgo_memory).

use rgo_ast::BinaryOp;

/// One operation. It takes its operands in order, and returns one value or none. It is one step: no other goroutine acts within it.
#[derive(Clone, Copy, Debug, PartialEq, Eq)]
pub enum Action {
    /// A constant. No operand.
    Int(i64),
    /// `true` or `false`. No operand.
    Bool(bool),
    /// `nil`. No operand.
    Nil,
    /// Its operand.
    Copy,
    /// An operator other than `&&` and `||`, which need not evaluate both operands.
    Binary(BinaryOp),
    /// `-x`.
    Neg,
    /// `!x`.
    Not,
    /// `x == nil`.
    IsNil,
    /// `len(x)`.
    Len,
    /// The field of this number of the operand's struct.
    Load(usize),
    /// The field of this number of the first operand's struct becomes the second operand.
    Store(usize),
    /// `s[i]`.
    At,
    /// `s[i] = x`.
    Put,
    /// A new object of the struct of this number.
    New(usize),
    /// A new slice with this many elements.
    Slice,
    /// A new channel with room for this many values.
    Chan,
    /// `<-c`.
    Recv,
    /// `c <- x`.
    Send,
    /// `close(c)`.
    Close,
    /// The package variable of this number.
    Get(usize),
    /// The package variable of this number becomes the operand.
    Set(usize),
}

/// `&&` or `||`. They are not actions: their right operand is evaluated only if it decides, so code branches on the left one.
#[derive(Clone, Copy, Debug, PartialEq, Eq)]
pub enum Logical {
    And,
    Or,
}
