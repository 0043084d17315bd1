//! Three-address code as it is kept: flat instructions, which an interpreter reads fast. Clauses see the seven kinds of operation of
//! `specs/Code.antt`; `ops.rt` decodes. The variables of a function, and its instructions, are numbered from 0.

use rgo_ast::Place;
use rgo_typed::{Piece, Row};

/// An instruction, by the numbers of its variables: first the one that is given a value, then the operands. It takes 16
/// bytes, with a variant for each operator: one load and one jump per instruction, where operators as operands and lists inside
/// took twice the time. What does not fit is in the `Body`, by number.
#[derive(Clone, Copy)]
pub enum Instr {
    Int(u32, i64),
    Bool(u32, bool),
    Nil(u32),
    Copy(u32, u32),
    /// As `Copy`, for two integers: an interpreter can copy the parts of the value. It means what `Copy` means.
    CopyInt(u32, u32),
    /// As `Copy`, for two truth values.
    CopyBool(u32, u32),
    Add(u32, u32, u32),
    Sub(u32, u32, u32),
    Mul(u32, u32, u32),
    Div(u32, u32, u32),
    Rem(u32, u32, u32),
    Eq(u32, u32, u32),
    Ne(u32, u32, u32),
    Lt(u32, u32, u32),
    Le(u32, u32, u32),
    Gt(u32, u32, u32),
    Ge(u32, u32, u32),
    Neg(u32, u32),
    Not(u32, u32),
    IsNil(u32, u32),
    Len(u32, u32),
    /// The last number is that of the field.
    Load(u32, u32, u32),
    /// The number in the middle is that of the field.
    Store(u32, u32, u32),
    At(u32, u32, u32),
    Put(u32, u32, u32),
    /// A new object of the struct of the last number.
    New(u32, u32),
    Slice(u32, u32),
    Chan(u32, u32),
    Recv(u32, u32),
    Send(u32, u32),
    Close(u32),
    /// The package variable of the last number.
    Get(u32, u32),
    /// The package variable of the first number.
    Set(u32, u32),
    /// A result, the number of the function, and the number of the list of its arguments.
    Call(u32, u32, u32),
    /// The same, without a result.
    Invoke(u32, u32),
    /// The number of the function that is started, and of the list of its arguments.
    Go(u32, u32),
    /// The number of the pieces, and of the list of the variables that are printed among them.
    Print(u32, u32),
    Jump(u32),
    /// To the second number where the variable is true, else to the third.
    Branch(u32, u32, u32),
    Return(u32),
    /// A return without a value.
    Leave,
}

/// The instructions of a function, and what they refer to.
#[derive(Drop)]
pub struct Body {
    pub instrs: Row<Instr>,
    /// The place of each instruction. Apart from the instructions, since a loop that executes them does not read it.
    pub places: Row<Place>,
    /// The variables that calls, starts and prints take.
    pub lists: Row<Row<u32>>,
    /// The pieces of prints.
    pub pieces: Row<Row<Piece>>,
}
