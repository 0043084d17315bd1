//! Instructions by what they do: the compact ones, decoded. A pass that treats all operators alike matches on these seven kinds and
//! not on the variants of `Instr`.

ghost use Rattle.std.specs.Prelude.{◌≡◌, ℕ, List, [], length, get_or, slice_get, Some, None};
ghost use Rattle.rgo_typed.specs.declared.statements.Piece as piece;
ghost use Rattle.rgo_tac.specs.Code.{Do, Call};
ghost use Rattle.rgo_tac.specs.Ops.{kind_of, numbers_of, operation_of};
ghost use Rattle.rgo_tac.specs.Views.{op_of, computing};

use crate::code::{Body, Instr};
use rgo_ast::BinaryOp;
use rgo_typed::{Action, Piece, Row};

/// The variables that an action reads, in order.
#[derive(Clone, Copy)]
pub enum Operands {
    Zero,
    One(u32),
    Two(u32, u32),
    Three(u32, u32, u32),
}

/// What an instruction does, by the numbers of variables, functions and instructions. `from` are the variables that it
/// reads, in order, and `to` is the variable to which its value goes.
#[derive(Clone, Copy)]
pub enum Op<'a> {
    Do {
        to: Option<u32>,
        action: Action,
        from: Operands,
    },
    Call {
        to: Option<u32>,
        function: u32,
        from: &'a [u32],
    },
    Go {
        function: u32,
        from: &'a [u32],
    },
    Print {
        pieces: &'a [Piece],
        from: &'a [u32],
    },
    Jump(u32),
    /// To `target` where the variable is true, else to `other`.
    Branch {
        test: u32,
        target: u32,
        other: u32,
    },
    Return(Option<u32>),
}

/// Instructions by what regions have to do with them: a call and a start pass regions on, a branch and a return release them on a
/// way out, and all others are one kind.
#[derive(Clone, Copy, Debug, PartialEq, Eq)]
pub enum Kind {
    Call,
    Go,
    Branch,
    Return,
    Other,
}

impl Operands {
    /// How many there are.
    pub fn len(self) -> usize
        ensures { result ≡ length (numbers_of self) }
    {
        match self {
            Operands::Zero => 0,
            Operands::One(_) => 1,
            Operands::Two(_, _) => 2,
            Operands::Three(_, _, _) => 3,
        }
    }

    /// The operand of this number, counted from 0.
    pub fn get(self, n: usize) -> Option<u32>
        ensures { result ≡ slice_get (numbers_of self) n }
    {
        match (self, n) {
            (Operands::One(a), 0) => Some(a),
            (Operands::Two(a, _), 0) => Some(a),
            (Operands::Two(_, b), 1) => Some(b),
            (Operands::Three(a, _, _), 0) => Some(a),
            (Operands::Three(_, b, _), 1) => Some(b),
            (Operands::Three(_, _, c), 2) => Some(c),
            _ => None,
        }
    }
}

/// The items of the list of this number; none if there is no such list, which no lowered code names.
#[inline(always)]
pub fn items_at<T>(lists: &[Row<T>], n: u32) -> &[T]
    ensures { result.now ≡ get_or lists.now n [] }
{
    match lists.get(n as usize) {
        Some(list) => list.items(),
        None => &[],
    }
}

/// An action that returns a value.
#[inline(always)]
fn give<'a>(to: u32, action: Action, from: Operands) -> Op<'a>
    ensures { operation_of result ≡ Do (Some to) action (numbers_of from) }
{
    Op::Do {
        to: Some(to),
        action,
        from,
    }
}

/// An action that returns none.
#[inline(always)]
fn affect<'a>(action: Action, from: Operands) -> Op<'a>
    ensures { operation_of result ≡ Do None action (numbers_of from) }
{
    Op::Do {
        to: None,
        action,
        from,
    }
}

/// An operator on two variables.
#[inline(always)]
fn compute<'a>(to: u32, op: BinaryOp, a: u32, b: u32) -> Op<'a>
    ensures { operation_of result ≡ computing to op a b }
{
    give(to, Action::Binary(op), Operands::Two(a, b))
}

/// A call.
#[inline(always)]
fn call(to: Option<u32>, function: u32, from: &[u32]) -> Op<'_>
    ensures { operation_of result ≡ Call to function from.now }
{
    Op::Call { to, function, from }
}

/// What an instruction of this body does. It is inlined, so that a caller takes the parts of the result from registers.
#[inline(always)]
pub fn decode(body: &Body, instr: Instr) -> Op<'_>
    ensures { operation_of result ≡ op_of body.now.lists body.now.pieces instr }
{
    match instr {
        Instr::Int(d, k) => give(d, Action::Int(k), Operands::Zero),
        Instr::Bool(d, b) => give(d, Action::Bool(b), Operands::Zero),
        Instr::Nil(d) => give(d, Action::Nil, Operands::Zero),
        Instr::Copy(d, a) | Instr::CopyInt(d, a) | Instr::CopyBool(d, a) => {
            give(d, Action::Copy, Operands::One(a))
        }
        Instr::Add(d, a, b) => compute(d, BinaryOp::Add, a, b),
        Instr::Sub(d, a, b) => compute(d, BinaryOp::Sub, a, b),
        Instr::Mul(d, a, b) => compute(d, BinaryOp::Mul, a, b),
        Instr::Div(d, a, b) => compute(d, BinaryOp::Div, a, b),
        Instr::Rem(d, a, b) => compute(d, BinaryOp::Rem, a, b),
        Instr::Eq(d, a, b) => compute(d, BinaryOp::Eq, a, b),
        Instr::Ne(d, a, b) => compute(d, BinaryOp::Ne, a, b),
        Instr::Lt(d, a, b) => compute(d, BinaryOp::Lt, a, b),
        Instr::Le(d, a, b) => compute(d, BinaryOp::Le, a, b),
        Instr::Gt(d, a, b) => compute(d, BinaryOp::Gt, a, b),
        Instr::Ge(d, a, b) => compute(d, BinaryOp::Ge, a, b),
        Instr::Neg(d, a) => give(d, Action::Neg, Operands::One(a)),
        Instr::Not(d, a) => give(d, Action::Not, Operands::One(a)),
        Instr::IsNil(d, a) => give(d, Action::IsNil, Operands::One(a)),
        Instr::Len(d, a) => give(d, Action::Len, Operands::One(a)),
        Instr::Load(d, a, k) => give(d, Action::Load(k as usize), Operands::One(a)),
        Instr::Store(a, k, b) => affect(Action::Store(k as usize), Operands::Two(a, b)),
        Instr::At(d, a, i) => give(d, Action::At, Operands::Two(a, i)),
        Instr::Put(a, i, b) => affect(Action::Put, Operands::Three(a, i, b)),
        Instr::New(d, s) => give(d, Action::New(s as usize), Operands::Zero),
        Instr::Slice(d, n) => give(d, Action::Slice, Operands::One(n)),
        Instr::Chan(d, n) => give(d, Action::Chan, Operands::One(n)),
        Instr::Recv(d, c) => give(d, Action::Recv, Operands::One(c)),
        Instr::Send(c, a) => affect(Action::Send, Operands::Two(c, a)),
        Instr::Close(c) => affect(Action::Close, Operands::One(c)),
        Instr::Get(d, g) => give(d, Action::Get(g as usize), Operands::Zero),
        Instr::Set(g, a) => affect(Action::Set(g as usize), Operands::One(a)),
        Instr::Call(d, function, n) => call(Some(d), function, items_at(body.lists.items(), n)),
        Instr::Invoke(function, n) => call(None, function, items_at(body.lists.items(), n)),
        Instr::Go(function, n) => Op::Go {
            function,
            from: items_at(body.lists.items(), n),
        },
        Instr::Print(p, n) => Op::Print {
            pieces: items_at(body.pieces.items(), p),
            from: items_at(body.lists.items(), n),
        },
        Instr::Jump(target) => Op::Jump(target),
        Instr::Branch(test, target, other) => Op::Branch {
            test,
            target,
            other,
        },
        Instr::Return(a) => Op::Return(Some(a)),
        Instr::Leave => Op::Return(None),
    }
}

/// The kind of an instruction. It does not depend on the lists, so it is known without the body.
pub(crate) fn instr_kind(instr: Instr) -> Kind
    ensures { (lists : List (List ℕ)) (pieces : List (List piece.Piece)) → result ≡ kind_of (op_of lists pieces instr) }
{
    match instr {
        Instr::Call(_, _, _) | Instr::Invoke(_, _) => Kind::Call,
        Instr::Go(_, _) => Kind::Go,
        Instr::Branch(_, _, _) => Kind::Branch,
        Instr::Return(_) | Instr::Leave => Kind::Return,
        _ => Kind::Other,
    }
}
