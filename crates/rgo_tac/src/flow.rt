//! What instructions read and write, and where they lead.

ghost use Rattle.std.specs.Prelude.{◌≡◌, ◌<◌, ◌^◌, length, slice_get};
ghost use Rattle.rgo_tac.specs.Flow as spec;
ghost use Rattle.rgo_tac.specs.Flow.{variables_of, targets_of};
ghost use Rattle.rgo_tac.specs.Ops.{operation_of};

use crate::ops::{Op, Operands};

/// The variables that an instruction reads, in order. Two forms, so that neither needs an allocation: those of an action are in the
/// instruction, those of a call are borrowed from its list.
#[derive(Clone, Copy)]
pub enum ReadVariables<'a> {
    Few(Operands),
    Many(&'a [u32]),
}

/// The instructions to which an instruction leads.
#[derive(Clone, Copy, Debug, PartialEq, Eq)]
pub enum Targets {
    Nowhere,
    One(usize),
    Either(usize, usize),
}

impl<'a> ReadVariables<'a> {
    /// How many there are.
    pub fn len(self) -> usize
        ensures { result ≡ length (variables_of self.entry) }
    {
        match self {
            ReadVariables::Few(variables) => variables.len(),
            ReadVariables::Many(variables) => variables.len(),
        }
    }

    /// The variable of this number, counted from 0.
    pub fn get(self, n: usize) -> Option<u32>
        ensures { result ≡ slice_get (variables_of self.entry) n }
    {
        match self {
            ReadVariables::Few(variables) => variables.get(n),
            ReadVariables::Many(variables) => variables.get(n).copied(),
        }
    }
}

impl Targets {
    /// How many there are.
    pub fn len(self) -> usize
        ensures { result ≡ length (targets_of self) }
    {
        match self {
            Targets::Nowhere => 0,
            Targets::One(_) => 1,
            Targets::Either(_, _) => 2,
        }
    }

    /// The instruction of this number, counted from 0.
    pub fn get(self, n: usize) -> Option<usize>
        ensures { result ≡ slice_get (targets_of self) n }
    {
        match (self, n) {
            (Targets::One(target), 0) => Some(target),
            (Targets::Either(target, _), 0) => Some(target),
            (Targets::Either(_, other), 1) => Some(other),
            _ => None,
        }
    }
}

/// The variables that an instruction reads.
pub fn reads<'a>(op: Op<'a>) -> ReadVariables<'a>
    ensures { variables_of result ≡ spec.reads (operation_of op.entry) }
{
    match op {
        Op::Do { from, .. } => ReadVariables::Few(from),
        Op::Call { from, .. } | Op::Go { from, .. } | Op::Print { from, .. } => ReadVariables::Many(
            from,
        ),
        Op::Branch { test, .. } => ReadVariables::Few(Operands::One(test)),
        Op::Return(Some(value)) => ReadVariables::Few(Operands::One(value)),
        Op::Return(None) | Op::Jump(_) => ReadVariables::Few(Operands::Zero),
    }
}

/// The variable that an instruction writes.
pub fn writes(op: Op<'_>) -> Option<u32>
    ensures { result ≡ spec.writes (operation_of op.entry) }
{
    match op {
        Op::Do { to, .. } | Op::Call { to, .. } => to,
        Op::Go { .. } | Op::Print { .. } | Op::Jump(_) | Op::Branch { .. } | Op::Return(_) => None,
    }
}

/// Where the instruction of this number leads.
pub fn leads_to(op: Op<'_>, at: usize) -> Targets
    requires { at < 2 ^ 63 }
    ensures { targets_of result ≡ spec.leads_to (operation_of op.entry) at }
{
    match op {
        Op::Jump(target) => Targets::One(target as usize),
        Op::Branch { target, other, .. } => Targets::Either(target as usize, other as usize),
        Op::Return(_) => Targets::Nowhere,
        Op::Do { .. } | Op::Call { .. } | Op::Go { .. } | Op::Print { .. } => Targets::One(at + 1),
    }
}
