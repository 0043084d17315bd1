//! Labels are replaced by the instructions to which they lead. This waits until the function is complete, since a jump may lead
//! forward.

ghost use Rattle.std.specs.Prelude.{◌≡◌, IfOk, map};
ghost use Rattle.rgo_lower.specs.Emitted.{leads_by, resolved_instr};

use crate::builder::Line;
use rgo_ast::Place;
use rgo_tac::Instr;
use rgo_typed::Row;
use std::alloc::{AllocError, Global};

/// Where a label leads; 0 for one that was not placed, which no jump names when the function is finished.
fn target_at(labels: &[Option<u32>], label: u32) -> u32
    ensures { result ≡ leads_by labels.now label }
{
    match labels.get(label as usize) {
        Some(Some(target)) => *target,
        _ => 0,
    }
}

/// The instruction with its targets in place of its labels.
fn resolve(labels: &[Option<u32>], instr: Instr) -> Instr
    ensures { result ≡ resolved_instr (leads_by labels.now) instr }
{
    match instr {
        Instr::Jump(target) => Instr::Jump(target_at(labels, target)),
        Instr::Branch(test, inside, other) => {
            Instr::Branch(test, target_at(labels, inside), target_at(labels, other))
        }
        Instr::Int(_, _)
        | Instr::Bool(_, _)
        | Instr::Nil(_)
        | Instr::Copy(_, _)
        | Instr::CopyInt(_, _)
        | Instr::CopyBool(_, _)
        | Instr::Add(_, _, _)
        | Instr::Sub(_, _, _)
        | Instr::Mul(_, _, _)
        | Instr::Div(_, _, _)
        | Instr::Rem(_, _, _)
        | Instr::Eq(_, _, _)
        | Instr::Ne(_, _, _)
        | Instr::Lt(_, _, _)
        | Instr::Le(_, _, _)
        | Instr::Gt(_, _, _)
        | Instr::Ge(_, _, _)
        | Instr::Neg(_, _)
        | Instr::Not(_, _)
        | Instr::IsNil(_, _)
        | Instr::Len(_, _)
        | Instr::Load(_, _, _)
        | Instr::Store(_, _, _)
        | Instr::At(_, _, _)
        | Instr::Put(_, _, _)
        | Instr::New(_, _)
        | Instr::Slice(_, _)
        | Instr::Chan(_, _)
        | Instr::Recv(_, _)
        | Instr::Send(_, _)
        | Instr::Close(_)
        | Instr::Get(_, _)
        | Instr::Set(_, _)
        | Instr::Call(_, _, _)
        | Instr::Invoke(_, _)
        | Instr::Go(_, _)
        | Instr::Print(_, _)
        | Instr::Return(_)
        | Instr::Leave => instr,
    }
}

/// The instructions of these lines.
pub fn instrs_of(
    alloc: Global,
    lines: &[Line],
    labels: &[Option<u32>],
) -> Result<Row<Instr>, AllocError>
    ensures { IfOk result (λ instrs. instrs ≡ map (λ l. resolved_instr (leads_by labels.now) l.instr) lines.now) }
{
    let mut instrs = Vec::new(alloc);
    for line in lines {
        instrs.push(resolve(labels, line.instr))?;
    }
    Ok(Row::new(instrs))
}

/// The places of these lines.
pub fn places_of(alloc: Global, lines: &[Line]) -> Result<Row<Place>, AllocError>
    ensures { IfOk result (λ places. places ≡ map (λ l. l.place) lines.now) }
{
    let mut places = Vec::new(alloc);
    for line in lines {
        places.push(line.place)?;
    }
    Ok(Row::new(places))
}
