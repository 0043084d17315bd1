//! Three-address code as text, as docs/CODE.md writes it.

use rgo_ast::BinaryOp;
use rgo_tac::{Op, Operands, Tac, TacFn};
use rgo_typed::{Action, Piece};
use std::alloc::Global;
use std::test::Fail;

fn operator(op: BinaryOp) -> &'static str {
    match op {
        BinaryOp::Mul => "mul",
        BinaryOp::Div => "div",
        BinaryOp::Rem => "rem",
        BinaryOp::Add => "add",
        BinaryOp::Sub => "sub",
        BinaryOp::Eq => "eq",
        BinaryOp::Ne => "ne",
        BinaryOp::Lt => "lt",
        BinaryOp::Le => "le",
        BinaryOp::Gt => "gt",
        BinaryOp::Ge => "ge",
        BinaryOp::And | BinaryOp::Or => "?",
    }
}

/// The name of an action without a number of its own.
fn name(action: Action) -> &'static str {
    match action {
        Action::Nil => "nil",
        Action::Copy => "copy",
        Action::Neg => "neg",
        Action::Not => "not",
        Action::IsNil => "isnil",
        Action::Len => "len",
        Action::At => "at",
        Action::Put => "put",
        Action::Slice => "slice",
        Action::Chan => "chan",
        Action::Recv => "recv",
        Action::Send => "send",
        Action::Close => "close",
        _ => "?",
    }
}

/// The number of a function, a struct, a field, a package variable or an instruction.
fn push_number(alloc: Global, line: &mut String, number: usize) -> Result<(), Fail> {
    let word = format!(in alloc; " {number}")?;
    line.push_str(word.as_str())?;
    Ok(())
}

fn push_int(alloc: Global, line: &mut String, value: i64) -> Result<(), Fail> {
    let word = format!(in alloc; " {value}")?;
    line.push_str(word.as_str())?;
    Ok(())
}

fn push_variable(alloc: Global, line: &mut String, variable: u32) -> Result<(), Fail> {
    let word = format!(in alloc; " v{variable}")?;
    line.push_str(word.as_str())?;
    Ok(())
}

fn push_target(alloc: Global, line: &mut String, to: Option<u32>) -> Result<(), Fail> {
    match to {
        Some(variable) => push_variable(alloc, line, variable),
        None => Ok(()),
    }
}

fn push_operand(alloc: Global, line: &mut String, from: Operands, n: usize) -> Result<(), Fail> {
    push_target(alloc, line, from.get(n))
}

fn push_operands(alloc: Global, line: &mut String, from: Operands) -> Result<(), Fail> {
    for n in 0..from.len() {
        push_operand(alloc, line, from, n)?;
    }
    Ok(())
}

fn push_variables(alloc: Global, line: &mut String, from: &[u32]) -> Result<(), Fail> {
    for variable in from {
        push_variable(alloc, line, *variable)?;
    }
    Ok(())
}

/// An action whose number follows its name: of a field or a package variable that is written.
fn push_write(
    alloc: Global,
    line: &mut String,
    action: Action,
    from: Operands,
) -> Result<(), Fail> {
    match action {
        Action::Store(field) => {
            line.push_str("store")?;
            push_operand(alloc, line, from, 0)?;
            push_number(alloc, line, field)?;
            push_operand(alloc, line, from, 1)
        }
        Action::Set(variable) => {
            line.push_str("set")?;
            push_number(alloc, line, variable)?;
            push_operands(alloc, line, from)
        }
        _ => {
            line.push_str(name(action))?;
            push_operands(alloc, line, from)
        }
    }
}

/// The name of an action that has a result, and the number at its end.
fn read(action: Action) -> (&'static str, Option<usize>) {
    match action {
        Action::Load(field) => ("load", Some(field)),
        Action::New(number) => ("new", Some(number)),
        Action::Get(variable) => ("get", Some(variable)),
        other => (name(other), None),
    }
}

fn push_read(
    alloc: Global,
    line: &mut String,
    to: Option<u32>,
    action: Action,
    from: Operands,
) -> Result<(), Fail> {
    let (word, number) = read(action);
    line.push_str(word)?;
    push_target(alloc, line, to)?;
    push_operands(alloc, line, from)?;
    match number {
        Some(number) => push_number(alloc, line, number),
        None => Ok(()),
    }
}

fn push_action(
    alloc: Global,
    line: &mut String,
    to: Option<u32>,
    action: Action,
    from: Operands,
) -> Result<(), Fail> {
    match action {
        Action::Int(value) => {
            line.push_str("int")?;
            push_target(alloc, line, to)?;
            push_int(alloc, line, value)
        }
        Action::Bool(truth) => {
            line.push_str("bool")?;
            push_target(alloc, line, to)?;
            line.push_str(if truth { " true" } else { " false" })?;
            Ok(())
        }
        Action::Binary(op) => {
            line.push_str("bin")?;
            push_target(alloc, line, to)?;
            line.push_str(" ")?;
            line.push_str(operator(op))?;
            push_operands(alloc, line, from)
        }
        _ if to.is_none() => push_write(alloc, line, action, from),
        _ => push_read(alloc, line, to, action, from),
    }
}

fn push_print(
    alloc: Global,
    line: &mut String,
    pieces: &[Piece],
    from: &[u32],
) -> Result<(), Fail> {
    line.push_str("print")?;
    for piece in pieces {
        if let Piece::Text(text) = piece {
            line.push_str(" ")?;
            line.push_str(str::from_utf8(text.bytes()).unwrap_or("?"))?;
        }
    }
    push_variables(alloc, line, from)
}

fn push_op(alloc: Global, line: &mut String, op: Op<'_>) -> Result<(), Fail> {
    match op {
        Op::Do { to, action, from } => push_action(alloc, line, to, action, from),
        Op::Call { to, function, from } => {
            line.push_str("call")?;
            push_target(alloc, line, to)?;
            push_number(alloc, line, function as usize)?;
            push_variables(alloc, line, from)
        }
        Op::Go { function, from } => {
            line.push_str("go")?;
            push_number(alloc, line, function as usize)?;
            push_variables(alloc, line, from)
        }
        Op::Print { pieces, from } => push_print(alloc, line, pieces, from),
        Op::Jump(target) => {
            line.push_str("jump")?;
            push_number(alloc, line, target as usize)
        }
        Op::Branch {
            test,
            target,
            other,
        } => {
            line.push_str("branch")?;
            push_variable(alloc, line, test)?;
            push_number(alloc, line, target as usize)?;
            push_number(alloc, line, other as usize)
        }
        Op::Return(value) => {
            line.push_str("return")?;
            push_target(alloc, line, value)
        }
    }
}

/// The instructions of a function, one line each, with their places if asked for.
fn push_function(
    alloc: Global,
    text: &mut String,
    function: &TacFn,
    places: bool,
) -> Result<(), Fail> {
    for n in 0..function.len() {
        if places {
            let place = function.place(n);
            let word = format!(in alloc; "@{place} ")?;
            text.push_str(word.as_str())?;
        }
        if let Some(op) = function.op(n) {
            push_op(alloc, text, op)?;
        }
        text.push_str("\n")?;
    }
    Ok(())
}

/// The instructions of all functions, one line each, and an empty line after each function.
pub(crate) fn listing(alloc: Global, code: &Tac, places: bool) -> Result<String, Fail> {
    let mut text = String::new(alloc);
    for function in code.functions() {
        push_function(alloc, &mut text, function, places)?;
        text.push_str("\n")?;
    }
    Ok(text)
}
