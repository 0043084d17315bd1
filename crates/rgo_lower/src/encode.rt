//! The compact instructions of actions.

ghost use Rattle.std.specs.Prelude.{◌≡◌, [], ◌∷◌, length, true};
ghost use Rattle.rgo_tac.specs.Code.{Do};
ghost use Rattle.rgo_tac.specs.Views.{computing};
ghost use Rattle.rgo_typed.specs.declared.actions.Action.TheVariants.{Copy};
ghost use Rattle.rgo_lower.specs.Emitted.{InstrEncodes, acts};
ghost use Rattle.rgo_lower.specs.Lowered as spec;
ghost use Rattle.rgo_lower.specs.Shapes.{is_strict, returns_value, returns_nothing};

use rgo_ast::BinaryOp;
use rgo_tac::Instr;
use rgo_typed::{Action, Base, Type};

/// A copy between variables of a type. The kinds mean the same; those for integers and truth values are faster.
pub fn copy_instr(ty: &Type, to: u32, from: u32) -> Instr
    ensures { InstrEncodes result (Do (Some to) Copy (from ∷ [])) }
{
    if !ty.layers.items().is_empty() {
        return Instr::Copy(to, from);
    }
    match ty.base {
        Base::Int => Instr::CopyInt(to, from),
        Base::Bool => Instr::CopyBool(to, from),
        Base::Pointer(_) => Instr::Copy(to, from),
    }
}

/// An operator on two variables. `&&` and `||` cannot occur: they are terms of their own, with a branch.
fn binary_instr(to: u32, op: BinaryOp, a: u32, b: u32) -> Instr
    requires { is_strict op ≡ true }
    ensures { InstrEncodes result (computing to op a b) }
{
    match op {
        BinaryOp::Add => Instr::Add(to, a, b),
        BinaryOp::Sub => Instr::Sub(to, a, b),
        BinaryOp::Mul => Instr::Mul(to, a, b),
        BinaryOp::Div => Instr::Div(to, a, b),
        BinaryOp::Rem => Instr::Rem(to, a, b),
        BinaryOp::Eq => Instr::Eq(to, a, b),
        BinaryOp::Ne => Instr::Ne(to, a, b),
        BinaryOp::Lt => Instr::Lt(to, a, b),
        BinaryOp::Le => Instr::Le(to, a, b),
        BinaryOp::Gt => Instr::Gt(to, a, b),
        BinaryOp::Ge => Instr::Ge(to, a, b),
        BinaryOp::And | BinaryOp::Or => unreachable!(),
    }
}

/// The operand of an action that takes one.
fn one_operand(from: &[u32]) -> u32
    requires { length from.now ≡ 1 }
    ensures { from.now ≡ result ∷ [] }
{
    from[0]
}

/// The operands of an action that takes two.
fn two_operands(from: &[u32]) -> (u32, u32)
    requires { length from.now ≡ 2 }
    ensures { from.now ≡ result.0 ∷ result.1 ∷ [] }
{
    (from[0], from[1])
}

/// The operands of an action that takes three.
fn three_operands(from: &[u32]) -> (u32, u32, u32)
    requires { length from.now ≡ 3 }
    ensures { from.now ≡ result.0 ∷ result.1 ∷ result.2 ∷ [] }
{
    (from[0], from[1], from[2])
}

/// The instruction of an action that returns a value of this type. The others cannot occur: a tree that is lowered has them
/// in statements only (`returns_value`).
pub fn value_instr(to: u32, action: Action, from: &[u32], ty: &Type) -> Instr
    requires { returns_value action (length from.now) ≡ true }
    ensures { InstrEncodes result (acts action from.now to) }
{
    match action {
        Action::Int(k) => Instr::Int(to, k),
        Action::Bool(b) => Instr::Bool(to, b),
        Action::Nil => Instr::Nil(to),
        Action::Copy => copy_instr(ty, to, one_operand(from)),
        Action::Binary(op) => {
            let (a, b) = two_operands(from);
            binary_instr(to, op, a, b)
        }
        Action::Neg => Instr::Neg(to, one_operand(from)),
        Action::Not => Instr::Not(to, one_operand(from)),
        Action::IsNil => Instr::IsNil(to, one_operand(from)),
        Action::Len => Instr::Len(to, one_operand(from)),
        Action::Load(k) => Instr::Load(to, one_operand(from), k as u32),
        Action::At => {
            let (a, i) = two_operands(from);
            Instr::At(to, a, i)
        }
        Action::New(n) => Instr::New(to, n as u32),
        Action::Slice => Instr::Slice(to, one_operand(from)),
        Action::Chan => Instr::Chan(to, one_operand(from)),
        Action::Recv => Instr::Recv(to, one_operand(from)),
        Action::Get(n) => Instr::Get(to, n as u32),
        Action::Store(_) | Action::Put | Action::Send | Action::Close | Action::Set(_) => {
            unreachable!()
        }
    }
}

/// The instruction of an action that returns no value. The others cannot occur: a tree that is lowered has them in terms
/// only (`returns_nothing`).
pub fn effect_instr(action: Action, from: &[u32]) -> Instr
    requires { returns_nothing action (length from.now) ≡ true }
    ensures { InstrEncodes result (Do None action from.now) }
{
    match action {
        Action::Store(k) => {
            let (a, b) = two_operands(from);
            Instr::Store(a, k as u32, b)
        }
        Action::Put => {
            let (a, i, b) = three_operands(from);
            Instr::Put(a, i, b)
        }
        Action::Send => {
            let (c, a) = two_operands(from);
            Instr::Send(c, a)
        }
        Action::Close => Instr::Close(one_operand(from)),
        Action::Set(n) => Instr::Set(n as u32, one_operand(from)),
        Action::Int(_)
        | Action::Bool(_)
        | Action::Nil
        | Action::Copy
        | Action::Binary(_)
        | Action::Neg
        | Action::Not
        | Action::IsNil
        | Action::Len
        | Action::Load(_)
        | Action::At
        | Action::New(_)
        | Action::Slice
        | Action::Chan
        | Action::Recv
        | Action::Get(_) => unreachable!(),
    }
}

/// The constant that is the zero of a type.
pub fn zero_action(ty: &Type) -> Action
    ensures { result ≡ spec.zero_action ty.now }
{
    if !ty.layers.items().is_empty() {
        return Action::Nil;
    }
    match ty.base {
        Base::Int => Action::Int(0),
        Base::Bool => Action::Bool(false),
        Base::Pointer(_) => Action::Nil,
    }
}
