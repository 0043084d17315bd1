//! Frames: a function that was called, its next instruction, and the values of its variables.

ghost use Rattle.std.specs.Prelude.{◌≡◌, ◌<◌, ◌+◌, ◌^◌, ◌++◌, drop, length, slice_set, get_or, [], OnOk, IfOk};
ghost use Rattle.rgo_memory.specs.declared.values.Value.TheVariants as the_value;
ghost use Rattle.rgo_tac.specs.Frames as spec;
ghost use Rattle.rgo_tac.specs.Ops.{numbers_of};

use rgo_memory::Value;
use rgo_tac::{Operands, TacFn};
use std::alloc::AllocError;
use std::marker::Model;

/// A function by its number, the number of its next instruction, and the values of its variables. A frame that has
/// called a function is at the call until the callee has returned.
#[derive(Drop)]
pub struct Frame {
    pub function: usize,
    pub next: usize,
    pub variables: Vec<Value>,
}

impl Model for Frame {
    ghost use Rattle.rgo_tac.specs.Frames as spec;

    ghost Value = { spec.TacFrame };

    ghost view = { λ f. record { function = f.function; next = f.next; variables = f.variables.items } };
}

/// Up to three values, as many as an action takes: a list would allocate at each step.
#[derive(Drop)]
pub(crate) struct Values {
    items: [Value; 3],
    count: usize,
}

impl Model for Values {
    ghost use Rattle.std.specs.Prelude.{List, take, ◌≤◌};
    ghost use Rattle.rgo_memory.specs.declared.values.Value.{Value as TheValue};

    ghost Value = { List TheValue };

    ghost view = { λ v. take v.count v.items };

    ghost invariant = { λ v. v.count ≤ 3 };
}

impl Values {
    pub(crate) fn items(&self) -> &[Value]
        ensures { result.now ≡ self.now }
    {
        &self.items[..self.count]
    }
}

/// The value of a variable; nil if there is none of this number.
#[inline(always)]
pub(crate) fn value_at(variables: &[Value], n: u32) -> Value
    ensures { result ≡ get_or variables.now n the_value.Nil }
{
    match variables.get(n as usize) {
        Some(value) => *value,
        None => Value::Nil,
    }
}

/// Assigns a value to a variable, if there is one of this number.
#[inline(always)]
#[tactic(auto, using(std::proofs::lemmas::List::set_past))]
pub(crate) fn set_at(variables: &mut [Value], n: u32, value: Value)
    ensures { variables.new ≡ slice_set variables.old n value }
{
    let n = n as usize;
    if n < variables.len() {
        variables[n] = value;
    }
}

/// Appends the zeros after the first `count`: the variables after the parameters.
fn push_zeros(values: &mut Vec<Value>, zeros: &[Value], count: usize) -> Result<(), AllocError>
    ensures { OnOk result (values.new.items ≡ values.old.items ++ drop count zeros.now) }
{
    if count < zeros.len() {
        values.extend_from_slice(&zeros[count..])
    } else {
        Ok(())
    }
}

impl Frame {
    /// The value of a variable; nil if there is none of this number.
    pub fn value(&self, n: u32) -> Value
        ensures { result ≡ spec.value_at self.now n }
    {
        value_at(&self.variables, n)
    }

    /// The values of the variables that an action reads.
    pub(crate) fn operands(&self, from: Operands) -> Values
        ensures { result ≡ spec.operand_values self.now (numbers_of from) }
    {
        match from {
            Operands::Zero => Values {
                items: [Value::Nil; 3],
                count: 0,
            },
            Operands::One(a) => Values {
                items: [self.value(a), Value::Nil, Value::Nil],
                count: 1,
            },
            Operands::Two(a, b) => Values {
                items: [self.value(a), self.value(b), Value::Nil],
                count: 2,
            },
            Operands::Three(a, b, c) => Values {
                items: [self.value(a), self.value(b), self.value(c)],
                count: 3,
            },
        }
    }

    /// Continues at another instruction.
    pub(crate) fn move_to(&mut self, n: u32)
        ensures { self.new ≡ spec.moved_to self.old n }
    {
        self.next = n as usize;
    }

    /// Continues after an instruction that returns no value.
    pub(crate) fn advance(&mut self)
        requires { self.old.next < 2 ^ 63 }
        ensures { self.new ≡ spec.moved_to self.old (self.old.next + 1) }
    {
        self.next += 1;
    }

    /// Continues after an instruction that assigns this value to a variable, or to none.
    pub(crate) fn go_on(&mut self, to: Option<u32>, value: Value)
        requires { self.old.next < 2 ^ 63 }
        ensures { self.new ≡ spec.frame_after_instr self.old to value }
    {
        self.next += 1;
        if let Some(d) = to {
            set_at(&mut self.variables, d, value);
        }
    }
}

/// Appends the values of these variables.
pub(crate) fn push_values(
    values: &mut Vec<Value>,
    frame: &Frame,
    numbers: &[u32],
) -> Result<(), AllocError>
    ensures { OnOk result (values.new.items ≡ values.old.items ++ spec.operand_values frame.now numbers.now) }
{
    for n in numbers {
        values.push(frame.value(*n))?;
    }
    Ok(())
}

/// The frame of a function that is called with these arguments, whose list becomes that of its variables.
///
/// # Errors
///
/// On allocation failure.
pub(crate) fn called(
    mut arguments: Vec<Value>,
    callee: &TacFn,
    number: usize,
) -> Result<Frame, AllocError>
    ensures { IfOk result (λ f. f ≡ spec.new_tac_frame callee.now number arguments.items) }
{
    let count = arguments.len();
    push_zeros(&mut arguments, callee.zeros(), count)?;
    Ok(Frame {
        function: number,
        next: 0,
        variables: arguments,
    })
}
