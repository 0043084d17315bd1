//! Functions of three-address code.

ghost use Rattle.std.specs.Prelude.{◌≡◌, ◌↔◌, ◌+◌, Err, map, length, get_or, slice_get, ◌<◌, ◌^◌, IfOk, IfSome};
ghost use Rattle.std.specs.Option.{option_map};
ghost use Rattle.rgo_memory.specs.Values.{zero_of};
ghost use Rattle.rgo_tac.specs.declared.errors.FunctionError.TheVariants.{TooLarge};
ghost use Rattle.rgo_tac.specs.Ops.{kind_of, operation_of, op_in, place_in};
ghost use Rattle.rgo_tac.specs.Sizes.{AreTooMany};
ghost use Rattle.rgo_tac.specs.Views.{body_of};
ghost use Rattle.rgo_tac.specs.Widths.{OpsFitWidth};

use crate::code::{Body, Instr};
use crate::errors::FunctionError;
use crate::ops::{Kind, Op, decode, instr_kind};
use crate::widths::width_of_all;
use rgo_ast::{Name, Place};
use rgo_memory::{Value, zero};
use rgo_typed::{Row, Type};
use std::alloc::{AllocError, Global};
use std::marker::Model;

/// A function. What an interpreter needs at each call or loop is computed once, when the function is made.
#[derive(Drop)]
pub struct TacFn {
    pub(crate) name: Name,
    pub(crate) params: usize,
    pub(crate) result_type: Option<Type>,
    pub(crate) variables: Row<Type>,
    pub(crate) body: Body,
    /// The zeros of its variables: a call copies them and looks at no type.
    pub(crate) zeros: Row<Value>,
    /// The numbers of the variables of instructions that stay in their frame are below it. One comparison of it with the length
    /// of a frame replaces a test at each variable, see `body_within`.
    pub(crate) width: usize,
}

impl Model for TacFn {
    ghost use Rattle.std.specs.Prelude.{◌≡◌, ◌<◌, ◌+◌, ◌^◌, length, map};
    ghost use Rattle.rgo_memory.specs.Values.{zero_of};
    ghost use Rattle.rgo_tac.specs.Code as spec;

    ghost Value = { spec.TacFn };

    ghost use Rattle.rgo_tac.specs.Views.{body_of};
    ghost use Rattle.rgo_tac.specs.Widths.{OpsFitWidth};

    ghost view = { λ f. record {
      name = f.name;
      params = f.params;
      result_type = f.result_type;
      variables = f.variables;
      body = body_of f.body.lists f.body.pieces f.body.instrs f.body.places;
    } };

    ghost invariant = { λ f. (f.zeros ≡ map zero_of f.variables)
        × OpsFitWidth f.body.lists f.body.pieces f.width f.body.instrs
        × (length f.variables + 2 < 2 ^ 32) × (length f.body.instrs + 1 < 2 ^ 32) };
}

fn zeros_of(alloc: Global, types: &[Type]) -> Result<Vec<Value>, AllocError>
    ensures { IfOk result (λ zeros. zeros.items ≡ map zero_of types.now) }
{
    types.iter().map(|ty| zero(ty)).collect(alloc)
}

/// The instruction of this number.
#[inline(always)]
pub fn instr_at(instrs: &[Instr], n: usize) -> Option<Instr>
    ensures instr { result ≡ slice_get instrs.now n }
    ensures below { IfSome result (λ instr. n < 2 ^ 63) }
{
    instrs.get(n).copied()
}

fn place_at(places: &[Place], n: usize) -> Place
    ensures { result ≡ get_or places.now n 0 }
{
    places.get(n).copied().unwrap_or(0)
}

/// The most variables that a function may have. Members are numbered with them, and two members are not variables: the result and
/// the package variables.
const MOST_VARIABLES: usize = u32::MAX as usize - 2;

/// The most instructions that a function may have: their count has 32 bits, too, and so has one more.
const MOST_INSTRS: usize = u32::MAX as usize - 1;

impl TacFn {
    /// A function: how many of its variables are parameters, the types of its variables with the parameters first, and
    /// its instructions.
    ///
    /// # Errors
    ///
    /// `TooLarge` if it has 2³² - 2 variables or more, or 2³² - 1 instructions or more; `NoMemory` on allocation failure.
    pub fn new(
        alloc: Global,
        name: Name,
        params: usize,
        result_type: Option<Type>,
        variables: Row<Type>,
        body: Body,
    ) -> Result<TacFn, FunctionError>
        ensures made { IfOk result (λ f. f ≡ record {
          name = name;
          params = params;
          result_type = result_type;
          variables = variables;
          body = body_of body.lists body.pieces body.instrs body.places;
        }) }
        ensures large { (result ≡ Err TooLarge) ↔ AreTooMany (length variables) (length body.instrs) }
    {
        if variables.items().len() > MOST_VARIABLES || body.instrs.items().len() > MOST_INSTRS {
            return Err(FunctionError::TooLarge);
        }
        match TacFn::of(alloc, name, params, result_type, variables, body) {
            Ok(function) => Ok(function),
            Err(_) => Err(FunctionError::NoMemory),
        }
    }

    /// The same for variables and instructions that are known to have numbers, so that it can fail for want of memory only.
    pub(crate) fn of(
        alloc: Global,
        name: Name,
        params: usize,
        result_type: Option<Type>,
        variables: Row<Type>,
        body: Body,
    ) -> Result<TacFn, AllocError>
        requires variables { length variables + 2 < 2 ^ 32 }
        requires instrs { length body.instrs + 1 < 2 ^ 32 }
        ensures { IfOk result (λ f. f ≡ record {
          name = name;
          params = params;
          result_type = result_type;
          variables = variables;
          body = body_of body.lists body.pieces body.instrs body.places;
        }) }
    {
        let zeros = Row::new(zeros_of(alloc, variables.items())?);
        let width = width_of_all(&body);
        Ok(TacFn {
            name,
            params,
            result_type,
            variables,
            body,
            zeros,
            width,
        })
    }

    pub fn name(&self) -> &Name
        ensures { result.now ≡ self.now.name }
    {
        &self.name
    }

    /// How many of its variables are parameters.
    pub fn params(&self) -> usize
        ensures { result ≡ self.now.params }
    {
        self.params
    }

    pub fn result_type(&self) -> &Option<Type>
        ensures { result.now ≡ self.now.result_type }
    {
        &self.result_type
    }

    /// The types of its variables, the parameters first.
    pub fn variables(&self) -> &[Type]
        ensures { result.now ≡ self.now.variables }
    {
        self.variables.items()
    }

    /// The zeros of its variables, with which a frame of it begins.
    pub fn zeros(&self) -> &[Value]
        ensures { result.now ≡ map zero_of self.now.variables }
    {
        self.zeros.items()
    }

    /// Its body, if a frame with this many variables has all that are named by instructions which stay in the frame. Called before
    /// a loop over such instructions, which then reads variables without tests.
    #[inline(always)]
    pub fn body_within(&self, variables: usize) -> Option<&Body>
        ensures body { IfSome result (λ b. self.now.body
            ≡ body_of b.now.lists b.now.pieces b.now.instrs b.now.places) }
        ensures fits { IfSome result (λ b. OpsFitWidth b.now.lists b.now.pieces variables b.now.instrs) }
    {
        if variables < self.width {
            return None;
        }
        Some(&self.body)
    }

    /// How many variables it has.
    pub fn variable_count(&self) -> u32
        ensures count { result ≡ length self.now.variables }
        ensures few { result + 2 < 2 ^ 32 }
    {
        self.variables.items().len() as u32
    }

    /// How many instructions it has.
    pub fn len(&self) -> usize
        ensures { result ≡ length self.now.body }
    {
        self.body.instrs.items().len()
    }

    /// The same in 32 bits.
    pub fn instr_count(&self) -> u32
        ensures count { result ≡ length self.now.body }
        ensures few { result + 1 < 2 ^ 32 }
    {
        self.body.instrs.items().len() as u32
    }

    /// What the instruction of this number does; `None` if there is none. The second clause is for callers that continue at
    /// `n + 1`: a list has fewer than 2^63 items, so the sum does not overflow.
    #[inline(always)]
    pub fn op(&self, n: usize) -> Option<Op<'_>>
        ensures op { option_map operation_of result ≡ op_in (slice_get self.now.body n) }
        ensures below { IfSome result (λ op. n < 2 ^ 63) }
    {
        match instr_at(self.body.instrs.items(), n) {
            Some(instr) => Some(decode(&self.body, instr)),
            None => None,
        }
    }

    /// The kind of the instruction of this number; `None` if there is none. Faster than `op`, since it decodes nothing.
    pub fn kind(&self, n: usize) -> Option<Kind>
        ensures { result ≡ option_map kind_of (op_in (slice_get self.now.body n)) }
    {
        match instr_at(self.body.instrs.items(), n) {
            Some(instr) => Some(instr_kind(instr)),
            None => None,
        }
    }

    /// The place of the instruction of this number; 0 if there is none.
    pub fn place(&self, n: usize) -> Place
        ensures { result ≡ place_in (slice_get self.now.body n) }
    {
        match instr_at(self.body.instrs.items(), n) {
            Some(_) => place_at(self.body.places.items(), n),
            None => 0,
        }
    }
}
