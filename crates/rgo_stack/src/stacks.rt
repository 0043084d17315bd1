//! The stack of a goroutine, and what is read of it. Reads of the newest frame are the most frequent calls from other crates, so they
//! are inlined and take no list of frames.

ghost use Rattle.std.specs.Prelude.{◌≡◌, ◌<◌, ◌≤◌, ◌∷◌, ℕ, List, Some, [], IfOk, drop, get_or, length, map, take};
ghost use Rattle.rgo_sound.specs.Code.Code.{Code, CodeFn};
ghost use Rattle.rgo_sound.specs.RegionMachine.Owed.{code_function};
ghost use Rattle.rgo_core.specs.Frames.shown.Stacks.{stack_frames};
ghost use Rattle.rgo_core.specs.Frames.shown.WordFrames.{word_called};
ghost use Rattle.rgo_compact.specs.Functions.{CompactFn, IsCompact};
ghost use Rattle.rgo_compact.specs.Runs.{word_or_zero};
ghost use Rattle.rgo_compact.specs.Stack.{callers_in};
ghost use Rattle.rgo_stack.specs.Places.{FunctionTakes};
ghost use Rattle.rgo_stack.specs.Stacks as spec;

use rgo_compact::{Caller, CompactCode, Position, function_of};
use std::alloc::{AllocError, Global};
use std::marker::Model;

/// An instruction, by its function and its number there.
#[derive(Clone, Copy)]
pub struct Place {
    pub function: usize,
    pub next: usize,
}

/// All frames of a goroutine: the words of their variables in one list, those of the oldest frame first. The words above the
/// newest frame have no meaning.
#[derive(Drop)]
pub struct Stack {
    pub(crate) words: Vec<u64>,
    pub(crate) callers: Vec<Caller>,
    /// The newest frame; `None` once the goroutine has returned from its first function.
    pub(crate) at: Option<Position>,
}

impl Model for Stack {
    ghost use Rattle.rgo_stack.specs.Stacks as spec;

    ghost Value = { spec.Stack };

    ghost view = { λ s. record { words = s.words.items; callers = s.callers.items; at = s.at } };
}

/// The words from `base` up to `top`.
#[inline(always)]
fn between(words: &[u64], base: usize, top: usize) -> &[u64]
    requires base { base ≤ top }
    requires top { top ≤ length words.now }
    ensures { result.now ≡ drop base (take top words.now) }
{
    let below = &words[..top];
    &below[base..]
}

/// The word of a variable of the frame that begins at `base`.
#[inline(always)]
fn word_at(words: &[u64], base: usize, top: usize, v: u32) -> u64
    requires { v < length (drop base (take top words.now)) }
    ensures { result ≡ get_or (drop base (take top words.now)) v 0 }
{
    words[base + v as usize]
}

/// The word of a variable; 0 if there is no such variable. Checked code always has the variable; the definition says 0, so that it
/// needs no proof of that.
fn word_or_zero(variables: &[u64], v: u32) -> u64
    ensures { result ≡ word_or_zero variables.now v }
{
    match variables.get(v as usize) {
        Some(word) => *word,
        None => 0,
    }
}

/// The newest of `depth` callers. The list may be longer: entries above the depth are left over from deeper calls.
fn place_of(callers: &[Caller], depth: usize) -> Option<Place>
    requires { depth ≤ length callers.now }
    ensures { (words : List ℕ) → result ≡ spec.newest_place (stack_frames words (callers_in callers.now depth)) }
{
    if depth == 0 {
        return None;
    }
    let caller = callers[depth - 1];
    Some(Place {
        function: caller.function,
        next: caller.next,
    })
}

/// The words of some variables, for a goroutine that is started: it gets a copy, since it has a stack of its own.
fn gather(alloc: Global, variables: &[u64], from: &[u32]) -> Result<Vec<u64>, AllocError>
    ensures { IfOk result (λ ws. ws.items ≡ map (word_or_zero variables.now) from.now) }
{
    let mut words = Vec::with_capacity(alloc, from.len())?;
    for i in 0..from.len() {
        words.push(word_or_zero(variables, from[i]))?;
    }
    Ok(words)
}

impl Stack {
    /// The stack of a goroutine that starts with a function: its arguments, and zeros for its other variables.
    ///
    /// # Errors
    ///
    /// On allocation failure.
    pub fn new(
        alloc: Global,
        compact: &CompactCode,
        n: usize,
        arguments: Vec<u64>,
    ) -> Result<Stack, AllocError>
        requires { FunctionTakes compact.now n (length arguments.items) }
        ensures frames { IfOk result (λ s. (code : Code) (fn : CodeFn) → IsCompact code compact.now
            → code_function code n ≡ Some fn → spec.frames_of_stack s ≡ word_called fn n arguments.items ∷ []) }
        ensures belongs { IfOk result (λ s. spec.Belongs compact.now s) }
    {
        let size = function_of(compact.functions(), n).size();
        let mut words = arguments;
        words.resize(size, 0)?;
        Ok(Stack {
            words,
            callers: Vec::new(alloc),
            at: Some(Position {
                function: n,
                next: 0,
                base: 0,
                top: size,
                depth: 0,
            }),
        })
    }

    /// How many frames it has.
    pub fn depth(&self) -> usize
        requires { (fs : List CompactFn) × spec.Belongs fs self.now }
        ensures { result ≡ length (spec.frames_of_stack self.now) }
    {
        match self.at {
            Some(p) => p.depth + 1,
            None => 0,
        }
    }

    /// Where the newest frame is; `None` if it has no frame.
    #[inline(always)]
    pub fn newest(&self) -> Option<Place>
        ensures { result ≡ spec.newest_place (spec.frames_of_stack self.now) }
    {
        match self.at {
            Some(p) => Some(Place {
                function: p.function,
                next: p.next,
            }),
            None => None,
        }
    }

    /// Where the caller of the newest frame is; `None` if there is none.
    pub fn caller(&self) -> Option<Place>
        requires { (fs : List CompactFn) × spec.Belongs fs self.now }
        ensures { result ≡ spec.caller_place (spec.frames_of_stack self.now) }
    {
        match self.at {
            Some(p) => place_of(&self.callers, p.depth),
            None => None,
        }
    }

    /// The words of the newest frame's variables; none after the first function has returned.
    pub fn variables(&self) -> &[u64]
        requires { (fs : List CompactFn) × spec.Belongs fs self.now }
        ensures { result.now ≡ spec.newest_words (spec.frames_of_stack self.now) }
    {
        match self.at {
            Some(p) => between(&self.words, p.base, p.top),
            None => &[],
        }
    }

    /// The word of a variable of the newest frame.
    #[inline(always)]
    pub fn word(&self, v: u32) -> u64
        requires { v < length (spec.newest_words (spec.frames_of_stack self.now)) }
        ensures { result ≡ spec.newest_word (spec.frames_of_stack self.now) v }
    {
        match self.at {
            Some(p) => word_at(&self.words, p.base, p.top, v),
            // The caller asks for a variable of the newest frame, so there is one.
            None => unreachable!(),
        }
    }

    /// The words of some variables of the newest frame.
    ///
    /// # Errors
    ///
    /// On allocation failure.
    pub fn words(&self, alloc: Global, from: &[u32]) -> Result<Vec<u64>, AllocError>
        requires { (fs : List CompactFn) × spec.Belongs fs self.now }
        ensures { IfOk result (λ ws. ws.items ≡ spec.words_from (spec.frames_of_stack self.now) from.now) }
    {
        gather(alloc, self.variables(), from)
    }
}
