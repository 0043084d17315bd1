//! How a goroutine begins: `main`, or one that another goroutine starts. The body of a child is made from that of its parent before
//! the start shows at the table: it needs memory, and a start that shows cannot be undone.

ghost use Rattle.std.specs.Prelude.{◌≡◌, ◌∷◌, [], IfOk, Option, Some, MatchOption, bytes_eq, codes};
ghost use Rattle.rgo_core.specs.Core.{Setup};
ghost use Rattle.rgo_core.specs.runs.Opening.{first_of, main_words};
ghost use Rattle.rgo_core.specs.Frames.shown.WordFrames.{word_called};
ghost use Rattle.rgo_core_steps.specs.After.{child};
ghost use Rattle.rgo_sound.specs.Code.Code.{CodeFn as FnRecord};
ghost use Rattle.rgo_sound.specs.RegionMachine.Owed.{code_function};
ghost use Rattle.rgo_sound.specs.Tac.Code as tac;
ghost use Rattle.rgo_sound.specs.Tac.Ops.{operation_of};
ghost use Rattle.rgo_body.specs.Bodies.{IsFresh, BodyIsReady};
ghost use Rattle.rgo_body.specs.Shows.{BodyIsPossible, BodyShows};
ghost use Rattle.rgo_body.specs.Steps.{BecomesHere};
ghost use Rattle.rgo_body.specs.declared.bodies.Side.TheVariants.{AtRest};

use crate::bodies::{Body, Side};
use crate::counts::Counts;
use crate::nexts::Next;
use crate::programs::Program;
use crate::queues::{Kind, Queue};
use crate::reserves::Reserved;
use rgo_holding::Holding;
use rgo_sound::code::{Code, CodeFn};
use rgo_stack::Stack;
use std::alloc::{AllocError, Global};

/// Whether a function is called `main`.
fn is_main(function: &CodeFn<'_>) -> bool
    ensures { result ≡ bytes_eq function.now.name (codes "main") }
{
    function.tac().name().bytes() == "main".as_bytes()
}

/// The number of the function `main`.
fn main_of(code: &Code) -> Option<usize>
    ensures { MatchOption result (main_words code.now.functions 0 ≡ []) (λ n. (fn : FnRecord) × (code_function code.now n ≡ Some fn)
        × (main_words code.now.functions 0 ≡ word_called fn n [] ∷ [])) }
{
    for n in 0..code.len() {
        match code.function(n) {
            Some(function) => {
                if is_main(&function) {
                    return Some(n);
                }
            }
            // Not reached: `n` is less than the number of functions.
            None => {}
        }
    }
    None
}

impl Body {
    /// A goroutine with one frame, which owes the removal of these names: those that its function removes at its entry.
    fn with_frame(
        alloc: Global,
        stack: Stack,
        holding: Holding,
        removes: &[u32],
        goroutines: u64,
    ) -> Result<Body, AllocError>
        ensures { IfOk result (IsFresh stack holding removes.now goroutines) }
    {
        let mut queue = Queue::new(alloc);
        queue.reserve(removes.len())?;
        queue.put_all(Kind::Remove, removes);
        Ok(Body {
            stack,
            holding,
            queue,
            is_expanded: false,
            side: Side::AtRest,
            counts: Counts::new(goroutines),
            reserved: Reserved::new(alloc),
            prints: 0,
            refused: false,
        })
    }

    /// The body of `main` before its first instruction, at a table with this many slots of regions.
    ///
    /// # Errors
    ///
    /// On allocation failure.
    pub fn new(alloc: Global, program: &Program<'_>, slots: u32) -> Result<Body, AllocError>
        ensures { IfOk result (λ b. (T : Setup) → T.code ≡ program.now.code → T.sizes.regions ≡ slots
            → BodyShows T program.now b (first_of T.code)) }
    {
        // Checked code has a function `main`.
        let Some(n) = main_of(program.code()) else {
            unreachable!();
        };
        let stack = Stack::new(alloc, program.compact(), n, Vec::new(alloc))?;
        let holding = Holding::new(alloc, slots)?;
        Body::with_frame(alloc, stack, holding, &[], 1)
    }

    /// The body of the goroutine that the next instruction of this one starts. The parent does not change here. Its stakes for the
    /// child are pending until `started`, so none ends in between.
    ///
    /// # Errors
    ///
    /// On allocation failure.
    pub fn child(
        &self,
        alloc: Global,
        program: &Program<'_>,
        next: &Next<'_>,
        function: u32,
        from: &[u32],
    ) -> Result<Body, AllocError>
        requires possible { BodyIsPossible program.now self.now }
        requires ready { BodyIsReady program.now self.now next.now }
        requires starts { operation_of next.now.op ≡ tac.Go function from.now }
        requires rests { self.now.side ≡ AtRest }
        ensures { IfOk result (λ b. BecomesHere program.now self.now b (λ T c. child T.code c)) }
    {
        let callee = function as usize;
        let arguments = self.stack.words(alloc, from)?;
        let stack = Stack::new(alloc, program.compact(), callee, arguments)?;
        let holding = self
            .holding
            .child(alloc, program.formals(callee), next.passes())?;
        Body::with_frame(alloc, stack, holding, program.entry(callee), 0)
    }
}
