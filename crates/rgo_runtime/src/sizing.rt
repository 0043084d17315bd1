//! How large the table of a run is. A table has all its words from its beginning, whether or not they are used. Code that makes no
//! object, and so no channel, takes no page, and the run begins sooner without its pages. Nothing here is shared: it reads checked code.
ghost use Rattle.std.specs.Prelude.{◌≡◌, ◌<◌, IfSome};
ghost use Rattle.rgo_runtime.specs.Sizing.{IsNarrower, SizingExamples, unless_short};

use rgo_sound::code::{Code, CodeFn};
use rgo_sound::machine::{RunEnd, Sizes};
use rgo_sound::tac::Op;
use rgo_sound::typed::Action;

/// Whether an action makes an object. Each action is listed: a new one that an arm for all others took as making none would find no
/// room in a smaller table.
fn action_allocates(action: Action) -> bool {
    match action {
        Action::New(_) | Action::Slice | Action::Chan => true,
        Action::Int(_)
        | Action::Bool(_)
        | Action::Nil
        | Action::Copy
        | Action::Binary(_)
        | Action::Neg
        | Action::Not
        | Action::IsNil
        | Action::Len
        | Action::Load(_)
        | Action::Store(_)
        | Action::At
        | Action::Put
        | Action::Recv
        | Action::Send
        | Action::Close
        | Action::Get(_)
        | Action::Set(_) => false,
    }
}

/// Whether an instruction makes one. A call or `go` makes none itself: what the function does is found at that function.
fn op_allocates(op: Op<'_>) -> bool {
    match op {
        Op::Do { action, .. } => action_allocates(action),
        Op::Call { .. }
        | Op::Go { .. }
        | Op::Print { .. }
        | Op::Jump(_)
        | Op::Branch { .. }
        | Op::Return(_) => false,
    }
}

/// Whether some instruction of a function makes an object, or a region is created before one.
fn function_allocates(function: &CodeFn<'_>) -> bool {
    for at in 0..function.tac().len() {
        if !function.creates(at).is_empty() {
            return true;
        }
        // There is one: `at` is below the length.
        if let Some(op) = function.tac().op(at) {
            if op_allocates(op) {
                return true;
            }
        }
    }
    false
}

/// Whether some function of the code has such an instruction, also if it is never called: that costs only a larger table.
fn code_allocates(code: &Code) -> bool {
    for n in 0..code.len() {
        // There is one: `n` is below the length.
        if let Some(function) = code.function(n) {
            if function_allocates(&function) {
                return true;
            }
        }
    }
    false
}

/// The sizes of a smaller table for code that makes nothing; `None` for any other code. One page is left, since a table has at least one.
/// No clause says that the code makes nothing: `unless_short` makes up for that.
pub(crate) fn smaller_table(code: &Code, sizes: Sizes) -> Option<Sizes>
    requires { 0 < sizes.pages }
    ensures narrower { IfSome result (λ few. IsNarrower few sizes) }
    ensures one { IfSome result (λ few. few.pages ≡ 1) }
{
    if code_allocates(code) {
        return None;
    }
    Some(Sizes {
        page_words: sizes.page_words,
        pages: 1,
        regions: sizes.regions.min(1),
    })
}

/// How a run in a smaller table has ended. That it lacked room would say nothing of the larger one: it is then reported as want of memory.
/// Code that makes nothing does not end so.
pub(crate) fn unless_short(end: RunEnd) -> RunEnd
    ensures { result ≡ unless_short end }
{
    match end {
        // Cannot be: code that makes no object claims no page and no slot.
        RunEnd::NoRoom(_) => RunEnd::NoMemory,
        RunEnd::Ended(_)
        | RunEnd::Deadlock
        | RunEnd::CallsTooDeep
        | RunEnd::StepsSpent
        | RunEnd::GoroutinesSpent
        | RunEnd::WriteFault
        | RunEnd::NoMemory => end,
    }
}

/// Examples of sizes of which one is narrower, and of ends in a smaller table.
pub fn examples()
    ensures { SizingExamples }
{}
