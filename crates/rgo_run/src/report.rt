//! The report of an [`Ending`]: its lines on `err`, and its status. [`crate::top`] calls [`report`] once per call, as its last step.
//!
//! A line without numbers is a constant and needs no memory. A line with numbers may find no memory; then a shorter report
//! without numbers takes its place. Why: docs/DECISIONS.md, "The driver of a run".

ghost use Rattle.std.specs.Prelude.{◌≡◌, ◌<◌, ◌^◌, ◌++◌, [], ℕ, List, None, codes, length, IfOk, IfSome, MatchResult, string_bytes};
ghost use Rattle.rgo_run.specs.Calls.{use_of};
ghost use Rattle.rgo_run.specs.Endings.{line_of, line_of_code_refusal, line_of_refusal, line_of_run, lines_of_run, kind_line, numbered_line};
ghost use Rattle.rgo_run.specs.Endings.{others_made, placed_message, positioned, regions_made, stats_lines, status_of, status_of_run};
ghost use Rattle.rgo_run.specs.Reports.{LineHasNumber, IsTrap, Reports, ReportsEnding, WritesLine, in_short};
ghost use Rattle.rgo_machine.specs.declared.ends.RunEnd.TheVariants.{Ended};
ghost use Rattle.rgo_machine.specs.declared.picks.End.TheVariants as the_end;
ghost use Rattle.rgo_run.specs.declared.endings.TextKind as kinds;
ghost use Rattle.rgo_run.specs.declared.refusals.CodeTextRefusal.TheVariants as code_refusals;
ghost use Rattle.rgo_run.specs.declared.refusals.TextRefusal.TheVariants as refusals;

use crate::endings::{Ending, TextKind};
use crate::positions::position_of;
use crate::refusals::{CodeTextRefusal, TextRefusal};
use rgo_ast::Place;
use rgo_code::CodeRefusal;
use rgo_lexer::LexRefusal;
use rgo_machine::{End, RunEnd, Shortage};
use rgo_memory::Trap;
use rgo_outside::{Sink, write_all};
use rgo_region_machine::Tally;
use rgo_typing_rules::TypeRefusal;
use std::alloc::{AllocError, Global};

const USAGE: &str =
    "usage: rgo run [--steps N] [--pages N] [--page-words N] [--regions N] [--goroutines N] [--workers N] [--stats] | check | emit | code | big N | record [--steps N] [--pages N] [--page-words N] [--regions N] [--goroutines N] | replay | runcode [--steps N] [--pages N] [--page-words N] [--regions N] [--goroutines N] [--workers N] [--stats]\n";

// A message with the line and the column of its place.
fn line_at(alloc: Global, text: &[u8], at: Place, message: &str) -> Result<String, AllocError>
    requires { length text.now < 2 ^ 63 }
    ensures { IfOk result (λ line. string_bytes line
        ≡ positioned text.now at (message.now ++ codes "\n")) }
{
    let position = position_of(text, at);
    let line = position.line;
    let column = position.column;
    format!(in alloc; "rgo: {line}:{column}: {message}\n")
}

// A broken rule with the line and the column of its place.
fn numbered_line_at(
    alloc: Global,
    text: &[u8],
    at: Place,
    kind: &str,
    number: u8,
    name: &str,
) -> Result<String, AllocError>
    requires { length text.now < 2 ^ 63 }
    ensures { IfOk result (λ line.
        string_bytes line ≡ positioned text.now at (kind_line kind.now number name.now)) }
{
    let position = position_of(text, at);
    let line = position.line;
    let column = position.column;
    format!(in alloc; "rgo: {line}:{column}: {kind} {number} {name}\n")
}

// The same for a code text, whose instructions carry their places: the number is printed as it was written there after `@`.
fn numbered_line_of_code(
    alloc: Global,
    at: Place,
    kind: &str,
    number: u8,
    name: &str,
) -> Result<String, AllocError>
    ensures { IfOk result (λ line.
        string_bytes line ≡ placed_message at (kind_line kind.now number name.now)) }
{
    format!(in alloc; "rgo: @{at}: {kind} {number} {name}\n")
}

// The line of a trap, with its place as a text of this kind reports places.
pub(crate) fn trap_line(
    alloc: Global,
    kind: TextKind,
    text: &[u8],
    trap: Trap,
    at: Place,
) -> Result<String, AllocError>
    requires { length text.now < 2 ^ 63 }
    ensures { IfOk result (λ line. string_bytes line ≡ line_of_run kind text.now (Ended (the_end.Trap trap at))) }
{
    match kind {
        TextKind::Go => { numbered_line_at(alloc, text, at, "trap", trap.number(), trap.name()) }
        TextKind::Code => numbered_line_of_code(alloc, at, "trap", trap.number(), trap.name()),
    }
}

// A message with the number of a line of a code text.
fn numbered_line(alloc: Global, line: u32, message: &str) -> Result<String, AllocError>
    ensures { IfOk result (λ text. string_bytes text ≡ numbered_line line (message.now ++ codes "\n")) }
{
    format!(in alloc; "rgo: line {line}: {message}\n")
}

// A broken rule of a code text, with the number of its line.
fn broken_line(alloc: Global, refusal: CodeRefusal) -> Result<String, AllocError>
    ensures { IfOk result (λ text. string_bytes text ≡ line_of_code_refusal (code_refusals.Breaks refusal)) }
{
    let line = refusal.line;
    let rule = refusal.rule.number();
    format!(in alloc; "rgo: line {line}: code {rule}\n")
}

// The line of a rejected text.
fn refusal_line(alloc: Global, text: &[u8], refusal: TextRefusal) -> Result<String, AllocError>
    requires short { length text.now < 2 ^ 63 }
    requires has_number { refusal ≡ refusals.TooLong → ⊥ }
    ensures { IfOk result (λ line. string_bytes line ≡ line_of_refusal text.now refusal) }
{
    match refusal {
        TextRefusal::TooLong => unreachable!(),
        TextRefusal::Lexical(LexRefusal { kind, at }) => {
            numbered_line_at(alloc, text, at, "lexical", kind.number(), kind.name())
        }
        TextRefusal::Syntax { at } => line_at(alloc, text, at, "syntax"),
        TextRefusal::Nesting { at } => line_at(alloc, text, at, "nesting"),
        TextRefusal::Typing(TypeRefusal { rule, at }) => {
            numbered_line_at(alloc, text, at, "type", rule.number(), rule.name())
        }
    }
}

// The line of a rejected code text.
fn code_refusal_line(alloc: Global, refusal: CodeTextRefusal) -> Result<String, AllocError>
    requires { refusal ≡ code_refusals.TooLong → ⊥ }
    ensures { IfOk result (λ line. string_bytes line ≡ line_of_code_refusal refusal) }
{
    match refusal {
        CodeTextRefusal::TooLong => unreachable!(),
        CodeTextRefusal::NoForm { line } => numbered_line(alloc, line, "code text"),
        CodeTextRefusal::Breaks(refusal) => broken_line(alloc, refusal),
    }
}

// Writes the line. A failed write is not repeated: nothing can report it but the status, which is then 10.
pub(crate) fn write<E: Sink>(err: &mut E, line: &[u8], status: u8) -> u8
    ensures { WritesLine line.now status result (use_of E.Sink err.old err.new) }
{
    if write_all(err, line).is_ok() {
        status
    } else {
        10
    }
}

/// The status of a run's end.
fn status_of_run(end: RunEnd) -> u8
    ensures { result ≡ status_of_run end }
{
    match end {
        RunEnd::Ended(End::Exit) => 0,
        RunEnd::Ended(End::Trap(_, _)) => 2,
        RunEnd::Deadlock => 3,
        RunEnd::NoRoom(Shortage::Pages) => 4,
        RunEnd::NoRoom(Shortage::Regions) => 5,
        RunEnd::NoRoom(Shortage::ObjectSize) => 6,
        RunEnd::CallsTooDeep => 7,
        RunEnd::StepsSpent => 8,
        RunEnd::GoroutinesSpent => 12,
        RunEnd::WriteFault => 10,
        RunEnd::NoMemory => 11,
    }
}

/// The line of a run's end; `None` for a trap, whose line contains numbers.
fn fixed_line_of_run(end: RunEnd) -> Option<&'static str>
    ensures line { (kind : kinds.TextKind) (text : List ℕ) → IfSome result (λ line. line.now ≡ line_of_run kind text end) }
    ensures none { result ≡ None → IsTrap end }
{
    match end {
        RunEnd::Ended(End::Exit) => Some(""),
        RunEnd::Ended(End::Trap(_, _)) => None,
        RunEnd::Deadlock => Some("rgo: deadlock\n"),
        RunEnd::NoRoom(Shortage::Pages) => Some("rgo: pages spent\n"),
        RunEnd::NoRoom(Shortage::Regions) => Some("rgo: regions spent\n"),
        RunEnd::NoRoom(Shortage::ObjectSize) => Some("rgo: object too large\n"),
        RunEnd::CallsTooDeep => Some("rgo: calls too deep\n"),
        RunEnd::StepsSpent => Some("rgo: steps spent\n"),
        RunEnd::GoroutinesSpent => Some("rgo: goroutines spent\n"),
        RunEnd::WriteFault => Some("rgo: write failed\n"),
        RunEnd::NoMemory => Some("rgo: out of memory\n"),
    }
}

/// The status of a call's ending.
fn status_of(ending: Ending) -> u8
    ensures { result ≡ status_of ending }
{
    match ending {
        Ending::Valid => 0,
        Ending::Ran { end, .. } => status_of_run(end),
        Ending::Usage => 64,
        Ending::ReadFault => 9,
        Ending::Refused(_) | Ending::CodeRefused(_) => 1,
        Ending::WriteFault => 10,
        Ending::NoMemory => 11,
    }
}

/// The line of a call's ending; `None` if it contains numbers.
fn fixed_line(ending: Ending) -> Option<&'static str>
    ensures line { (text : List ℕ) → IfSome result (λ line. line.now ≡ line_of text ending) }
    ensures none { result ≡ None → LineHasNumber ending }
{
    match ending {
        Ending::Valid => Some(""),
        Ending::Ran {
            end,
            stats: None,
            ..
        } => fixed_line_of_run(end),
        Ending::Ran { stats: Some(_), .. } => None,
        Ending::Usage => Some(USAGE),
        Ending::ReadFault => Some("rgo: read failed\n"),
        Ending::Refused(TextRefusal::TooLong) => Some("rgo: text longer than 1048576 bytes\n"),
        Ending::Refused(_) => None,
        Ending::CodeRefused(CodeTextRefusal::TooLong) => {
            Some("rgo: text longer than 67108864 bytes\n")
        }
        Ending::CodeRefused(_) => None,
        Ending::WriteFault => Some("rgo: write failed\n"),
        Ending::NoMemory => Some("rgo: out of memory\n"),
    }
}

/// The line of a run's end.
fn line_of_run(
    alloc: Global,
    kind: TextKind,
    text: &[u8],
    end: RunEnd,
) -> Result<String, AllocError>
    requires { length text.now < 2 ^ 63 }
    ensures { IfOk result (λ line. string_bytes line ≡ line_of_run kind text.now end) }
{
    if let Some(line) = fixed_line_of_run(end) {
        return String::from_str(alloc, line);
    }
    let RunEnd::Ended(End::Trap(trap, at)) = end else {
        unreachable!()
    };
    trap_line(alloc, kind, text, trap, at)
}

// The part of the counts about regions and pages.
fn regions_made(alloc: Global, tally: Tally) -> Result<String, AllocError>
    ensures { IfOk result (λ text. string_bytes text ≡ regions_made tally) }
{
    let made = tally.made;
    let removed = tally.removed;
    let taken = tally.taken;
    let returned = tally.returned;
    format!(in alloc; "regions {made} removed {removed} pages {taken} returned {returned} ")
}

// The rest of the counts: objects and goroutines.
fn others_made(alloc: Global, tally: Tally) -> Result<String, AllocError>
    ensures { IfOk result (λ text. string_bytes text ≡ others_made tally) }
{
    let objects = tally.objects;
    let goroutines = tally.goroutines;
    format!(in alloc; "objects {objects} goroutines {goroutines}\n")
}

// The line of counts, followed by the line of the run's end. Both are one string, so that either all or none of it finds memory.
fn stats_lines(
    alloc: Global,
    kind: TextKind,
    text: &[u8],
    end: RunEnd,
    tally: Tally,
) -> Result<String, AllocError>
    requires { length text.now < 2 ^ 63 }
    ensures { IfOk result (λ lines. string_bytes lines ≡ stats_lines tally (line_of_run kind text.now end)) }
{
    let regions = regions_made(alloc, tally)?;
    let others = others_made(alloc, tally)?;
    let line = line_of_run(alloc, kind, text, end)?;
    format!(in alloc; "rgo: {regions}{others}{line}")
}

/// The lines of a run's end, after its counts if `--stats` asked for them.
fn lines_of_run(
    alloc: Global,
    kind: TextKind,
    text: &[u8],
    end: RunEnd,
    stats: Option<Tally>,
) -> Result<String, AllocError>
    requires { length text.now < 2 ^ 63 }
    ensures { IfOk result (λ lines. string_bytes lines ≡ lines_of_run kind text.now end stats) }
{
    match stats {
        Some(tally) => stats_lines(alloc, kind, text, end, tally),
        None => line_of_run(alloc, kind, text, end),
    }
}

/// The lines of an ending whose lines contain numbers. Only [`report`] calls it, after `fixed_line` returned `None`; the other
/// endings have a fixed line, so the last arm cannot be reached.
fn numbered_lines(alloc: Global, text: &[u8], ending: Ending) -> Result<String, AllocError>
    requires short { length text.now < 2 ^ 63 }
    requires has_number { LineHasNumber ending }
    ensures { IfOk result (λ lines. string_bytes lines ≡ line_of text.now ending) }
{
    match ending {
        Ending::Ran { kind, end, stats } => lines_of_run(alloc, kind, text, end, stats),
        Ending::Refused(refusal) => refusal_line(alloc, text, refusal),
        Ending::CodeRefused(refusal) => code_refusal_line(alloc, refusal),
        Ending::Valid | Ending::Usage | Ending::ReadFault | Ending::WriteFault | Ending::NoMemory =>
            unreachable!(),
    }
}

/// What to report instead if there is no memory for the lines of an ending. A failed write stays a failed write, since the user
/// has to learn that the output is incomplete; only its counts are dropped.
fn in_short(ending: Ending) -> Ending
    ensures { result ≡ in_short ending }
{
    match ending {
        Ending::Ran {
            kind,
            end: RunEnd::WriteFault,
            ..
        } => Ending::Ran {
            kind,
            end: RunEnd::WriteFault,
            stats: None,
        },
        _ => Ending::NoMemory,
    }
}

/// Writes the line of an ending whose line contains no numbers. It cannot fail for want of memory, so the last resort of a report
/// is always one of these.
fn tell<E: Sink>(ending: Ending, err: &mut E) -> u8
    requires { LineHasNumber ending → ⊥ }
    ensures { (text : List ℕ) → ReportsEnding text ending result (use_of E.Sink err.old err.new) }
{
    let Some(line) = fixed_line(ending) else {
        unreachable!()
    };
    write(err, line.as_bytes(), status_of(ending))
}

/// Writes the line, or, if there was no memory for it, the line which says that memory ran out.
pub(crate) fn write_or_no_memory<E: Sink>(
    err: &mut E,
    line: Result<String, AllocError>,
    status: u8,
) -> u8
    ensures { MatchResult line
        (λ line. WritesLine (string_bytes line) status result (use_of E.Sink err.old err.new))
        (λ _. WritesLine (line_of [] Ending.NoMemory) 11 result (use_of E.Sink err.old err.new)) }
{
    match line {
        Ok(line) => write(err, line.as_bytes(), status),
        Err(_) => tell(Ending::NoMemory, err),
    }
}

/// Writes the lines of an ending and returns its status. If there is no memory for the lines, it reports that memory ran out,
/// or the failed write if the run ended with one.
pub(crate) fn report<E: Sink>(alloc: Global, text: &[u8], ending: Ending, err: &mut E) -> u8
    requires { length text.now < 2 ^ 63 }
    ensures { Reports text.now ending result (use_of E.Sink err.old err.new) }
{
    if let Some(line) = fixed_line(ending) {
        return write(err, line.as_bytes(), status_of(ending));
    }
    match numbered_lines(alloc, text, ending) {
        Ok(lines) => write(err, lines.as_bytes(), status_of(ending)),
        Err(_) => tell(in_short(ending), err),
    }
}
