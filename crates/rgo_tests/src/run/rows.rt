//! Tables of calls of `rgo` as texts. A row is
//!
//! ```text
//! > rgo run --stats // a remark
//! the lines of the text
//! < the status
//! what is printed
//! !
//! what is reported
//! ```
//!
//! A row begins after an empty line. The remark may be missing, and so may `!` with what follows. The first line may contain several
//! calls, with `|` between them.

use super::calls::{Outside, expect};
use std::alloc::AllocError;
use std::process::Abort;
use std::thread::Threads;

/// Calls, and what is expected of each.
#[derive(Clone, Copy)]
struct Row<'a> {
    calls: &'a str,
    lines: &'a str,
    status: u8,
    print: &'a str,
    report: &'a str,
}

fn calls_in(first: &str) -> &str {
    match first.split_once(" // ") {
        Some((calls, _)) => calls,
        None => first,
    }
}

fn row_of(row: &str) -> Option<Row<'_>> {
    let (first, rest) = row.split_once('\n')?;
    let (lines, rest) = rest.split_once("\n< ")?;
    let (status, output) = rest.split_once('\n')?;
    let (print, report) = output.split_once("!\n").unwrap_or((output, ""));
    Some(Row {
        calls: calls_in(first),
        lines,
        status: status.parse().ok()?,
        print,
        report,
    })
}

/// The call for a malformed row: words that no row has, so that the test fails there.
fn not_a_row(row: &str) -> Row<'_> {
    Row {
        calls: "not a row",
        lines: row,
        status: 0,
        print: "",
        report: "",
    }
}

/// Calls `rgo` as a row says.
fn is_called<R: Threads + Abort + AllocGlobal + Sync>(
    rt: &R,
    before: &str,
    row: &str,
    after: &str,
    outside: Outside,
) -> Result<(), AllocError> {
    let found = row_of(row).unwrap_or(not_a_row(row));
    let lines = found.lines;
    let text = format!(in rt.alloc(); "{before}{lines}{after}")?;
    let wanted = (found.print, found.report, found.status);
    for words in found.calls.split(" | ") {
        expect(rt, words, text.as_bytes(), outside, wanted)?;
    }
    Ok(())
}

/// Calls `rgo` for each row of a table, with the row's lines between `before` and `after`, and ends the test at the first difference.
pub(super) fn are_called<R: Threads + Abort + AllocGlobal + Sync>(
    rt: &R,
    before: &str,
    table: &str,
    after: &str,
    outside: Outside,
) {
    for row in table.strip_prefix("\n> ").unwrap_or(table).split("\n> ") {
        assert!(rt;
            is_called(rt, before, row, after, outside).is_ok(),
            "no memory"
        );
    }
}
