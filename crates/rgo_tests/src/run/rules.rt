//! Texts that break a rule on meaning, have wrong syntax, or pass.

use super::calls::{HEAD, SOUND, expect};
use super::{broken_texts, rule_texts};
use std::alloc::{AllocError, Global};
use std::process::Abort;
use std::thread::Threads;

/// What a check reports: nothing if all is `ok`.
fn report_of(alloc: Global, finding: &str) -> Result<String, AllocError> {
    if finding == "ok" {
        return Ok(String::new(alloc));
    }
    format!(in alloc; "rgo: {finding}\n")
}

/// Checks the text of a row, in which a `~` means a newline, between two others. The finding is before the first `|`.
fn is_checked<R: Threads + Abort + AllocGlobal + Sync>(
    rt: &R,
    before: &str,
    row: &str,
    after: &str,
) -> Result<(), AllocError> {
    let alloc = rt.alloc();
    let (finding, lines) = row.split_once(" | ").unwrap_or(("not a row", row));
    let text = format!(in alloc; "{before}{lines}{after}")?;
    let text = text.replace(alloc, "~", "\n")?;
    let report = report_of(alloc, finding)?;
    let status = if report.is_empty() { 0 } else { 1 };
    let wanted = ("", report.as_str(), status);
    expect(rt, "rgo check", text.as_bytes(), SOUND, wanted)
}

/// Checks the text of each row of a table, and ends the test where something else is found.
fn are_checked<R: Threads + Abort + AllocGlobal + Sync>(
    rt: &R,
    before: &str,
    table: &str,
    after: &str,
) {
    for row in table.lines() {
        assert!(rt; is_checked(rt, before, row, after).is_ok(), "no memory");
    }
}

#[test]
fn texts_break_rules_or_pass(rt: HostRuntime) {
    are_checked(&rt, HEAD, rule_texts::RULES, "\n");
    are_checked(&rt, HEAD, rule_texts::PASSING, "\n");
    are_checked(&rt, HEAD, rule_texts::SYNTAX, "\n");
    are_checked(&rt, HEAD, broken_texts::DECLARATIONS, "\n");
    are_checked(&rt, HEAD, broken_texts::ORDER, "\n");
    are_checked(&rt, HEAD, broken_texts::OPERATORS, "\n");
    are_checked(&rt, HEAD, broken_texts::STATEMENTS, "\n");
    are_checked(&rt, "", rule_texts::WHOLE, "");
}
