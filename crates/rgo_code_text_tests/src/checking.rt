//! The checker on code texts that break a rule or have a malformed line: which rule, and at which line.

use crate::checks::same;
use crate::code_texts::{bytes, cuts, forms, rules, texts};
use rgo_checker::{CheckError, check_code};
use rgo_code::Code;
use rgo_code_text::{ReadError, read_code};
use std::alloc::Global;
use std::process::Abort;
use std::test::Fail;

fn checked(alloc: Global, code: &Code) -> Result<(u8, u32), Fail> {
    match check_code(alloc, code) {
        Ok(()) => Ok((0, 0)),
        Err(CheckError::Refused(refusal)) => Ok((refusal.rule.number(), refusal.line)),
        Err(CheckError::TooLarge) => Err(Fail::from("too large")),
        Err(CheckError::NoMemory) => Err(Fail::from("out of memory")),
    }
}

/// The rule that is broken and its line: rule 0 if a line is malformed, and 0 and 0 if the text keeps all rules.
fn reported(alloc: Global, text: &str) -> Result<(u8, u32), Fail> {
    match read_code(alloc, text.as_bytes()) {
        Ok(code) => checked(alloc, &code),
        Err(ReadError::Refused(refusal)) => Ok((0, refusal.line)),
        Err(ReadError::TooLarge) => Err(Fail::from("too large")),
        Err(ReadError::NoMemory) => Err(Fail::from("out of memory")),
    }
}

/// The text with another one in place of the line of this number.
fn replaced(alloc: Global, text: &str, number: usize, other: &str) -> Result<String, Fail> {
    let mut result = String::new(alloc);
    for (n, line) in text.lines().enumerate() {
        if n == number.saturating_sub(1) {
            result.push_str(other)?;
        } else {
            result.push_str(line)?;
            result.push('\n')?;
        }
    }
    Ok(result)
}

/// The line with another text in place of one of its characters.
fn changed(alloc: Global, line: &str, at: usize, other: &str) -> Result<String, Fail> {
    let mut result = String::new(alloc);
    for (n, c) in line.chars().enumerate() {
        if n == at {
            result.push_str(other)?;
        } else {
            result.push(c)?;
        }
    }
    result.push('\n')?;
    Ok(result)
}

/// The first lines of the text.
fn cut(alloc: Global, text: &str, count: usize) -> Result<String, Fail> {
    let mut result = String::new(alloc);
    for line in text.lines().take(count) {
        result.push_str(line)?;
        result.push('\n')?;
    }
    Ok(result)
}

fn is_reported<R: Abort + AllocGlobal>(rt: &R, text: &str, wanted: (u8, u32)) -> Result<(), Fail> {
    let found = reported(rt.alloc(), text)?;
    same(rt, text, &found, &wanted);
    Ok(())
}

fn are_replaced<R: Abort + AllocGlobal>(
    rt: &R,
    rows: &[(usize, &str, u8, u32)],
) -> Result<(), Fail> {
    for (number, other, rule, line) in rows.iter() {
        let text = replaced(rt.alloc(), texts::ALL, *number, other)?;
        is_reported(rt, text.as_str(), (*rule, *line))?;
    }
    Ok(())
}

fn are_cut<R: Abort + AllocGlobal>(
    rt: &R,
    whole: &str,
    rows: &[(usize, u8, u32)],
) -> Result<(), Fail> {
    for (count, rule, line) in rows.iter() {
        let text = cut(rt.alloc(), whole, *count)?;
        is_reported(rt, text.as_str(), (*rule, *line))?;
    }
    Ok(())
}

fn are_changed<R: Abort + AllocGlobal>(
    rt: &R,
    whole: &str,
    rows: &[(usize, usize, &str, u8, u32)],
) -> Result<(), Fail> {
    for (number, at, other, rule, line) in rows.iter() {
        let before = whole.lines().nth(number.saturating_sub(1)).unwrap_or("");
        let after = changed(rt.alloc(), before, *at, other)?;
        let text = replaced(rt.alloc(), whole, *number, after.as_str())?;
        is_reported(rt, text.as_str(), (*rule, *line))?;
    }
    Ok(())
}

#[test]
fn all_rules_are_kept(rt: HostRuntime) -> Result<(), Fail> {
    let all = [
        texts::ALL,
        texts::CALLS,
        texts::FIELD,
        texts::GLOBALS,
        texts::GOROUTINES,
        texts::LOOP,
    ];
    for text in all.iter() {
        is_reported(&rt, text, (0, 0))?;
    }
    Ok(())
}

#[test]
fn rules_are_broken(rt: HostRuntime) -> Result<(), Fail> {
    are_replaced(&rt, &rules::EXISTENCE)?;
    are_replaced(&rt, &rules::TYPES)?;
    are_replaced(&rt, &rules::CLASSES)?;
    are_replaced(&rt, &rules::REGIONS)
}

#[test]
fn lines_have_no_form(rt: HostRuntime) -> Result<(), Fail> {
    are_replaced(&rt, &forms::FORMS)
}

#[test]
fn texts_end_early(rt: HostRuntime) -> Result<(), Fail> {
    are_cut(&rt, texts::CALLS, &cuts::CALLS)?;
    are_cut(&rt, texts::FIELD, &cuts::FIELD)?;
    are_cut(&rt, texts::GLOBALS, &cuts::GLOBALS)?;
    are_cut(&rt, texts::GOROUTINES, &cuts::GOROUTINES)?;
    are_cut(&rt, texts::LOOP, &cuts::LOOP)
}

#[test]
fn bytes_are_changed(rt: HostRuntime) -> Result<(), Fail> {
    are_changed(&rt, texts::CALLS, &bytes::CALLS)?;
    are_changed(&rt, texts::FIELD, &bytes::FIELD)?;
    are_changed(&rt, texts::GLOBALS, &bytes::GLOBALS)?;
    are_changed(&rt, texts::GOROUTINES, &bytes::GOROUTINES)?;
    are_changed(&rt, texts::LOOP, &bytes::LOOP)
}
