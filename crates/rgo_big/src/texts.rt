//! Writes the large text part by part, in the order of its definition (specs/Big.antt). rgo_run calls [`big_source`] and then treats
//! the text like any other.

ghost use Rattle.std.specs.Prelude.{◌≡◌, ◌++◌, ◌+◌, ◌*◌, ◌≤◌, IfOk, OnOk, decimal, length};
ghost use Rattle.rgo_big.specs.Big.{big_text, main_text, numbered_bytes, starter, starters, summer, summers, sums};

use itoa::Buffer;
use std::alloc::{AllocError, Global};

/// The beginning of the text, the same for every number: a list type, and functions that build and sum a list.
const LISTS: &[u8] =
    b"package main\n\nimport \"fmt\"\n\ntype N struct {\n\tv int\n\tnext *N\n}\n\nfunc list(n int) *N {\n\tvar l *N\n\tfor i := 0; i < n; i++ {\n\t\tl = &N{i, l}\n\t}\n\treturn l\n}\n\nfunc sum(l *N) int {\n\ts := 0\n\tfor l != nil {\n\t\ts += l.v\n\t\tl = l.next\n\t}\n\treturn s\n}\n\n";

fn write(text: &mut Vec<u8>, bytes: &[u8]) -> Result<(), AllocError>
    ensures { OnOk result (text.new.items ≡ text.old.items ++ bytes.now) }
{
    text.extend_from_slice(bytes)
}

fn write_number(text: &mut Vec<u8>, n: u32) -> Result<(), AllocError>
    ensures { OnOk result (text.new.items ≡ text.old.items ++ decimal n) }
{
    let mut buffer = Buffer::new();
    text.extend_from_slice(buffer.format(n).as_bytes())
}

/// Appends some bytes and then a number.
fn write_numbered(text: &mut Vec<u8>, bytes: &[u8], n: u32) -> Result<(), AllocError>
    ensures { OnOk result (text.new.items ≡ text.old.items ++ numbered_bytes bytes.now n) }
{
    write(text, bytes)?;
    write_number(text, n)
}

/// Appends the function of goroutine `k`.
fn write_summer(text: &mut Vec<u8>, k: u32) -> Result<(), AllocError>
    ensures { OnOk result (text.new.items ≡ text.old.items ++ summer k) }
{
    write_numbered(text, b"func f", k)?;
    write_numbered(text, b"(c chan int) { c <- sum(list(", k % 10 + 1)?;
    write(text, b")) }\n")?;
    Ok(())
}

/// Appends the functions of the first `n` goroutines. Each has one of its own, so that code and summaries grow with `n`, too.
fn write_summers(text: &mut Vec<u8>, n: u32) -> Result<(), AllocError>
    ensures { OnOk result (text.new.items ≡ text.old.items ++ summers n) }
{
    for k in 0..n {
        write_summer(text, k)?;
    }
    Ok(())
}

/// Appends the statement that starts goroutine `k`.
fn write_starter(text: &mut Vec<u8>, k: u32) -> Result<(), AllocError>
    ensures { OnOk result (text.new.items ≡ text.old.items ++ starter k) }
{
    write_numbered(text, b"\tgo f", k)?;
    write(text, b"(c)\n")?;
    Ok(())
}

/// Appends the statements that start the first `n` goroutines, all before `main` receives anything.
fn write_starters(text: &mut Vec<u8>, n: u32) -> Result<(), AllocError>
    ensures { OnOk result (text.new.items ≡ text.old.items ++ starters n) }
{
    for k in 0..n {
        write_starter(text, k)?;
    }
    Ok(())
}

/// Appends the rest of `main` after the starts: it receives all sums and prints `n` and their total.
fn write_sums(text: &mut Vec<u8>, n: u32) -> Result<(), AllocError>
    ensures { OnOk result (text.new.items ≡ text.old.items ++ sums n) }
{
    write_numbered(text, b"\ts := 0\n\tfor i := 0; i < ", n)?;
    write_numbered(text, b"; i++ {\n\t\ts += <-c\n\t}\n\tfmt.Println(", n)?;
    write(text, b", s)\n}\n")?;
    Ok(())
}

/// Appends the function `main`.
fn write_main(text: &mut Vec<u8>, n: u32) -> Result<(), AllocError>
    ensures { OnOk result (text.new.items ≡ text.old.items ++ main_text n) }
{
    write(text, b"\nfunc main() {\n\tc := make(chan int, 16)\n")?;
    write_starters(text, n)?;
    write_sums(text, n)?;
    Ok(())
}

/// The text of a program with `n` goroutines besides `main`. Goroutine `k`, counted from 0, makes a list of the numbers below
/// `k % 10 + 1` and sends their sum to `main`, which prints `n` and the sum of all: 165 for each ten goroutines.
///
/// The text has at most 71 bytes per goroutine, plus 364.
///
/// # Errors
///
/// If an allocation failed.
pub fn big_source(alloc: Global, n: u32) -> Result<Vec<u8>, AllocError>
    ensures text { IfOk result (λ text. text.items ≡ big_text n) }
    ensures length { IfOk result (λ text. length text.items ≤ 71 * n + 364) }
{
    let mut text = Vec::new(alloc);
    write(&mut text, LISTS)?;
    write_summers(&mut text, n)?;
    write_main(&mut text, n)?;
    Ok(text)
}
