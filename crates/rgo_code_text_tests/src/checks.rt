//! The comparisons that all tests of code texts make.

use rgo_code_printing::print_code;
use rgo_code_text::{ReadError, read_code};
use std::alloc::Global;
use std::fmt::Debug;
use std::process::Abort;
use std::test::Fail;

/// Ends the test with this label unless the value is the expected one.
pub fn same<R: Abort, T: PartialEq + Debug>(rt: &R, label: &str, found: &T, wanted: &T) {
    assert_eq!(rt; found, wanted, "at {label}");
}

/// A text as it is printed after it was read, or the line that is rejected.
fn shown(alloc: Global, text: &[u8]) -> Result<String, Fail> {
    match read_code(alloc, text) {
        Ok(code) => {
            let bytes = print_code(alloc, &code)?;
            let again = std::str::from_utf8(&bytes).unwrap_or("?");
            Ok(String::from_str(alloc, again)?)
        }
        Err(ReadError::Refused(refusal)) => Ok(format!(in alloc; "{}", refusal.line)?),
        Err(ReadError::TooLarge) => Err(Fail::from("too large")),
        Err(ReadError::NoMemory) => Err(Fail::from("out of memory")),
    }
}

/// The text can be read, and is printed unchanged.
pub fn is_read<R: Abort + AllocGlobal>(rt: &R, text: &str) -> Result<(), Fail> {
    let again = shown(rt.alloc(), text.as_bytes())?;
    assert_eq!(rt; again.as_str(), text);
    Ok(())
}

/// The text is rejected at this line.
pub fn is_refused<R: Abort + AllocGlobal>(rt: &R, text: &str, line: usize) -> Result<(), Fail> {
    let again = shown(rt.alloc(), text.as_bytes())?;
    let wanted = format!(in rt.alloc(); "{line}")?;
    assert_eq!(rt; again.as_str(), wanted.as_str(), "{text}");
    Ok(())
}

/// A line in the body of a function of such a text, alone.
pub fn with_line(alloc: Global, line: &str) -> Result<String, Fail> {
    Ok(format!(in alloc;
        "rgo code 1\nstruct N int *N\nglobal g []int\nfunc f 0 - -\nentry -[]\n0 @1 +[] {line}\nend\n"
    )?)
}
