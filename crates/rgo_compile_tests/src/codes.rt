//! Compiles the texts of these tests.

use crate::texts::HEAD;
use rgo_run::lower_text;
use rgo_tac::Tac;
use std::alloc::Global;
use std::test::Fail;

/// The code of a text after the head; a text that is not valid fails the test.
pub(crate) fn code_of<R: AllocGlobal>(rt: &R, lines: &str) -> Result<Tac, Fail> {
    let alloc: Global = rt.alloc();
    let text = format!(in alloc; "{HEAD}{lines}")?;
    match lower_text(alloc, text.as_bytes()) {
        Ok(code) => Ok(code),
        Err(error) => Err(Fail::from(format!(in alloc; "{lines}: {error:?}")?)),
    }
}
