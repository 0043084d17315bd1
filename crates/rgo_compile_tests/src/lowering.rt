//! Which code a text has.

use crate::checks::same;
use crate::codes::code_of;
use crate::listing::listing;
use crate::texts::{LINES, WITH_PLACES};
use std::test::Fail;

#[test]
fn texts_have_this_code(rt: HostRuntime) -> Result<(), Fail> {
    for (lines, wanted) in &LINES {
        let code = code_of(&rt, lines)?;
        let found = listing(rt.alloc(), &code, false)?;
        same(&rt, lines, &found.as_str(), wanted);
    }
    Ok(())
}

#[test]
fn instructions_have_their_places(rt: HostRuntime) -> Result<(), Fail> {
    for (lines, wanted) in &WITH_PLACES {
        let code = code_of(&rt, lines)?;
        let found = listing(rt.alloc(), &code, true)?;
        same(&rt, lines, &found.as_str(), wanted);
    }
    Ok(())
}
