//! The comparison that all tests make.

use std::fmt::Debug;
use std::process::Abort;

/// Ends the test with this label unless the value is the expected one.
pub(crate) fn same<R: Abort, T: PartialEq + Debug>(rt: &R, label: &str, found: &T, wanted: &T) {
    assert_eq!(rt; found, wanted, "at {label}");
}

/// The same for a value of a row of a table.
pub(crate) fn same_in_row<R: Abort, T: PartialEq + Debug>(
    rt: &R,
    label: &str,
    row: usize,
    found: &T,
    wanted: &T,
) {
    assert_eq!(rt; found, wanted, "at {label} of row {row}");
}
