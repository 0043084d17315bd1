//! The comparison that all tests make.

use std::fmt::Debug;
use std::process::Abort;

/// Ends the test with this label unless the value is the expected one.
pub(crate) fn same<R: Abort, T: PartialEq + Debug>(rt: &R, label: &str, found: &T, wanted: &T) {
    assert_eq!(rt; found, wanted, "at {label}");
}
