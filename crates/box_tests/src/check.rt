//! Comparisons of the tests. A call has no branch to be proved in each test, as `assert_eq!` has.

use std::fmt::Debug;
use std::process::Abort;

/// Aborts with both values where they differ.
pub fn same<T: PartialEq + Debug>(rt: &impl Abort, found: &T, wanted: &T) {
    assert_eq!(rt; *found, *wanted);
}

/// The same, with the name of the row.
pub fn same_at<T: PartialEq + Debug>(rt: &impl Abort, row: &str, found: &T, wanted: &T) {
    assert_eq!(rt; *found, *wanted, "{row}");
}
