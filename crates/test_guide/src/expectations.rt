//! What tests expect. That a test ends if something isn't so is proved here once, and not in each test.
use std::fmt::{Debug, Display};
use std::process::Abort;

/// Ends the test if what was found isn't what is expected, with a message that begins with `what`.
pub(crate) fn same<T: PartialEq + Debug, D: Display>(
    rt: &impl Abort,
    what: &D,
    found: &T,
    expected: &T,
) {
    assert_eq!(rt; *found, *expected, "{what}");
}
