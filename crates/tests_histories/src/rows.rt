//! Test cases that are the rows of a list.
use std::process::Abort;

/// Ends the test if its test case of this number does not hold: the only place where a message is
/// formatted, which is expensive to prove.
pub(crate) fn row_holds(rt: &impl Abort, at: usize, is_so: bool) {
    assert!(rt; is_so, "row {at}");
}
