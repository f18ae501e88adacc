// What tests assert, by one call: where a function asserts by itself, its proof grows with each branch.
use std::process::Abort;

/// Ends the test where this isn't so.
pub(crate) fn holds(rt: &impl Abort, what: &str, is_so: bool) {
    assert!(rt; is_so, "{what}");
}
