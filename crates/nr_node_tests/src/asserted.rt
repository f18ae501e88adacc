// What tests assert, each by one call: where a function asserts by itself, its proof grows with each branch.
use std::process::Abort;

/// Ends the test where this isn't so.
pub(crate) fn holds(rt: &impl Abort, what: &str, is_so: bool) {
    assert!(rt; is_so, "{what}");
}

/// Ends the test where these bytes aren't the wanted ones.
pub(crate) fn same(rt: &impl Abort, what: &str, bytes: &[u8], wanted: &[u8]) {
    assert!(rt; bytes == wanted, "{what}");
}
