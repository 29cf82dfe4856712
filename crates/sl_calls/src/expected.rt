//! What tests expect. A call ends the test where something isn't as expected, so that the test itself has no branches:
//! each would be proved.

use std::process::Abort;

/// That this is so.
pub fn expect_that(rt: &impl Abort, what: &str, so: bool) {
    assert!(rt; so, "expected: {what}");
}

/// That these bytes came.
pub fn expect_bytes(rt: &impl Abort, came: &[u8], due: &[u8]) {
    let came_text = came.escape_ascii();
    let due_text = due.escape_ascii();
    assert!(rt; came == due, "came: {came_text}, due: {due_text}");
}
