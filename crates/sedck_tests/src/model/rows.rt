//! What stops a test where a row doesn't hold.

use std::fmt::Debug;
use std::process::Abort;

/// Stops the test where this doesn't hold of the row. A function, since each message is proved where it is written.
pub fn require(rt: &impl Abort, holds: bool, row: &str) {
    assert!(rt; holds, "{row}");
}

/// Stops the test where what is found isn't what is wanted in the row.
pub fn require_equal<T: PartialEq + Debug + Copy, R: Debug + Copy>(
    rt: &impl Abort,
    found: T,
    wanted: T,
    row: R,
) {
    assert_eq!(rt; found, wanted, "{row:?}");
}
