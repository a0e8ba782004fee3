//! What stops a test where a row doesn't hold, and what texts are read as.
use sedck_bre::Expr;
use sedck_cert::Cert;
use sedck_script::Script;
use std::alloc::Global;
use std::process::Abort;

/// Stops the test where this doesn't hold of the row. A function, since each message is proved where it is written.
pub fn require(rt: &impl Abort, holds: bool, row: &[u8]) {
    assert!(rt; holds, "{row:?}");
}

/// Stops the test where the bytes found aren't those wanted in the row.
pub fn require_bytes(rt: &impl Abort, found: &[u8], wanted: &[u8], row: &[u8]) {
    require(rt, found == wanted, row);
}

/// The script that the text spells.
pub fn script_of<'a>(rt: &impl Abort, alloc: Global, text: &'a [u8]) -> Script<'a> {
    sedck_script::parse(alloc, text).ok().expect(rt, "a script")
}

/// The expression that the text spells.
pub fn expression_of(rt: &impl Abort, alloc: Global, text: &[u8]) -> Expr {
    sedck_bre::parse(alloc, text)
        .ok()
        .expect(rt, "an expression")
}

/// The certificate that the text of either version spells.
pub fn certificate_of(rt: &impl Abort, alloc: Global, text: &[u8]) -> Cert {
    sedck_cert::read_any(alloc, text)
        .ok()
        .expect(rt, "a certificate")
}
