//! One call of the crates below, made twice. `tests/refusals.py` has each request for memory of the first call refused in turn.

use crate::{engines, readers};
use std::io;

/// What the call answers, and what it answers then; each text is a word.
pub fn answer_twice(
    rt: &(impl Print + AllocGlobal),
    call: &str,
    script: &str,
    rest: &[String],
) -> io::Result<u8> {
    let certificate = match rest {
        [certificate, ..] => certificate.as_bytes(),
        [] => b"",
    };
    println!(rt; "first")?;
    answer(rt, call, script.as_bytes(), certificate)?;
    println!(rt; "again")?;
    answer(rt, call, script.as_bytes(), certificate)?;
    Ok(0)
}

/// Makes the call, and prints what it answers.
fn answer(
    rt: &(impl Print + AllocGlobal),
    call: &str,
    script: &[u8],
    certificate: &[u8],
) -> io::Result<()> {
    match call {
        "expression" => readers::expression(rt, script),
        "script" => readers::script(rt, script),
        "locate" => readers::locations(rt, script),
        "certificate" => readers::certificate(rt, script),
        "old" => readers::old_certificate(rt, script),
        "either" => readers::either_certificate(rt, script),
        "judge" => engines::judgement(rt, script, certificate),
        "verify" => engines::verdict(rt, script, certificate),
        "search" => engines::found(rt, script),
        _ => engines::report(rt, call, script, certificate),
    }
}
