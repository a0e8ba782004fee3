//! The report of what the search found: a certificate's text, or a loop.

ghost use Rattle.std.specs.Prelude.{◌≡◌, IfOk, length, suc};
ghost use Rattle.sedck_cert.specs.Text.{certificate_text};
ghost use Rattle.sedck_engines.specs.Reports.{form_words, found_text, loop_text};
ghost use Rattle.sedck_engines.specs.Private.Reports.{IsWritten};

use crate::report::add_line;
use sedck_cert::streams::FromWrite;
use sedck_cert::{Cert, write_cert};
use sedck_search::{Form, Found, Walk};
use std::alloc::{AllocError, Global};

/// The text of the certificate that was found, or the loop.
pub(crate) fn rank_report(alloc: Global, found: &Found) -> Result<Vec<u8>, AllocError>
    requires { IsWritten found.now }
    ensures { IfOk result (λ report. report.items ≡ found_text found.now) }
{
    match found {
        Found::Ranks(cert) => certificate_report(alloc, cert),
        Found::Loop(walk) => loop_report(alloc, walk),
    }
}

/// The certificate's text.
pub(crate) fn certificate_report(alloc: Global, cert: &Cert) -> Result<Vec<u8>, AllocError>
    ensures { IfOk result (λ report. report.items ≡ certificate_text cert.now) }
{
    let mut out = FromWrite::new(Vec::new(alloc));
    match write_cert(cert, &mut out) {
        Ok(()) => Ok(out.into_inner()),
        Err(_) => Err(AllocError),
    }
}

/// What kind of loop it is, each of its edges on a line with the node that it leaves, and the last node.
fn loop_report(alloc: Global, walk: &Walk) -> Result<Vec<u8>, AllocError>
    requires { length walk.now.nodes.items ≡ suc (length walk.now.kinds.items) }
    ensures { IfOk result (λ report. report.items ≡ loop_text walk.now) }
{
    let mut report = Vec::new(alloc);
    add_line(&mut report, words_of(walk.form))?;
    for index in 0..walk.kinds.len() {
        let node = walk.nodes[index];
        let kind = walk.kinds[index];
        let words = format!(in alloc; "{node} {kind}")?;
        add_line(&mut report, words.as_bytes())?;
    }
    let last = walk.nodes[walk.kinds.len()];
    let words = format!(in alloc; "{last}")?;
    add_line(&mut report, words.as_bytes())?;
    Ok(report)
}

/// What kind of loop it is.
fn words_of(form: Form) -> &'static [u8]
    ensures { result.now ≡ form_words form }
{
    match form {
        Form::Idle => b"loop idle",
        Form::Growing => b"loop growing",
    }
}
