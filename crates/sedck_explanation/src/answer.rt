//! How the answer on a script is found, alone or with a certificate, and its status where something is denied.

ghost use Rattle.std.specs.Prelude.{◌≡◌, ◌&&◌, ◌||◌, ℕ, List, IfOk, IfSome, Some, None, length};
ghost use Rattle.std.specs.Option.{option_map};
ghost use Rattle.sedck_script.specs.Locations.{locations_of};
ghost use Rattle.sedck_script.specs.Items.{Item, Items};
ghost use Rattle.sedck_cert.specs.Limits.{is_unbounded, is_growing};
ghost use Rattle.sedck_cert.specs.Ranked.{Accepts};
ghost use Rattle.sedck_script.specs.Spelling.{Spells};
ghost use Rattle.sedck_cert.specs.Headline.{Only};
ghost use Rattle.sedck_cert.specs.declared.verifying.Fault.TheVariants as below;
ghost use Rattle.sedck_report.specs.Files.{is_there};
ghost use Rattle.sedck_answer.specs.Answers.{status_of};
ghost use Rattle.sedck_answer.specs.Status.{IsOfAnswer};
ghost use Rattle.sedck_explanation.specs.Answers.{IsAnswer};
ghost use Rattle.sedck_explanation.specs.Denial.{nothing, status_under, warns_of_denied};
ghost use Rattle.sedck_explanation.specs.Private.Answering.{IsFoundAnswer, IsJudgedAnswer, IsAcceptedAnswer, refusal};
ghost use Rattle.sedck_explanation.specs.Private.Errors.{IsRefused};

use sedck_answer::{Answer, Status};
use sedck_cert::{Cert, CertFault, Limits, Verdict, check, limits_of, read_any};
use sedck_errors::{Denied, any_denied, has_reads, has_writes};
use sedck_report::Finding;
use sedck_script::{Located, Script, ScriptFault, locate};
use sedck_search::{Found, search};
use std::alloc::{AllocError, Global};

/// What may be denied of a script's expressions.
#[derive(Clone, Copy)]
pub struct Expressions {
    /// Matching one may take very long.
    pub slow: bool,
    /// One has a reference.
    pub references: bool,
}

impl Expressions {
    /// There is none of either.
    pub const NONE: Expressions = Expressions {
        slow: false,
        references: false,
    };
}

/// The exit status where this is denied: `Rejected` for a script that is accepted and has what is denied, else that of the answer. Of
/// the findings the warnings count that are denied.
pub fn status_under(
    answer: &Answer,
    denied: Denied,
    findings: &[Finding],
    expressions: Expressions,
) -> Status
    ensures value { result ≡ status_under denied findings.now expressions answer.now }
    ensures few { IsOfAnswer result }
    // A no stays what it is, and without a denial a yes does too.
    ensures never_a_yes { result ≡ Status.Accepted → status_of answer.now ≡ Status.Accepted }
    ensures same { denied ≡ nothing → result ≡ status_of answer.now }
{
    match answer {
        Answer::Accepted { cert, limits } => {
            if has_denied(denied, cert, *limits, findings, expressions) {
                Status::Rejected
            } else {
                Status::Accepted
            }
        }
        _ => answer.status(),
    }
}

/// Whether what is denied is there, of a script that is accepted with this certificate.
fn has_denied(
    denied: Denied,
    cert: &Cert,
    limits: Limits,
    findings: &[Finding],
    expressions: Expressions,
) -> bool
    ensures { result ≡ ((denied.reads && is_there cert.now.reads) || (denied.writes && is_there cert.now.writes)
        || (denied.unbounded && is_unbounded limits) || (denied.growing && is_growing limits)
        || warns_of_denied denied findings.now || (denied.slow && expressions.slow)
        || (denied.references && expressions.references)) }
{
    (denied.reads && has_reads(cert))
        || (denied.writes && has_writes(cert))
        || (denied.unbounded && limits.is_unbounded())
        || (denied.growing && limits.is_growing())
        || any_denied(findings, denied.warnings)
        || (denied.slow && expressions.slow)
        || (denied.references && expressions.references)
}

/// An answer, and the script with the places of its commands where it isn't refused.
pub(crate) struct Answered<'a> {
    pub answer: Answer,
    pub located: Option<Located<'a>>,
}

/// Judges the certificate for the script, or searches for one where none is given.
pub(crate) fn answer_of<'a>(
    alloc: Global,
    text: &'a [u8],
    certificate: Option<&[u8]>,
) -> Result<Answered<'a>, AllocError>
    ensures answer { IfOk result (λ a. IsAnswer text.now (option_map (λ bytes. bytes.now) certificate.entry) a.answer) }
    ensures script { IfOk result (λ a. IfSome a.located (λ located. Only Spells text.now located.script)) }
    ensures locations { IfOk result (λ a. IfSome a.located (λ located. (items : List Item) (spelled : Items text.now items)
        → located.locations.items ≡ locations_of (length text.now) spelled)) }
    ensures refused { IfOk result (λ a. a.located ≡ None → IsRefused text.now a.answer) }
{
    let located = match locate(alloc, text) {
        Ok(located) => located,
        Err(fault) => {
            return Ok(Answered {
                answer: refused_script(fault)?,
                located: None,
            });
        }
    };
    let answer = match certificate {
        Some(certificate) => judged_answer(alloc, &located.script, certificate)?,
        None => found_answer(alloc, &located.script)?,
    };
    Ok(Answered {
        answer,
        located: Some(located),
    })
}

/// The answer for a script that was read, with this certificate's text.
fn judged_answer(alloc: Global, script: &Script, certificate: &[u8]) -> Result<Answer, AllocError>
    ensures { IfOk result (IsJudgedAnswer script.now certificate.now) }
{
    let cert = match read_any(alloc, certificate) {
        Ok(cert) => cert,
        Err(fault) => return refused_certificate(fault),
    };
    match check(script, &cert) {
        Verdict::Accepted => Ok(accepted(script, cert)),
        Verdict::Rejected(why) => Ok(Answer::Rejected { cert, why }),
    }
}

/// The answer for a certificate that is accepted.
fn accepted(script: &Script, cert: Cert) -> Answer
    requires { Accepts script.now cert }
    ensures { IsAcceptedAnswer script.now cert result }
{
    let limits = limits_of(script, &cert);
    Answer::Accepted { cert, limits }
}

/// The answer for a script's text that is refused.
fn refused_script(fault: ScriptFault) -> Result<Answer, AllocError>
    ensures { IfOk result (λ answer. refusal (below.Script fault) ≡ Some answer) }
{
    match fault {
        ScriptFault::OutOfMemory => Err(AllocError),
        fault => Ok(Answer::ScriptRefused(fault)),
    }
}

/// The answer for a certificate's text that is refused.
fn refused_certificate(fault: CertFault) -> Result<Answer, AllocError>
    ensures { IfOk result (λ answer. refusal (below.Certificate fault) ≡ Some answer) }
{
    match fault {
        CertFault::OutOfMemory => Err(AllocError),
        fault => Ok(Answer::CertificateRefused(fault)),
    }
}

/// The answer of the search.
fn found_answer(alloc: Global, script: &Script) -> Result<Answer, AllocError>
    ensures { IfOk result (IsFoundAnswer script.now) }
{
    match search(alloc, script)? {
        Found::Ranks(cert) => Ok(accepted(script, cert)),
        Found::Loop(walk) => Ok(Answer::Endless(walk)),
    }
}
