//! From two texts to the verdict.

ghost use Rattle.std.specs.Prelude.{◌≡◌, IfOk};
ghost use Rattle.sedck_cert.specs.Headline.{SpellBoth, ReadBoth, IsSafe, IsAccepted, IsAnswered, IsOutOfMemory, IsJudged, IsLimit, IsVerdict, SaysWhy, ReportsFault, verdict_of};
ghost use Rattle.sedck_cert.specs.Everywhere.{IsSafeEverywhere, IsLimitEverywhere};

use crate::bounding::limit;
use crate::certificate::Cert;
use crate::checking::{Verdict, check};
use crate::limits::Bound;
use crate::reading::{CertFault, read_any};
use sedck_script::{Script, ScriptFault};
use std::alloc::Global;

/// Why a script and a certificate can't be judged.
#[derive(Clone, Copy, Drop)]
pub enum Fault {
    Script(ScriptFault),
    Certificate(CertFault),
}

/// A script and a certificate that were judged, the verdict, and the limit on the steps of the script's runs, where it
/// has one.
#[derive(Drop)]
pub struct Judged<'a> {
    pub script: Script<'a>,
    pub cert: Cert,
    pub verdict: Verdict,
    pub bound: Option<Bound>,
}

/// Judges a certificate's text, of either version, for a script's text, and keeps what was read. Each text is read once.
///
/// Where the verdict is `Accepted`, the script's runs end: for every finite list of input lines
/// there is a number of steps that no run of the script exceeds. And every file that a run creates,
/// writes or reads by a command is in the certificate's lists. The same holds `everywhere`: for every list of files and every
/// byte that ends lines, in each locale in which the script says the same by characters as by bytes.
pub fn judge<'a>(alloc: Global, script: &'a [u8], certificate: &[u8]) -> Result<Judged<'a>, Fault>
    ensures promise { IsAccepted (verdict_of result) → ReadBoth script.now certificate.now IsSafe }
    ensures everywhere { IsAccepted (verdict_of result) → ReadBoth script.now certificate.now IsSafeEverywhere }
    ensures answer { (¬ IsOutOfMemory (verdict_of result)) → IsAnswered script.now certificate.now (verdict_of result) }
    ensures reported { ReportsFault script.now certificate.now (verdict_of result) }
    ensures judged { IfOk result (IsJudged script.now certificate.now) }
    ensures limited { IfOk result (λ judged. IsLimitEverywhere judged.script judged.bound) }
{
    let script = match sedck_script::parse(alloc, script) {
        Ok(script) => script,
        Err(fault) => return Err(Fault::Script(fault)),
    };
    let cert = match read_any(alloc, certificate) {
        Ok(cert) => cert,
        Err(fault) => return Err(Fault::Certificate(fault)),
    };
    Ok(with_verdict(script, cert))
}

/// The script and the certificate with their verdict.
fn with_verdict<'a>(script: Script<'a>, cert: Cert) -> Judged<'a>
    ensures script { result.script ≡ script.entry }
    ensures cert { result.cert ≡ cert }
    ensures verdict { IsVerdict script.entry cert result.verdict }
    ensures limit { IsLimit script.entry cert result.bound }
    ensures everywhere { IsLimitEverywhere script.entry result.bound }
{
    let verdict = check(&script, &cert);
    let bound = match verdict {
        Verdict::Accepted => limit(&script, &cert),
        Verdict::Rejected(_) => None,
    };
    Judged {
        script,
        cert,
        verdict,
        bound,
    }
}

/// Judges a certificate's text, of either version, for a script's text.
///
/// Where the answer is `Ok(Accepted)`, the script's runs end: for every finite list of input lines
/// there is a number of steps that no run of the script exceeds. And every file that a run creates,
/// writes or reads by a command is in the certificate's lists. The same holds `everywhere`, as `judge` has it.
pub fn verify(alloc: Global, script: &[u8], certificate: &[u8]) -> Result<Verdict, Fault>
    ensures promise { IsAccepted result → ReadBoth script.now certificate.now IsSafe }
    ensures everywhere { IsAccepted result → ReadBoth script.now certificate.now IsSafeEverywhere }
    ensures answer { (¬ IsOutOfMemory result) → IsAnswered script.now certificate.now result }
    ensures why { SaysWhy script.now certificate.now result }
    ensures reported { ReportsFault script.now certificate.now result }
{
    match judge(alloc, script, certificate) {
        Ok(judged) => Ok(judged.verdict),
        Err(fault) => Err(fault),
    }
}
