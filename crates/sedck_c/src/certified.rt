//! A script with a certificate that is found and checked, or none.

ghost use Rattle.std.specs.Prelude.{◌≡◌, IfOk, IfErr};
ghost use Rattle.sedck_engines.specs.Engines.{RanksTo};
ghost use Rattle.sedck_c.specs.Private.Answers.{IsCertified, IsRefusedAs, IsRefusedBy, IsSearched, IsRefusedIn};

use sedck_cert::streams::{FromRead, FromWrite, Sink, Source};
use sedck_cert::{Bound, Cert, Verdict, check, limit};
use sedck_engines::{Outcome, RunFault, run_rank};
use sedck_script::{ScriptFault, parse};
use sedck_search::{Found, search};
use std::alloc::Global;

/// A certificate that is accepted, and the limit on the steps, where there is one.
#[derive(Drop)]
pub struct Certified {
    pub cert: Cert,
    pub bound: Option<Bound>,
}

/// Searches for a certificate, and checks what it finds. There is none where a loop rules out every certificate.
pub(crate) fn certify(alloc: Global, text: &[u8]) -> Result<Option<Certified>, ScriptFault>
    ensures found { IfOk result (IsCertified text.now) }
    ensures refused { IfErr result (IsRefusedAs text.now) }
{
    let script = match parse(alloc, text) {
        Ok(script) => script,
        Err(why) => return Err(why),
    };
    let Found::Ranks(cert) = search(alloc, &script)? else {
        return Ok(None);
    };
    match check(&script, &cert) {
        Verdict::Accepted => {
            let bound = limit(&script, &cert);
            Ok(Some(Certified { cert, bound }))
        }
        Verdict::Rejected(_) => unreachable!(),
    }
}

/// What `sedck rank` prints for the script, and whether that is a certificate.
pub(crate) fn ranked(alloc: Global, text: &[u8]) -> Result<(Outcome, Vec<u8>), RunFault>
    ensures report { IfOk result (λ made. RanksTo text.now made.0 made.1.items) }
    ensures refused { IfErr result (IsRefusedBy text.now) }
{
    let mut out = FromWrite::new(Vec::new(alloc));
    match searched(alloc, &mut FromRead::new(text), &mut out) {
        Ok(outcome) => Ok((outcome, out.into_inner())),
        Err(fault) => Err(fault),
    }
}

/// The search over any streams: what it writes, and why it doesn't.
fn searched<R: Source, W: Sink>(
    alloc: Global,
    script: &mut R,
    out: &mut W,
) -> Result<Outcome, RunFault>
    ensures found { IfOk result (IsSearched (R.left script.old) (W.taken out.old) (W.taken out.new)) }
    ensures refused { IfErr result (IsRefusedIn (R.left script.old)) }
{
    run_rank(alloc, script, out)
}
