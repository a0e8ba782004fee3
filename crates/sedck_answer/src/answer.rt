//! What the engines answer of a script, alone or with a certificate.

ghost use Rattle.std.specs.Prelude.{◌≡◌};
ghost use Rattle.sedck_answer.specs.Answers.{status_of};
ghost use Rattle.sedck_answer.specs.Status.{IsOfAnswer};

use crate::status::Status;
use sedck_cert::{Cert, CertFault, Limits, Rejection};
use sedck_script::ScriptFault;
use sedck_search::Walk;

/// What is known of a script.
#[derive(Drop)]
pub enum Answer {
    /// The script's text is refused. This is never `OutOfMemory`.
    ScriptRefused(ScriptFault),
    /// The certificate's text is refused. This is never `OutOfMemory`.
    CertificateRefused(CertFault),
    /// This certificate is accepted: the one that was given, or else one that was found.
    Accepted {
        cert: Cert,
        /// The limits on the steps of the script's runs and on their spaces.
        limits: Limits,
    },
    /// The certificate that was given is rejected.
    Rejected {
        cert: Cert,
        /// The first reason.
        why: Rejection,
    },
    /// A loop rules all certificates out.
    Endless(Walk),
    /// The words of a call of sed are refused, or one of its options changes what the script means.
    NotJudged,
}

impl Answer {
    /// The exit status.
    pub fn status(&self) -> Status
        ensures value { result ≡ status_of self.now }
        ensures few { IsOfAnswer result }
    {
        match self {
            Answer::Accepted { .. } => Status::Accepted,
            Answer::Rejected { .. } | Answer::Endless(_) => Status::Rejected,
            Answer::ScriptRefused(_) | Answer::CertificateRefused(_) | Answer::NotJudged =>
                Status::Refused,
        }
    }
}
