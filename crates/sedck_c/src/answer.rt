//! What a caller is told besides a status.

ghost use Rattle.std.specs.Prelude.{◌≡◌, length};
ghost use Rattle.sedck_c.specs.Answers.{bound_of, rejection_number, TellsScriptFault, TellsCertificateFault};
ghost use Rattle.sedck_c.specs.Private.Answers.{TellsFault, TellsJudged};

use sedck_cert::{Bound, Cert, CertFault, Fault, Judged, Rejection, Verdict};
use sedck_script::ScriptFault;

/// An answer, as C has it. A field counts only at the statuses that give it a meaning.
#[repr(C)]
#[derive(Clone, Copy, Drop)]
pub struct Answer {
    /// The limit on the steps, where `bounded` says that there is one.
    pub per_byte: u64,
    pub per_line: u64,
    pub fixed: u64,
    /// How many files an accepted script reads, and writes.
    pub reads: usize,
    pub writes: usize,
    /// Of a script's fault the offset, of a certificate's fault the line.
    pub place: usize,
    /// The number of the fault, or of the reason of a rejection.
    pub fault: u32,
    /// Which text has the fault: 1 is the script, 2 the certificate.
    pub text: u32,
    pub bounded: bool,
}

/// Nothing is told.
const NOTHING: Answer = Answer {
    per_byte: 0,
    per_line: 0,
    fixed: 0,
    reads: 0,
    writes: 0,
    place: 0,
    fault: 0,
    text: 0,
    bounded: false,
};

impl Answer {
    /// Nothing is told.
    pub(crate) fn nothing() -> Answer {
        NOTHING
    }

    /// Of a certificate that is accepted, with the limit on the steps.
    pub(crate) fn of_accepted(cert: &Cert, bound: Option<Bound>) -> Answer
        ensures bound { bound_of result ≡ bound }
        ensures reads { result.reads ≡ length cert.now.reads }
        ensures writes { result.writes ≡ length cert.now.writes }
    {
        let reads = cert.reads().len();
        let writes = cert.writes().len();
        match bound {
            None => Answer {
                reads,
                writes,
                ..NOTHING
            },
            Some(bound) => Answer {
                per_byte: bound.per_byte,
                per_line: bound.per_line,
                fixed: bound.fixed,
                reads,
                writes,
                bounded: true,
                ..NOTHING
            },
        }
    }

    /// Of what was judged.
    pub(crate) fn of_judged(judged: &Judged) -> Answer
        ensures { TellsJudged result judged.now }
    {
        match judged.verdict {
            Verdict::Accepted => Answer::of_accepted(&judged.cert, judged.bound),
            Verdict::Rejected(why) => Answer {
                fault: number_of(why),
                ..NOTHING
            },
        }
    }

    /// Of a text that is refused.
    pub(crate) fn of_fault(fault: Fault) -> Answer
        ensures { TellsFault result fault }
    {
        match fault {
            Fault::Script(why) => Answer::of_script_fault(why),
            Fault::Certificate(why) => Answer::of_certificate_fault(why),
        }
    }

    /// Of a script that is refused.
    pub(crate) fn of_script_fault(why: ScriptFault) -> Answer
        ensures { TellsScriptFault result why }
    {
        Answer {
            place: why.place().unwrap_or(0),
            fault: u32::from(why.number()),
            text: 1,
            ..NOTHING
        }
    }

    /// Of a certificate that is refused.
    fn of_certificate_fault(why: CertFault) -> Answer
        ensures { TellsCertificateFault result why }
    {
        Answer {
            place: why.line().unwrap_or(0),
            fault: u32::from(why.number()),
            text: 2,
            ..NOTHING
        }
    }
}

/// The number that the program prints with the reason.
fn number_of(why: Rejection) -> u32
    ensures { result ≡ rejection_number why }
{
    match why {
        Rejection::WrongCount => 1,
        Rejection::StartUnranked => 2,
        Rejection::LeavesRanked(_) => 3,
        Rejection::NotLowered(_) => 4,
        Rejection::ReadsDiffer => 5,
        Rejection::WritesDiffer => 6,
    }
}
