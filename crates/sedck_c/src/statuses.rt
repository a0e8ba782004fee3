//! The statuses, which are those of the program, and one for a room that is too small.

ghost use Rattle.std.specs.Prelude.{◌≡◌, Ok, Err};
ghost use Rattle.sedck_c.specs.Private.Statuses.{status_of};

use sedck_cert::{CertFault, Fault, Verdict};
use sedck_script::ScriptFault;

/// The certificate is accepted, or one was found.
pub(crate) const ACCEPTED: u32 = 0;

/// The certificate is rejected, or a loop rules all certificates out.
pub(crate) const REJECTED: u32 = 1;

/// The bytes spell no script, or no certificate.
pub(crate) const REFUSED: u32 = 2;

/// Memory ran out.
pub(crate) const MEMORY: u32 = 4;

/// The caller's room is too small for the text.
pub(crate) const ROOM: u32 = 5;

/// The status of what was judged.
pub(crate) fn verdict_status(verdict: Verdict) -> u32
    ensures { result ≡ status_of (Ok verdict) }
{
    match verdict {
        Verdict::Accepted => ACCEPTED,
        Verdict::Rejected(_) => REJECTED,
    }
}

/// The status where nothing is judged.
pub(crate) fn fault_status(fault: Fault) -> u32
    ensures { result ≡ status_of (Err fault) }
{
    match fault {
        Fault::Script(ScriptFault::OutOfMemory) | Fault::Certificate(CertFault::OutOfMemory) => {
            MEMORY
        }
        Fault::Script(_) | Fault::Certificate(_) => REFUSED,
    }
}
