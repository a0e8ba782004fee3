//! What is said of a script that has no yes: errors on a text that is refused, a certificate that is rejected, a loop, and on what is
//! denied of an accepted script. A note is here as well, on steps or spaces without a limit.
#![tactic(auto)]

mod certain;
mod certificates;
mod denied;
mod endless;
mod ends;
mod loops;
mod refusals;
mod steps;
mod warnings;

pub use certificates::{certificate_refusal, rejection};
pub use denied::{Deniable, Denied, has_reads, has_writes, with_denials};
pub use endless::LineEnd;
pub use ends::with_end;
pub use loops::{growth_note, loop_finding};
pub use refusals::script_refusal;
pub use warnings::{DeniedWarnings, any_denied};
