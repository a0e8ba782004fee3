//! What the engines answer of a script or of a call of sed, with the lines that are meant, the reason and a way on.
//!
//! `explain` answers an `Explanation`: the answer of `sedck_cert::judge` or of `sedck_search::search`, word for word, with findings that
//! have a position in the script, and the files that it names. `explain_called` says the same of a call, whose script is its parts, read
//! from words and from files. How it is printed is the matter of `sedck_formats`.
#![tactic(auto)]

mod answer;
mod called;
mod explaining;
mod options;
mod parts;
mod reporting;

pub use answer::{Expressions, status_under};
pub use called::{call_finding, explain_called};
pub use explaining::explain;
pub use options::{foreign_findings, has_foreign, refusal_of};
pub use parts::{Unexplained, parts_of};
pub use sedck_answer::{Answer, Explanation, Status, not_judged};
pub use sedck_errors::{Denied, DeniedWarnings};
pub use sedck_report::{
    Code, Finding, Fix, Level, NamedFile, NewText, Position, Step, is_printable, position_at,
    position_from, shown_line, shown_name,
};
