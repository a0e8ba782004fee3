//! What is said under a condition, written.

ghost use Rattle.std.specs.Prelude.{◌≡◌, is_some, IfOk};
ghost use Rattle.sedck_answer.specs.Status.{IsOfAnswer};
ghost use Rattle.sedck_explain_cli.specs.Mended.{under_condition};
ghost use Rattle.sedck_explain_cli.specs.Private.Said.{IsDeliveredUnder};

use sedck_calls_in_files::{Named, Reporter, deliver};
use sedck_cert::streams::{Sink, write_all};
use sedck_engines::RunFault;
use sedck_explanation::{Explanation, Status};

/// Writes what is said under a condition, as `deliver` does, and answers the exit status, which is never that of a yes. Where a plain spelling
/// is asked for, and is written, the report with the condition is written to standard error.
pub(crate) fn deliver_under<F: Reporter, W: Sink, E: Sink>(
    named: &Named<F>,
    explanation: Explanation,
    out: &mut W,
    err: &mut E,
) -> Result<Status, RunFault>
    requires { IsOfAnswer explanation.status }
    ensures { IfOk result (IsDeliveredUnder (is_some named.now.plain) explanation.entry
        (record { before = W.taken out.old; after = W.taken out.new })
        (record { before = E.taken err.old; after = E.taken err.new })) }
{
    let Some(_) = named.plain else {
        return deliver(named, &conditional(explanation), out, err);
    };
    let status = deliver(named, &explanation, out, err)?;
    let Status::Accepted = status else {
        return Ok(status);
    };
    let explanation = conditional(explanation);
    let report = named
        .reporter
        .report(named.alloc, named.name, named.parts, &explanation)?;
    let _ = write_all(err, &report);
    Ok(Status::Unknown)
}

/// The explanation with the status that it has under a condition.
fn conditional(explanation: Explanation<'_>) -> Explanation<'_>
    ensures { result.status ≡ under_condition explanation.entry.status }
{
    let mut explanation = explanation;
    explanation.status = status_under_condition(explanation.status);
    explanation
}

/// The status of what has this one, under a condition.
fn status_under_condition(status: Status) -> Status
    ensures { result ≡ under_condition status }
{
    match status {
        Status::Accepted => Status::Unknown,
        _ => status,
    }
}
