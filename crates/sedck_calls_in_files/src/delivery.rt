//! What is said of a script or of a call, written: as the script in its plain spelling, or as a report.

ghost use Rattle.std.specs.Prelude.{◌≡◌, ◌≢◌, ◌⊎◌, ℕ, List, Option, is_some, IsTrue, IfOk, IfErr, IfSome, OnOk};
ghost use Rattle.std.specs.Io.KnownBytes.{Keeps, Appends};
ghost use Rattle.sedck_answer.specs.declared.explanation.Explanation.{Explanation};
ghost use Rattle.sedck_engines.specs.declared.answer.RunFault.TheVariants as fault;
ghost use Rattle.sedck_formats.specs.Plain.{IsPlainReport};
ghost use Rattle.sedck_calls_in_files.specs.Delivered.{IsDelivered};

use sedck_cert::streams::{Sink, write_all};
use sedck_engines::RunFault;
use sedck_explanation::{Explanation, Status};
use sedck_formats::{Names, PartName, plain_report, shown_path};
use sedck_plain::Comments;
use std::alloc::{AllocError, Global};

/// What makes a report of an explanation.
pub trait Reporter {
    /// The report on the script with this name, where it is known.
    ghost reported: { Self → List ℕ → Explanation → Option (List ℕ) };

    /// The report on the script with this name, which may be a call's with these parts.
    fn report(
        &self,
        alloc: Global,
        name: &str,
        parts: &[PartName],
        explanation: &Explanation,
    ) -> Result<Vec<u8>, AllocError>
        ensures { IfOk result (λ report. IfSome (reported self.now name.now explanation.now) (λ known. report.items ≡ known)) };
}

/// A script by its name, and how what is said of it is written.
#[derive(Drop)]
pub struct Named<'a, F> {
    pub alloc: Global,
    pub reporter: &'a F,
    /// The name of the script in reports.
    pub name: &'a str,
    /// Its parts, where it is that of a call.
    pub parts: &'a [PartName],
    /// Whether it is written in its plain spelling where it is accepted, and with its comments.
    pub plain: Option<Comments>,
}

/// Writes what is said, and answers the exit status. Where a plain spelling is asked for, that of an accepted script is written to the
/// output, and of any other a report to standard error; the status is `Refused` for an accepted script without a plain spelling. Else a
/// report is written to the output.
pub fn deliver<F: Reporter, W: Sink, E: Sink>(
    named: &Named<F>,
    explanation: &Explanation,
    out: &mut W,
    err: &mut E,
) -> Result<Status, RunFault>
    ensures delivered { IfOk result (IsDelivered (is_some named.now.plain)
        (F.reported named.now.reporter.now named.now.name.now explanation.now) explanation.now
        (record { before = W.taken out.old; after = W.taken out.new })
        (record { before = E.taken err.old; after = E.taken err.new })) }
    ensures reason { IfErr result (λ why. why ≡ fault.OutOfMemory
        ⊎ ((why ≡ fault.Write) × IsTrue (W.has_failed out.new))) }
    ensures kept { IfErr result (λ why. why ≢ fault.Write → Keeps (W.taken out.old) (W.taken out.new)) }
{
    let Some(comments) = named.plain else {
        let report = named
            .reporter
            .report(named.alloc, named.name, named.parts, explanation)?;
        return written(out, &report, explanation.status);
    };
    let (text, status) = plain_text(named, comments, explanation)?;
    match status {
        Status::Accepted => written(out, &text, status),
        _ => {
            let _ = write_all(err, &text);
            Ok(status)
        }
    }
}

/// What is written where a plain spelling is asked for, and the exit status.
fn plain_text<F: Reporter>(
    named: &Named<F>,
    comments: Comments,
    explanation: &Explanation,
) -> Result<(Vec<u8>, Status), AllocError>
    ensures { IfOk result (λ made. IsPlainReport explanation.now made.0.items made.1) }
{
    let alloc = named.alloc;
    let report = if explanation.status.is_accepted() {
        Vec::new(alloc)
    } else {
        named
            .reporter
            .report(alloc, named.name, named.parts, explanation)?
    };
    let shown = shown_path(alloc, named.name)?;
    let names = Names::of_call(shown.as_str(), named.parts);
    plain_report(alloc, names, explanation, comments, report)
}

/// Writes the text to the output, and answers the status.
fn written<W: Sink>(out: &mut W, text: &[u8], status: Status) -> Result<Status, RunFault>
    ensures status { IfOk result (λ answered. answered ≡ status) }
    ensures whole { OnOk result (Appends (W.taken out.old) (W.taken out.new) text.now) }
    ensures fault { IfErr result (λ why. (why ≡ fault.Write) × IsTrue (W.has_failed out.new)) }
{
    match write_all(out, text) {
        Ok(()) => Ok(status),
        Err(_) => Err(RunFault::Write),
    }
}
